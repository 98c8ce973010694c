// A number's binary digits, top first: definitions and laws that the shift register and the Varicode words
// share. It has no code.
#![tactic(auto)]
