// The two block decoders of readings, in f32 and of signed bytes, agree on every list that both take; and the word of
// the second is the best, first among equals, and it stays. Definitions and laws alone: it has no code.
#![tactic(auto)]
