// Demand 3 of the block decoder of readings: the best word wins, first among equals, and it stays. It has no code:
// specs/Claim.antt says it of the definitions that crate `readings` is proved to compute, and proofs/Claimed.antt
// proves it.
#![tactic(auto)]
