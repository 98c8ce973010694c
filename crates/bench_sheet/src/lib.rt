// Document 01's bench sheet, the lines that it marks P. It has no code: specs/Sheet.antt is the table, and
// proofs/Claim.antt the one claim that every line of it holds.
#![tactic(auto)]
