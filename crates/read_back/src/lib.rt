// A text that was written reads back, letter for letter, and what else holds of the Varicode writer and readers from
// fresh ones on. It has no code: specs/Runs.antt and specs/Claims.antt say it of the definitions that crates
// `varicode_writer` and `varicode_reader` are proved to compute.
#![tactic(auto)]
