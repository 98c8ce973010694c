// The lines of the program answers: which lines are calls, what a call's fields spell, and how an answer's are printed.
#![tactic(auto)]

pub mod fields;
pub mod print;
pub mod shapes;
