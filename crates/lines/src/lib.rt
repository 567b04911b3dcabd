// The lines of a statement: how each is made from a record and an account's own numbers.
#![tactic(auto)]

pub mod make; // make.rt: one line from the numbers that it rests on
pub mod portion; // portion.rt: what a line that is shared by energy divides by
