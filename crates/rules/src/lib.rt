// What checks 5 and 6 ask of the records of a book: fields and order.
#![tactic(auto)]

pub mod fields; // fields.rt: the rules of each record
pub mod order; // order.rt: the order of each section
