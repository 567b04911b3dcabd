// The records of a book, each read once into a struct where it stands, and found by its leading number where its section is sorted.
#![tactic(auto)]

pub mod rows; // rows.rt: the five kinds of record, and how each is read
pub mod find; // find.rt: a record of a sorted section, found by binary search
