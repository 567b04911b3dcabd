// A book: its header, its records, the table of refusals, and what a sound and an accepted book promise. The crates above check it.
#![tactic(auto)]

pub mod header; // header.rt: the header and where the sections start
pub mod laid; // laid.rt: a book that is as long as its header says, and its sections
