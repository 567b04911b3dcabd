// Whole numbers: two's complement, sign and size, wide products, and rounding.
#![tactic(auto)]

pub mod twos; // twos.rt: two's complement, from bits and to bits
pub mod sign; // sign.rt: whole numbers by their sign and size
pub mod wide; // wide.rt: products that are wider than their factors
pub mod round; // round.rt: quotients to the nearest whole number
