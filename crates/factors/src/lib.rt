// Checks 7 and 8: the unit rows against the constraints. Both sections stand in rising order, so each check is one walk forward over both.
#![tactic(auto)]

pub mod naming; // naming.rt: check 7, each unit row's constraint
pub mod sums; // sums.rt: check 8, the factor sums of each constraint
