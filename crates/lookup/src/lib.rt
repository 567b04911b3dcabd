// The line of a number among an account's lines of one constraint, and of one contract. What lies before it is counted, and only the one line is
// made. Where there are fewer lines, the error says what the number has beyond the last.
#![tactic(auto)]

pub mod constraint; // constraint.rt: the line of a number among those of one constraint
pub mod contract; // contract.rt: the line of a number among those of one contract
