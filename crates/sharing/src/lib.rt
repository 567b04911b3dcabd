// All accounts of a book, and what a pool's shares by energy sum to over all of them.
#![tactic(auto)]

pub mod shares; // shares.rt: a part of a pool, shared by energy over all accounts
