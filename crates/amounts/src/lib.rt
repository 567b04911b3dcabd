// The amounts of the settlement rules, from the fields of one record and an account's own energy. No bytes are read here.
#![tactic(auto)]

pub mod shares; // shares.rt: a rounded part of a pool, by a factor or by energy
pub mod pools; // pools.rt: what a constraint or a contract has to recover
