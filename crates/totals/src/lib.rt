// Energy by region, and check 9: the region entries against the energy rows.
#![tactic(auto)]

pub mod entries; // entries.rt: check 9, each region's entry is the sum of its rows
