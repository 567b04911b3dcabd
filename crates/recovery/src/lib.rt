// What a pool comes to over all accounts: by the factors of its unit rows, and by energy. Energies are a part of the lent bytes, never the book.
#![tactic(auto)]

pub mod kinds; // kinds.rt: which lines of a record a pool has, and what it rests on
pub mod units; // units.rt: what unit rows are credited and charged
pub mod regions; // regions.rt: an amount that is shared over a constraint's regions
pub mod contracts; // contracts.rt: what all accounts pay for a contract
