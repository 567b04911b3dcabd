// Why a balance is not nil: amount plus sum is what the roundings of the pool cut off, and no more than the stated half units.
// No code stands here: the theorems, in proofs/Explained.antt and proofs/Closes.antt, speak of the definitions that the contracts of balances and of
// cut-off sums cite.
#![tactic(auto)]
