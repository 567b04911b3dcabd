// Demand 2's first round trip: what a settlement writes is read back. The theorem stands in proofs/Trip.antt.
// No code stands here: it speaks of the definitions that the calls' contracts cite.
#![tactic(auto)]
