// Demand 2's lines in the guide's own numbers, with their signs. The theorem stands in proofs/Guide.antt.
// No code stands here: it speaks of the definitions that the calls' contracts cite.
#![tactic(auto)]
