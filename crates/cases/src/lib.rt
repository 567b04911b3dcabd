// The document's proved cases: one table in specs/Cases.antt, one theorem in proofs/Cases.antt.
// No code stands here: the table speaks of the definitions that the code's contracts cite.
#![tactic(auto)]
