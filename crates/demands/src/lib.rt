// The three demands stand in specs/, their theorems in proofs/. There is no code here: crates/asked asks the calls themselves.
#![tactic(auto)]
