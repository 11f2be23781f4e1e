// The twelve cases of 01, and the four useless watches that the contracts shut out: definitions in specs/, theorems in
// proofs/. There is no code here.
#![tactic(auto)]
