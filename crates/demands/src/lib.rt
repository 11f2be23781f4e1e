// The three demands, over the contracts of the start call and the event call: definitions in specs/, theorems in proofs/.
// There is no code here.
#![tactic(auto)]
