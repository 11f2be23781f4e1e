// What a reader must believe of the watch, and the published theorem. This crate has no code: the definitions stand in
// specs/, the theorems in proofs/.
#![tactic(auto)]
