// What memory holds after a stream, and what each event reports: definitions in specs/, theorems in proofs/. There is no code
// here.
#![tactic(auto)]
