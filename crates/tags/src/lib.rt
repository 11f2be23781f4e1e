// Tagged text from the simulator (02, K1): its reader and its writer. What tagged text is, and what reading and writing it
// come to, stands in the crate `grammar`. No public function asks anything of its caller.
#![tactic(auto)]

mod feeding;
pub mod levels;
pub mod reader;
pub mod writer;
