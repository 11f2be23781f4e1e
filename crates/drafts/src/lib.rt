// Lists of names, streams of events and texts, drawn and damaged, for the trial of tagged text. The functions state no result:
// what is proved of them is that they are safe.
#![tactic(auto)]

mod damage;
pub mod lists;
pub mod streams;
pub mod texts;
