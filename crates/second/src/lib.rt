// A second evaluator, to hold the watch against. It shares no code and no definition with it.
//
// It reads the same table files and streams, by other means. It has no selecting or rejecting sets and no rows: it keeps the
// whole stream, and to judge a position it runs the stream anew with the mark there, works out in which states some
// completion can end, from the newest level down, and looks whether all of them are final, or none is. Which state some
// hedge can take to which is found by saturation over all pairs. The label that opened a level is found by going back in the
// stream. Files are judged byte by byte and memories word by word, each from the last to the first.
//
// Nothing is assumed of a caller. What is out of reach reads as 0, and is not written. There is no heap, as in the watch: states
// put aside, verdicts and the stream stand in arrays, beside how many there are.
#![tactic(auto)]

mod book;
mod evaluator;
mod event;
mod file;
mod order;
mod reach;
mod refusal;
mod run;

pub use evaluator::Evaluator;
pub use event::{Event, step_levels};
pub use file::{file_refusal, labels, states};
pub use order::{Call, Claim, start_refusal};
pub use refusal::Refusal;
