// A second reader and writer of tagged text, to hold the crate `tags` against. They share no code and no definition with it.
//
// They keep nothing on the way: no cursor, no name and no open elements. Each byte is judged by its place alone, from what stands
// around it in the text, the stream or the list: where its tag begins is found by looking back, how deep it is by counting,
// and the element that is open there as the last one that was opened at its depth. Names are compared where they stand.
//
// Nothing is assumed of a caller. What is out of reach reads as 0, and is not written.
#![tactic(auto)]

mod event;
mod names;
mod nesting;
mod reading;
mod refusal;
mod seeking;
mod text;
mod writing;

pub use event::{Event, LABELLED};
pub use names::{is_good, lines};
pub use reading::{read, tell};
pub use refusal::{Fault, Refusal};
pub use writing::{label_at, label_closes, open_label, spell, write, write_on};
