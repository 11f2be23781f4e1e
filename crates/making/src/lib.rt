// What the trials are made of: numbers that look random, from a seed, and tables drawn by them. Nothing is assumed of a caller.
#![tactic(auto)]

mod desk;
mod dice;
mod tables;

pub use desk::Desk;
pub use dice::Dice;
pub use tables::{make_any, table_length};
