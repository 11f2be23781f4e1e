// Runs the reader and the writer of tagged text against a second reader and writer, on lists of names, texts and streams of
// events made from a fixed seed, and on a list and a text in which each byte in turn is each of the 256 values. It says how
// much was compared, and how much of it differed.
//
// Compared are: of a text its answer, with the place, and every byte of the output; the same text fed in pieces, its events up
// to a fault, the fault and its place; of a stream its answer, with the place, and every byte of the output; the same stream
// written in two pieces, up to a fault, its place and every byte. What is read is written, and what is written is read back, and
// gives the same events with each close labelled; these are written as the same text. Each is done with room enough and with less.
#![tactic(auto)]

mod compare;
mod feeding;
mod putting;
mod runs;
mod sides;
mod tally;

use tally::Tally;

type Desk = making::Desk<Tally>;

fn main(rt: HostRuntime) {
    let mut desk = Desk::new();
    runs::try_every_byte(&mut desk);
    runs::try_lists(&mut desk);
    let tally = &desk.tally;
    let _ = println!(rt; "{tally}");
}
