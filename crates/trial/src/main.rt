// Runs the watch against the second evaluator, on tables and streams made from a fixed seed and on the tables of examples/,
// which stand one after the other on standard input. It says how much was compared, and how much of it differed.
//
// Compared are: of a start its number, place and record; of an event its number, its reports and the words behind them, its
// record; of both the words of the levels in memory; and of whatever is refused that it wrote nothing. Before each event the
// same call is made with a damage, in the file, the record, the memory or the lengths, of which the number, the place and the
// words of the levels are compared. After each stream some starts are made with a damage.
#![tactic(auto)]

mod damage;
mod lent;
mod streams;
mod tally;
mod told;

use tally::Tally;

type Desk = making::Desk<Tally>;

fn main(rt: HostRuntime) {
    let mut given = [0u8; 16384];
    let bytes = pipes::read_full(&mut rt.stdin(), &mut given);
    let mut desk = Desk::new();
    streams::try_given(&given[..bytes], &mut desk);
    streams::try_made(&mut desk);
    let tally = &desk.tally;
    let _ = println!(rt; "{tally}");
}
