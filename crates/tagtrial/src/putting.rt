// A stream written in pieces, against the tags that must come.
use crate::Desk;
use crate::sides::{Said, compare, fault_at};
use retell::Refusal;
use slices::{add_one, back, part};
use tags::writer::{Scribe, put_events};

// The stream in two pieces, the first of so many events.
fn put_two(names: &[u8], events: &[u8], out: &mut [u8], count: usize) -> Said {
    let all = events.len();
    let first = put_events(names, Scribe::begin(), part(events, 0, count), out);
    if let Some(fault) = fault_at(first.stop) {
        return Err(Refusal::At(fault, first.taken));
    }
    let piece = part(events, first.taken, all);
    let second = put_events(names, first.next, piece, back(out, first.given));
    let taken = first.taken.saturating_add(second.taken);
    match fault_at(second.stop) {
        Some(fault) => Err(Refusal::At(fault, taken)),
        None => Ok(taken),
    }
}

// A stream in two pieces, with room for so many bytes.
pub fn try_pieces(names: &[u8], events: &[u8], room: usize, desk: &mut Desk) {
    let count = desk.dice.draw(events.len().saturating_add(1));
    let outcome = compare(
        room,
        |out: &mut [u8]| retell::write_on(names, events, out),
        |out: &mut [u8]| put_two(names, events, out, count),
    );
    desk.tally.check(outcome.alike);
    add_one(&mut desk.tally.put);
}
