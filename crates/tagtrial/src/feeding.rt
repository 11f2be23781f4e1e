// A text fed in pieces, against what must be said of the whole.
use crate::Desk;
use crate::sides::{Said, compare, fault_at};
use making::Dice;
use retell::{Event, Refusal};
use slices::{Output, add_one, back, part, put};
use tags::reader::{Cursor, end, feed};

// How many bytes the next piece has, mostly few; all that are left where it is the last.
fn draw_count(dice: &mut Dice, length: usize, is_last: bool) -> usize {
    if is_last {
        return length;
    }
    if dice.is_one_in(6) {
        dice.draw(length)
    } else {
        dice.draw(12)
    }
}

// The text's end after so many events: byte 65, where nothing is open and there is room.
fn feed_end(out: &mut [u8], cursor: Cursor, length: usize, given: usize) -> Said {
    let room = out.len().saturating_sub(given);
    match fault_at(end(cursor, room)) {
        Some(fault) => Err(Refusal::At(fault, length)),
        None => {
            put(out, given, u8::from(Event::End));
            Ok(given.saturating_add(1))
        }
    }
}

// The whole text in pieces, at most one more than it has bytes, and its end.
fn feed_text(names: &[u8], text: &[u8], out: &mut [u8], desk: &mut Desk) -> Said {
    let mut cursor = Cursor::begin();
    let mut taken = 0usize;
    let mut given = 0usize;
    for left in (0..text.len().saturating_add(1)).rev() {
        let count = draw_count(&mut desk.dice, text.len(), left == 0);
        let piece = part(text, taken, taken.saturating_add(count));
        let fed = feed(names, cursor, piece, back(out, given));
        add_one(&mut desk.tally.pieces);
        cursor = fed.next;
        taken = taken.saturating_add(fed.taken);
        given = given.saturating_add(fed.given);
        if let Some(fault) = fault_at(fed.stop) {
            return Err(Refusal::At(fault, taken));
        }
        if text.len() <= taken {
            break;
        }
    }
    feed_end(out, cursor, text.len(), given)
}

// The events that must come: up to the fault, or all.
fn must_feed(names: &[u8], text: &[u8], out: &mut [u8], must: Said) -> Said {
    if let Err(Refusal::At(_, place)) = must {
        retell::tell(names, text, place, &mut Output::new(out));
        return must;
    }
    retell::read(names, text, out)
}

// A text in pieces, with room for so many events.
pub fn try_pieces(names: &[u8], text: &[u8], room: usize, desk: &mut Desk, must: Said) {
    let outcome = compare(
        room,
        |out: &mut [u8]| must_feed(names, text, out, must),
        |out: &mut [u8]| feed_text(names, text, out, desk),
    );
    desk.tally.check(outcome.alike);
}
