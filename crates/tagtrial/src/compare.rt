// Both sides on a text, and both on a stream.
use crate::sides::{Said, compare, place_of, read, write};
use crate::{Desk, feeding, putting};
use making::Dice;
use retell::{Event, Fault, Refusal};
use slices::{Output, add_one, get, part};

// A text, with room for so many events. Answers what must be said of it.
fn try_reading(names: &[u8], text: &[u8], room: usize, desk: &mut Desk) -> Said {
    let outcome = compare(
        room,
        |out: &mut [u8]| retell::read(names, text, out),
        |out: &mut [u8]| read(names, text, out),
    );
    desk.tally.note_text(outcome);
    outcome.must
}

// A stream cannot go on at a labelled close.
fn is_at_labelled(events: &[u8], must: Said) -> bool {
    match must {
        Err(Refusal::At(Fault::Byte, place)) => {
            matches!(Event::from(get(events, place)), Event::Close(Some(_)))
        }
        _ => false,
    }
}

// A stream, with room for so many bytes. Answers what must be said of it.
fn try_writing(names: &[u8], events: &[u8], room: usize, desk: &mut Desk) -> Said {
    let outcome = compare(
        room,
        |out: &mut [u8]| retell::write(names, events, out),
        |out: &mut [u8]| write(names, events, out),
    );
    desk.tally.note_stream(outcome);
    if is_at_labelled(events, outcome.must) {
        add_one(&mut desk.tally.at_labelled);
    }
    outcome.must
}

// A stream came back with each close labelled.
fn is_back(events: &[u8], back: &[u8]) -> bool {
    let mut must = [0; 512];
    let mut labelled = Output::new(&mut must);
    retell::label_closes(events, &mut labelled);
    labelled.written() == back
}

// A stream that came back is written as the same text.
fn try_same_text(names: &[u8], back: &[u8], text: &[u8], desk: &mut Desk) {
    let mut out = [0; 4096];
    let alike = match write(names, back, slices::front(&mut out, text.len())) {
        Ok(bytes) => part(&out, 0, bytes) == text,
        Err(_) => false,
    };
    desk.tally.check(alike);
}

// What is written of a stream is read back as its events with each close labelled.
fn try_back(names: &[u8], events: &[u8], desk: &mut Desk) {
    let mut out = [0; 4096];
    let mut again = [0; 512];
    let written = write(names, events, &mut out);
    let text = part(&out, 0, place_of(written));
    let told = read(names, text, slices::front(&mut again, events.len()));
    let back = part(&again, 0, place_of(told));
    desk.tally.check(told.is_ok() && is_back(events, back));
    add_one(&mut desk.tally.again);
    if events != back {
        add_one(&mut desk.tally.back_labelled);
    }
    try_same_text(names, back, text, desk);
}

// A stream at once, with room enough and, where it is taken, with just enough or one byte too few. Answers what must be said.
fn try_at_once(names: &[u8], events: &[u8], desk: &mut Desk) -> Said {
    let must = try_writing(names, events, 4096, desk);
    let less = place_of(must).saturating_sub(desk.dice.draw(2));
    let _ = try_writing(names, events, less, desk);
    must
}

// A stream at once and in pieces, with room enough and with some. Where it is taken, what is written is read back.
pub fn try_stream(names: &[u8], events: &[u8], desk: &mut Desk) {
    let must = try_at_once(names, events, desk);
    if must == Err(Refusal::Names) {
        return;
    }
    let room = desk.dice.draw(600);
    putting::try_pieces(names, events, room, desk);
    putting::try_pieces(names, events, 4096, desk);
    if must.is_ok() {
        try_back(names, events, desk);
    }
}

// A text read whole and in pieces. Answers what must be said of it.
fn try_room(names: &[u8], text: &[u8], room: usize, desk: &mut Desk) -> Said {
    let must = try_reading(names, text, room, desk);
    if must != Err(Refusal::Names) {
        feeding::try_pieces(names, text, room, desk, must);
    }
    must
}

// How many events a text gives before its fault, or all of them.
fn events_of(names: &[u8], text: &[u8], must: Said) -> usize {
    match must {
        Ok(events) => events,
        Err(Refusal::At(_, place)) => {
            let mut nowhere = [0; 1];
            let mut events = Output::new(&mut nowhere);
            retell::tell(names, text, place, &mut events);
            events.length
        }
        Err(Refusal::Names | Refusal::Room) => 0,
    }
}

// Less room: so much that it ends just at the fault, or one event before it, or anywhere.
fn draw_room(dice: &mut Dice, events: usize) -> usize {
    match dice.draw(4) {
        0 => events.saturating_sub(1),
        1 => dice.draw(events.saturating_add(1)),
        _ => events,
    }
}

// The events of a text that is taken, written again. Their closes are labelled, so that they come back as they are.
fn try_again(names: &[u8], text: &[u8], desk: &mut Desk) {
    let mut out = [0; 512];
    let told = read(names, text, &mut out);
    let events = part(&out, 0, place_of(told));
    desk.tally.check(is_back(events, events));
    try_stream(names, events, desk);
}

// A text with room enough and with less; where it is taken, its events are written again.
pub fn try_text(names: &[u8], text: &[u8], desk: &mut Desk) {
    let must = try_room(names, text, 512, desk);
    if must == Err(Refusal::Names) {
        return;
    }
    let room = draw_room(&mut desk.dice, events_of(names, text, must));
    let _ = try_room(names, text, room, desk);
    if must.is_ok() {
        try_again(names, text, desk);
    }
}
