// The writer: each place of the stream is judged by itself, the tags are laid out once without memory to see how many have room,
// and then once more.
use crate::event::Event;
use crate::names::{is_good, lines, name_of};
use crate::nesting::{self, Turn};
use crate::refusal::{Fault, Refusal};
use slices::{Output, get, part};

fn turn_at(events: &[u8], at: usize) -> Turn {
    match Event::from(get(events, at)) {
        Event::Open(_) => Turn::Opens,
        Event::Close(_) => Turn::Closes,
        _ => Turn::Neither,
    }
}

// How many elements are open after some events.
fn depth(events: &[u8]) -> usize {
    nesting::depth(events.len(), |at| turn_at(events, at))
}

// The label of the element that is open after some events.
pub fn open_label(events: &[u8]) -> Option<u8> {
    let opened = nesting::opened(events.len(), |at| turn_at(events, at));
    opened.map(|at| get(events, at))
}

// The events before a place.
fn before(events: &[u8], at: usize) -> &[u8] {
    part(events, 0, at)
}

// The label of the tag that an event is written as: its own, and of a close without one that of the open element.
pub fn label_at(events: &[u8], at: usize) -> u8 {
    match Event::from(get(events, at)) {
        Event::Open(label) | Event::Point(label) | Event::Close(Some(label)) => label,
        _ => open_label(before(events, at)).unwrap_or(0),
    }
}

fn has_ended(events: &[u8]) -> bool {
    events.ends_with(&[u8::from(Event::End)])
}

// A stream cannot go on with the event at a place. A close needs an open element, of the label that it names.
fn is_stuck(names: &[u8], events: &[u8], at: usize) -> bool {
    let behind = before(events, at);
    let wrong = match Event::from(get(events, at)) {
        Event::Open(label) => lines(names) <= usize::from(label) || 40 <= depth(behind),
        Event::Point(label) => lines(names) <= usize::from(label),
        Event::Close(_) => open_label(behind) != Some(label_at(events, at)),
        Event::End => depth(behind) != 0,
        Event::Unknown(_) => true,
    };
    wrong || has_ended(behind)
}

// The first place at which a stream cannot go on, or its end, where it has not ended.
fn first_stuck(names: &[u8], events: &[u8]) -> Option<usize> {
    let stuck = (0..events.len()).find(|at| is_stuck(names, events, *at));
    if stuck.is_none() && !has_ended(events) {
        return Some(events.len());
    }
    stuck
}

// The tag of an event, with the name of a label; an end and a byte of no meaning have none.
pub fn spell(names: &[u8], event: Event, label: usize, text: &mut Output) {
    if matches!(event, Event::End | Event::Unknown(_)) {
        return;
    }
    text.push(b'<');
    if matches!(event, Event::Close(_)) {
        text.push(b'/');
    }
    text.extend(name_of(names, label));
    if matches!(event, Event::Point(_)) {
        text.push(b'/');
    }
    text.push(b'>');
}

// The tag of the event at a place.
fn spell_at(names: &[u8], events: &[u8], at: usize, text: &mut Output) {
    let event = Event::from(get(events, at));
    spell(names, event, usize::from(label_at(events, at)), text);
}

// The tags of all events.
fn spell_all(names: &[u8], events: &[u8], text: &mut Output) {
    for at in 0..events.len() {
        spell_at(names, events, at, text);
    }
}

// How many events have tags that stand in so much room, one after the other.
fn fitting(names: &[u8], events: &[u8], room: usize) -> usize {
    let mut nowhere = [0; 1];
    let mut text = Output::new(&mut nowhere);
    for at in 0..events.len() {
        spell_at(names, events, at, &mut text);
        if room < text.length {
            return at;
        }
    }
    events.len()
}

// Writes the tags of a whole stream, and says how many bytes they have.
pub fn write(names: &[u8], events: &[u8], out: &mut [u8]) -> Result<usize, Refusal> {
    if !is_good(names) {
        return Err(Refusal::Names);
    }
    if let Some(place) = first_stuck(names, events) {
        return Err(Refusal::At(Fault::Byte, place));
    }
    if fitting(names, events, out.len()) < events.len() {
        return Err(Refusal::Room);
    }
    let mut text = Output::new(out);
    spell_all(names, events, &mut text);
    Ok(text.length)
}

// The tags of a stream as far as it goes: up to the first event that no whole stream goes on with, or whose tag has no room.
// Answers how many events there are, or that event's place.
pub fn write_on(names: &[u8], events: &[u8], out: &mut [u8]) -> Result<usize, Refusal> {
    let end = first_stuck(names, events).unwrap_or(events.len());
    let fits = fitting(names, before(events, end), out.len());
    spell_all(names, before(events, fits), &mut Output::new(out));
    if fits < end {
        return Err(Refusal::At(Fault::Short, fits));
    }
    if end < events.len() {
        return Err(Refusal::At(Fault::Byte, end));
    }
    Ok(end)
}

// A whole stream with each close labelled, as it is read back from its tags.
pub fn label_closes(events: &[u8], out: &mut Output) {
    for (at, byte) in events.iter().enumerate() {
        match Event::from(*byte) {
            Event::Close(_) => out.push(u8::from(Event::Close(Some(label_at(events, at))))),
            _ => out.push(*byte),
        }
    }
}
