// What is tried: each byte value at each place of a small text, list and stream, and lists, texts and streams that are drawn.
use crate::{Desk, compare};
use drafts::{lists, streams, texts};
use slices::{Output, add_one, put};

// Each byte value at each place of the text, and then of the list.
fn try_changed_texts(desk: &mut Desk) {
    let text = *b"<ab><cd/> </ab>";
    let names = *b"ab\ncd\n";
    for at in 0..text.len() {
        for byte in 0..=255 {
            let mut changed = text;
            put(&mut changed, at, byte);
            compare::try_text(&names, &changed, desk);
        }
    }
    for at in 0..names.len() {
        for byte in 0..=255 {
            let mut changed = names;
            put(&mut changed, at, byte);
            add_one(&mut desk.tally.lists);
            compare::try_text(&changed, &text, desk);
        }
    }
}

// The stream has both closes: a labelled one, and one without a label.
fn try_changed_streams(desk: &mut Desk) {
    let events = *b"\0\x01!C@A";
    for at in 0..events.len() {
        for byte in 0..=255 {
            let mut changed = events;
            put(&mut changed, at, byte);
            compare::try_stream(b"ab\ncd\n", &changed, desk);
        }
    }
}

pub fn try_every_byte(desk: &mut Desk) {
    try_changed_texts(desk);
    try_changed_streams(desk);
}

// Draws a stream, and damages one of so many.
fn make_stream(names: &[u8], events: &mut Output, desk: &mut Desk, of: usize) {
    streams::make(events, &mut desk.dice, retell::lines(names) % 33);
    streams::harm(events, &mut desk.dice, of);
}

fn try_text(names: &[u8], desk: &mut Desk) {
    let mut bytes = [0; 512];
    let mut events = Output::new(&mut bytes);
    make_stream(names, &mut events, desk, 5);
    let mut bytes = [0; 4096];
    let mut text = Output::new(&mut bytes);
    texts::make(names, events.written(), &mut text, &mut desk.dice);
    texts::harm(&mut text, &mut desk.dice);
    compare::try_text(names, text.written(), desk);
}

fn try_stream(names: &[u8], desk: &mut Desk) {
    let mut bytes = [0; 512];
    let mut events = Output::new(&mut bytes);
    make_stream(names, &mut events, desk, 2);
    compare::try_stream(names, events.written(), desk);
}

// Some texts and streams over a list, or one of each where it is bad.
fn try_list(desk: &mut Desk) {
    let mut bytes = [0; 1024];
    let mut names = Output::new(&mut bytes);
    lists::make(&mut names, &mut desk.dice);
    add_one(&mut desk.tally.lists);
    let names = names.written();
    for _ in 0..if retell::is_good(names) { 8 } else { 1 } {
        try_text(names, desk);
        try_stream(names, desk);
    }
}

pub fn try_lists(desk: &mut Desk) {
    for _ in 0..400 {
        try_list(desk);
    }
}
