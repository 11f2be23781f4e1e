// What stands where in a text, of which everything before the place that is asked about is in order.
use crate::nesting::{self, Turn};
use crate::seeking::{count, seek};
use slices::get;

pub fn is_letter(byte: u8) -> bool {
    byte.is_ascii_alphabetic()
}

// A letter, a digit, "-", "." or "_".
pub fn is_name_byte(byte: u8) -> bool {
    byte.is_ascii_alphanumeric() || matches!(byte, b'-' | b'.' | b'_')
}

pub fn is_blank(byte: u8) -> bool {
    matches!(byte, b' ' | b'\n' | b'\r')
}

// Where the tag begins that a place is in.
pub fn tag_of(text: &[u8], place: usize) -> Option<usize> {
    (0..place)
        .rev()
        .find(|at| matches!(get(text, *at), b'<' | b'>'))
        .filter(|at| get(text, *at) == b'<')
}

// The first ">" from a place on, or the text's end.
pub fn tag_end(text: &[u8], from: usize) -> usize {
    seek(text, from, b'>')
}

#[derive(Clone, Copy, PartialEq, Eq)]
pub enum Form {
    Opening,
    Closing,
    Empty,
}

// Which tag begins at a place, if one does.
pub fn form_at(text: &[u8], at: usize) -> Option<Form> {
    if get(text, at) != b'<' {
        return None;
    }
    if get(text, at.saturating_add(1)) == b'/' {
        return Some(Form::Closing);
    }
    if get(text, tag_end(text, at).saturating_sub(1)) == b'/' {
        return Some(Form::Empty);
    }
    Some(Form::Opening)
}

fn turn_at(text: &[u8], at: usize) -> Turn {
    match form_at(text, at) {
        Some(Form::Opening) => Turn::Opens,
        Some(Form::Closing) => Turn::Closes,
        _ => Turn::Neither,
    }
}

// How many elements are open at a place.
pub fn depth(text: &[u8], place: usize) -> usize {
    nesting::depth(place, |at| turn_at(text, at))
}

// The opening tag of the element that is open at a place.
pub fn open_tag(text: &[u8], place: usize) -> Option<usize> {
    nesting::opened(place, |at| turn_at(text, at))
}

// How many tags begin before a place.
pub fn tags_before(text: &[u8], place: usize) -> usize {
    count(text, place, b'<')
}
