// The table file: its refusals 1 to 5, with the places of 3 and 5.
//
// What stands behind the header is judged byte by byte, by the byte's place: in the contents, entry and field follow by
// division; in the bodies, the body follows from the offsets.
use crate::refusal::Refusal;
use slices::{get, low_byte, pair, refuse_if};

pub fn states(file: &[u8]) -> usize {
    usize::from(get(file, 0))
}

pub fn labels(file: &[u8]) -> usize {
    usize::from(get(file, 1))
}

pub fn start_state(file: &[u8]) -> usize {
    usize::from(get(file, 2))
}

// The length is so many rows of this width.
pub fn is_product(length: usize, rows: usize, width: usize) -> bool {
    width != 0 && length % width == 0 && length / width == rows
}

// Where a body begins, by its contents entry.
fn offset_of(file: &[u8], body: u8) -> u16 {
    pair(file, 5 * usize::from(body))
}

fn length_of(file: &[u8], body: u8) -> u16 {
    pair(file, 5 * usize::from(body) + 2)
}

// Where a body ends, by its contents entry: the next begins there. The first begins behind the contents.
pub fn end_of(file: &[u8], body: u8) -> usize {
    if body == 0 {
        29
    } else {
        usize::from(offset_of(file, body)) + usize::from(length_of(file, body))
    }
}

// A body's length is that of its kind: n rows or 1, each as wide as k or n.
fn is_length(file: &[u8], body: u8) -> bool {
    let rows = if body % 2 == 0 { states(file) } else { 1 };
    let width = if body < 3 { labels(file) } else { states(file) };
    is_product(usize::from(length_of(file, body)), rows, width)
}

// The field of the contents that begins at a byte fits, if those before it do.
fn fits_field(file: &[u8], at: usize) -> bool {
    let next = at.saturating_add(1);
    let body = low_byte(next / 5);
    match next % 5 {
        0 => get(file, at) == body,
        1 => usize::from(offset_of(file, body)) == end_of(file, body.saturating_sub(1)),
        3 => is_length(file, body),
        _ => true,
    }
}

// The byte at a place fits, if the contents do: bodies 1 to 4 name states below n, and body 5 holds 0 or 1.
fn fits(file: &[u8], at: usize) -> bool {
    if at < 29 {
        return fits_field(file, at);
    }
    let limit = if at < usize::from(offset_of(file, 5)) {
        states(file)
    } else {
        2
    };
    usize::from(get(file, at)) < limit
}

// The first place behind the header that does not fit. The search goes down from the last byte: a field that does not fit is
// found after whatever it led to a wrong judgement of.
fn first_wrong(file: &[u8]) -> Option<usize> {
    (4..file.len()).rev().filter(|at| !fits(file, *at)).last()
}

fn header_is(file: &[u8]) -> bool {
    let n = states(file);
    (1..=64).contains(&n)
        && (1..=32).contains(&labels(file))
        && start_state(file) < n
        && get(file, 3) == 5
}

// The field that begins at a byte of the contents.
fn contents_refusal(at: usize) -> Refusal {
    let next = at.saturating_add(1);
    Refusal::Contents {
        entry: next / 5,
        field: (next % 5 + 1) / 2,
    }
}

// The byte at a place of the bodies: its body is the last that begins there or before.
fn body_refusal(file: &[u8], at: usize) -> Refusal {
    let body = [5u8, 4, 3, 2]
        .into_iter()
        .find(|body| usize::from(offset_of(file, *body)) <= at)
        .unwrap_or(1);
    Refusal::Body {
        body: usize::from(body),
        byte: at.saturating_sub(usize::from(offset_of(file, body))),
    }
}

// What is wrong at the first wrong place, where there is one, once header and length are known to be right.
pub fn file_refusal(file: &[u8]) -> Result<(), Refusal> {
    refuse_if(file.len() < 29, Refusal::Short)?;
    refuse_if(!header_is(file), Refusal::Header)?;
    let wrong = first_wrong(file).unwrap_or(file.len());
    refuse_if(wrong < 29, contents_refusal(wrong))?;
    refuse_if(end_of(file, 5) != file.len(), Refusal::Length)?;
    refuse_if(wrong < file.len(), body_refusal(file, wrong))
}
