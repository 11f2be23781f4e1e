// The list of names, by the places of its bytes: a line begins at the front, and after each byte 10.
use crate::seeking::{count, seek};
use crate::text::{is_letter, is_name_byte};
use slices::{get, low_byte, part};

const LAST: u8 = b'\n';

fn begins(names: &[u8], at: usize) -> bool {
    at == 0 || get(names, at - 1) == LAST
}

// What is left of its line from a place on.
fn line(names: &[u8], at: usize) -> &[u8] {
    part(names, at, seek(names, at, LAST))
}

fn is_name(name: &[u8]) -> bool {
    (1..=16).contains(&name.len())
        && is_letter(get(name, 0))
        && name.iter().all(|byte| is_name_byte(*byte))
}

// A line begins at the place and is this name.
fn names_it(names: &[u8], at: usize, name: &[u8]) -> bool {
    begins(names, at) && line(names, at) == name
}

// The line at a place comes again further on.
fn comes_again(names: &[u8], at: usize) -> bool {
    let name = line(names, at);
    let next = at.saturating_add(1);
    (next..names.len()).any(|other| names_it(names, other, name))
}

// No line begins at the place, or one that is a name and does not come again.
fn is_fine(names: &[u8], at: usize) -> bool {
    !begins(names, at) || (is_name(line(names, at)) && !comes_again(names, at))
}

pub fn lines(names: &[u8]) -> usize {
    count(names, names.len(), LAST)
}

pub fn is_good(names: &[u8]) -> bool {
    (1..=32).contains(&lines(names))
        && names.ends_with(&[LAST])
        && (0..names.len()).all(|at| is_fine(names, at))
}

// The label of a name, in a good list.
pub fn label_of(names: &[u8], name: &[u8]) -> Option<u8> {
    let found = (0..names.len()).find(|at| names_it(names, *at, name));
    found.map(|at| low_byte(count(names, at, LAST)))
}

// Where the line of a label begins, or the end.
fn line_at(names: &[u8], label: usize) -> usize {
    let mut left = label;
    for (at, byte) in names.iter().enumerate() {
        if left == 0 {
            return at;
        }
        if *byte == LAST {
            left -= 1;
        }
    }
    names.len()
}

// The name of a label, which is empty where the list has none.
pub fn name_of(names: &[u8], label: usize) -> &[u8] {
    line(names, line_at(names, label))
}
