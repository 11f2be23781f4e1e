// A table laid out, and behind it the stream that was taken.
//
// There is a line of 128 bytes for each of 64 states q: A(q,p) at p, P(q,a) at 64 + a, M(q) at 96, final at 97; and O(a) at 98
// of line a. It is one run of bytes, and no array for each body, since what `trial` prints may not change, of bytes that are no
// table either: a state of 64 or more reads as the stream's first byte, and a label of 32 or more as what stands further on.
use crate::file::{end_of, labels, states};
use slices::{get, part, put};

const POINTS: usize = 64;

const MARKS: usize = 96;

const FINALS: usize = 97;

const OPENINGS: usize = 98;

const STREAM: usize = 8192;

// The file from the end of a body on.
fn behind(file: &[u8], body: u8) -> &[u8] {
    part(file, end_of(file, body), file.len())
}

// The place of a column in a state's line.
fn place(q: usize, column: usize) -> usize {
    if q < 64 {
        (128 * q).saturating_add(column)
    } else {
        STREAM
    }
}

#[derive(Drop)]
pub struct Book {
    bytes: [u8; 9216],
}

impl Book {
    // Lays a table out.
    pub fn of(file: &[u8]) -> Book {
        let n = states(file);
        let k = labels(file);
        let mut book = Book { bytes: [0; 9216] };
        book.lay(behind(file, 0), k, OPENINGS, 128);
        book.lay_rows(behind(file, 1), k, n, POINTS);
        book.lay(behind(file, 2), n, MARKS, 128);
        book.lay_rows(behind(file, 3), n, n, 0);
        book.lay(behind(file, 4), n, FINALS, 128);
        book
    }

    // Copies so many bytes to places that lie apart by a stride.
    fn lay(&mut self, bytes: &[u8], count: usize, to: usize, stride: usize) {
        for i in 0..count {
            let at = to.saturating_add(stride.saturating_mul(i));
            put(&mut self.bytes, at, get(bytes, i));
        }
    }

    // Copies so many rows of a width, each to its state's line.
    fn lay_rows(&mut self, bytes: &[u8], width: usize, rows: usize, column: usize) {
        for q in 0..rows {
            let row = part(bytes, width.saturating_mul(q), bytes.len());
            self.lay(row, width, place(q, column), 1);
        }
    }

    fn at(&self, q: usize, column: usize) -> usize {
        usize::from(get(&self.bytes, place(q, column)))
    }

    pub fn opening(&self, label: usize) -> usize {
        self.at(label, OPENINGS)
    }

    pub fn point(&self, q: usize, label: usize) -> usize {
        self.at(q, POINTS.saturating_add(label))
    }

    pub fn mark(&self, q: usize) -> usize {
        self.at(q, MARKS)
    }

    pub fn apply(&self, q: usize, p: usize) -> usize {
        self.at(q, p)
    }

    // The state's byte among the final states.
    pub fn final_byte(&self, q: usize) -> usize {
        self.at(q, FINALS)
    }

    // The first events of the stream.
    pub fn stream(&self, events: usize) -> &[u8] {
        part(&self.bytes, STREAM, STREAM.saturating_add(events))
    }

    // Puts an event behind so many others.
    pub fn put_event(&mut self, events: usize, byte: u8) {
        put(&mut self.bytes, STREAM.saturating_add(events), byte);
    }
}
