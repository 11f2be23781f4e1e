// Is work memory in order? If not, the place of the first word that breaks it (refusal 7 of 01).
//
// Any words are judged, as long as they are as many as the rows and levels ask for. The rows come first, then the labels.
#![tactic(auto)]

ghost use Rattle.std.specs.Prelude.{◌≡◌, ℕ, ◌+◌, ◌*◌, ◌<◌, ◌≤◌, None, length};
ghost use Rattle.places.specs.Places.{level_length, row_length, row_at, state_at};
ghost use Rattle.order.specs.Order.{cell_right, label_right, labels_from, word_right, first_from, first_fault};

// What the words are judged by. The bounds on its numbers stand in the clauses, since the definitions judge by the shape of
// any record (`shape_of`); the words beside it are lent.
#[derive(Clone, Copy, Debug, PartialEq, Eq)]
pub struct Shape {
    // How many rows memory has, row 0 among them, and how many levels each.
    pub rows: usize,
    pub allowed: usize,
    // The rows and levels in use: rows below `used`, levels up to `depth`.
    pub used: usize,
    pub depth: usize,
    // The number of states, and the positions read.
    pub states: u64,
    pub positions: u64,
    // The number of labels.
    pub labels: u64,
}

// Is the word at c of row r in order?
fn cell_right(words: &[u64], s: Shape, r: usize, c: usize) -> bool
    requires { (s.allowed ≤ 40) × (s.rows ≤ 65) × (r < s.rows) × (c < row_length s.allowed) × (row_at s.allowed s.rows ≤ length words.now) }
    ensures { result ≡ cell_right s words.now r c }
{
    let w = places::row_length(s.allowed);
    let x = words[r * w + c];
    if s.used <= r {
        return x == 0;
    }
    if c == places::POSITION {
        if r == 0 {
            return x == 0;
        }
        let before = words[(r - 1) * w + places::POSITION];
        return before < x && x <= s.positions;
    }
    if s.depth < places::level_of(c) {
        return x == 0;
    }
    places::part_of(c) != 0 || x < s.states
}

// The first word out of order among those of level l in row r.
fn level_fault(words: &[u64], s: Shape, r: usize, l: usize) -> Option<usize>
    requires { (s.allowed ≤ 40) × (s.rows ≤ 65) × (r < s.rows) × (l ≤ s.allowed) × (row_at s.allowed s.rows ≤ length words.now) }
    ensures { result ≡ first_from (word_right s words.now) (row_at s.allowed r + state_at l) level_length }
{
    let from = r * places::row_length(s.allowed);
    let at = places::state_at(l);
    if !cell_right(words, s, r, at) {
        return Some(from + at);
    }
    let at = places::selecting_at(l);
    if !cell_right(words, s, r, at) {
        return Some(from + at);
    }
    let at = places::rejecting_at(l);
    if !cell_right(words, s, r, at) {
        return Some(from + at);
    }
    None
}

// The first word out of order, in any row and level. The form is set: two loops, left by label.
fn rows_fault(words: &[u64], s: Shape) -> Option<usize>
    requires { (s.allowed ≤ 40) × (s.rows ≤ 65) × (row_at s.allowed s.rows ≤ length words.now) }
    ensures { result ≡ first_from (word_right s words.now) 0 (labels_from s) }
{
    let w = places::row_length(s.allowed);
    let mut place = None;
    'rows: for r in 0..s.rows {
        if !cell_right(words, s, r, places::POSITION) {
            place = Some(r * w + places::POSITION);
            break 'rows;
        }
        for l in 0..s.allowed + 1 {
            if let Some(fault) = level_fault(words, s, r, l) {
                place = Some(fault);
                break 'rows;
            }
        }
    }
    place
}

// Is x in order as the word of a level's label?
fn label_right(s: Shape, level: usize, x: u64) -> bool
    ensures { result ≡ label_right s level x }
{
    if level <= s.depth {
        0 < x && x <= s.labels
    } else {
        x == 0
    }
}

// The first word out of order where none of the rows' is.
fn labels_fault(words: &[u64], s: Shape) -> Option<usize>
    requires allowed_bound { (s.allowed ≤ 40) × (s.rows ≤ 65) × (labels_from s + s.allowed ≡ length words.now) }
    requires value { None ≡ first_from (word_right s words.now) 0 (labels_from s) }
    ensures { result ≡ first_fault s words.now }
{
    let from = s.rows * places::row_length(s.allowed);
    for i in 0..s.allowed {
        if !label_right(s, places::label_level(i), words[from + i]) {
            return Some(from + i);
        }
    }
    None
}

// The first word out of order, in any row and level or of any label.
pub fn first_fault(words: &[u64], s: Shape) -> Option<usize>
    requires { (s.allowed ≤ 40) × (s.rows ≤ 65) × (labels_from s + s.allowed ≡ length words.now) }
    ensures { result ≡ first_fault s words.now }
{
    match rows_fault(words, s) {
        Some(place) => Some(place),
        None => labels_fault(words, s),
    }
}
