// Where a word stands in work memory: the one place in code that computes it.
//
// Rows and levels are counted from 0. A row's words are counted from its own first word, the labels' words from the first
// of them, the memory's from row 0. Each function asks for its own bound alone: a type for a level or a row would be undone
// at the next sum.
#![tactic(auto)]

ghost use Rattle.std.specs.Prelude.{◌≡◌, ◌<◌, ◌≤◌};
ghost use Rattle.places.specs.Places.{state_at, selecting_at, rejecting_at, level_of, part_of, row_length, rows_length, label_at, label_level, work_length};

// Where its position stands in a row, where its levels begin, and how many words a level has.
pub const POSITION: usize = 0;

const LEVELS: usize = 1;

const LEVEL_LENGTH: usize = 3;

// Where the state of a level stands in its row.
pub fn state_at(level: usize) -> usize
    requires { level ≤ 41 }
    ensures { result ≡ state_at level }
{
    LEVELS + LEVEL_LENGTH * level
}

// Where the selecting set of a level stands in its row. Each of a level's three words has a name of its own, so that no
// caller counts them.
pub fn selecting_at(level: usize) -> usize
    requires { level ≤ 41 }
    ensures { result ≡ selecting_at level }
{
    state_at(level) + 1
}

// Where the rejecting set of a level stands in its row.
pub fn rejecting_at(level: usize) -> usize
    requires { level ≤ 41 }
    ensures { result ≡ rejecting_at level }
{
    state_at(level) + 2
}

// The level that a word of a row belongs to, its position apart.
pub fn level_of(c: usize) -> usize
    requires { 0 < c }
    ensures { result ≡ level_of c }
{
    (c - LEVELS) / LEVEL_LENGTH
}

// Which word of its level that is: 0 the state.
pub fn part_of(c: usize) -> usize
    requires { 0 < c }
    ensures { result ≡ part_of c }
{
    (c - LEVELS) % LEVEL_LENGTH
}

// How many words a row has.
pub fn row_length(depth: usize) -> usize
    requires { depth ≤ 40 }
    ensures { result ≡ row_length depth }
{
    state_at(depth + 1)
}

// How many words the rows have: where the labels' words begin.
pub fn rows_length(rows: usize, depth: usize) -> usize
    requires { (rows ≤ 64) × (depth ≤ 40) }
    ensures { result ≡ rows_length rows depth }
{
    (rows + 1) * row_length(depth)
}

// Where the word of a level stands among the labels'. Level 0 has none.
pub fn label_at(level: usize) -> usize
    requires { 0 < level }
    ensures { result ≡ label_at level }
{
    level - 1
}

// The level that a word of the labels' belongs to.
pub fn label_level(i: usize) -> usize
    requires { i < 40 }
    ensures { result ≡ label_level i }
{
    i + 1
}

// How many words work memory has.
pub fn work_length(rows: usize, depth: usize) -> usize
    requires { (rows ≤ 64) × (depth ≤ 40) }
    ensures { result ≡ work_length rows depth }
{
    rows_length(rows, depth) + depth
}
