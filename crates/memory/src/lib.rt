// All rows of work memory: the loops over rows. Rows have w words each; n of them are gone through, from the first of the
// words that are lent.
//
// Functions here ask for words whose first n rows are rows (`RowsIn`). Each leaves the words of the rows that the rules
// name, and the words past them as they were. That stays a clause, as what is asked of a row does (`rows`): the words are
// lent. w, d and n stay three numbers: an event counts one row more, changes the
// newest level between two calls, and lends the words with row 0 or without.
#![tactic(auto)]

ghost use Rattle.std.specs.Prelude.{◌≡◌, not, ◌++◌, map, ◌+◌, ◌*◌, ◌<◌, ◌≤◌, length, take, drop};
ghost use Rattle.meaning.specs.Rows.{mark_row};
ghost use Rattle.bodies.specs.Automaton.{automaton};
ghost use Rattle.places.specs.Places.{row_length, row_of, padded};
ghost use Rattle.places.specs.Memory.{row_in, helds_in, row_words, all_words, RowIn, RowsIn};
ghost use Rattle.rows.specs.Steps.{on_row, is_decided};
ghost use Rattle.rows.specs.Rules.{states_by, CanBy, step_by};
ghost use Rattle.reports.specs.Reports.{left_of};

use bodies::Table;
use rows::Rule;

// Every row takes the event.
pub fn step_rows(words: &mut [u64], rule: &Rule, w: usize, d: usize, n: usize)
    requires rows_in { RowsIn (states_by rule.now) w d n words.old }
    requires n_bound { (n ≤ 65) × CanBy rule.now w d }
    ensures { words.new ≡ all_words w (map (on_row (step_by rule.now)) (helds_in w d n words.old)) ++ drop (n * w) words.old }
{
    for r in 0..n {
        let from = r * w;
        rule.step_row(&mut words[from..from + w], d);
    }
}

// Would the row be in doubt after the event? Nothing is written.
fn stays_after(row: &[u64], rule: &Rule, d: usize) -> bool
    requires row_in { RowIn (states_by rule.now) d row.now }
    requires can { CanBy rule.now (length row.now) d }
    ensures { result ≡ not (is_decided (step_by rule.now (row_in d row.now))) }
{
    let s = rows::next_state(row, &rule.table, rule.step, d);
    rule.stays(row, d, s)
}

// Would the new position of the event be in doubt after it? The row is row 0. Nothing is written.
pub fn new_stays(row: &[u64], rule: &Rule, d: usize) -> bool
    requires row_in { RowIn (states_by rule.now) d row.now }
    requires can { CanBy rule.now (length row.now) d }
    ensures { result ≡ not (is_decided (mark_row (automaton rule.now.table) (step_by rule.now (row_in d row.now)))) }
{
    let s = rows::next_state(row, &rule.table, rule.step, d);
    let s = rule.table.mark(s);
    rule.stays(row, d, s)
}

// How many rows would be in doubt after the event? Nothing is written.
pub fn count_alive(words: &[u64], rule: &Rule, w: usize, d: usize, n: usize) -> usize
    requires rows_in { RowsIn (states_by rule.now) w d n words.now }
    requires n_bound { (n ≤ 65) × CanBy rule.now w d }
    ensures { result ≡ length (left_of (map (on_row (step_by rule.now)) (helds_in w d n words.now))) }
{
    let mut count = 0;
    for r in 0..n {
        let from = r * w;
        if stays_after(&words[from..from + w], rule, d) {
            count += 1;
        }
    }
    count
}

// Is the row in doubt?
fn is_left(row: &[u64], d: usize) -> bool
    requires { RowIn 64 d row.now }
    ensures { result ≡ not (is_decided (row_in d row.now)) }
{
    rows::is_neither(row, d, row[places::state_at(d)])
}

// The rows that are in doubt close up, and the words that they leave behind are 0. Answers how many they are. Only a row
// that moves is copied: where every row before it is left, it stands in its place already.
pub fn close_up(words: &mut [u64], w: usize, d: usize, n: usize) -> usize
    requires rows_in { RowsIn 64 w d n words.old }
    requires n_bound { n ≤ 64 }
    ensures value { result ≡ length (left_of (helds_in w d n words.old)) }
    ensures words_after { words.new ≡ padded (n * w) (all_words w (left_of (helds_in w d n words.old))) ++ drop (n * w) words.old }
{
    let mut left = 0;
    for r in 0..n {
        let from = r * w;
        if is_left(&words[from..from + w], d) {
            if left < r {
                words::copy_words(words, left * w, from, w);
            }
            left += 1;
        }
    }
    words::clear(&mut words[left * w..n * w]);
    left
}

// Row r becomes that of a new position: a copy of row 0, its newest state passed through M.
pub fn add_row(words: &mut [u64], table: &Table, w: usize, d: usize, r: usize, position: u64)
    requires row_in { RowIn (automaton table.now).states d (row_of w 0 words.old) }
    requires r_nonzero { (0 < r) × (r ≤ 64) × (w ≤ row_length 40) × ((r + 1) * w ≤ length words.old) }
    ensures { words.new ≡ take (r * w) words.old ++ row_words w (record { position = position; row = mark_row (automaton table.now) (row_in d (row_of w 0 words.old)) }) ++ drop ((r + 1) * w) words.old }
{
    let at = r * w;
    words::copy_words(words, at, 0, w);
    rows::mark_row(&mut words[at..at + w], table, d, position);
}
