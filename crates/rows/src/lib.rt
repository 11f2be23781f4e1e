// One row of work memory: its steps by the rules, what it would be after a step, and its verdict.
//
// A row is lent as the part of work memory that it is. Functions here ask for words that are a row (`RowIn`); each leaves
// the words of the row that the rule names. That stays a clause: a type round the lent words would have to be made and
// undone at each call, and its newest level changes with each event.
#![tactic(auto)]

ghost use Rattle.std.specs.Prelude.{◌≡◌, not, ◌+◌, ◌<◌, ◌≤◌, length, get_or};
ghost use Rattle.meaning.specs.Masks.{down_of};
ghost use Rattle.meaning.specs.Rows.{point_row, open_row, close_row, mark_row};
ghost use Rattle.bodies.specs.Automaton.{automaton};
ghost use Rattle.places.specs.Places.{row_length};
ghost use Rattle.places.specs.Memory.{level_in, row_in, held_in, row_words, RowIn};
ghost use Rattle.rows.specs.Steps.{event_of, Can, on_row, next_state, in_row, is_decided, neither};
ghost use Rattle.rows.specs.Rules.{states_by, CanBy, step_by};

use bodies::Table;

// An event that steps every row.
#[derive(Clone, Copy, Debug, PartialEq, Eq)]
pub enum Step {
    Open(u64),
    Point(u64),
    Close,
}

// What every row is stepped by: the table, its sets acc, and the event. A point and a close do without the sets.
#[derive(Clone, Copy)]
pub struct Rule<'a> {
    pub table: Table<'a>,
    pub accs: &'a [u64; 64],
    pub step: Step,
}

// Point: the newest state, that of level d, steps by P; sets stay.
fn point_row(row: &mut [u64], table: &Table, a: u64, d: usize)
    requires row_in { RowIn (automaton table.now).states d row.old }
    requires a_bound { a < (automaton table.now).labels }
    ensures { row.new ≡ row_words (length row.old) (on_row (point_row (automaton table.now) a) (held_in d row.old)) }
{
    let at = places::state_at(d);
    row[at] = table.point(row[at], a);
}

// Open: a level with state O(a) and sets down(q,S) and down(q,R), from the row's own q, S and R of level d.
fn open_row(row: &mut [u64], table: &Table, accs: &[u64; 64], a: u64, d: usize)
    requires row_in { RowIn (automaton table.now).states d row.old }
    requires a_bound { (a < (automaton table.now).labels) × (row_length (d + 1) ≤ length row.old) }
    ensures { row.new ≡ row_words (length row.old) (on_row (open_row (automaton table.now) accs.now a) (held_in d row.old)) }
{
    let q = row[places::state_at(d)];
    let selecting = sets::down(table, accs, q, row[places::selecting_at(d)]);
    let rejecting = sets::down(table, accs, q, row[places::rejecting_at(d)]);
    row[places::state_at(d + 1)] = table.opening(a);
    row[places::selecting_at(d + 1)] = selecting;
    row[places::rejecting_at(d + 1)] = rejecting;
}

// Close: level d goes, its words are 0; the state below becomes A(q,p), its sets stay.
fn close_row(row: &mut [u64], table: &Table, d: usize)
    requires row_in { RowIn (automaton table.now).states d row.old }
    requires d_nonzero { 0 < d }
    ensures { row.new ≡ row_words (length row.old) (on_row (close_row (automaton table.now)) (held_in d row.old)) }
{
    let from = places::state_at(d - 1);
    let at = places::state_at(d);
    row[from] = table.apply(row[from], row[at]);
    row[at] = 0;
    row[places::selecting_at(d)] = 0;
    row[places::rejecting_at(d)] = 0;
}

// The row becomes that of a new position, its newest state passed through M.
pub fn mark_row(row: &mut [u64], table: &Table, d: usize, position: u64)
    requires { RowIn (automaton table.now).states d row.old }
    ensures { row.new ≡ row_words (length row.old) (record { position = position; row = mark_row (automaton table.now) (row_in d row.old) }) }
{
    let at = places::state_at(d);
    row[places::POSITION] = position;
    row[at] = table.mark(row[at]);
}

// The newest state that an event takes the row to. Nothing is written. Not a step of a rule, since it needs no sets.
pub fn next_state(row: &[u64], table: &Table, step: Step, d: usize) -> u64
    requires row_in { RowIn (automaton table.now).states d row.now }
    requires can { Can (automaton table.now) (length row.now) d (event_of step) }
    ensures { result ≡ next_state (automaton table.now) (event_of step) (row_in d row.now) }
{
    let q = row[places::state_at(d)];
    match step {
        Step::Open(a) => table.opening(a),
        Step::Point(a) => table.point(q, a),
        Step::Close => table.apply(row[places::state_at(d - 1)], q),
    }
}

// Is state s in neither set of level d?
pub fn is_neither(row: &[u64], d: usize, s: u64) -> bool
    requires { (length row.now ≤ row_length 40) × (row_length d ≤ length row.now) × (s < 64) }
    ensures { result ≡ neither (level_in row.now d).selecting (level_in row.now d).rejecting s }
{
    !sets::holds(row[places::selecting_at(d)], s) && !sets::holds(row[places::rejecting_at(d)], s)
}

// acc(s). A call of its own, since the checker knows a call's result to be a 64-bit word, and an element of `accs` not.
fn acc_of(accs: &[u64; 64], s: u64) -> u64
    requires { s < 64 }
    ensures { result ≡ get_or accs.now s 0 }
{
    accs[s as usize]
}

// Is state s in neither set of the level that an open puts over level d? No set is worked out: s is in down(q,X) by
// acc(s) alone.
fn is_neither_down(row: &[u64], table: &Table, accs: &[u64; 64], d: usize, s: u64) -> bool
    requires row_in { RowIn (automaton table.now).states d row.now }
    requires s_bound { s < (automaton table.now).states }
    ensures { result ≡ neither (down_of (automaton table.now) accs.now (level_in row.now d).state (level_in row.now d).selecting) (down_of (automaton table.now) accs.now (level_in row.now d).state (level_in row.now d).rejecting) s }
{
    let q = row[places::state_at(d)];
    let acc = acc_of(accs, s);
    !sets::in_down(table, acc, q, row[places::selecting_at(d)])
        && !sets::in_down(table, acc, q, row[places::rejecting_at(d)])
}

impl Rule<'_> {
    // The row after the event.
    pub fn step_row(&self, row: &mut [u64], d: usize)
        requires row_in { RowIn (states_by self.now) d row.old }
        requires can { CanBy self.now (length row.old) d }
        ensures { row.new ≡ row_words (length row.old) (on_row (step_by self.now) (held_in d row.old)) }
    {
        match self.step {
            Step::Open(a) => open_row(row, &self.table, self.accs, a, d),
            Step::Point(a) => point_row(row, &self.table, a, d),
            Step::Close => close_row(row, &self.table, d),
        }
    }

    // Is state s in neither set of the newest level that the event takes the row to? Nothing is written.
    pub fn stays(&self, row: &[u64], d: usize, s: u64) -> bool
        requires row_in { RowIn (states_by self.now) d row.now }
        requires can { CanBy self.now (length row.now) d }
        requires s_bound { s < states_by self.now }
        ensures { result ≡ not (is_decided (in_row s (step_by self.now (row_in d row.now)))) }
    {
        match self.step {
            Step::Open(_) => is_neither_down(row, &self.table, self.accs, d, s),
            Step::Point(_) => is_neither(row, d, s),
            Step::Close => is_neither(row, d - 1, s),
        }
    }
}
