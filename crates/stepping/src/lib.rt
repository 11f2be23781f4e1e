// One event on all rows: would there be room, the step with its reports, the end, and the start.
//
// The words here are the rows' words of work memory alone. `is_crowded` and `take_step` ask that they are such (`StandsIn`), the
// others for rows (`RowsIn`), and the start for their number only. These stay clauses: the words
// are lent. Each leaves the words of the rows that the rules name.
#![tactic(auto)]

ghost use Rattle.std.specs.Prelude.{◌≡◌, ◌++◌, ℕ, ◌+◌, ◌*◌, ◌<◌, ◌≤◌, ltb, length, get_or, drop, replicate};
ghost use Rattle.meaning.specs.Masks.{accs_of};
ghost use Rattle.bodies.specs.Automaton.{automaton};
ghost use Rattle.places.specs.Places.{position_at, row_length, row_of, rows_length, padded};
ghost use Rattle.places.specs.Memory.{row_in, helds_in, memory_in, all_words, rows_words, RowIn, RowsIn};
ghost use Rattle.rows.specs.Steps.{event_of, depth_after};
ghost use Rattle.rows.specs.Rules.{states_by, CanBy};
ghost use Rattle.reports.specs.Reports.{report_of, reports_of, left_over, left_of, end_reports};
ghost use Rattle.meaning.specs.Lent.{put_at, on_front};
ghost use Rattle.stepping.specs.Stepping.{Moves, new_of, left_memory, counts_of, start_memory};
ghost use Rattle.stepping.specs.Extents.{StandsIn, CountedBy, memory_at, stepped_by};

use bodies::Table;
use rows::{Rule, Step};

// How many positions are alive after an event, and how many it reported.
#[derive(Clone, Copy, Debug, PartialEq, Eq)]
pub struct Counts {
    pub alive: usize,
    pub reports: usize,
}

// How many rows and levels there may be, and how many are in use: the newest level's number, and the alive positions.
#[derive(Clone, Copy, Debug, PartialEq, Eq)]
pub struct Extent {
    pub rows: usize,
    pub allowed: usize,
    pub depth: usize,
    pub alive: usize,
}

// The memory of a watch that has read nothing. Old contents do not matter.
pub fn start_memory(work: &mut [u64], table: &Table, accs: &[u64; 64], rows: usize, depth: usize)
    requires rows_bound { (rows ≤ 64) × (depth ≤ 40) × (length work.old ≡ rows_length rows depth) }
    requires accs_value { accs.now ≡ accs_of (automaton table.now) }
    ensures { work.new ≡ rows_words rows depth (start_memory (automaton table.now)) }
{
    let n = table.states();
    words::clear(work);
    work[places::state_at(0)] = table.start();
    let finals = sets::ends(table, true);
    let selecting = sets::safe(n, accs, finals);
    work[places::selecting_at(0)] = selecting;
    let others = sets::ends(table, false);
    let rejecting = sets::safe(n, accs, others);
    work[places::rejecting_at(0)] = rejecting;
}

// Would more positions be alive after the event than there are rows? Nothing is written.
pub fn is_crowded(work: &[u64], rule: &Rule, extent: Extent) -> bool
    requires stands { StandsIn (states_by rule.now) extent work.now }
    requires can { CanBy rule.now (row_length extent.allowed) extent.depth }
    ensures { (p : ℕ) → result ≡ ltb extent.rows (length (left_of (stepped_by rule.now p (memory_at extent work.now)).alive)) }
{
    if extent.alive < extent.rows {
        return false;
    }
    if let Step::Close = rule.step {
        return false;
    }
    let w = places::row_length(extent.allowed);
    if !memory::new_stays(&work[..w], rule, extent.depth) {
        return false;
    }
    memory::count_alive(&work[w..], rule, w, extent.depth, extent.alive) == extent.rows
}

// The newest level once the event is taken.
fn depth_after(step: Step, d: usize) -> usize
    requires { Moves (event_of step) d }
    ensures { result ≡ depth_after (event_of step) d }
{
    match step {
        Step::Open(_) => d + 1,
        Step::Point(_) => d,
        Step::Close => d - 1,
    }
}

// The new position, of an open or point that row 0 has taken: reported if it is decided, and else a row of its own.
// `left` rows stayed and `count` reports are written.
fn add_position(
    work: &mut [u64],
    reports: &mut [u32],
    table: &Table,
    w: usize,
    d: usize,
    position: u64,
    left: usize,
    count: usize,
) -> Counts
    requires row_in { RowIn (automaton table.now).states d (row_of w 0 work.old) }
    requires w_bound { (w ≤ row_length 40) × (position ≤ 2147483647) × (left + length (left_over (new_of (automaton table.now) position (row_in d (row_of w 0 work.old)))) ≤ 64) × (count < length reports.old) }
    requires w_in_bounds { (left + 1 + length (left_over (new_of (automaton table.now) position (row_in d (row_of w 0 work.old))))) * w ≤ length work.old }
    ensures value { result ≡ record { alive = left + length (left_over (new_of (automaton table.now) position (row_in d (row_of w 0 work.old)))); reports = count + length (report_of (new_of (automaton table.now) position (row_in d (row_of w 0 work.old)))) } }
    ensures work_after { work.new ≡ put_at ((left + 1) * w) (all_words w (left_over (new_of (automaton table.now) position (row_in d (row_of w 0 work.old))))) work.old }
    ensures reports_after { reports.new ≡ put_at count (report_of (new_of (automaton table.now) position (row_in d (row_of w 0 work.old)))) reports.old }
{
    let s = table.mark(work[places::state_at(d)]);
    let after = reports::report_state(&work[..w], reports, d, s, position, count);
    if after == count {
        memory::add_row(work, table, w, d, left + 1, position);
        Counts {
            alive: left + 1,
            reports: after,
        }
    } else {
        Counts {
            alive: left,
            reports: after,
        }
    }
}

// The rows that are in doubt close up, and the words that they leave behind are 0. Answers how many they are. `count` of
// the rows were reported: where none was, all are in doubt and stand where they are.
fn close_rows(words: &mut [u64], w: usize, d: usize, n: usize, count: usize) -> usize
    requires rows_in { RowsIn 64 w d n words.old }
    requires n_bound { (n ≤ 64) × (count ≡ length (reports_of (helds_in w d n words.old))) }
    ensures value { result ≡ length (left_of (helds_in w d n words.old)) }
    ensures words_after { words.new ≡ padded (n * w) (all_words w (left_of (helds_in w d n words.old))) ++ drop (n * w) words.old }
{
    if count == 0 {
        n
    } else {
        memory::close_up(words, w, d, n)
    }
}

// The event is taken: every row steps, a new row comes, decided rows are reported and go, the rest close up.
pub fn take_step(
    work: &mut [u64],
    reports: &mut [u32],
    rule: &Rule,
    extent: Extent,
    positions: u64,
) -> Counts
    requires stands { StandsIn (states_by rule.now) extent work.old }
    requires can { CanBy rule.now (row_length extent.allowed) extent.depth × CountedBy rule.now positions }
    requires rows_in_bounds { extent.rows < length reports.old }
    requires work_len_bound { length (left_of (stepped_by rule.now positions (memory_at extent work.old)).alive) ≤ extent.rows }
    ensures value { result ≡ counts_of (stepped_by rule.now positions (memory_at extent work.old)) }
    ensures work_after { work.new ≡ rows_words extent.rows extent.allowed (left_memory (stepped_by rule.now positions (memory_at extent work.old))) }
    ensures reports_after { reports.new ≡ on_front (reports_of (stepped_by rule.now positions (memory_at extent work.old)).alive) reports.old }
{
    let alive = extent.alive;
    let w = places::row_length(extent.allowed);
    memory::step_rows(work, rule, w, extent.depth, alive + 1);
    let d = depth_after(rule.step, extent.depth);
    let count = reports::report_rows(&work[w..], reports, w, d, alive);
    let left = close_rows(&mut work[w..], w, d, alive, count);
    if let Step::Close = rule.step {
        return Counts {
            alive: left,
            reports: count,
        };
    }
    add_position(work, reports, &rule.table, w, d, positions + 1, left, count)
}

// The end: every alive row is reported, and every word is 0.
pub fn take_end(work: &mut [u64], reports: &mut [u32], table: &Table, depth: usize, alive: usize)
    requires depth_bound { (depth ≤ 40) × (alive ≤ 64) × (alive < length reports.old) × (row_length depth ≤ length work.old) }
    requires rows_in { RowsIn (automaton table.now).states (row_length depth) 0 alive (drop (row_length depth) work.old) }
    requires by_index { (r : ℕ) → r < alive → get_or (row_of (row_length depth) r (drop (row_length depth) work.old)) position_at 0 ≤ 2147483647 }
    ensures work_after { work.new ≡ replicate (length work.old) 0 }
    ensures reports_after { reports.new ≡ on_front (end_reports (automaton table.now) (memory_in depth 0 alive work.old).alive) reports.old }
{
    let w = places::row_length(depth);
    reports::report_ends(&work[w..], reports, table, w, alive);
    words::clear(work);
}
