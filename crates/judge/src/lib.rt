// All refusals but that for want of rows: judging what a call was given, before anything is done. Nothing is written.
//
// `judge`, `judge_start` and `judge_lent` take any table, record, words and event. `judge_event` is what `judge` asks last, and
// stands on what it asked before: a clause says what, since those that ask first take any record and any words.
#![tactic(auto)]

ghost use Rattle.std.specs.Prelude.{◌≡◌, ℕ, ◌+◌, ◌≤◌, length};
ghost use Rattle.meaning.specs.Refusals.{first_of};
ghost use Rattle.places.specs.Places.{work_length};
ghost use Rattle.judge.specs.Judging.{fine, call_lines, event_lines, judged_lines, start_lines};
ghost use Rattle.judge.specs.Clear.{clear_lines};
ghost use Rattle.judge.specs.Judging.{sizes_right, record_right, fault_of, newest_word};

use answers::{Event, Record, Refusal};
use order::Shape;

// Line 6 of a start, passed: rows and depth allowed in range, and work memory of the length that they fix.
fn sizes_right(rows: u64, allowed: u64, size: usize) -> bool
    ensures { result ≡ sizes_right rows allowed size }
{
    (1..=64).contains(&rows)
        && (1..=40).contains(&allowed)
        && size == places::work_length(rows as usize, allowed as usize)
}

// Is the record by itself in order?
fn record_right(r: Record) -> bool
    ensures { result ≡ record_right r }
{
    if r.rows < r.alive || r.allowed < r.depth || 2147483647 < r.positions {
        return false;
    }
    !r.finished || (r.depth == 0 && r.alive == 0)
}

// The first word of work memory that is out of order; its length where the record by itself is, which is then the place that
// the refusal names (`fault_of`).
fn fault(r: Record, n: u64, k: u64, work: &[u64]) -> Option<usize>
    requires { (r.rows ≤ 64) × (r.allowed ≤ 40) × (length work.now ≡ work_length r.rows r.allowed) }
    ensures { result ≡ fault_of r n k work.now }
{
    if !record_right(r) {
        return Some(work.len());
    }
    let used = if r.finished { 0 } else { r.alive as usize + 1 };
    order::first_fault(
        work,
        Shape {
            rows: r.rows as usize + 1,
            allowed: r.allowed as usize,
            used,
            depth: r.depth as usize,
            states: n,
            positions: r.positions,
            labels: k,
        },
    )
}

// 6 to 8, for a table of n states and k labels: two numbers, as the definitions of the lines take them, and an event is judged
// by k alone.
fn judge_call(n: u64, k: u64, r: Record, work: &[u64], reports: usize) -> Result<(), Refusal>
    ensures { result ≡ first_of (call_lines n k r work.now reports) fine }
{
    if !sizes_right(r.rows, r.allowed, work.len()) {
        return Err(Refusal::Sizes);
    }
    if (reports as u64) < r.rows + 1 {
        return Err(Refusal::Sizes);
    }
    if let Some(at) = fault(r, n, k, work) {
        return Err(Refusal::Order(at as u64));
    }
    if r.finished {
        return Err(Refusal::Finished);
    }
    Ok(())
}

// 10, 12 and 14, of an open.
fn judge_open(k: u64, r: Record, a: u64) -> Result<(), Refusal>
    ensures { (x : ℕ) → result ≡ first_of (event_lines k r x (Event.Open a)) fine }
{
    if k <= a {
        return Err(Refusal::Label);
    }
    if r.allowed <= r.depth {
        return Err(Refusal::TooDeep);
    }
    if 2147483647 <= r.positions {
        return Err(Refusal::Positions);
    }
    Ok(())
}

// 10 and 14, of a point.
fn judge_point(k: u64, r: Record, a: u64) -> Result<(), Refusal>
    ensures { (x : ℕ) → result ≡ first_of (event_lines k r x (Event.Point a)) fine }
{
    if k <= a {
        return Err(Refusal::Label);
    }
    if 2147483647 <= r.positions {
        return Err(Refusal::Positions);
    }
    Ok(())
}

// 10, 11 and 16, of a close that names a label.
fn judge_close_of(k: u64, r: Record, work: &[u64], a: u64) -> Result<(), Refusal>
    requires { (r.rows ≤ 64) × (r.allowed ≤ 40) × (r.depth ≤ r.allowed) × (length work.now ≡ work_length r.rows r.allowed) }
    ensures { result ≡ first_of (event_lines k r (newest_word r work.now) (Event.CloseOf a)) fine }
{
    if k <= a {
        return Err(Refusal::Label);
    }
    if r.depth == 0 {
        return Err(Refusal::NothingOpen);
    }
    let from = places::rows_length(r.rows as usize, r.allowed as usize);
    let word = work[from + places::label_at(r.depth as usize)];
    if word != a + 1 {
        return Err(Refusal::ClosingLabel);
    }
    Ok(())
}

// 9 to 14 and 16, for a table of k labels.
pub fn judge_event(k: u64, r: Record, work: &[u64], event: Event) -> Result<(), Refusal>
    requires { (r.rows ≤ 64) × (r.allowed ≤ 40) × (r.depth ≤ r.allowed) × (length work.now ≡ work_length r.rows r.allowed) }
    ensures { result ≡ first_of (event_lines k r (newest_word r work.now) event) fine }
{
    match event {
        Event::Open(a) => judge_open(k, r, a),
        Event::Point(a) => judge_point(k, r, a),
        Event::Close => {
            if r.depth == 0 {
                Err(Refusal::NothingOpen)
            } else {
                Ok(())
            }
        }
        Event::CloseOf(a) => judge_close_of(k, r, work, a),
        Event::End => {
            if 0 < r.depth {
                Err(Refusal::LevelOpen)
            } else {
                Ok(())
            }
        }
        Event::Unknown => Err(Refusal::Unknown),
    }
}

// All of an event's but the last; `reports` is the length of the reports' slice.
pub fn judge(
    table: &[u8],
    r: Record,
    work: &[u64],
    reports: usize,
    event: Event,
) -> Result<(), Refusal>
    ensures { result ≡ first_of (judged_lines table.now r work.now reports event) fine }
{
    let (n, k) = table::read(table)?;
    judge_call(n, k, r, work, reports)?;
    judge_event(k, r, work, event)
}

// 1 to 6, of a start; `size` is the length of work memory.
pub fn judge_start(table: &[u8], rows: u64, allowed: u64, size: usize) -> Result<(), Refusal>
    ensures { result ≡ first_of (start_lines table.now rows allowed size) fine }
{
    table::read(table)?;
    if sizes_right(rows, allowed, size) {
        Ok(())
    } else {
        Err(Refusal::Sizes)
    }
}

// 1 to 8 of an event; `reports` is the length of the reports' slice.
pub fn judge_lent(table: &[u8], r: Record, work: &[u64], reports: usize) -> Result<(), Refusal>
    ensures { result ≡ first_of (clear_lines table.now r work.now reports) fine }
{
    let (n, k) = table::read(table)?;
    judge_call(n, k, r, work, reports)
}
