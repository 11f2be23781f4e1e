// The watch: the start call and the call for one event byte.
//
// Neither assumes anything of its caller: any table, numbers, record, memory and byte are taken or refused by number. A
// refused event gives its record back, a refused start a record of zeros, and neither writes to lent memory. What an event
// to be taken needs of record and memory stays a clause (`Ready`, `Can`): the record is any caller's, and the memory is lent.
#![tactic(auto)]

ghost use Rattle.std.specs.Prelude.{◌≡◌, ◌<◌, ◌≤◌, length};
ghost use Rattle.bodies.specs.Automaton.{automaton};
ghost use Rattle.meaning.specs.Streams.{opened_by};
ghost use Rattle.meaning.specs.Lent.{on_front};
ghost use Rattle.places.specs.Places.{row_length};
ghost use Rattle.places.specs.Memory.{work_words};
ghost use Rattle.reports.specs.Reports.{reports_of, left_of};
ghost use Rattle.rows.specs.Steps.{event_of, Can};
ghost use Rattle.rows.specs.Rules.{states_by, CanBy};
ghost use Rattle.stepping.specs.Stepping.{Counted, Moves, left_memory, counts_of};
ghost use Rattle.stepping.specs.Extents.{CountedBy, stepped_by};
ghost use Rattle.engine.specs.Calls.{extent_of, Ready, memory_of, labels_of, step_record, accs_for, stepped, ended, room_answer, room_work, room_reports};
ghost use Rattle.engine.specs.Calls.{event_answer, event_work, event_reports, start_answer, start_work};

use answers::Event;
pub use answers::{Answer, Numbered, Outcome, Record, Refusal};
use bodies::Table;
use rows::{Rule, Step};
use stepping::{Counts, Extent};

// The sets acc for an event. An open needs them; a point and a close do without.
fn accs_for(table: &Table, step: Step) -> [u64; 64]
    ensures { result ≡ accs_for (automaton table.now) (event_of step) }
{
    match step {
        Step::Open(_) => sets::accs(table, sets::trees(table)),
        _ => [0; 64],
    }
}

// The record after an event, its alive count apart.
fn step_record(r: Record, step: Step) -> Record
    requires { Moves (event_of step) r.depth × Counted (event_of step) r.positions }
    ensures { result ≡ step_record (event_of step) r }
{
    match step {
        Step::Open(_) => r.deeper().one_more(),
        Step::Point(_) => r.one_more(),
        Step::Close => r.shallower(),
    }
}

// The extent of the work memory that a record goes with.
fn extent(r: Record) -> Extent
    ensures { result ≡ extent_of r }
{
    Extent {
        rows: r.rows as usize,
        allowed: r.allowed as usize,
        depth: r.depth as usize,
        alive: r.alive as usize,
    }
}

// The event is taken: the rows step, and the labels of the open levels follow.
fn take(rule: &Rule, r: Record, work: &mut [u64], reports: &mut [u32]) -> Counts
    requires ready { Ready (states_by rule.now) r work.old }
    requires can { CanBy rule.now (row_length r.allowed) r.depth × CountedBy rule.now r.positions }
    requires rows_in_bounds { r.rows < length reports.old }
    requires work_len_bound { length (left_of (stepped_by rule.now r.positions (memory_of r work.old)).alive) ≤ r.rows }
    ensures value { result ≡ counts_of (stepped_by rule.now r.positions (memory_of r work.old)) }
    ensures work_after { work.new ≡ work_words r.rows r.allowed (left_memory (stepped_by rule.now r.positions (memory_of r work.old))) (opened_by (labels_of r work.old) (event_of rule.now.step)) }
    ensures reports_after { reports.new ≡ on_front (reports_of (stepped_by rule.now r.positions (memory_of r work.old)).alive) reports.old }
{
    let n = places::rows_length(r.rows as usize, r.allowed as usize);
    labels::take_label(&mut work[n..], rule.step, r.depth as usize);
    stepping::take_step(&mut work[..n], reports, rule, extent(r), r.positions)
}

// An open, point or close to which no line before applies: refused for want of rows before anything is written, or taken.
fn step(table: &Table, r: Record, work: &mut [u64], reports: &mut [u32], step: Step) -> Answer
    requires ready { Ready (automaton table.now).states r work.old }
    requires can { Can (automaton table.now) (row_length r.allowed) r.depth (event_of step) × Counted (event_of step) r.positions }
    requires rows_in_bounds { r.rows < length reports.old }
    ensures value { result ≡ room_answer r (stepped (automaton table.now) r work.old (event_of step)) }
    ensures work_after { work.new ≡ room_work r work.old (stepped (automaton table.now) r work.old (event_of step)) }
    ensures reports_after { reports.new ≡ room_reports r reports.old (stepped (automaton table.now) r work.old (event_of step)) }
{
    let accs = accs_for(table, step);
    let rule = Rule {
        table: *table,
        accs: &accs,
        step,
    };
    let n = places::rows_length(r.rows as usize, r.allowed as usize);
    let crowded = stepping::is_crowded(&work[..n], &rule, extent(r));
    if crowded {
        return Answer::refused(r, Refusal::Rows);
    }
    let counts = take(&rule, r, work, reports);
    let next = step_record(r, step).with_alive(counts.alive as u64);
    Answer::taken(next, counts.reports as u64)
}

// An end to which no line before applies.
fn end(table: &Table, r: Record, work: &mut [u64], reports: &mut [u32]) -> Answer
    requires ready { Ready (automaton table.now).states r work.old }
    requires depth_value { (r.depth ≡ 0) × (r.rows < length reports.old) }
    ensures value { result ≡ room_answer r (ended (automaton table.now) r work.old) }
    ensures work_after { work.new ≡ room_work r work.old (ended (automaton table.now) r work.old) }
    ensures reports_after { reports.new ≡ room_reports r reports.old (ended (automaton table.now) r work.old) }
{
    let n = places::rows_length(r.rows as usize, r.allowed as usize);
    stepping::take_end(
        &mut work[..n],
        reports,
        table,
        r.allowed as usize,
        r.alive as usize,
    );
    Answer::taken(r.finish(), r.alive)
}

// One event byte: taken, with the next record and the number of reports, or refused by the first line of the
// table of refusals that applies.
pub fn event(
    table: &[u8],
    record: Record,
    work: &mut [u64],
    reports: &mut [u32],
    byte: u8,
) -> Answer
    ensures value { result ≡ event_answer table.now «record» work.old reports.old byte }
    ensures work_after { work.new ≡ event_work table.now «record» work.old reports.old byte }
    ensures reports_after { reports.new ≡ event_reports table.now «record» work.old reports.old byte }
{
    let event = Event::from(byte);
    if let Err(why) = judge::judge(table, record, work, reports.len(), event) {
        return Answer::refused(record, why);
    }
    let table = Table { file: table };
    match event {
        Event::Open(a) => step(&table, record, work, reports, Step::Open(a)),
        Event::Point(a) => step(&table, record, work, reports, Step::Point(a)),
        Event::Close => step(&table, record, work, reports, Step::Close),
        Event::CloseOf(_) => step(&table, record, work, reports, Step::Close),
        Event::End => end(&table, record, work, reports),
        Event::Unknown => Answer::refused(record, Refusal::Unknown),
    }
}

// A watch over the table: its first record, and work memory made ready for it, or a refusal.
pub fn start(table: &[u8], rows: u64, depth: u64, work: &mut [u64]) -> Answer
    ensures value { result ≡ start_answer table.now rows depth work.old }
    ensures work_after { work.new ≡ start_work table.now rows depth work.old }
{
    if let Err(why) = judge::judge_start(table, rows, depth, work.len()) {
        return Answer::refused(Record::none(), why);
    }
    let table = Table { file: table };
    let accs = sets::accs(&table, sets::trees(&table));
    let n = places::rows_length(rows as usize, depth as usize);
    words::clear(&mut work[n..]);
    stepping::start_memory(&mut work[..n], &table, &accs, rows as usize, depth as usize);
    Answer::taken(Record::started(rows, depth), 0)
}
