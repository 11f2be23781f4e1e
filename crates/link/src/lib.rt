// The watch's two calls for programs in C and Rust (include/watch.h), over the start call and the event call and nothing
// else. A record is lent as six words, an answer as four: C has words and lengths, so what `fits` tests stays a clause below, and
// a refusal is a number. The crate link_c exports them.
//
// Neither call assumes anything of its caller but what no slice can show: each pointer points to as many elements as its
// length says and is not null, and the lent memories do not overlap.
#![tactic(auto)]

ghost use Rattle.std.specs.Prelude.{◌≡◌, length};
ghost use Rattle.link.specs.Words.{record_words, record_in, four_words, answer_words};
ghost use Rattle.link.specs.Linked.{fitting, start_number, start_leaves_work, start_leaves_record, start_leaves_answer};
ghost use Rattle.link.specs.Linked.{next_words, event_number, event_leaves_record, event_leaves_work, event_leaves_reports, event_leaves_answer};

use answers::{Outcome, Place, Record};

// Has the record six words and the answer four?
fn fits(words: &[u64], answer: &[u64]) -> bool
    ensures { result ≡ fitting words.now answer.now }
{
    words.len() == 6 && answer.len() == 4
}

// The record that six words stand for. A sixth word above 1 stands for none: with more positions than the greatest it is out
// of order, and the event call refuses it in its turn.
fn record_in(words: &[u64]) -> Record
    requires { length words.now ≡ 6 }
    ensures { result ≡ record_in words.now }
{
    let finished = words[5];
    let positions = if finished > 1 { 2147483648 } else { words[4] };
    Record {
        rows: words[0],
        allowed: words[1],
        depth: words[2],
        alive: words[3],
        positions,
        finished: finished == 1,
    }
}

fn put_record(words: &mut [u64], r: Record)
    requires { length words.old ≡ 6 }
    ensures { words.new ≡ record_words r }
{
    words.copy_from_slice(&[
        r.rows,
        r.allowed,
        r.depth,
        r.alive,
        r.positions,
        u64::from(r.finished),
    ]);
}

// The record after an event: a refused one leaves it.
fn put_next(words: &mut [u64], outcome: Outcome, next: Record)
    requires { length words.old ≡ 6 }
    ensures { words.new ≡ next_words outcome next words.old }
{
    if outcome.is_ok() {
        put_record(words, next);
    }
}

// The number of reports, and the three words of a place.
fn put_four(words: &mut [u64], reports: u64, place: Place)
    requires { length words.old ≡ 4 }
    ensures { words.new ≡ four_words reports place }
{
    words.copy_from_slice(&[reports, place.word, place.part, place.inside]);
}

fn put_answer(words: &mut [u64], outcome: Outcome)
    requires { length words.old ≡ 4 }
    ensures { words.new ≡ answer_words outcome }
{
    match outcome {
        Ok(reports) => put_four(words, reports, Place::none()),
        Err(why) => put_four(words, 0, why.place()),
    }
}

// A watch over the table: returns 0, or the refusal's number; 100 for a record or answer of the wrong length.
pub fn watch_start(
    table: &[u8],
    rows: u64,
    depth: u64,
    work: &mut [u64],
    record: &mut [u64],
    answer: &mut [u64],
) -> u64
    ensures value { result ≡ start_number table.now rows depth work.old «record».old answer.old }
    ensures work_after { work.new ≡ start_leaves_work table.now rows depth work.old «record».old answer.old }
    ensures record_after { «record».new ≡ start_leaves_record table.now rows depth work.old «record».old answer.old }
    ensures answer_after { answer.new ≡ start_leaves_answer table.now rows depth work.old «record».old answer.old }
{
    if !fits(record, answer) {
        return 100;
    }
    let answered = engine::start(table, rows, depth, work);
    put_record(record, answered.next);
    put_answer(answer, answered.outcome);
    answered.number()
}

// One event byte: returns the same.
pub fn watch_event(
    table: &[u8],
    record: &mut [u64],
    work: &mut [u64],
    reports: &mut [u32],
    byte: u8,
    answer: &mut [u64],
) -> u64
    ensures value { result ≡ event_number table.now «record».old work.old reports.old byte answer.old }
    ensures record_after { «record».new ≡ event_leaves_record table.now «record».old work.old reports.old byte answer.old }
    ensures work_after { work.new ≡ event_leaves_work table.now «record».old work.old reports.old byte answer.old }
    ensures reports_after { reports.new ≡ event_leaves_reports table.now «record».old work.old reports.old byte answer.old }
    ensures answer_after { answer.new ≡ event_leaves_answer table.now «record».old work.old reports.old byte answer.old }
{
    if !fits(record, answer) {
        return 100;
    }
    let answered = engine::event(table, record_in(record), work, reports, byte);
    put_next(record, answered.outcome, answered.next);
    put_answer(answer, answered.outcome);
    answered.number()
}
