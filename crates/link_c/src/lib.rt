// The watch's two calls as a static library exports them (include/watch.h): those of the crate link, with the same clauses. A
// library that other crates stand on cannot be the one that C links, so both stand here again.
//
// Neither call assumes anything of its caller but what no slice can show: each pointer points to as many elements as its
// length says and is not null, and the lent memories do not overlap.
#![tactic(auto)]

ghost use Rattle.std.specs.Prelude.{◌≡◌};
ghost use Rattle.link.specs.Linked.{start_number, start_leaves_work, start_leaves_record, start_leaves_answer};
ghost use Rattle.link.specs.Linked.{event_number, event_leaves_record, event_leaves_work, event_leaves_reports, event_leaves_answer};

// A watch over the table: returns 0, or the refusal's number; 100 for a record or answer of the wrong length.
#[unsafe(no_mangle)]
pub extern "C" fn watch_start(
    table: &[u8],
    rows: u64,
    depth: u64,
    work: &mut [u64],
    record: &mut [u64],
    answer: &mut [u64],
) -> u64
    ensures value { result ≡ start_number table.now rows depth work.old «record».old answer.old }
    ensures work_after { work.new ≡ start_leaves_work table.now rows depth work.old «record».old answer.old }
    ensures record_after { «record».new ≡ start_leaves_record table.now rows depth work.old «record».old answer.old }
    ensures answer_after { answer.new ≡ start_leaves_answer table.now rows depth work.old «record».old answer.old }
{
    link::watch_start(table, rows, depth, work, record, answer)
}

// One event byte: returns the same.
#[unsafe(no_mangle)]
pub extern "C" fn watch_event(
    table: &[u8],
    record: &mut [u64],
    work: &mut [u64],
    reports: &mut [u32],
    byte: u8,
    answer: &mut [u64],
) -> u64
    ensures value { result ≡ event_number table.now «record».old work.old reports.old byte answer.old }
    ensures record_after { «record».new ≡ event_leaves_record table.now «record».old work.old reports.old byte answer.old }
    ensures work_after { work.new ≡ event_leaves_work table.now «record».old work.old reports.old byte answer.old }
    ensures reports_after { reports.new ≡ event_leaves_reports table.now «record».old work.old reports.old byte answer.old }
    ensures answer_after { answer.new ≡ event_leaves_answer table.now «record».old work.old reports.old byte answer.old }
{
    link::watch_event(table, record, work, reports, byte, answer)
}
