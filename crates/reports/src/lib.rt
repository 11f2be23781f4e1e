// The reports of rows: which are written, and where.
//
// Reports are 32-bit words, written from the front of a lent slice; what is past them stays. A position is a word of lent
// memory; that it is small enough to report stays a clause, as what is asked of its row does (`rows`).
#![tactic(auto)]

ghost use Rattle.std.specs.Prelude.{◌≡◌, ℕ, ◌+◌, ◌*◌, ◌<◌, ◌≤◌, length, get_or};
ghost use Rattle.bodies.specs.Automaton.{automaton};
ghost use Rattle.places.specs.Places.{position_at, row_length, row_of};
ghost use Rattle.places.specs.Memory.{row_in, held_in, helds_in, RowIn, RowsIn};
ghost use Rattle.rows.specs.Steps.{in_row};
ghost use Rattle.reports.specs.Reports.{report_of, reports_of, end_report, end_reports};
ghost use Rattle.meaning.specs.Lent.{put_at, on_front};

use bodies::Table;

// The report, if any, of a position whose newest state is s, in the sets of level d of the row; it is written at a place
// of reports. Answers the place after it.
pub fn report_state(
    row: &[u64],
    reports: &mut [u32],
    d: usize,
    s: u64,
    position: u64,
    at: usize,
) -> usize
    requires row_len_bound { (length row.now ≤ row_length 40) × (row_length d ≤ length row.now) × (s < 64) }
    requires position_bound { (position ≤ 2147483647) × (at < length reports.old) }
    ensures value { result ≡ at + length (report_of (record { position = position; row = in_row s (row_in d row.now) })) }
    ensures reports_after { reports.new ≡ put_at at (report_of (record { position = position; row = in_row s (row_in d row.now) })) reports.old }
{
    if sets::holds(row[places::selecting_at(d)], s) {
        reports[at] = (2 * position + 1) as u32;
        return at + 1;
    }
    if sets::holds(row[places::rejecting_at(d)], s) {
        reports[at] = (2 * position) as u32;
        return at + 1;
    }
    at
}

// The report, if any, of a row with newest level d. Answers the place after it.
fn report_row(row: &[u64], reports: &mut [u32], d: usize, at: usize) -> usize
    requires row_in { RowIn 64 d row.now }
    requires position_at_bound { (get_or row.now position_at 0 ≤ 2147483647) × (at < length reports.old) }
    ensures value { result ≡ at + length (report_of (held_in d row.now)) }
    ensures reports_after { reports.new ≡ put_at at (report_of (held_in d row.now)) reports.old }
{
    report_state(
        row,
        reports,
        d,
        row[places::state_at(d)],
        row[places::POSITION],
        at,
    )
}

// The reports of all rows that are decided, from the front of reports. Answers how many.
pub fn report_rows(words: &[u64], reports: &mut [u32], w: usize, d: usize, n: usize) -> usize
    requires rows_in { RowsIn 64 w d n words.now }
    requires n_bound { (n ≤ 64) × (n < length reports.old) }
    requires by_index { (r : ℕ) → r < n → get_or (row_of w r words.now) position_at 0 ≤ 2147483647 }
    ensures value { result ≡ length (reports_of (helds_in w d n words.now)) }
    ensures reports_after { reports.new ≡ on_front (reports_of (helds_in w d n words.now)) reports.old }
{
    let mut count = 0;
    for r in 0..n {
        let from = r * w;
        count = report_row(&words[from..from + w], reports, d, count);
    }
    count
}

// The report of a row at the end of the stream, when it has level 0 only.
fn report_end(row: &[u64], reports: &mut [u32], table: &Table, at: usize)
    requires row_in { RowIn (automaton table.now).states 0 row.now }
    requires position_at_bound { (get_or row.now position_at 0 ≤ 2147483647) × (at < length reports.old) }
    ensures { reports.new ≡ put_at at (end_report (automaton table.now) (held_in 0 row.now)) reports.old }
{
    let position = row[places::POSITION];
    let selected = table.is_final(row[places::state_at(0)]);
    if selected {
        reports[at] = (2 * position + 1) as u32;
    } else {
        reports[at] = (2 * position) as u32;
    }
}

// The reports of all rows at the end of the stream, from the front of reports.
pub fn report_ends(words: &[u64], reports: &mut [u32], table: &Table, w: usize, n: usize)
    requires rows_in { RowsIn (automaton table.now).states w 0 n words.now }
    requires n_bound { (n ≤ 64) × (n < length reports.old) }
    requires by_index { (r : ℕ) → r < n → get_or (row_of w r words.now) position_at 0 ≤ 2147483647 }
    ensures { reports.new ≡ on_front (end_reports (automaton table.now) (helds_in w 0 n words.now)) reports.old }
{
    for r in 0..n {
        let from = r * w;
        report_end(&words[from..from + w], reports, table, r);
    }
}
