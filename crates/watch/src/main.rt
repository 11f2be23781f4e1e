// The watch as a program: the table from the file `table`, events from standard input, with 64 rows and depth 40. A line
// for each report, as soon as its event is in; then one line that says how it ended.
//
// Input is read and output written in large blocks. What was reported is written out before more input is waited for, so
// that a simulator on a pipe is answered live. A write that fails ends the program; a read that fails counts as the
// input's end.
#![tactic(auto)]

use engine::{Record, Refusal};
use pipes::{BLOCK, End, Filter, Output};
use std::fmt::{self, Write};
use std::ops::ControlFlow;

// More than the lines of one event take: at most 65 of at most 41 bytes, and a last one. So a line that is put has room.
const EVENT_LINES: usize = 4096;

// A report word: "selected P" or "failed P".
#[derive(Clone, Copy)]
struct Report(u32);

impl fmt::Display for Report {
    fn fmt<W: fmt::Write>(&self, f: &mut fmt::Formatter<W>) -> fmt::Result {
        let word = self.0;
        let verdict = if word % 2 == 1 { "selected" } else { "failed" };
        write!(f, "{verdict} {}", word / 2)
    }
}

// Where a refusal finds the table wrong: " entry I FIELD" or " body I byte J". Of any other it is nothing.
#[derive(Clone, Copy)]
struct Place(Refusal);

impl fmt::Display for Place {
    fn fmt<W: fmt::Write>(&self, f: &mut fmt::Formatter<W>) -> fmt::Result {
        match self.0 {
            Refusal::Table(table::Refusal::Contents(entry, field)) => {
                write!(f, " entry {entry} {field}")
            }
            Refusal::Table(table::Refusal::Body(body, byte)) => write!(
                f,
                " body {body} byte {byte}"
            ),
            _ => Ok(()),
        }
    }
}

// "refused N at E", with the place in the table before "at" where there is one.
fn put_refusal(out: &mut Output, why: Refusal, event: u64) {
    let _ = writeln!(out, "refused {}{} at {event}", why.number(), Place(why));
}

// A stream that is watched: how far it is followed, and the memory that is lent to each call.
#[derive(Drop)]
struct Watch<'a> {
    table: &'a [u8],
    record: Record,
    events: u64,
    work: &'a mut [u64],
    reports: [u32; 65],
}

impl Watch<'_> {
    // "E selected P" or "E failed P" for each report of an event.
    fn put_reports(&self, out: &mut Output, count: u64) {
        for report in self.reports.iter().take(count as usize) {
            let _ = writeln!(out, "{} {}", self.events, Report(*report));
        }
    }

    // "end E events P positions", or "cut".
    fn put_total(&self, out: &mut Output, how: &str) {
        let _ = writeln!(
            out,
            "{how} {} events {} positions",
            self.events, self.record.positions
        );
    }

    // One event byte: the lines of its reports, and where it ends the watch the last line.
    fn follow(&mut self, out: &mut Output, byte: u8) -> ControlFlow<()> {
        let event = self.events.saturating_add(1);
        let answer = engine::event(self.table, self.record, self.work, &mut self.reports, byte);
        self.record = answer.next;
        match answer.outcome {
            Err(why) => {
                put_refusal(out, why, event);
                ControlFlow::Break(())
            }
            Ok(count) => {
                self.events = event;
                self.put_reports(out, count);
                if !self.record.finished {
                    return ControlFlow::Continue(());
                }
                self.put_total(out, "end");
                ControlFlow::Break(())
            }
        }
    }
}

// No byte of the input is at fault here: what the watch refuses, it tells in its output. So no words of a fault are ever said; a
// type without values would have a `Display` that no call can meet.
impl Filter for Watch<'_> {
    type Fault = &'static str;

    fn take(&mut self, bytes: &[u8], out: &mut Output) -> ControlFlow<End<&'static str>, usize> {
        for (taken, byte) in bytes.iter().enumerate() {
            if out.left() <= EVENT_LINES {
                return ControlFlow::Continue(taken);
            }
            if self.follow(out, *byte).is_break() {
                return ControlFlow::Break(End::Whole);
            }
        }
        ControlFlow::Continue(bytes.len())
    }

    fn end(&mut self, out: &mut Output) -> Result<(), &'static str> {
        self.put_total(out, "cut");
        Ok(())
    }
}

// The watch over a table.
fn watch_over(rt: &HostRuntime, table: &[u8]) {
    let mut block = [0u8; BLOCK];
    let mut room = [0u8; BLOCK];
    let mut work = [0u64; 8100];
    let mut out = Output::new(&mut room);
    let _ = writeln!(out, "event verdict position");
    let answer = engine::start(table, 64, 40, &mut work);
    match answer.outcome {
        Err(why) => {
            put_refusal(&mut out, why, 0);
            out.flush(rt);
        }
        Ok(_) => {
            let mut watch = Watch {
                table,
                record: answer.next,
                events: 0,
                work: &mut work,
                reports: [0; 65],
            };
            pipes::run(rt, &mut watch, &mut block, &mut out);
        }
    }
}

// A table file that cannot be opened or read counts as empty.
fn main(rt: HostRuntime) {
    let mut file = [0u8; 6334];
    let size = pipes::load(&rt, b"table", &mut file);
    watch_over(&rt, &file[..size]);
}
