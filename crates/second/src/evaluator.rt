// A stream followed event by event: which positions have to be reported with which verdict, and which refusal falls. There is
// room for 1,024 events and as many positions.
use crate::book::Book;
use crate::event::Event;
use crate::file::{labels, start_state, states};
use crate::order::Claim;
use crate::reach::{Reach, States};
use crate::refusal::Refusal;
use crate::run::Run;
use slices::{Output, add_one, get, low_byte, put, refuse_if};

// What all completions say of a position.
#[derive(Clone, Copy, Default, PartialEq, Eq)]
enum Verdict {
    #[default]
    Alive,
    RuledOut,
    Certain,
}

// The record that the watch must have, and what was taken.
#[derive(Clone, Copy, Default)]
struct Seen {
    claim: Claim,
    events: usize,
    positions: usize,
}

impl Seen {
    // After an event; how many are alive is not known yet.
    fn after(mut self, event: Event) -> Seen {
        let claim = &mut self.claim;
        if event.is_open() {
            claim.depth = claim.depth.saturating_add(1);
        }
        if event.is_close() {
            claim.depth = claim.depth.saturating_sub(1);
        }
        if event.is_position() {
            claim.positions = claim.positions.saturating_add(1);
            self.positions = self.positions.saturating_add(1);
        }
        claim.finished = event == Event::End;
        self.events = self.events.saturating_add(1);
        self
    }
}

// The word that reports a position with a verdict.
fn report(position: u64, verdict: Verdict) -> u32 {
    let word = 2 * (position % 2147483648);
    if verdict == Verdict::Certain {
        (word + 1) as u32
    } else {
        word as u32
    }
}

// A table, what its hedges reach, what is known of the stream, and a verdict for each position.
#[derive(Drop)]
pub struct Evaluator {
    book: Book,
    reach: Reach,
    labels: usize,
    start: usize,
    // The positions that were read before the stream.
    before: u64,
    seen: Seen,
    verdicts: [Verdict; 1024],
    // What they are after an event, once it is taken.
    next: [Verdict; 1024],
}

impl Evaluator {
    pub fn of(file: &[u8]) -> Evaluator {
        let book = Book::of(file);
        let reach = Reach::of(&book, states(file), labels(file));
        Evaluator {
            book,
            reach,
            labels: labels(file),
            start: start_state(file),
            before: 0,
            seen: Seen::default(),
            verdicts: [Verdict::Alive; 1024],
            next: [Verdict::Alive; 1024],
        }
    }

    // Nothing of the stream is read yet, and no position has a verdict.
    pub fn begin(&mut self, rows: u64, allowed: u64, before: u64) {
        self.before = before;
        self.seen = Seen {
            claim: Claim {
                rows,
                allowed,
                positions: before,
                ..Claim::default()
            },
            ..Seen::default()
        };
        self.verdicts = [Verdict::Alive; 1024];
    }

    pub fn labels(&self) -> usize {
        self.labels
    }

    // The record that the watch must have.
    pub fn claim(&self) -> Claim {
        self.seen.claim
    }

    // The words of the levels that the watch must have. The search goes back from the last event: an open that no close behind it
    // closed has opened the deepest level that is not found yet.
    pub fn levels(&self) -> [u64; 40] {
        let mut words = [0; 40];
        let mut level = self.seen.claim.depth as usize;
        let mut closed = 0usize;
        for byte in self.book.stream(self.seen.events).iter().rev() {
            match Event::from(*byte) {
                Event::Close | Event::CloseOf(_) => closed = closed.saturating_add(1),
                Event::Open(label) if closed == 0 => {
                    level = level.saturating_sub(1);
                    put(&mut words, level, u64::from(label) + 1);
                }
                Event::Open(_) => closed = closed.saturating_sub(1),
                _ => {}
            }
        }
        words
    }

    // The word of the newest level, 0 where nothing is open, as memory has it.
    fn newest_level(&self) -> u64 {
        let depth = self.seen.claim.depth as usize;
        get(&self.levels(), depth.saturating_sub(1))
    }

    // What closes the newest level and names its label; where nothing is open, label 0.
    pub fn closing(&self) -> Event {
        let label = self.newest_level().saturating_sub(1);
        Event::CloseOf(low_byte(label as usize))
    }

    // Where the level under a closing one can be at its own end: it waits in q, and the closing one ends in the set.
    fn after_close(&self, q: usize, set: States) -> States {
        set.lead_to(|p| self.reach.ends_from(self.book.apply(q, p)))
    }

    // The states in which some completion ends.
    fn ends_of(&self, run: &Run) -> States {
        let mut ends = self.reach.ends_from(run.newest());
        for level in (0..run.depth).rev() {
            ends = self.after_close(run.at(level), ends);
        }
        ends
    }

    fn some_end(&self, ends: States, final_byte: usize) -> bool {
        (0..64).any(|p| ends.has(p) && self.book.final_byte(p) == final_byte)
    }

    // What all completions of a run say of its position.
    fn verdict(&self, run: &Run) -> Verdict {
        let ends = self.ends_of(run);
        if !self.some_end(ends, 0) {
            Verdict::Certain
        } else if !self.some_end(ends, 1) {
            Verdict::RuledOut
        } else {
            Verdict::Alive
        }
    }

    // What the end says of its position: nothing more comes.
    fn last_verdict(&self, run: &Run) -> Verdict {
        if self.book.final_byte(run.newest()) == 1 {
            Verdict::Certain
        } else {
            Verdict::RuledOut
        }
    }

    // What must be said of a position after the events that were read: the end's verdict after an end.
    fn judge(&self, seen: Seen, position: usize) -> Verdict {
        if seen.claim.finished {
            let read = seen.events.saturating_sub(1);
            return self.last_verdict(&Run::of(&self.book, self.start, read, position));
        }
        self.verdict(&Run::of(&self.book, self.start, seen.events, position))
    }

    // The verdict that stands at a place, or where there is none yet, that after the events that were read.
    fn next_verdict(&self, seen: Seen, at: usize) -> Verdict {
        match get(&self.verdicts, at) {
            Verdict::Alive => self.judge(seen, at.saturating_add(1)),
            verdict => verdict,
        }
    }

    // Judges the positions that were read. Answers how many are alive.
    fn judge_all(&mut self, seen: Seen) -> u64 {
        let mut alive = 0;
        for at in 0..seen.positions.min(self.next.len()) {
            let verdict = self.next_verdict(seen, at);
            put(&mut self.next, at, verdict);
            if verdict == Verdict::Alive {
                add_one(&mut alive);
            }
        }
        alive
    }

    // The verdicts that stand now; each that is new has to be reported.
    fn settle(&mut self, reports: &mut Output<u32>) {
        let mut position = self.before;
        let next = self.next.iter().take(self.seen.positions);
        for (verdict, new) in self.verdicts.iter_mut().zip(next) {
            position = position.saturating_add(1);
            if *verdict != *new {
                *verdict = *new;
                reports.push(report(position, *new));
            }
        }
    }

    // One event byte: the refusal that falls, 8 to 16, or the reports that must come.
    pub fn follow(&mut self, byte: usize, reports: &mut Output<u32>) -> Result<(), Refusal> {
        let event = Event::from(byte);
        let claim = self.seen.claim;
        claim.byte_refusal(self.labels, self.newest_level(), event)?;
        self.book.put_event(self.seen.events, u8::from(event));
        let mut read = self.seen.after(event);
        let alive = self.judge_all(read);
        refuse_if(claim.rows < alive, Refusal::Rows)?;
        read.claim.alive = alive;
        self.seen = read;
        self.settle(reports);
        Ok(())
    }
}
