// The same call with a damage beside it: in the file, the record, the memory or a length.
//
// The second evaluator says by which of 1 to 14 and 16 the call has to be refused, and at which place: 3 and 5 in the file, 7 in
// memory. Where it says none, memory that no run left may be stepped as it stands: then the watch takes the call, or refuses
// it by 15, and of a call that is taken the words of the levels are compared, and nothing else.
use crate::lent::{Lengths, Lent, copy_of, levels_in, reports_are};
use crate::told::{Told, claim_of, said_of};
use crate::{Desk, tally};
use engine::Record;
use making::Dice;
use second::{Call, Claim};
use slices::{front, get, put};

// Bits of an element that are turned.
#[derive(Clone, Copy)]
struct Flip<T> {
    at: usize,
    bits: T,
}

impl Flip<u8> {
    // Some bits of a byte from one place to another, at least one.
    fn draw(dice: &mut Dice, from: usize, to: usize) -> Flip<u8> {
        Flip {
            at: dice.between(from, to),
            bits: draw_bits(dice),
        }
    }
}

fn draw_bits(dice: &mut Dice) -> u8 {
    (dice.draw(255) % 255 + 1) as u8
}

// Where an offset or a length stands in the contents.
fn draw_pair(dice: &mut Dice) -> usize {
    let entry = 5 * (dice.draw(5) % 5 + 1);
    entry + 2 * (dice.draw(2) % 2)
}

// What is damaged: one or two bytes of the file, a word of memory, the record; and how much is cut off each slice.
#[derive(Clone, Copy)]
struct Harm {
    byte: Option<Flip<u8>>,
    other: Option<Flip<u8>>,
    word: Option<Flip<u64>>,
    cut: Lengths,
    record: Record,
}

impl Harm {
    fn none(record: Record) -> Harm {
        Harm {
            byte: None,
            other: None,
            word: None,
            cut: Lengths::default(),
            record,
        }
    }

    // A byte of the file, of a part of it.
    fn of_file(mut self, dice: &mut Dice, from: usize, to: usize) -> Harm {
        self.byte = Some(Flip::draw(dice, from, to));
        self
    }

    // One more byte of the file.
    fn and_file(mut self, dice: &mut Dice, from: usize, to: usize) -> Harm {
        self.other = Some(Flip::draw(dice, from, to));
        self
    }

    // An offset or a length in the contents: its high byte, or both bytes by the same bits.
    fn of_pair(mut self, dice: &mut Dice) -> Harm {
        let low = draw_pair(dice);
        let bits = draw_bits(dice);
        self.byte = Some(Flip {
            at: low.saturating_add(1),
            bits,
        });
        if dice.is_one_in(2) {
            self.other = Some(Flip { at: low, bits });
        }
        self
    }

    // The contents, in one or two bytes, or in one with a byte of the bodies.
    fn of_contents(self, dice: &mut Dice, file: usize) -> Harm {
        match dice.draw(4) {
            0 => self.of_file(dice, 4, 28),
            1 => self.of_pair(dice),
            2 => self.of_file(dice, 4, 28).and_file(dice, 29, file),
            _ => self.of_file(dice, 4, 28).and_file(dice, 4, 28),
        }
    }

    // The bodies, in one or two bytes.
    fn of_bodies(self, dice: &mut Dice, file: usize) -> Harm {
        if dice.is_one_in(2) {
            self.of_file(dice, 29, file)
        } else {
            self.of_file(dice, 29, file).and_file(dice, 29, file)
        }
    }

    fn of_length(mut self, dice: &mut Dice, of: Lengths) -> Harm {
        match dice.draw(3) {
            0 => self.cut.file = dice.draw(of.file),
            1 => self.cut.work = 1,
            _ => self.cut.reports = dice.draw(of.reports),
        }
        self
    }

    // A word of memory: one bit of it, a high one or one of the lowest.
    fn of_word(mut self, dice: &mut Dice, work: usize) -> Harm {
        let at = dice.draw(work);
        let low = dice.draw(4) % 4;
        let bits = if dice.is_one_in(8) { 1 << 63 } else { 1 << low };
        self.word = Some(Flip { at, bits });
        self
    }

    // The word of a level: one bit of it, so that often it is another label's.
    fn of_level(mut self, dice: &mut Dice, work: usize) -> Harm {
        let record = self.record;
        let allowed = record.allowed as usize;
        let at = work
            .saturating_sub(allowed)
            .saturating_add(dice.draw(allowed));
        let bits = 1 << (dice.draw(7) % 7);
        self.word = Some(Flip { at, bits });
        self
    }

    fn draw(dice: &mut Dice, of: Lengths, record: Record) -> Harm {
        let none = Harm::none(record);
        match dice.draw(10) {
            0 => none.of_file(dice, 0, 3),
            1 => none.of_contents(dice, of.file),
            2 => none.of_bodies(dice, of.file),
            3 => none.of_length(dice, of),
            4 => Harm::none(harm_record(dice, record)),
            5 => none,
            6..=7 => none.of_level(dice, of.work),
            _ => none.of_word(dice, of.work),
        }
    }

    // The damage to the file and the memory; done twice, it is undone.
    fn flip(&self, file: &mut [u8], work: &mut [u64]) {
        for Flip { at, bits } in [self.byte, self.other].into_iter().flatten() {
            put(file, at, get(file, at) ^ bits);
        }
        if let Some(Flip { at, bits }) = self.word {
            put(work, at, get(work, at) ^ bits);
        }
    }
}

// The record with a size or a count that is another, or finished where it was not.
fn harm_record(dice: &mut Dice, was: Record) -> Record {
    let mut r = was;
    let x = (dice.draw(70) % 70) as u64;
    match dice.draw(6) {
        0 => r.rows = x,
        1 => r.allowed = x,
        2 => r.depth = x,
        3 => r.alive = x,
        4 => r.positions = 2147483600 + x,
        _ => r.finished = !was.finished,
    }
    r
}

// The words of the levels that a taken event must leave, of memory as it stands.
fn levels_after(record: Record, work: &[u64], byte: u8) -> [u64; 40] {
    let mut levels = levels_in(work, record.allowed);
    second::step_levels(&mut levels, record.depth as usize, usize::from(byte));
    levels
}

// The call itself. Answers whether it was taken.
fn call(lent: Lent, desk: &mut Desk, record: Record, byte: u8) -> bool {
    let Lent {
        file,
        work,
        reports,
    } = lent;
    let claim = claim_of(record);
    let call = Call {
        file,
        claim,
        work,
        reports: reports.len(),
        byte: usize::from(byte),
    };
    let must = call.refusal().err().map(Told::from);
    let next = levels_after(record, work, byte);
    reports.fill(1);
    let answer = engine::event(file, record, work, reports, byte);
    let said = said_of(answer.outcome);
    let is_crowded = said.err() == Some(Told::from(second::Refusal::Rows));
    let named = said.err() == must || (is_crowded && must.is_none());
    let kept = match said {
        Ok(_) => levels_in(work, record.allowed) == next,
        Err(_) => claim_of(answer.next) == claim && reports_are(reports, &[]),
    };
    desk.tally.note(tally::Call::Damaged, said, named && kept);
    said.is_ok()
}

// The call with the damage, which is undone then.
fn call_damaged(lent: Lent, desk: &mut Desk, harm: &Harm, byte: u8) -> bool {
    let of = lent.lengths();
    let Lent {
        file,
        work,
        reports,
    } = lent;
    harm.flip(file, work);
    let cut = Lent {
        file: front(file, of.file.saturating_sub(harm.cut.file)),
        work: front(work, of.work.saturating_sub(harm.cut.work)),
        reports: front(reports, of.reports.saturating_sub(harm.cut.reports)),
    };
    let taken = call(cut, desk, harm.record, byte);
    harm.flip(file, work);
    taken
}

// A damaged call on a copy of the memory; where it is refused, the copy is as it was.
pub fn try_damaged(lent: &mut Lent, desk: &mut Desk, record: Record, byte: u8) {
    let of = lent.lengths();
    let harm = Harm::draw(&mut desk.dice, of, record);
    let mut copy = copy_of(lent.work);
    let damaged = Lent {
        file: &mut *lent.file,
        work: front(&mut copy, of.work),
        reports: &mut *lent.reports,
    };
    let taken = call_damaged(damaged, desk, &harm, byte);
    desk.tally.check(taken || copy.starts_with(lent.work));
}

// The start call, against what the second evaluator says of it. Answers the record.
pub fn start(file: &[u8], rows: u64, depth: u64, work: &mut [u64], desk: &mut Desk) -> Record {
    let must = second::start_refusal(file, rows, depth, work.len());
    let copy = copy_of(work);
    let answer = engine::start(file, rows, depth, work);
    let said = said_of(answer.outcome);
    let named = said.err() == must.err().map(Told::from);
    let mut begun = Claim::default();
    let left = match said {
        Ok(_) => {
            begun.rows = rows;
            begun.allowed = depth;
            levels_in(work, depth) == [0; 40]
        }
        Err(_) => copy.starts_with(work),
    };
    let is_first = claim_of(answer.next) == begun;
    desk.tally
        .note(tally::Call::Start, said, named && left && is_first);
    answer.next
}

// A start with rows and a depth that are drawn, and may be out of range, and with a damage.
fn try_start(file: &mut [u8], work: &mut [u64], desk: &mut Desk) {
    let rows = desk.dice.draw(67) as u64;
    let depth = desk.dice.draw(43) as u64;
    let of = Lengths {
        file: file.len(),
        work: work.len(),
        reports: 1,
    };
    let harm = Harm::draw(&mut desk.dice, of, Record::started(rows, depth));
    harm.flip(file, work);
    let bytes = file.len().saturating_sub(harm.cut.file);
    let words = work.len().saturating_sub(harm.cut.work);
    let sizes = harm.record;
    start(
        &file[..bytes],
        sizes.rows,
        sizes.allowed,
        &mut work[..words],
        desk,
    );
    harm.flip(file, work);
}

pub fn try_starts(file: &mut [u8], work: &mut [u64], desk: &mut Desk) {
    for _ in 0..12 {
        try_start(file, work, desk);
    }
}
