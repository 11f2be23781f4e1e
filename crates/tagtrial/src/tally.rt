// What was compared.
use crate::sides::Outcome;
use retell::{Fault, Refusal};
use slices::add_one;
use std::fmt;

// How often a fault came, and its furthest place.
#[derive(Clone, Copy, Default)]
struct Count {
    times: u64,
    furthest: usize,
}

impl Count {
    fn note(&mut self, place: usize) {
        self.times = self.times.saturating_add(1);
        self.furthest = self.furthest.max(place);
    }
}

impl fmt::Display for Count {
    fn fmt<W: fmt::Write>(&self, f: &mut fmt::Formatter<W>) -> fmt::Result {
        let times = self.times;
        let furthest = self.furthest;
        write!(f, "{times}, the furthest at {furthest}")
    }
}

#[derive(Default, Drop)]
pub struct Tally {
    pub lists: u64,
    pub pieces: u64,
    // Streams in two pieces, and those read back; of these, those with a close labelled that was not.
    pub put: u64,
    pub again: u64,
    pub back_labelled: u64,
    // Streams that cannot go on at a labelled close.
    pub at_labelled: u64,
    texts: u64,
    texts_taken: u64,
    texts_nameless: u64,
    byte: Count,
    unknown: Count,
    closing: Count,
    ended: Count,
    deep: Count,
    short: Count,
    streams: u64,
    streams_taken: u64,
    streams_nameless: u64,
    stuck: Count,
    roomless: u64,
    differed: u64,
}

impl Tally {
    // How something went.
    pub fn check(&mut self, alike: bool) {
        if !alike {
            add_one(&mut self.differed);
        }
    }

    fn count_of(&mut self, fault: Fault) -> &mut Count {
        match fault {
            Fault::Byte => &mut self.byte,
            Fault::Unknown => &mut self.unknown,
            Fault::Closing => &mut self.closing,
            Fault::Ended => &mut self.ended,
            Fault::Deep => &mut self.deep,
            Fault::Short => &mut self.short,
        }
    }

    // A text that was read.
    pub fn note_text(&mut self, outcome: Outcome) {
        add_one(&mut self.texts);
        match outcome.must {
            Ok(_) => add_one(&mut self.texts_taken),
            Err(Refusal::At(fault, place)) => self.count_of(fault).note(place),
            Err(Refusal::Names | Refusal::Room) => add_one(&mut self.texts_nameless),
        }
        self.check(outcome.alike);
    }

    // A stream that was written.
    pub fn note_stream(&mut self, outcome: Outcome) {
        add_one(&mut self.streams);
        match outcome.must {
            Ok(_) => add_one(&mut self.streams_taken),
            Err(Refusal::Names) => add_one(&mut self.streams_nameless),
            Err(Refusal::At(_, place)) => self.stuck.note(place),
            Err(Refusal::Room) => add_one(&mut self.roomless),
        }
        self.check(outcome.alike);
    }
}

impl fmt::Display for Tally {
    fn fmt<W: fmt::Write>(&self, f: &mut fmt::Formatter<W>) -> fmt::Result {
        writeln!(f, "name lists {}", self.lists)?;
        writeln!(f, "texts {}", self.texts)?;
        writeln!(f, "pieces {}", self.pieces)?;
        writeln!(f, "streams {}", self.streams)?;
        writeln!(f, "in two pieces {}", self.put)?;
        writeln!(f, "read back {}", self.again)?;
        writeln!(f, "of these with closes labelled {}", self.back_labelled)?;
        writeln!(f, "texts taken {}", self.texts_taken)?;
        writeln!(f, "texts with bad names {}", self.texts_nameless)?;
        writeln!(f, "byte not allowed {}", self.byte)?;
        writeln!(f, "name unknown {}", self.unknown)?;
        writeln!(f, "closing name {}", self.closing)?;
        writeln!(f, "text ends {}", self.ended)?;
        writeln!(f, "deep {}", self.deep)?;
        writeln!(f, "output short {}", self.short)?;
        writeln!(f, "streams taken {}", self.streams_taken)?;
        writeln!(f, "streams with bad names {}", self.streams_nameless)?;
        writeln!(f, "cannot go on {}", self.stuck)?;
        writeln!(f, "of these at a labelled close {}", self.at_labelled)?;
        writeln!(f, "text short {}", self.roomless)?;
        write!(f, "differed {}", self.differed)
    }
}
