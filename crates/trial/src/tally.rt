// What was compared.
use crate::told::Told;
use slices::add_one;
use std::fmt;

#[derive(Clone, Copy)]
pub enum Call {
    Start,
    Event,
    Damaged,
}

#[derive(Default, Drop)]
pub struct Tally {
    pub tables: u64,
    starts: u64,
    events: u64,
    damaged: u64,
    pub reports: u64,
    taken: u64,
    // How often each number was refused, 1 first.
    refused: [u64; 16],
    // How many starts, and how many other calls, were refused 3 or 5, whose places in the file were compared.
    start_places: u64,
    damaged_places: u64,
    differed: u64,
}

impl Tally {
    pub fn check(&mut self, alike: bool) {
        if !alike {
            add_one(&mut self.differed);
        }
    }

    // By its number, as both sides are told it (`Told`).
    fn add_refusal(&mut self, call: Call, number: u64) {
        if number == 3 || number == 5 {
            match call {
                Call::Start => add_one(&mut self.start_places),
                Call::Event | Call::Damaged => add_one(&mut self.damaged_places),
            }
        }
        let count = number
            .checked_sub(1)
            .and_then(|at| self.refused.get_mut(at as usize));
        if let Some(count) = count {
            add_one(count);
        }
    }

    // One comparison more, what the watch answered, and how it went.
    pub fn note(&mut self, call: Call, said: Result<u64, Told>, alike: bool) {
        match call {
            Call::Start => add_one(&mut self.starts),
            Call::Event => add_one(&mut self.events),
            Call::Damaged => add_one(&mut self.damaged),
        }
        match said {
            Ok(_) => add_one(&mut self.taken),
            Err(told) => self.add_refusal(call, told.number),
        }
        self.check(alike);
    }
}

impl fmt::Display for Tally {
    fn fmt<W: fmt::Write>(&self, f: &mut fmt::Formatter<W>) -> fmt::Result {
        writeln!(f, "tables {}", self.tables)?;
        writeln!(f, "starts {}", self.starts)?;
        writeln!(f, "events {}", self.events)?;
        writeln!(f, "damaged calls {}", self.damaged)?;
        writeln!(f, "reports {}", self.reports)?;
        writeln!(f, "taken {}", self.taken)?;
        for (number, count) in (1..).zip(self.refused.iter()) {
            writeln!(f, "refused {number}: {count}")?;
        }
        writeln!(f, "places of starts {}", self.start_places)?;
        writeln!(f, "places of damaged calls {}", self.damaged_places)?;
        write!(f, "differed {}", self.differed)
    }
}
