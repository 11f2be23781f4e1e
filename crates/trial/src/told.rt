// What either side says of a call, so that both can be compared.
use engine::{Outcome, Record};
use second::Claim;

// A refusal: its number, and the place that it names. In numbers, since both sides are held to those that C is told.
#[derive(Clone, Copy, PartialEq, Eq)]
pub struct Told {
    pub number: u64,
    word: u64,
    part: u64,
    inside: u64,
}

impl From<engine::Refusal> for Told {
    fn from(why: engine::Refusal) -> Told {
        let place = why.place();
        Told {
            number: why.number(),
            word: place.word,
            part: place.part,
            inside: place.inside,
        }
    }
}

impl From<second::Refusal> for Told {
    fn from(why: second::Refusal) -> Told {
        let (word, part, inside) = match why {
            second::Refusal::Contents { entry, field } => (0, entry, field),
            second::Refusal::Body { body, byte } => (0, body, byte),
            second::Refusal::Order { word } => (word, 0, 0),
            _ => (0, 0, 0),
        };
        Told {
            number: why.number(),
            word: word as u64,
            part: part as u64,
            inside: inside as u64,
        }
    }
}

// The number of reports, or why the watch refused.
pub fn said_of(outcome: Outcome) -> Result<u64, Told> {
    outcome.map_err(Told::from)
}

// No From, since neither type is of this crate.
pub fn claim_of(record: Record) -> Claim {
    Claim {
        rows: record.rows,
        allowed: record.allowed,
        depth: record.depth,
        alive: record.alive,
        positions: record.positions,
        finished: record.finished,
    }
}
