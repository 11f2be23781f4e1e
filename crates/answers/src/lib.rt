// The watch's record, what an event byte means, and what a call answers.
//
// The record goes into each call by value and the next one comes back.
#![tactic(auto)]

ghost use Rattle.std.specs.Prelude.{◌≡◌, ◌<◌};
ghost use Rattle.answers.specs.declared.Refusal.{Refusal};
ghost use Rattle.answers.specs.Record.{started_of, no_record, deeper_of, shallower_of, one_more_of, with_alive, finished_of};
ghost use Rattle.answers.specs.Bytes.{meaning_of};
ghost use Rattle.answers.specs.Answers.{refusal_number, outcome_number, nowhere, place_of, outcome_place, refused_of, taken_of};

#[derive(Clone, Copy, Debug, PartialEq, Eq)]
pub struct Record {
    pub rows: u64,
    // The depth allowed and the depth now.
    pub allowed: u64,
    pub depth: u64,
    // How many positions are alive, and how many were read.
    pub alive: u64,
    pub positions: u64,
    pub finished: bool,
}

// The form is set: methods that take the record by value.
impl Record {
    // The record of a watch that has read nothing.
    pub fn started(rows: u64, allowed: u64) -> Record
        ensures { result ≡ started_of rows allowed }
    {
        Record {
            rows,
            allowed,
            depth: 0,
            alive: 0,
            positions: 0,
            finished: false,
        }
    }

    // A record of zeros, not finished: that of a refused start.
    pub fn none() -> Record
        ensures { result ≡ no_record }
    {
        Record::started(0, 0)
    }

    // One level more is open.
    pub fn deeper(mut self) -> Record
        requires { self.depth < 40 }
        ensures { result ≡ deeper_of self }
    {
        self.depth += 1;
        self
    }

    // One level fewer is open.
    pub fn shallower(mut self) -> Record
        requires { 0 < self.depth }
        ensures { result ≡ shallower_of self }
    {
        self.depth -= 1;
        self
    }

    // One position more was read.
    pub fn one_more(mut self) -> Record
        requires { self.positions < 2147483647 }
        ensures { result ≡ one_more_of self }
    {
        self.positions += 1;
        self
    }

    // So many positions are alive.
    pub fn with_alive(mut self, alive: u64) -> Record
        ensures { result ≡ with_alive alive self }
    {
        self.alive = alive;
        self
    }

    // The stream has ended.
    pub fn finish(mut self) -> Record
        ensures { result ≡ finished_of self }
    {
        self.depth = 0;
        self.alive = 0;
        self.finished = true;
        self
    }
}

// What an event byte means, with its label.
#[derive(Clone, Copy, Debug, PartialEq, Eq)]
pub enum Event {
    Open(u64),
    Point(u64),
    // A close that does not say what it closes, and one that does.
    Close,
    CloseOf(u64),
    End,
    Unknown,
}

// The form is set: a match on ranges.
impl From<u8> for Event {
    ghost from_gives = { λ byte event. event ≡ meaning_of byte };

    fn from(byte: u8) -> Event {
        match byte {
            0..=31 => Event::Open(u64::from(byte)),
            32..=63 => Event::Point(u64::from(byte - 32)),
            64 => Event::Close,
            65 => Event::End,
            66..=97 => Event::CloseOf(u64::from(byte - 66)),
            _ => Event::Unknown,
        }
    }
}

// The place that a refusal names, in three numbers; 0 where it names none. No enum, since it crosses to C as three words.
#[derive(Clone, Copy, Debug, PartialEq, Eq)]
pub struct Place {
    // 7: the word of work memory, from 0.
    pub word: u64,
    // 3: the contents entry; 5: the body, both from 1.
    pub part: u64,
    // 3: the entry's field (0 kind, 1 offset, 2 length); 5: the byte in the body, from 0.
    pub inside: u64,
}

impl Place {
    pub fn none() -> Place
        ensures { result ≡ nowhere }
    {
        Place {
            word: 0,
            part: 0,
            inside: 0,
        }
    }
}

// Why a call is refused, in the order of checking; the first five are the table's.
#[derive(Clone, Copy, Debug, PartialEq, Eq)]
pub enum Refusal {
    Table(table::Refusal),
    // Rows or depth allowed out of range, work length wrong, or reports shorter than rows + 1.
    Sizes,
    // Record or work is not in order: the place of the first word that breaks it.
    Order(u64),
    // The watch has finished.
    Finished,
    // The byte means nothing.
    Unknown,
    // The label is not one of the table's.
    Label,
    // A close with nothing open.
    NothingOpen,
    // A close that names another label than the one that opened the level.
    ClosingLabel,
    // An open at the depth allowed.
    TooDeep,
    // An end with a level open.
    LevelOpen,
    // An open or point after the last position.
    Positions,
    // More positions would be alive than there are rows.
    Rows,
}

impl Refusal {
    // Its number, by which C and the programs' lines name it. The order of checking is another one.
    pub fn number(self) -> u64
        ensures { result ≡ refusal_number self }
    {
        match self {
            Refusal::Table(why) => why.number(),
            Refusal::Sizes => 6,
            Refusal::Order(_) => 7,
            Refusal::Finished => 8,
            Refusal::Unknown => 9,
            Refusal::Label => 10,
            Refusal::NothingOpen => 11,
            Refusal::ClosingLabel => 16,
            Refusal::TooDeep => 12,
            Refusal::LevelOpen => 13,
            Refusal::Positions => 14,
            Refusal::Rows => 15,
        }
    }

    // The place that it names.
    pub fn place(self) -> Place
        ensures { result ≡ place_of self }
    {
        match self {
            Refusal::Table(why) => Place {
                word: 0,
                part: why.part(),
                inside: why.inside(),
            },
            Refusal::Order(place) => Place {
                word: place,
                part: 0,
                inside: 0,
            },
            _ => Place::none(),
        }
    }
}

impl From<table::Refusal> for Refusal {
    ghost from_gives = { λ why refusal. refusal ≡ Refusal.Table why };

    fn from(why: table::Refusal) -> Refusal {
        Refusal::Table(why)
    }
}

// What became of a call: taken, with the number of reports, or refused.
pub type Outcome = Result<u64, Refusal>;

// What an outcome tells of a refusal, in numbers.
pub trait Numbered {
    // The refusal's number, by which C is told, and 0 where the call was taken.
    fn number(self) -> u64;

    // The refusal's place, and none where the call was taken.
    fn place(self) -> Place;
}

impl Numbered for Outcome {
    fn number(self) -> u64
        ensures { result ≡ outcome_number self }
    {
        match self {
            Ok(_) => 0,
            Err(why) => why.number(),
        }
    }

    fn place(self) -> Place
        ensures { result ≡ outcome_place self }
    {
        match self {
            Ok(_) => Place::none(),
            Err(why) => why.place(),
        }
    }
}

// The answer of a call: the next record, or where it is refused the old one.
#[derive(Clone, Copy, Debug, PartialEq, Eq)]
pub struct Answer {
    pub next: Record,
    pub outcome: Outcome,
}

impl Answer {
    pub fn taken(next: Record, reports: u64) -> Answer
        ensures { result ≡ taken_of next reports }
    {
        Answer {
            next,
            outcome: Ok(reports),
        }
    }

    pub fn refused(next: Record, why: Refusal) -> Answer
        ensures { result ≡ refused_of next why }
    {
        Answer {
            next,
            outcome: Err(why),
        }
    }

    // Its outcome's number and place.
    pub fn number(self) -> u64
        ensures { result ≡ outcome_number self.outcome }
    {
        self.outcome.number()
    }

    pub fn place(self) -> Place
        ensures { result ≡ outcome_place self.outcome }
    {
        self.outcome.place()
    }
}
