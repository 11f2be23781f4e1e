// Why a call is refused, and the place that it names.

// In the order of their numbers.
#[derive(Clone, Copy, PartialEq, Eq)]
pub enum Refusal {
    Short,
    Header,
    // The entry, and 0 for its kind, 1 for its offset, 2 for its length: both are told by division from the byte's place.
    Contents { entry: usize, field: usize },
    Length,
    // The body, and the byte in it.
    Body { body: usize, byte: usize },
    Sizes,
    // The word of memory; the length of memory where the record itself is out of order.
    Order { word: usize },
    Finished,
    Unknown,
    Label,
    NothingOpen,
    TooDeep,
    LevelOpen,
    Positions,
    Rows,
    ClosingLabel,
}

impl Refusal {
    // What the watch's number is held against.
    pub fn number(self) -> u64 {
        match self {
            Refusal::Short => 1,
            Refusal::Header => 2,
            Refusal::Contents { .. } => 3,
            Refusal::Length => 4,
            Refusal::Body { .. } => 5,
            Refusal::Sizes => 6,
            Refusal::Order { .. } => 7,
            Refusal::Finished => 8,
            Refusal::Unknown => 9,
            Refusal::Label => 10,
            Refusal::NothingOpen => 11,
            Refusal::TooDeep => 12,
            Refusal::LevelOpen => 13,
            Refusal::Positions => 14,
            Refusal::Rows => 15,
            Refusal::ClosingLabel => 16,
        }
    }
}
