// What an event byte means. `retell` has an enum of its own: the two share no code, so that they don't share a misreading.
use slices::put;

#[derive(Clone, Copy, PartialEq, Eq)]
pub enum Event {
    Open(u8),
    Point(u8),
    // A close that names no label, and one that does.
    Close,
    CloseOf(u8),
    End,
    Unknown(u8),
}

impl From<u8> for Event {
    fn from(byte: u8) -> Event {
        match byte {
            0..=31 => Event::Open(byte),
            32..=63 => Event::Point(byte - 32),
            64 => Event::Close,
            65 => Event::End,
            66..=97 => Event::CloseOf(byte - 66),
            _ => Event::Unknown(byte),
        }
    }
}

// A number beyond a byte means nothing either.
impl From<usize> for Event {
    fn from(number: usize) -> Event {
        u8::try_from(number).map_or(Event::Unknown(255), Event::from)
    }
}

impl From<Event> for u8 {
    fn from(event: Event) -> u8 {
        match event {
            Event::Open(label) => label,
            Event::Point(label) => label.wrapping_add(32),
            Event::Close => 64,
            Event::End => 65,
            Event::CloseOf(label) => label.wrapping_add(66),
            Event::Unknown(byte) => byte,
        }
    }
}

impl Event {
    pub fn label(self) -> Option<u8> {
        match self {
            Event::Open(label) | Event::Point(label) | Event::CloseOf(label) => Some(label),
            _ => None,
        }
    }

    pub fn is_open(self) -> bool {
        matches!(self, Event::Open(_))
    }

    pub fn is_unknown(self) -> bool {
        matches!(self, Event::Unknown(_))
    }

    pub fn is_position(self) -> bool {
        matches!(self, Event::Open(_) | Event::Point(_))
    }

    pub fn is_close(self) -> bool {
        matches!(self, Event::Close | Event::CloseOf(_))
    }
}

// The words of the levels, level 1 first, as memory has them, whose layout may not change: 1 + the label where the level is open,
// and else 0. What they are after an event that is taken at a depth, of words as they stand.
pub fn step_levels(words: &mut [u64], depth: usize, byte: usize) {
    match Event::from(byte) {
        Event::Open(label) => put(words, depth, u64::from(label) + 1),
        Event::Close | Event::CloseOf(_) => put(words, depth.saturating_sub(1), 0),
        _ => {}
    }
}
