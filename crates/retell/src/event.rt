// What an event byte means. `second` has an enum of its own: the two share no code, so that they don't share a misreading.

// The labelled close of label 0; those of the labels up to 31 follow it.
pub const LABELLED: u8 = 66;

#[derive(Clone, Copy, PartialEq, Eq)]
pub enum Event {
    Open(u8),
    Point(u8),
    // With the label that it names, if it names one.
    Close(Option<u8>),
    End,
    Unknown(u8),
}

impl From<u8> for Event {
    fn from(byte: u8) -> Event {
        match byte {
            0..=31 => Event::Open(byte),
            32..=63 => Event::Point(byte - 32),
            64 => Event::Close(None),
            65 => Event::End,
            LABELLED..=97 => Event::Close(Some(byte - LABELLED)),
            _ => Event::Unknown(byte),
        }
    }
}

// A number beyond a byte means nothing either.
impl From<usize> for Event {
    fn from(number: usize) -> Event {
        u8::try_from(number).map_or(Event::Unknown(255), Event::from)
    }
}

impl From<Event> for u8 {
    fn from(event: Event) -> u8 {
        match event {
            Event::Open(label) => label,
            Event::Point(label) => label.wrapping_add(32),
            Event::Close(None) => 64,
            Event::End => 65,
            Event::Close(Some(label)) => label.wrapping_add(LABELLED),
            Event::Unknown(byte) => byte,
        }
    }
}
