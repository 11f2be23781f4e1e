// Why a text or a stream is refused.

#[derive(Clone, Copy, PartialEq, Eq)]
pub enum Fault {
    // A byte of a text that may not stand there, or an event with which no stream goes on.
    Byte,
    // A name that is none of the list's.
    Unknown,
    // A closing name that is not the open one.
    Closing,
    Ended,
    Deep,
    // No room for an event or its tag.
    Short,
}

#[derive(Clone, Copy, PartialEq, Eq)]
pub enum Refusal {
    // The list of names is bad.
    Names,
    At(Fault, usize),
    // The tags of a whole stream have no room.
    Room,
}
