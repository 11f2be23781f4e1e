// Tagged text (02, K1): what it is stands in specs/, what follows from it in proofs/. Here are the classes of its bytes, and the
// errors of reading and writing it.
#![tactic(auto)]

use std::fmt;

// What a byte may be in a text.
#[derive(Clone, Copy, Debug, PartialEq, Eq)]
pub enum Class {
    // What may stand between tags.
    Blank,
    Letter,
    // A byte of a name that is no letter.
    Name,
    // "<", "/" and ">".
    Less,
    Slash,
    Greater,
    // A byte that is allowed nowhere.
    Other,
}

// Why a text is refused at a place, in 02's order.
#[derive(Clone, Copy, Debug, PartialEq, Eq)]
pub enum Fault {
    // A byte that is not allowed there.
    Byte,
    // The tag's name is none of the list's.
    Unknown,
    // The closing name is not the open one, or none is open.
    Closing,
    // The text ends with a tag or an element open.
    Ended,
    // An opening tag at 40 open elements.
    Deep,
    // The output has no room for the event.
    Short,
}

impl fmt::Display for Fault {
    fn fmt<W: fmt::Write>(&self, f: &mut fmt::Formatter<W>) -> fmt::Result {
        match self {
            Fault::Byte => write!(f, "byte not allowed"),
            Fault::Unknown => write!(f, "name unknown"),
            Fault::Closing => write!(f, "closing name not the open one or none open"),
            Fault::Ended => write!(f, "text ends with a tag or element open"),
            Fault::Deep => write!(f, "deeper than 40"),
            Fault::Short => write!(f, "output short"),
        }
    }
}

// Why the reader has written no events.
#[derive(Clone, Copy, Debug, PartialEq, Eq)]
pub enum ReadError {
    // The list of names is bad.
    Names,
    // The text is at fault, first at this place.
    Text(Fault, usize),
}

// Why the writer has written no text.
#[derive(Clone, Copy, Debug, PartialEq, Eq)]
pub enum WriteError {
    // The list of names is bad.
    Names,
    // No whole stream goes on at this place.
    Stream(usize),
    // The output has no room for the text.
    Short,
}
