// What either side says of a text or a stream, so that both can be compared.
use grammar::{ReadError, WriteError};
use retell::{Fault, Refusal};
use slices::front;

// How many events or bytes there are, or why there are none.
pub type Said = Result<usize, Refusal>;

// How many there are, or the place of a refusal; 0 where it names none.
pub fn place_of(said: Said) -> usize {
    match said {
        Ok(count) => count,
        Err(Refusal::At(_, place)) => place,
        Err(Refusal::Names | Refusal::Room) => 0,
    }
}

// No From, here and below, since none of the types is of this crate.
fn fault_of(fault: grammar::Fault) -> Fault {
    match fault {
        grammar::Fault::Byte => Fault::Byte,
        grammar::Fault::Unknown => Fault::Unknown,
        grammar::Fault::Closing => Fault::Closing,
        grammar::Fault::Ended => Fault::Ended,
        grammar::Fault::Deep => Fault::Deep,
        grammar::Fault::Short => Fault::Short,
    }
}

// What has stopped a text or a stream.
pub fn fault_at(stop: Option<grammar::Fault>) -> Option<Fault> {
    stop.map(fault_of)
}

fn refusal_of_text(error: ReadError) -> Refusal {
    match error {
        ReadError::Names => Refusal::Names,
        ReadError::Text(fault, place) => Refusal::At(fault_of(fault), place),
    }
}

fn refusal_of_stream(error: WriteError) -> Refusal {
    match error {
        WriteError::Names => Refusal::Names,
        WriteError::Stream(place) => Refusal::At(Fault::Byte, place),
        WriteError::Short => Refusal::Room,
    }
}

pub fn read(names: &[u8], text: &[u8], out: &mut [u8]) -> Said {
    tags::reader::read(names, text, out).map_err(refusal_of_text)
}

pub fn write(names: &[u8], events: &[u8], out: &mut [u8]) -> Said {
    tags::writer::write(names, events, out).map_err(refusal_of_stream)
}

// What must be said, and whether the other side said it too and wrote the same.
#[derive(Clone, Copy)]
pub struct Outcome {
    pub must: Said,
    pub alike: bool,
}

// Each side has an output of 4,096 bytes, and writes to so many of them.
pub fn compare<F: FnOnce(&mut [u8]) -> Said, G: FnOnce(&mut [u8]) -> Said>(
    room: usize,
    second: F,
    first: G,
) -> Outcome
    requires second { F.IsAlwaysCallable second }
    requires first { G.IsAlwaysCallable first }
{
    let mut told = [170; 4096];
    let mut out = [170; 4096];
    let must = second(front(&mut told, room));
    let said = first(front(&mut out, room));
    Outcome {
        must,
        alike: said == must && told == out,
    }
}
