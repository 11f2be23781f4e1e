// A byte sought and counted, in a text or a list.
use slices::part;

// The first such byte from a place on, or the end.
pub fn seek(bytes: &[u8], from: usize, byte: u8) -> usize {
    let behind = part(bytes, from, bytes.len());
    let found = behind.iter().position(|other| *other == byte);
    from.saturating_add(found.unwrap_or(behind.len()))
}

// How many such bytes stand before a place.
pub fn count(bytes: &[u8], place: usize, byte: u8) -> usize {
    let before = part(bytes, 0, place);
    before.iter().filter(|other| **other == byte).count()
}
