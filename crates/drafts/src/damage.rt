// Damages what is written: a list, a text or a stream.
use making::Dice;
use slices::{Output, back, front, get, low_byte, put};

// One of the signs, the byte that is there, or any byte.
fn draw_byte(dice: &mut Dice, signs: &[u8], there: u8) -> u8 {
    match dice.draw(6) {
        0 => there,
        1 | 2 => low_byte(dice.draw(256)),
        _ => get(signs, dice.draw(signs.len())),
    }
}

// The byte comes in so many times at a place.
fn put_in(draft: &mut Output, at: usize, count: usize, byte: u8) {
    let length = draft.length.saturating_add(count);
    let behind = back(front(draft.room, length), at);
    let fitting = count.min(behind.len());
    behind.rotate_right(fitting);
    behind[..fitting].fill(byte);
    draft.length = length;
}

fn take_out(draft: &mut Output, at: usize) {
    let behind = back(front(draft.room, draft.length.saturating_add(1)), at);
    if !behind.is_empty() {
        behind.copy_within(1.., 0);
    }
    draft.length = draft.length.saturating_sub(1);
}

// Two bytes change places.
fn exchange(draft: &mut Output, at: usize, other: usize) {
    let length = draft.room.len();
    if at < length && other < length {
        draft.room.swap(at, other);
    }
}

// One damage; the signs are bytes that mean something there.
fn harm(draft: &mut Output, dice: &mut Dice, signs: &[u8]) {
    let at = dice.draw(draft.length);
    let byte = draw_byte(dice, signs, get(draft.room, at));
    let other = dice.draw(draft.length);
    match dice.draw(7) {
        0 => take_out(draft, at),
        1 => exchange(draft, at, other),
        2 => put_in(draft, at, 1, byte),
        3 => put_in(draft, at, (other % 17).saturating_add(1), byte),
        4 => draft.length = at,
        _ => put(draft.room, at, byte),
    }
}

// A damage to one of so many, and to one of three of these a second.
pub fn harm_some(draft: &mut Output, dice: &mut Dice, signs: &[u8], of: usize) {
    if dice.is_one_in(of) {
        harm(draft, dice, signs);
        if dice.is_one_in(3) {
            harm(draft, dice, signs);
        }
    }
}
