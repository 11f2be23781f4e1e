// Makes texts of streams: their tags, with blanks between them and now and then another name, and then a damage.
use crate::damage;
use making::Dice;
use retell::Event;
use slices::{Output, get, low_byte, put};

// A blank, now and then.
fn push_blank(text: &mut Output, dice: &mut Dice) {
    if dice.is_one_in(4) {
        text.push(get(b" \n\r", dice.draw(3)));
    }
}

// The label of an event's tag, or now and then any.
fn draw_label(events: &[u8], at: usize, dice: &mut Dice, labels: usize) -> u8 {
    if dice.is_one_in(100) {
        return low_byte(dice.draw(labels));
    }
    retell::label_at(events, at)
}

// Now and then the byte before the end of a tag is a z: its name is another then, and that of a point opens an element.
fn misspell(text: &mut Output, dice: &mut Dice) {
    if dice.is_one_in(200) {
        let at = text.length.saturating_sub(2);
        put(text.room, at, b'z');
    }
}

// Makes the text of a stream.
pub fn make(names: &[u8], events: &[u8], text: &mut Output, dice: &mut Dice) {
    let labels = retell::lines(names);
    for (at, byte) in events.iter().enumerate() {
        push_blank(text, dice);
        push_blank(text, dice);
        let label = draw_label(events, at, dice, labels);
        retell::spell(names, Event::from(*byte), usize::from(label), text);
        misspell(text, dice);
    }
}

// Damages a text, in one of two cases.
pub fn harm(text: &mut Output, dice: &mut Dice) {
    damage::harm_some(text, dice, b"<>/<>/ \n\r\tabABzZ@[`{-._09:,", 2);
}
