// Draws lists of names. Most are good; others are empty, have a name twice, 33 names, a name of 17 bytes, or a damage.
use crate::damage;
use making::Dice;
use slices::{Output, get, low_byte};

// How names are made.
#[derive(Clone, Copy)]
enum Naming {
    // Of so many bytes of the alphabet, at first and then, and at most so many.
    Drawn {
        first: usize,
        then: usize,
        most: usize,
    },
    Numbered,
}

// How the names of a list are made, and how many there are at most.
#[derive(Clone, Copy)]
struct Plan {
    naming: Naming,
    lines: usize,
}

impl Plan {
    // A few short names of two letters, of which one is often the front of another, or the same; a few of any bytes; many of any
    // bytes; many that differ in their last two bytes.
    fn draw(dice: &mut Dice) -> Plan {
        let (first, then, most, lines) = match dice.draw(4) {
            0 => (2, 2, 3, 4),
            1 => (52, 65, 16, 8),
            2 => (52, 65, 17, 33),
            _ => {
                return Plan {
                    naming: Naming::Numbered,
                    lines: 33,
                };
            }
        };
        Plan {
            naming: Naming::Drawn { first, then, most },
            lines,
        }
    }

    // How many names: any number of few, and nearly all of many; now and then none.
    fn draw_lines(self, dice: &mut Dice) -> usize {
        if dice.is_one_in(50) {
            return 0;
        }
        dice.between(self.lines.saturating_sub(8).saturating_add(1), self.lines)
    }
}

// One of the first bytes of the alphabet.
fn draw_byte(dice: &mut Dice, bytes: usize) -> u8 {
    get(
        b"abcdefghijklmnopqrstuvwxyzABCDEFGHIJKLMNOPQRSTUVWXYZ0123456789-._",
        dice.draw(bytes),
    )
}

// The last decimal digit of a number.
fn digit(number: usize) -> u8 {
    low_byte(usize::from(b'0') + number % 10)
}

fn push_name(names: &mut Output, dice: &mut Dice, naming: Naming, number: usize) {
    match naming {
        Naming::Drawn { first, then, most } => {
            let count = dice.between(1, most);
            names.push(draw_byte(dice, first));
            for _ in 1..count {
                names.push(draw_byte(dice, then));
            }
        }
        // 16 bytes, which end in the number.
        Naming::Numbered => {
            names.extend(b"Storm.gate-no_");
            names.push(digit(number / 10));
            names.push(digit(number));
        }
    }
}

// Makes a list.
pub fn make(names: &mut Output, dice: &mut Dice) {
    let plan = Plan::draw(dice);
    for number in 0..plan.draw_lines(dice) {
        push_name(names, dice, plan.naming, number);
        names.push(b'\n');
    }
    damage::harm_some(names, dice, b"\n\n\naAzZ09-._<>/ ", 5);
}
