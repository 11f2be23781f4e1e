// Makes tables: bodies drawn in one of some styles, and the contents that they ask for.
use crate::dice::Dice;
use slices::{Output, low_byte, pair};

#[derive(Clone, Copy)]
enum Style {
    // Any state.
    Any,
    // No step leads to a lower state, so that runs settle and positions are decided at many moments.
    Rising,
    // The last state keeps every run that comes to it.
    Sink,
}

impl Style {
    fn draw(dice: &mut Dice) -> Style {
        match dice.draw(4) {
            0 => Style::Any,
            1 => Style::Sink,
            _ => Style::Rising,
        }
    }

    // A step of state q, of n.
    fn step(self, dice: &mut Dice, n: usize, q: usize) -> usize {
        match self {
            Style::Any => dice.draw(n),
            Style::Rising => q.saturating_add(dice.draw(n.saturating_sub(q))),
            Style::Sink => if q.saturating_add(1) == n {
                q
            } else {
                dice.draw(n)
            },
        }
    }
}

// How many states and labels a table has.
#[derive(Clone, Copy)]
struct Size {
    states: u8,
    labels: u8,
}

impl Size {
    // One of some sizes: mostly small ones, and now and then those at the limits.
    fn draw(dice: &mut Dice) -> Size {
        let size = dice.draw(20);
        let (states, labels) = match size {
            0 => (64, 32),
            1 => (1, 1),
            _ => (dice.between(2, 7), dice.between(1, 3)),
        };
        Size {
            states: low_byte(states),
            labels: low_byte(labels),
        }
    }

    // The lengths of the bodies, in their order.
    fn lengths(self) -> [usize; 5] {
        let n = usize::from(self.states);
        let k = usize::from(self.labels);
        [k, n * k, n, n * n, n]
    }
}

// The states that the labels open with, any.
fn push_openings(table: &mut Output, dice: &mut Dice, n: usize, k: usize) {
    for _ in 0..k {
        table.push(low_byte(dice.draw(n)));
    }
}

// The rows of a body: one for each state.
fn push_rows(table: &mut Output, dice: &mut Dice, style: Style, n: usize, width: usize) {
    for q in 0..n {
        for _ in 0..width {
            table.push(low_byte(style.step(dice, n, q)));
        }
    }
}

// The final states: few of them, or about half.
fn push_finals(table: &mut Output, dice: &mut Dice, n: usize) {
    let of = if dice.is_one_in(2) { n } else { 2 };
    for _ in 0..n {
        table.push(u8::from(dice.is_one_in(of)));
    }
}

fn push_bodies(table: &mut Output, dice: &mut Dice, style: Style, size: Size) {
    let n = usize::from(size.states);
    let k = usize::from(size.labels);
    push_openings(table, dice, n, k);
    push_rows(table, dice, style, n, k);
    push_rows(table, dice, style, n, 1);
    push_rows(table, dice, style, n, n);
    push_finals(table, dice, n);
}

fn push_pair(table: &mut Output, x: usize) {
    table.push(low_byte(x));
    table.push(low_byte(x / 256));
}

// The contents: of each body its kind, where it begins and how long it is.
fn push_contents(table: &mut Output, size: Size) {
    let mut from = 29usize;
    for (kind, length) in size.lengths().into_iter().enumerate() {
        table.push(low_byte(kind.saturating_add(1)));
        push_pair(table, from);
        push_pair(table, length);
        from = from.saturating_add(length);
    }
}

// Makes a table at the front of a file.
pub fn make_any<'a>(file: &'a mut [u8], dice: &mut Dice) -> &'a mut [u8] {
    let mut table = Output::new(file);
    let style = Style::draw(dice);
    let size = Size::draw(dice);
    table.push(size.states);
    table.push(size.labels);
    table.push(low_byte(dice.draw(usize::from(size.states))));
    table.push(5);
    push_contents(&mut table, size);
    push_bodies(&mut table, dice, style, size);
    table.into_written()
}

// The length of the first of some tables that stand one after the other, by its last contents entry.
pub fn table_length(tables: &[u8]) -> usize {
    usize::from(pair(tables, 25)) + usize::from(pair(tables, 27))
}
