// Draws streams of events, with labelled closes and others; now and then a label is wrong.
use crate::damage;
use making::Dice;
use retell::Event;
use slices::{Output, low_byte};

// How many events, how deep at most, and how many of a hundred events open an element where one may: a deep stream has about
// as many open as there may be. With it how many of a hundred closes are labelled, and how many labels have a name.
#[derive(Clone, Copy)]
struct Plan {
    events: usize,
    limit: usize,
    opens: usize,
    labelled: usize,
    labels: usize,
}

impl Plan {
    fn draw(dice: &mut Dice, labels: usize) -> Plan {
        let deep = dice.is_one_in(4);
        Plan {
            events: draw_events(dice, deep),
            limit: if deep {
                dice.between(39, 42)
            } else {
                dice.draw(7)
            },
            opens: if deep { 90 } else { 40 },
            labelled: draw_labelled(dice),
            labels,
        }
    }

    // An event where so many elements are open. A close has no label yet.
    fn draw_event(self, dice: &mut Dice, depth: usize) -> Event {
        let x = dice.draw(100);
        let label = low_byte(dice.draw(self.labels));
        if x < self.opens && depth < self.limit {
            Event::Open(label)
        } else if x < 70 || depth == 0 {
            Event::Point(label)
        } else {
            Event::Close(None)
        }
    }

    // The label of a close: that of the open element; now and then any with a name, or any at all.
    fn draw_label(self, dice: &mut Dice, open: u8) -> u8 {
        match dice.draw(150) {
            0 => low_byte(dice.draw(self.labels)),
            1 => low_byte(dice.draw(32)),
            _ => open,
        }
    }

    // A close, which may get a label.
    fn push_close(self, events: &mut Output, dice: &mut Dice) {
        let mut label = None;
        if dice.draw(100) < self.labelled {
            let open = retell::open_label(events.written()).unwrap_or(0);
            label = Some(self.draw_label(dice, open));
        }
        events.push(u8::from(Event::Close(label)));
    }

    // Events one after the other. Answers how many elements are open then.
    fn push_events(self, events: &mut Output, dice: &mut Dice) -> usize {
        let mut depth = 0usize;
        for _ in 0..self.events {
            match self.draw_event(dice, depth) {
                Event::Close(_) => {
                    self.push_close(events, dice);
                    depth = depth.saturating_sub(1);
                }
                Event::Open(label) => {
                    events.push(u8::from(Event::Open(label)));
                    depth = depth.saturating_add(1);
                }
                other => events.push(u8::from(other)),
            }
        }
        depth
    }
}

fn draw_events(dice: &mut Dice, deep: bool) -> usize {
    if deep {
        dice.between(60, 110)
    } else {
        let most = dice.draw(60);
        dice.draw(most)
    }
}

// Of a hundred closes none, all or half.
fn draw_labelled(dice: &mut Dice) -> usize {
    match dice.draw(3) {
        0 => 0,
        1 => 100,
        _ => 50,
    }
}

// Makes a whole stream, but for its depth and for wrong labels.
pub fn make(events: &mut Output, dice: &mut Dice, labels: usize) {
    let plan = Plan::draw(dice, labels);
    for _ in 0..plan.push_events(events, dice) {
        plan.push_close(events, dice);
    }
    events.push(u8::from(Event::End));
}

// Damages one of so many streams.
pub fn harm(events: &mut Output, dice: &mut Dice, of: usize) {
    damage::harm_some(events, dice, b"\0\x01\x1f !?@@@AAABBCab", of);
}
