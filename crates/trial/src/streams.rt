// Streams followed by both sides, event by event.
use crate::lent::{Lent, copy_of, levels_in, reports_are, work_words};
use crate::told::{Told, claim_of, said_of};
use crate::{Desk, damage, tally};
use engine::Record;
use making::Dice;
use second::{Evaluator, Event};
use slices::{Output, add_one, copy, front, low_byte, part};

// How a stream goes.
#[derive(Clone, Copy)]
enum Manner {
    Mixed,
    Deep,
    Crowded,
    Bad,
}

impl Manner {
    fn draw(dice: &mut Dice) -> Manner {
        match dice.draw(4) {
            0 => Manner::Mixed,
            1 => Manner::Deep,
            2 => Manner::Crowded,
            _ => Manner::Bad,
        }
    }

    // The next event of a stream: now and then any byte or an end.
    fn draw_event(self, dice: &mut Dice, evaluator: &Evaluator) -> Event {
        if dice.is_one_in(80) {
            return Event::End;
        }
        match self {
            Manner::Mixed => draw_step(dice, evaluator, 30, 65),
            Manner::Deep => draw_step(dice, evaluator, 70, 85),
            Manner::Crowded => draw_step(dice, evaluator, 15, 90),
            Manner::Bad => if dice.is_one_in(4) {
                Event::from(low_byte(dice.draw(256)))
            } else {
                draw_step(dice, evaluator, 35, 70)
            },
        }
    }
}

fn draw_label(dice: &mut Dice, evaluator: &Evaluator) -> u8 {
    low_byte(dice.draw(evaluator.labels()))
}

// A close: one that names no label, the newest level's, or any.
fn draw_close(dice: &mut Dice, evaluator: &Evaluator) -> Event {
    match dice.draw(4) {
        0 => Event::Close,
        1 => Event::CloseOf(draw_label(dice, evaluator)),
        _ => evaluator.closing(),
    }
}

// An open, point or close, by how many of a hundred are opens and how many opens or points.
fn draw_step(dice: &mut Dice, evaluator: &Evaluator, opens: usize, positions: usize) -> Event {
    let x = dice.draw(100);
    let label = draw_label(dice, evaluator);
    if x < opens {
        Event::Open(label)
    } else if x < positions {
        Event::Point(label)
    } else {
        draw_close(dice, evaluator)
    }
}

// What brings a stream to its end: a close of one kind or the other, or the end.
fn draw_last(dice: &mut Dice, evaluator: &Evaluator) -> Event {
    if evaluator.claim().depth == 0 {
        return Event::End;
    }
    if dice.is_one_in(2) {
        Event::Close
    } else {
        evaluator.closing()
    }
}

// What is drawn for a stream: rows and depth, the room for reports, just enough or more, its manner, and the events.
#[derive(Clone, Copy)]
struct Plan {
    rows: usize,
    depth: usize,
    room: usize,
    manner: Manner,
    events: usize,
}

impl Plan {
    fn draw(dice: &mut Dice) -> Plan {
        let rows = draw_size(dice, 64);
        let depth = draw_size(dice, 40);
        Plan {
            rows,
            depth,
            room: rows.saturating_add(dice.between(1, 3)),
            manner: Manner::draw(dice),
            events: draw_events(dice),
        }
    }
}

fn draw_events(dice: &mut Dice) -> usize {
    match dice.draw(12) {
        0 => 900,
        1..=3 => 200,
        _ => 50,
    }
}

// A number up to a limit, small ones more often.
fn draw_size(dice: &mut Dice, limit: usize) -> usize {
    if dice.is_one_in(2) {
        dice.between(1, 5)
    } else {
        dice.between(1, limit)
    }
}

// How many positions were read before the stream: none, or nearly all that can be.
fn draw_before(dice: &mut Dice) -> u64 {
    if dice.is_one_in(12) {
        2147483608 + (dice.draw(40) % 40) as u64
    } else {
        0
    }
}

// The event call, against what the second evaluator says of it. Answers the next record.
fn follow_byte(
    lent: &mut Lent,
    evaluator: &mut Evaluator,
    desk: &mut Desk,
    record: Record,
    byte: u8,
) -> Record {
    let mut room = [0; 1024];
    let mut must = Output::new(&mut room);
    let due = evaluator
        .follow(usize::from(byte), &mut must)
        .map_err(Told::from);
    let count = must.length as u64;
    let file = &mut *lent.file;
    let work = &mut *lent.work;
    let reports = &mut *lent.reports;
    let copy = copy_of(work);
    reports.fill(1);
    let answer = engine::event(file, record, work, reports, byte);
    let said = said_of(answer.outcome);
    let claim = evaluator.claim();
    let kept = said.is_ok() || copy.starts_with(work);
    let reported = reports_are(reports, must.written());
    let next = claim_of(answer.next) == claim;
    let labelled = levels_in(work, claim.allowed) == evaluator.levels();
    let alike = said == due.map(|_| count) && kept && reported && next && labelled;
    desk.tally.note(tally::Call::Event, said, alike);
    desk.tally.reports = desk.tally.reports.saturating_add(count);
    answer.next
}

// So many bytes of a manner, and then the closes and the end: each first with a damage, then as it is. Some time after the end
// it is over.
fn follow_stream(
    lent: &mut Lent,
    evaluator: &mut Evaluator,
    desk: &mut Desk,
    begun: Record,
    plan: Plan,
) {
    let mut record = begun;
    for left in (0..plan.events.saturating_add(42)).rev() {
        let event = if left < 42 {
            draw_last(&mut desk.dice, evaluator)
        } else {
            plan.manner.draw_event(&mut desk.dice, evaluator)
        };
        let byte = u8::from(event);
        damage::try_damaged(lent, desk, record, byte);
        record = follow_byte(lent, evaluator, desk, record, byte);
        let may_end = desk.dice.is_one_in(3);
        if evaluator.claim().finished && may_end {
            break;
        }
    }
}

// A stream over memory of the length that its rows and depth ask for.
fn begin_stream(lent: &mut Lent, evaluator: &mut Evaluator, desk: &mut Desk, plan: Plan) {
    let rows = plan.rows as u64;
    let depth = plan.depth as u64;
    let file = &mut *lent.file;
    let mut record = damage::start(file, rows, depth, lent.work, desk);
    let before = draw_before(&mut desk.dice);
    record.positions = before;
    evaluator.begin(record.rows, record.allowed, before);
    follow_stream(lent, evaluator, desk, record, plan);
}

// A stream, and then damaged starts over what it left. What memory holds at first does not matter.
fn try_stream(file: &mut [u8], evaluator: &mut Evaluator, desk: &mut Desk) {
    let mut work = [12297829382473034410; 8100];
    let mut reports = [0; 72];
    let plan = Plan::draw(&mut desk.dice);
    let mut lent = Lent {
        file,
        work: front(&mut work, work_words(plan.rows, plan.depth)),
        reports: front(&mut reports, plan.room),
    };
    begin_stream(&mut lent, evaluator, desk, plan);
    damage::try_starts(file, &mut work, desk);
}

// Some streams over a table.
fn try_table(file: &mut [u8], streams: usize, desk: &mut Desk) {
    let mut evaluator = Evaluator::of(file);
    add_one(&mut desk.tally.tables);
    for _ in 0..streams {
        try_stream(file, &mut evaluator, desk);
    }
}

// A table that is made.
fn try_one_made(desk: &mut Desk) {
    let mut file = [0; 6400];
    let table = making::make_any(&mut file, &mut desk.dice);
    try_table(table, 3, desk);
}

pub fn try_made(desk: &mut Desk) {
    for _ in 0..300 {
        try_one_made(desk);
    }
}

// The first of the tables. Answers its length.
fn try_one_given(tables: &[u8], desk: &mut Desk) -> usize {
    let mut file = [0; 6400];
    let bytes = making::table_length(tables);
    copy(&mut file, part(tables, 0, bytes));
    try_table(front(&mut file, bytes), 20, desk);
    bytes
}

// Tables one after the other, at most 64.
pub fn try_given(given: &[u8], desk: &mut Desk) {
    let mut tables = given;
    for _ in 0..64 {
        let bytes = try_one_given(tables, desk);
        tables = part(tables, bytes, tables.len());
        if tables.is_empty() {
            break;
        }
    }
}
