// Any call judged by the lines of the refusals' table, all but 15, which only who follows the stream can tell.
//
// A word of memory is judged by its place alone: it is one of the last, which are the levels', or its row and column follow
// by division.
ghost use Rattle.std.specs.Prelude.{◌<◌};

use crate::event::Event;
use crate::file::{file_refusal, is_product, labels, states};
use crate::refusal::Refusal;
use slices::{get, refuse_if};

// What a caller's record says.
#[derive(Clone, Copy, Default, PartialEq, Eq)]
pub struct Claim {
    pub rows: u64,
    pub allowed: u64,
    pub depth: u64,
    pub alive: u64,
    pub positions: u64,
    pub finished: bool,
}

const LAST_POSITION: u64 = 2147483647;

// Words in a row, for a depth of at most 40.
fn row_words(allowed: u64) -> usize
    ensures { 0 < result }
{
    3 * (allowed.min(40) as usize) + 4
}

// Where the levels' words begin: there is one for each allowed level, at the end.
fn levels_at(allowed: u64, work: usize) -> usize {
    work.saturating_sub(allowed as usize)
}

// Rows, depth and the length of work are not as they must be.
fn is_misfit(rows: u64, allowed: u64, work: usize) -> bool {
    let levels = levels_at(allowed, work);
    !(1..=64).contains(&rows)
        || !(1..=40).contains(&allowed)
        || !is_product(
            levels,
            (rows as usize).saturating_add(1),
            row_words(allowed),
        )
}

impl Claim {
    // The record breaks order by itself.
    fn is_broken(self) -> bool {
        self.rows < self.alive
            || self.allowed < self.depth
            || LAST_POSITION < self.positions
            || (self.finished && (self.depth != 0 || self.alive != 0))
    }

    // 8 to 14 and 16, by the table's labels and the word of the newest level.
    pub fn byte_refusal(self, labels: usize, newest: u64, event: Event) -> Result<(), Refusal> {
        let label = event.label();
        let strange = label.is_some_and(|label| labels <= usize::from(label));
        let named = label.filter(|_| event.is_close());
        let wrong = named.is_some_and(|label| newest != u64::from(label) + 1);
        let is_full = LAST_POSITION <= self.positions;
        refuse_if(self.finished, Refusal::Finished)?;
        refuse_if(event.is_unknown(), Refusal::Unknown)?;
        refuse_if(strange, Refusal::Label)?;
        refuse_if(event.is_close() && self.depth == 0, Refusal::NothingOpen)?;
        refuse_if(wrong, Refusal::ClosingLabel)?;
        refuse_if(
            event.is_open() && self.allowed <= self.depth,
            Refusal::TooDeep,
        )?;
        refuse_if(event == Event::End && self.depth != 0, Refusal::LevelOpen)?;
        refuse_if(event.is_position() && is_full, Refusal::Positions)
    }
}

// What is passed to the watch for an event; of the reports only how many there is room for.
#[derive(Clone, Copy)]
pub struct Call<'a> {
    pub file: &'a [u8],
    pub claim: Claim,
    pub work: &'a [u64],
    pub reports: usize,
    pub byte: usize,
}

impl Call<'_> {
    // A word of a row in use, by its column.
    fn fits_column(self, at: usize, column: usize, width: usize) -> bool {
        let claim = self.claim;
        let x = get(self.work, at);
        if column == 0 {
            if at < width {
                return x == 0;
            }
            return get(self.work, at - width) < x && x <= claim.positions;
        }
        if claim.depth < ((column - 1) / 3) as u64 {
            return x == 0;
        }
        (column - 1) % 3 != 0 || x < states(self.file) as u64
    }

    // The word of a level, counted from 0.
    fn fits_level(self, x: u64, level: usize) -> bool {
        let claim = self.claim;
        if claim.depth <= level as u64 {
            return x == 0;
        }
        1 <= x && x <= labels(self.file) as u64
    }

    // The word at a place is in order.
    fn fits(self, at: usize) -> bool {
        let claim = self.claim;
        let width = row_words(claim.allowed);
        let levels = levels_at(claim.allowed, self.work.len());
        if levels <= at {
            return self.fits_level(get(self.work, at), at - levels);
        }
        if claim.finished || claim.alive < (at / width) as u64 {
            return get(self.work, at) == 0;
        }
        self.fits_column(at, at % width, width)
    }

    // The first word out of order. The search goes down from the last word.
    fn first_fault(self) -> Option<usize> {
        (0..self.work.len())
            .rev()
            .filter(|at| !self.fits(*at))
            .last()
    }

    // 7, of a record or a word.
    fn order_refusal(self) -> Result<(), Refusal> {
        let all = self.work.len();
        refuse_if(self.claim.is_broken(), Refusal::Order { word: all })?;
        match self.first_fault() {
            Some(word) => Err(Refusal::Order { word }),
            None => Ok(()),
        }
    }

    // The word of the newest level in memory; where nothing is open, that of the first.
    fn newest_level(self) -> u64 {
        let claim = self.claim;
        let newest = claim.depth.saturating_sub(1) as usize;
        let levels = levels_at(claim.allowed, self.work.len());
        get(self.work, levels.saturating_add(newest))
    }

    // 1 to 14 and 16.
    pub fn refusal(self) -> Result<(), Refusal> {
        let claim = self.claim;
        let event = Event::from(self.byte);
        start_refusal(self.file, claim.rows, claim.allowed, self.work.len())?;
        refuse_if(self.reports as u64 <= claim.rows, Refusal::Sizes)?;
        self.order_refusal()?;
        claim.byte_refusal(labels(self.file), self.newest_level(), event)
    }
}

// 1 to 6 of a start.
pub fn start_refusal(file: &[u8], rows: u64, allowed: u64, work: usize) -> Result<(), Refusal> {
    file_refusal(file)?;
    refuse_if(is_misfit(rows, allowed, work), Refusal::Sizes)
}
