// What is lent to the watch, and what must stand in it.
use slices::{copy, part};

#[derive(Drop)]
pub struct Lent<'a> {
    pub file: &'a mut [u8],
    pub work: &'a mut [u64],
    pub reports: &'a mut [u32],
}

// How much of each.
#[derive(Clone, Copy, Default)]
pub struct Lengths {
    pub file: usize,
    pub work: usize,
    pub reports: usize,
}

impl Lent<'_> {
    pub fn lengths(&self) -> Lengths {
        Lengths {
            file: self.file.len(),
            work: self.work.len(),
            reports: self.reports.len(),
        }
    }
}

// A copy of work memory, which has at most 8,100 words.
pub fn copy_of(work: &[u64]) -> [u64; 8100] {
    let mut words = [0; 8100];
    copy(&mut words, work);
    words
}

// The words of the levels, which stand at the end of work memory, level 1 first; 0 above the depth allowed.
pub fn levels_in(work: &[u64], allowed: u64) -> [u64; 40] {
    let from = work.len().saturating_sub(allowed as usize);
    let mut levels = [0; 40];
    copy(&mut levels, part(work, from, work.len()));
    levels
}

// These reports stand at the front, and behind them only what was there before the call, 1.
pub fn reports_are(reports: &[u32], must: &[u32]) -> bool {
    reports.starts_with(must) && reports.iter().skip(must.len()).all(|report| *report == 1)
}

// The words of work memory for so many rows and levels: each row's, and one for each level.
pub fn work_words(rows: usize, depth: usize) -> usize {
    let row = depth.saturating_mul(3).saturating_add(4);
    rows.saturating_add(1)
        .saturating_mul(row)
        .saturating_add(depth)
}
