// Slices read and written where they reach, also one element after the other: what the second evaluators and the trials are
// written with, so that they are safe on any input. Nothing is assumed of a caller.
#![tactic(auto)]

ghost use Rattle.std.specs.Prelude.{◌≡◌, ◌+◌, ◌%◌, cond, min, Ok, Err};

// An element, or beyond the end what stands for none, as 0 among numbers.
pub fn get<T: Copy + Default>(s: &[T], at: usize) -> T {
    s.get(at).copied().unwrap_or_default()
}

// Sets an element, where there is one.
pub fn put<T: Copy>(s: &mut [T], at: usize, x: T) {
    if at < s.len() {
        s[at] = x;
    }
}

// Copies as many elements as both slices have.
pub fn copy<T: Copy>(to: &mut [T], from: &[T]) {
    let count = to.len().min(from.len());
    to[..count].copy_from_slice(&from[..count]);
}

// One more is counted.
pub fn add_one(count: &mut u64)
    ensures { count.new ≡ min (count.old + 1) 18446744073709551615 }
{
    *count = count.saturating_add(1);
}

// A line of a table of refusals: the first that applies is the one that falls.
pub fn refuse_if<E: Copy>(applies: bool, why: E) -> Result<(), E>
    ensures { result ≡ cond applies (Err why) (Ok tt) }
{
    if applies { Err(why) } else { Ok(()) }
}

// The last byte of a number.
pub fn low_byte(x: usize) -> u8
    ensures { result ≡ x % 256 }
{
    (x % 256) as u8
}

// Two bytes as a number, the low one first.
pub fn pair(s: &[u8], at: usize) -> u16 {
    let low = get(s, at);
    let high = get(s, at.saturating_add(1));
    u16::from_le_bytes([low, high])
}

// The elements from one place to another, as far as there are.
pub fn part<T>(s: &[T], from: usize, to: usize) -> &[T] {
    let end = to.min(s.len());
    let start = from.min(end);
    &s[start..end]
}

// The first elements, or all.
pub fn front<T>(s: &mut [T], count: usize) -> &mut [T] {
    let end = count.min(s.len());
    &mut s[..end]
}

// The elements from a place on, or none.
pub fn back<T>(s: &mut [T], from: usize) -> &mut [T] {
    let start = from.min(s.len());
    &mut s[start..]
}

// Elements that are written one after the other, from the front of a slice on. Those for which it has no room are counted, and
// not written. A slice beside a length, since the trials use no heap. That of `pipes` is another: it has bytes alone, and takes all of a text or none.
#[derive(Drop)]
pub struct Output<'a, T = u8> {
    pub room: &'a mut [T],
    pub length: usize,
}

impl<'a, T: Copy> Output<'a, T> {
    pub fn new(room: &'a mut [T]) -> Output<'a, T>
        ensures { result.length ≡ 0 }
    {
        Output { room, length: 0 }
    }

    pub fn push(&mut self, x: T)
        ensures { self.new.length ≡ min (self.old.length + 1) 18446744073709551615 }
    {
        put(self.room, self.length, x);
        self.length = self.length.saturating_add(1);
    }

    pub fn extend(&mut self, xs: &[T]) {
        for x in xs {
            self.push(*x);
        }
    }

    // What is written.
    pub fn written(&self) -> &[T] {
        part(self.room, 0, self.length)
    }

    // The same, to be changed.
    pub fn into_written(self) -> &'a mut [T] {
        let Output { room, length } = self;
        front(room, length)
    }
}
