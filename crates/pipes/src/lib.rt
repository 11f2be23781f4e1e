// What the programs that stand in a pipe have in common: a file read whole, the loop from standard input to standard output
// (`filter`), what waits to be written (`output`), the place in the input, and the line of a list of names that is not
// good. No public function asks anything of its caller.
#![tactic(auto)]

ghost use Rattle.std.specs.Prelude.{◌≡◌, ◌+◌, ◌≤◌, min, take};
ghost use Rattle.std.specs.Io.KnownBytes.{Consumes};
ghost use Rattle.pipes.specs.Counts.{IsPrefixLen};

mod filter;
mod output;

pub use filter::{End, Filter, run};
pub use output::Output;
use std::io::Read;
use std::rt::Files;
use std::{fs, str};

// So many bytes are read at once, or wait to be written.
pub const BLOCK: usize = 65536;

// Reads once, and answers how many bytes it put at the front: what there is, up to so much room, and 0 at the end, as std's `read` does. A read
// that fails counts as the end.
pub fn read_some<R: Read>(from: &mut R, block: &mut [u8]) -> usize
    ensures within { IsPrefixLen result block.new }
    ensures bytes { Consumes (R.remaining from.old) (R.remaining from.new) (take result block.new) }
{
    from.read(block).unwrap_or(0)
}

// Reads until there is no more room, or to the end, and answers how many bytes it put at the front. A loop by hand, since
// std's `read_to_end` fills a `Vec`, and the programs use no heap.
pub fn read_full<R: Read>(from: &mut R, file: &mut [u8]) -> usize
    ensures within { IsPrefixLen result file.new }
    ensures bytes { Consumes (R.remaining from.old) (R.remaining from.new) (take result file.new) }
{
    let mut size = 0;
    while size < file.len() {
        let bytes = read_some(from, &mut file[size..]);
        if bytes == 0 {
            break;
        }
        size += bytes;
    }
    size
}

// Reads a file, as far as there is room, and answers how many bytes it put at the front. One that cannot be opened or read
// counts as empty, and so does one whose path is no UTF-8, in which std takes paths.
pub fn load(rt: &impl Files, path: &[u8], file: &mut [u8]) -> usize
    ensures { IsPrefixLen result file.new }
{
    let Ok(path) = str::from_utf8(path) else {
        return 0;
    };
    let Ok(mut from) = fs::open(rt, path) else {
        return 0;
    };
    read_full(&mut from, file)
}

// The place so many bytes on. It stops growing at its maximum.
pub fn later(place: u64, bytes: usize) -> u64
    ensures { result ≡ min (place + bytes) 18446744073709551615 }
{
    place.saturating_add(bytes as u64)
}

// The line of a list of names that is not good.
pub fn refuse_names(rt: &impl Eprint) {
    let _ = eprintln!(rt; "refused: bad name list");
}
