// Tries the reader of table files at the edges of each line of refusals, and shows the sets of a table.
//
// A line a try: which table (n = 1 and k = 1, or n = 64 and k = 32, all its states 0), how many of its bytes are read,
// which byte is set to what, and the answer: "taken n k", or "refused" with 01's number and, for 3 and 5, the place in two
// numbers: the entry and its field (0 kind, 1 offset, 2 length), or the body and its byte. Then the same answer for the
// table on standard input and, where it has three states or more, some of its sets: with 01's table W these are the
// document's cases 1 to 6. A write that fails is let go.
#![tactic(auto)]

ghost use Rattle.std.specs.Prelude.{◌≤◌};
ghost use Rattle.bodies.specs.Automaton.{automaton};

use std::fmt;
use std::io::Print;
use table::{Refusal, Table};

// The tables that are tried.
#[derive(Clone, Copy)]
enum Sizes {
    // n = 1 and k = 1.
    Least,
    // n = 64 and k = 32.
    Largest,
}

impl Sizes {
    fn states(self) -> u64 {
        match self {
            Sizes::Least => 1,
            Sizes::Largest => 64,
        }
    }

    // How many bytes the file has.
    fn length(self) -> usize {
        match self {
            Sizes::Least => 34,
            Sizes::Largest => 6333,
        }
    }

    // The header and contents.
    fn front(self) -> &'static [u8; 29] {
        match self {
            Sizes::Least =>
                b"\x01\x01\x00\x05\x01\x1d\x00\x01\x00\x02\x1e\x00\x01\x00\x03\x1f\x00\x01\x00\x04\x20\x00\x01\x00\x05\x21\x00\x01\x00",
            Sizes::Largest =>
                b"\x40\x20\x00\x05\x01\x1d\x00\x20\x00\x02\x3d\x00\x00\x08\x03\x3d\x08\x40\x00\x04\x7d\x08\x00\x10\x05\x7d\x18\x40\x00",
        }
    }
}

// What is tried of a table.
#[derive(Clone, Copy)]
enum Try {
    // So many of its bytes are read. (Byte 2 is 0.)
    Length(Sizes, usize),
    // This byte has that value.
    Byte(Sizes, usize, u8),
}

const TRIES: [Try; 41] = [
    // The file's length.
    Try::Length(Sizes::Least, 0),
    Try::Length(Sizes::Least, 28),
    Try::Length(Sizes::Least, 29),
    Try::Length(Sizes::Least, 33),
    Try::Length(Sizes::Least, 34),
    Try::Length(Sizes::Least, 35),
    Try::Length(Sizes::Largest, 6332),
    Try::Length(Sizes::Largest, 6333),
    Try::Length(Sizes::Largest, 6334),
    // The header.
    Try::Byte(Sizes::Least, 0, 0),
    Try::Byte(Sizes::Largest, 0, 65),
    Try::Byte(Sizes::Least, 1, 0),
    Try::Byte(Sizes::Largest, 1, 33),
    Try::Byte(Sizes::Largest, 2, 63),
    Try::Byte(Sizes::Largest, 2, 64),
    Try::Byte(Sizes::Largest, 3, 4),
    Try::Byte(Sizes::Largest, 3, 6),
    // Bytes of the first, the fourth and the last contents entry.
    Try::Byte(Sizes::Largest, 4, 2),
    Try::Byte(Sizes::Largest, 5, 30),
    Try::Byte(Sizes::Largest, 6, 1),
    Try::Byte(Sizes::Largest, 7, 33),
    Try::Byte(Sizes::Largest, 8, 1),
    Try::Byte(Sizes::Largest, 20, 126),
    Try::Byte(Sizes::Largest, 21, 9),
    Try::Byte(Sizes::Largest, 23, 15),
    Try::Byte(Sizes::Largest, 24, 4),
    Try::Byte(Sizes::Largest, 28, 1),
    // Contents for another n, or another k: the first place that is then wrong.
    Try::Byte(Sizes::Largest, 0, 63),
    Try::Byte(Sizes::Largest, 1, 31),
    // The first and the last byte of each body.
    Try::Byte(Sizes::Largest, 29, 64),
    Try::Byte(Sizes::Largest, 60, 64),
    Try::Byte(Sizes::Largest, 61, 64),
    Try::Byte(Sizes::Largest, 2108, 64),
    Try::Byte(Sizes::Largest, 2109, 64),
    Try::Byte(Sizes::Largest, 2172, 64),
    Try::Byte(Sizes::Largest, 2173, 64),
    Try::Byte(Sizes::Largest, 6268, 64),
    Try::Byte(Sizes::Largest, 6268, 63),
    Try::Byte(Sizes::Largest, 6269, 2),
    Try::Byte(Sizes::Largest, 6332, 2),
    Try::Byte(Sizes::Largest, 6332, 1),
];

// What `read` answers of a file.
#[derive(Clone, Copy)]
struct Answer(Result<(u64, u64), Refusal>);

impl fmt::Display for Answer {
    fn fmt<W: fmt::Write>(&self, f: &mut fmt::Formatter<W>) -> fmt::Result {
        match self.0 {
            Ok((n, k)) => write!(f, "taken {n} {k}"),
            Err(why) if why.part() > 0 => {
                write!(
                    f,
                    "refused {} place {} {}",
                    why.number(),
                    why.part(),
                    why.inside()
                )
            }
            Err(why) => write!(f, "refused {}", why.number()),
        }
    }
}

fn try_table(rt: &impl Print, tried: Try) {
    let (table, bytes, at, value) = match tried {
        Try::Length(table, bytes) => (table, bytes, 2, 0),
        Try::Byte(table, at, value) => (table, table.length(), at, value),
    };
    let mut file = [0u8; 6334];
    file[..29].copy_from_slice(table.front());
    if let Some(byte) = file.get_mut(at) {
        *byte = value;
    }
    let answer = Answer(table::read(&file[..bytes.min(file.len())]));
    let n = table.states();
    let _ = println!(rt; "n {n}, {bytes} bytes, byte {at} = {value}: {answer}");
}

// T, acc(1), the sets at the start, and down of the first three states, over W's sets at the start.
fn show(rt: &impl Print, table: &Table)
    requires { 3 ≤ (automaton table.now).states }
{
    let n = table.states();
    let trees = sets::trees(table);
    let accs = sets::accs(table, trees);
    let _ = println!(rt;
        "T {trees}, acc(1) {}, at start {} and {}",
        accs[1],
        sets::safe(n, &accs, sets::ends(table, true)),
        sets::safe(n, &accs, sets::ends(table, false))
    );
    let _ = println!(rt;
        "down(0,4) {}, down(0,25) {}, down(1,25) {}, down(2,4) {}",
        sets::down(table, &accs, 0, 4),
        sets::down(table, &accs, 0, 25),
        sets::down(table, &accs, 1, 25),
        sets::down(table, &accs, 2, 4)
    );
}

// What `read` answers of the file, and the sets of a table with three states or more.
fn judge(rt: &impl Print, file: &[u8]) {
    let answer = table::read(file);
    let _ = println!(rt; "standard input: {}", Answer(answer));
    if let Ok((n, _)) = answer {
        if 3 <= n {
            show(rt, &Table { file });
        }
    }
}

fn main(rt: HostRuntime) {
    for tried in &TRIES {
        try_table(&rt, *tried);
    }
    let mut file = [0u8; 6334];
    let bytes = pipes::read_full(&mut rt.stdin(), &mut file);
    judge(&rt, &file[..bytes]);
}
