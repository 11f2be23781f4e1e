// The table file: which files are taken, and why the others are refused (refusals 1 to 5 of 01).
//
// `read` takes any bytes. A file that it takes can be stepped by: it is `Sound`, and so a `Table`.
#![tactic(auto)]

ghost use Rattle.std.specs.Prelude.{◌≡◌, ◌+◌, ◌<◌, ◌≤◌, leb, length, position};
ghost use Rattle.meaning.specs.Table.{body_at};
ghost use Rattle.bodies.specs.Sound.{states_in, labels_in};
ghost use Rattle.table.specs.File.{header_right, two_bytes, field_right, reading_of};
ghost use Rattle.table.specs.File.{field_found, entry_found, byte_found, body_found};
ghost use Rattle.table.specs.File.{field_number, refusal_number, refusal_part, refusal_inside};

pub use bodies::Table;
use offsets::Sizes;
use std::fmt;

// A field of a contents entry.
#[derive(Clone, Copy, Debug, PartialEq, Eq)]
pub enum Field {
    Kind,
    Offset,
    Length,
}

impl Field {
    // Its number, by which C names it.
    pub fn number(self) -> u64
        ensures { result ≡ field_number self }
    {
        match self {
            Field::Kind => 0,
            Field::Offset => 1,
            Field::Length => 2,
        }
    }
}

impl fmt::Display for Field {
    fn fmt<W: fmt::Write>(&self, f: &mut fmt::Formatter<W>) -> fmt::Result {
        f.write_str(match self {
            Field::Kind => "kind",
            Field::Offset => "offset",
            Field::Length => "length",
        })
    }
}

// Why a file is refused: 1 to 5 of 01, in order. 3 and 5 name the first wrong place in file order.
#[derive(Clone, Copy, Debug, PartialEq, Eq)]
pub enum Refusal {
    // Under 29 bytes.
    Short,
    // n or k out of range, start state ≥ n, or byte 3 is not 5.
    Header,
    // A contents entry is not the one that n and k fix: which, from 1, and the field of it.
    Contents(u64, Field),
    // The length is not the one that n and k fix.
    Length,
    // A body of kind 1 to 4 names a state ≥ n, or kind 5 holds a byte above 1: which body, from 1, and the byte of it, from 0.
    Body(u64, u64),
}

impl Refusal {
    // Its number, by which C and the programs' lines name it.
    pub fn number(self) -> u64
        ensures { result ≡ refusal_number self }
    {
        match self {
            Refusal::Short => 1,
            Refusal::Header => 2,
            Refusal::Contents(_, _) => 3,
            Refusal::Length => 4,
            Refusal::Body(_, _) => 5,
        }
    }

    // The entry or the body that it names; else 0. In numbers, as C is told.
    pub fn part(self) -> u64
        ensures { result ≡ refusal_part self }
    {
        match self {
            Refusal::Short => 0,
            Refusal::Header => 0,
            Refusal::Contents(entry, _) => entry,
            Refusal::Length => 0,
            Refusal::Body(body, _) => body,
        }
    }

    // The field, by its number, or the byte that it names in that part; else 0.
    pub fn inside(self) -> u64
        ensures { result ≡ refusal_inside self }
    {
        match self {
            Refusal::Short => 0,
            Refusal::Header => 0,
            Refusal::Contents(_, field) => field.number(),
            Refusal::Length => 0,
            Refusal::Body(_, byte) => byte,
        }
    }
}

// Is line 2 of the refusals passed? The file has at least the 29 bytes before its bodies: that stays a clause, since no `Headed`
// can be made before this has answered.
fn header_right(table: &[u8]) -> bool
    requires { 29 ≤ length table.now }
    ensures { result ≡ header_right table.now }
{
    let n = bodies::byte(table, 0);
    let k = bodies::byte(table, 1);
    (1..=64).contains(&n)
        && (1..=32).contains(&k)
        && bodies::byte(table, 2) < n
        && bodies::byte(table, 3) == 5
}

// The first byte that is not below a limit.
fn first_above(bytes: &[u8], limit: u64) -> Option<usize>
    ensures { result ≡ position (λ b. leb limit b) bytes.now }
{
    bytes.iter().position(|byte| limit <= u64::from(*byte))
}

// A file with a header that is right, and as long as header and contents at least.
#[derive(Clone, Copy)]
struct Headed<'a> {
    file: &'a [u8],
    ghost long: { 29 ≤ length file.now },
    ghost few: { (states_in file.now ≤ 64) × (labels_in file.now ≤ 32) },
}

// Entries, their fields and bodies are tested against what n and k fix. They are counted from 0.
impl Headed<'_> {
    // n and k.
    fn sizes(&self) -> Sizes
        ensures states { result.states ≡ states_in self.now.file.now }
        ensures labels { result.labels ≡ labels_in self.now.file.now }
    {
        Sizes {
            states: bodies::byte(self.file, 0),
            labels: bodies::byte(self.file, 1),
        }
    }

    // The two bytes from a place on, the low one first.
    fn two_bytes(&self, at: u64) -> u64
        requires { at + 1 < length self.now.file.now }
        ensures { result ≡ two_bytes self.now.file.now at }
    {
        let at = at as usize;
        u64::from(u16::from_le_bytes([self.file[at], self.file[at + 1]]))
    }

    // Is a field of contents entry i right?
    fn field_right(&self, i: u64, field: Field) -> bool
        requires { i < 5 }
        ensures { result ≡ field_right self.now.file.now i field }
    {
        let at = 4 + 5 * i;
        match field {
            Field::Kind => bodies::byte(self.file, at) == i + 1,
            Field::Offset => self.two_bytes(at + 1) == self.sizes().body_at(i),
            Field::Length => self.two_bytes(at + 3) == self.sizes().body_length(i),
        }
    }

    // The first wrong field of contents entry i.
    fn wrong_field(&self, i: u64) -> Option<Field>
        requires { i < 5 }
        ensures { result ≡ field_found self.now.file.now i }
    {
        if !self.field_right(i, Field::Kind) {
            return Some(Field::Kind);
        }
        if !self.field_right(i, Field::Offset) {
            return Some(Field::Offset);
        }
        if !self.field_right(i, Field::Length) {
            return Some(Field::Length);
        }
        None
    }

    // The first wrong contents entry, and the first wrong field of it. A loop, here and over the bodies: the proof through
    // `find_map` did not close.
    fn wrong_entry(&self) -> Option<(u64, Field)>
        ensures { result ≡ entry_found self.now.file.now }
    {
        for i in 0..5 {
            if let Some(field) = self.wrong_field(i) {
                return Some((i, field));
            }
        }
        None
    }

    // The first byte of body i that it may not hold, counted from the body's start.
    fn wrong_byte(&self, i: u64) -> Option<u64>
        requires whole { length self.now.file.now ≡ body_at (states_in self.now.file.now) (labels_in self.now.file.now) 5 }
        requires kind { i < 5 }
        ensures { result ≡ byte_found self.now.file.now i }
    {
        let sizes = self.sizes();
        let limit = if i < 4 { sizes.states } else { 2 };
        let body = &self.file[sizes.body_at(i) as usize..][..sizes.body_length(i) as usize];
        first_above(body, limit).map(|place| place as u64)
    }

    // The first body that holds a byte that it may not, and the first such byte of it.
    fn wrong_body(&self) -> Option<(u64, u64)>
        requires { length self.now.file.now ≡ body_at (states_in self.now.file.now) (labels_in self.now.file.now) 5 }
        ensures { result ≡ body_found self.now.file.now }
    {
        for i in 0..5 {
            if let Some(byte) = self.wrong_byte(i) {
                return Some((i, byte));
            }
        }
        None
    }
}

// Is the file a table? The lowest refusal that applies is given, with the first place that it is given for.
pub fn read(table: &[u8]) -> Result<(u64, u64), Refusal>
    ensures { result ≡ reading_of table.now }
{
    if table.len() < 29 {
        return Err(Refusal::Short);
    }
    if !header_right(table) {
        return Err(Refusal::Header);
    }
    let headed = Headed { file: table };
    if let Some((entry, field)) = headed.wrong_entry() {
        return Err(Refusal::Contents(entry + 1, field));
    }
    let sizes = headed.sizes();
    if table.len() as u64 != sizes.file_length() {
        return Err(Refusal::Length);
    }
    if let Some((body, byte)) = headed.wrong_body() {
        return Err(Refusal::Body(body + 1, byte));
    }
    Ok((sizes.states, sizes.labels))
}
