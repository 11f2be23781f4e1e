// The list of names of tagged text (02, K1), each on a line of its own: whether it is good, the label of a name, the name
// of a label. With it the class of each byte value, by which a name is told from what stands around it.
#![tactic(auto)]

ghost use Rattle.std.specs.Prelude.{◌≡◌};
ghost use Rattle.grammar.specs.Bytes.{class_of};
ghost use Rattle.grammar.specs.Names.{good_names};
ghost use Rattle.names.specs.Words.{no_word, with_byte, has_byte, spelt, label_in, goes_on_by, stands_at, word_at};

use grammar::Class;
use grammar::Class::{
    Blank as B, Greater as GT, Less as LT, Letter as L, Name as N, Other as O, Slash as SL,
};

// The form is set: a constant table of the classes. A row for each 16 byte values, from 0 on.
static CLASSES: [Class; 256] = [
    O, O, O, O, O, O, O, O, O, O, B, O, O, B, O, O, // from 0: the line feed and the carriage return
    O, O, O, O, O, O, O, O, O, O, O, O, O, O, O, O, // from 16
    B, O, O, O, O, O, O, O, O, O, O, O, O, N, N, SL, // from 32: the space, "-", "." and "/"
    N, N, N, N, N, N, N, N, N, N, O, O, LT, O, GT, O, // from 48: the digits, "<" and ">"
    O, L, L, L, L, L, L, L, L, L, L, L, L, L, L, L, // from 64: A to O
    L, L, L, L, L, L, L, L, L, L, L, O, O, O, O, N, // from 80: P to Z, and "_"
    O, L, L, L, L, L, L, L, L, L, L, L, L, L, L, L, // from 96: a to o
    L, L, L, L, L, L, L, L, L, L, L, O, O, O, O, O, // from 112: p to z
    O, O, O, O, O, O, O, O, O, O, O, O, O, O, O, O, // from 128
    O, O, O, O, O, O, O, O, O, O, O, O, O, O, O, O, // from 144
    O, O, O, O, O, O, O, O, O, O, O, O, O, O, O, O, // from 160
    O, O, O, O, O, O, O, O, O, O, O, O, O, O, O, O, // from 176
    O, O, O, O, O, O, O, O, O, O, O, O, O, O, O, O, // from 192
    O, O, O, O, O, O, O, O, O, O, O, O, O, O, O, O, // from 208
    O, O, O, O, O, O, O, O, O, O, O, O, O, O, O, O, // from 224
    O, O, O, O, O, O, O, O, O, O, O, O, O, O, O, O, // from 240
];

pub fn class_of(byte: u8) -> Class
    ensures { result ≡ class_of byte }
{
    CLASSES[byte as usize]
}

// The first bytes of a name, with their number: 17 where there are more than 16. An array beside a length, since the reader
// and the writer have fixed memory and no heap.
#[derive(Clone, Copy)]
pub struct Word {
    // The number stands first, so that a copy takes the bytes whole.
    pub length: usize,
    pub bytes: [u8; 16],
}

impl Word {
    pub fn none() -> Word
        ensures { result ≡ no_word }
    {
        Word {
            bytes: [0; 16],
            length: 0,
        }
    }

    // One byte more.
    pub fn with(self, byte: u8) -> Word
        ensures { result ≡ with_byte self byte }
    {
        let at = self.length;
        let mut next = self;
        if at < 16 {
            next.bytes[at] = byte;
            next.length = at + 1;
        } else {
            next.length = 17;
        }
        next
    }

    // Its byte at this place is that one.
    pub fn has(self, at: usize, byte: u8) -> bool
        ensures { result ≡ has_byte self at byte }
    {
        at < self.length && at < 16 && self.bytes[at] == byte
    }

    // The bytes that it holds.
    pub fn spelt(&self) -> &[u8]
        ensures { result.now ≡ spelt self.now }
    {
        if self.length < 16 {
            &self.bytes[..self.length]
        } else {
            &self.bytes
        }
    }
}

// The label of a name: of the first 32 lines, the place of the first that is this word.
pub fn label_of(names: &[u8], word: Word) -> Option<u8>
    ensures { result ≡ label_in names.now word }
{
    let mut label: u8 = 0;
    let mut at: usize = 0;
    let mut agrees = true;
    for &byte in names {
        if 32 <= label {
            return None;
        }
        if byte == 10 {
            if agrees && at == word.length {
                return Some(label);
            }
            label += 1;
            at = 0;
            agrees = true;
        } else {
            agrees = agrees && word.has(at, byte);
            at += 1;
        }
    }
    None
}

// A name of the list can go on with this byte: it begins with a letter, and has at most 16 bytes.
fn goes_on(word: Word, byte: u8) -> bool
    ensures { result ≡ goes_on_by word byte }
{
    let class = class_of(byte);
    if word.length == 0 {
        matches!(class, Class::Letter)
    } else {
        word.length < 16 && matches!(class, Class::Letter | Class::Name)
    }
}

// The word may stand in the list as the name of this label: it is not empty, and it is found there first.
fn stands(names: &[u8], word: Word, label: u64) -> bool
    ensures { result ≡ stands_at names.now word label }
{
    word.length != 0 && label_of(names, word).is_some_and(|a| u64::from(a) == label)
}

// How many bytes the longest good list has: 32 names of 16 bytes, each followed by one byte 10.
pub const LONGEST: usize = 544;

// The list is good: 1 to 32 different names of 1 to 16 bytes, each followed by one byte 10.
pub fn good(names: &[u8]) -> bool
    ensures { result ≡ good_names names.now }
{
    let mut word = Word::none();
    let mut label: u64 = 0;
    for &byte in names {
        if byte == 10 {
            if !stands(names, word, label) {
                return false;
            }
            word = Word::none();
            label += 1;
        } else {
            if !goes_on(word, byte) {
                return false;
            }
            word = word.with(byte);
        }
    }
    word.length == 0 && 0 < label
}

// The name of a label: of the first 32 lines, the one at that place; or an empty word, which no list has, and no Option: the
// writer asks of any word whether it can be written.
pub fn name_at(names: &[u8], label: u64) -> Word
    ensures { result ≡ word_at names.now label }
{
    let mut word = Word::none();
    if 32 <= label {
        return word;
    }
    let mut lines = label;
    for &byte in names {
        if byte == 10 {
            if lines == 0 {
                return word;
            }
            lines -= 1;
            word = Word::none();
        } else {
            word = word.with(byte);
        }
    }
    Word::none()
}
