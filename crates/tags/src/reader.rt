// The reader: tagged text in, event bytes out. A cursor, by value, says how far a text is read, so that it can be fed in
// pieces; `read` takes a whole text, and judges all of it before it writes.
ghost use Rattle.std.specs.Prelude.{◌≡◌, Ok, length};
ghost use Rattle.grammar.specs.Reading.{read_answer, read_out, end_stop};
ghost use Rattle.tags.specs.Feeding.{fed_of};
ghost use Rattle.tags.specs.Cursors.{begin, moved, closed_in, tag_at, open_step, close_step, point_step, tag_step, between, angle, slashed, opening, closing, empty, step_of, event_by, next_by, cursor_step, feed_in, feed_out, whole_stop};

use crate::feeding;
use crate::feeding::Steps;
use crate::levels::Levels;
use grammar::{Class, Fault, ReadError};
use names::Word;

// What is begun of a tag: nothing, "<", "</", "<x", "</x" or "<x/".
#[derive(Clone, Copy, Debug, PartialEq, Eq)]
pub enum Within {
    Between,
    Angle,
    Slashed,
    Opening,
    Closing,
    Empty,
}

// How far a text is read: what is begun of a tag, with its name, and the open elements. The name is no part of what is begun,
// since the promises speak of any cursor.
#[derive(Clone, Copy)]
pub struct Cursor {
    pub within: Within,
    pub name: Word,
    pub levels: Levels,
}

// The cursor after a byte, and the event that the byte gives, if it ends a tag.
#[derive(Clone, Copy)]
pub struct Stepped {
    pub next: Cursor,
    pub event: Option<u8>,
}

impl Cursor {
    // Nothing is read yet.
    pub fn begin() -> Cursor
        ensures { result ≡ begin }
    {
        Cursor {
            within: Within::Between,
            name: Word::none(),
            levels: Levels::none(),
        }
    }

    // More of a tag is begun.
    fn goes(&mut self, within: Within, name: Word) -> Result<Option<u8>, Fault>
        ensures value { result ≡ event_by (Ok (moved self.old within name)) }
        ensures next { self.new ≡ next_by self.old (Ok (moved self.old within name)) }
    {
        self.within = within;
        self.name = name;
        Ok(None)
    }

    // A whole tag gives an event; after it these elements are open.
    fn gives(&mut self, levels: Levels, event: u8) -> Result<Option<u8>, Fault>
        ensures value { result ≡ event_by (Ok (tag_at levels event)) }
        ensures next { self.new ≡ next_by self.old (Ok (tag_at levels event)) }
    {
        self.within = Within::Between;
        self.name = Word::none();
        self.levels = levels;
        Ok(Some(event))
    }

    // An opening tag of a known name.
    fn opens(&mut self, label: u8) -> Result<Option<u8>, Fault>
        ensures value { result ≡ event_by (open_step self.old label) }
        ensures next { self.new ≡ next_by self.old (open_step self.old label) }
    {
        if 40 <= self.levels.depth {
            return Err(Fault::Deep);
        }
        self.gives(self.levels.deeper(label), label)
    }

    // A closing tag of a known name gives the close that names its label, which is below 32; one that is not is taken for its
    // remainder.
    fn closes(&mut self, label: u8) -> Result<Option<u8>, Fault>
        ensures value { result ≡ event_by (close_step self.old label) }
        ensures next { self.new ≡ next_by self.old (close_step self.old label) }
    {
        if self.levels.newest() == Some(label) {
            self.gives(self.levels.shallower(), 66 + label % 32)
        } else {
            Err(Fault::Closing)
        }
    }

    // An empty-element tag of a known name: a label is below 32, and one that is not is taken for its remainder.
    fn points(&mut self, label: u8) -> Result<Option<u8>, Fault>
        ensures value { result ≡ event_by (Ok (point_step self.old label)) }
        ensures next { self.new ≡ next_by self.old (Ok (point_step self.old label)) }
    {
        self.gives(self.levels, 32 + label % 32)
    }

    // A tag at its ">": its name is judged first.
    fn ends(&mut self, names: &[u8]) -> Result<Option<u8>, Fault>
        ensures value { result ≡ event_by (tag_step names.now self.old) }
        ensures next { self.new ≡ next_by self.old (tag_step names.now self.old) }
    {
        let label = names::label_of(names, self.name).ok_or(Fault::Unknown)?;
        match self.within {
            Within::Opening => self.opens(label),
            Within::Closing => self.closes(label),
            Within::Empty => self.points(label),
            Within::Between | Within::Angle | Within::Slashed => Err(Fault::Byte),
        }
    }

    // Between tags: a blank or "<".
    fn between(&mut self, class: Class) -> Result<Option<u8>, Fault>
        ensures value { result ≡ event_by (between self.old class) }
        ensures next { self.new ≡ next_by self.old (between self.old class) }
    {
        match class {
            Class::Blank => self.goes(Within::Between, Word::none()),
            Class::Less => self.goes(Within::Angle, Word::none()),
            _ => Err(Fault::Byte),
        }
    }

    // After "<": a letter or "/".
    fn angle(&mut self, class: Class, byte: u8) -> Result<Option<u8>, Fault>
        ensures value { result ≡ event_by (angle self.old class byte) }
        ensures next { self.new ≡ next_by self.old (angle self.old class byte) }
    {
        match class {
            Class::Letter => self.goes(Within::Opening, Word::none().with(byte)),
            Class::Slash => self.goes(Within::Slashed, Word::none()),
            _ => Err(Fault::Byte),
        }
    }

    // After "</": a letter.
    fn slashed(&mut self, class: Class, byte: u8) -> Result<Option<u8>, Fault>
        ensures value { result ≡ event_by (slashed self.old class byte) }
        ensures next { self.new ≡ next_by self.old (slashed self.old class byte) }
    {
        match class {
            Class::Letter => self.goes(Within::Closing, Word::none().with(byte)),
            _ => Err(Fault::Byte),
        }
    }

    // In the name of an opening tag: a name byte, ">" or "/".
    fn opening(&mut self, names: &[u8], class: Class, byte: u8) -> Result<Option<u8>, Fault>
        ensures value { result ≡ event_by (opening names.now self.old class byte) }
        ensures next { self.new ≡ next_by self.old (opening names.now self.old class byte) }
    {
        match class {
            Class::Letter | Class::Name => self.goes(Within::Opening, self.name.with(byte)),
            Class::Greater => self.ends(names),
            Class::Slash => self.goes(Within::Empty, self.name),
            _ => Err(Fault::Byte),
        }
    }

    // In the name of a closing tag: a name byte or ">".
    fn closing(&mut self, names: &[u8], class: Class, byte: u8) -> Result<Option<u8>, Fault>
        ensures value { result ≡ event_by (closing names.now self.old class byte) }
        ensures next { self.new ≡ next_by self.old (closing names.now self.old class byte) }
    {
        match class {
            Class::Letter | Class::Name => self.goes(Within::Closing, self.name.with(byte)),
            Class::Greater => self.ends(names),
            _ => Err(Fault::Byte),
        }
    }

    // After the "/" of an empty-element tag: ">".
    fn empty(&mut self, names: &[u8], class: Class) -> Result<Option<u8>, Fault>
        ensures value { result ≡ event_by (empty names.now self.old class) }
        ensures next { self.new ≡ next_by self.old (empty names.now self.old class) }
    {
        match class {
            Class::Greater => self.ends(names),
            _ => Err(Fault::Byte),
        }
    }

    // One byte: the event that it gives, if it ends a tag. One at fault leaves the cursor as it was.
    fn reads(&mut self, names: &[u8], byte: u8) -> Result<Option<u8>, Fault>
        ensures value { result ≡ event_by (step_of names.now self.old byte) }
        ensures next { self.new ≡ next_by self.old (step_of names.now self.old byte) }
    {
        let class = names::class_of(byte);
        match self.within {
            Within::Between => self.between(class),
            Within::Angle => self.angle(class, byte),
            Within::Slashed => self.slashed(class, byte),
            Within::Opening => self.opening(names, class, byte),
            Within::Closing => self.closing(names, class, byte),
            Within::Empty => self.empty(names, class),
        }
    }

    // Neither a tag nor an element is open.
    pub fn closed(self) -> bool
        ensures { result ≡ closed_in self }
    {
        matches!(self.within, Within::Between) && self.levels.depth == 0
    }
}

// One byte. The names are the first 32 lines of the list.
pub fn step(names: &[u8], cursor: Cursor, byte: u8) -> Result<Stepped, Fault>
    ensures { result ≡ step_of names.now cursor byte }
{
    let mut next = cursor;
    match next.reads(names, byte) {
        Ok(event) => Ok(Stepped { next, event }),
        Err(fault) => Err(fault),
    }
}

impl Steps for Cursor {
    ghost step = { cursor_step };

    fn take(
        &mut self,
        names: &[u8],
        byte: u8,
        room: usize,
        out: &mut [u8],
        at: usize,
    ) -> Result<usize, Fault> {
        let before = *self;
        match self.reads(names, byte) {
            Ok(Some(event)) => {
                if room == 0 {
                    *self = before;
                    return Err(Fault::Short);
                }
                if at < out.len() {
                    out[at] = event;
                }
                Ok(1)
            }
            Ok(None) => Ok(0),
            Err(fault) => Err(fault),
        }
    }
}

// What became of a piece of text: what was taken are its bytes, and what was given are events.
pub type Fed = feeding::Fed<Cursor>;

// A piece of text, with room for so many events: what `feed` would answer. Nothing is written.
pub fn survey(names: &[u8], cursor: Cursor, piece: &[u8], room: usize) -> Fed
    ensures { result ≡ fed_of (feed_in names.now cursor room piece.now) }
{
    feeding::feed(names, cursor, piece, room, &mut [])
}

// A piece of text: its events are written from the front of the output, as far as it goes on without a fault.
pub fn feed(names: &[u8], cursor: Cursor, piece: &[u8], out: &mut [u8]) -> Fed
    ensures value { result ≡ fed_of (feed_in names.now cursor (length out.old) piece.now) }
    ensures out_after { out.new ≡ feed_out names.now cursor piece.now out.old }
{
    feeding::feed(names, cursor, piece, out.len(), out)
}

// The fault at the text's end: something is open, or there is no room for byte 65.
pub fn end(cursor: Cursor, room: usize) -> Option<Fault>
    ensures { result ≡ end_stop (closed_in cursor) room }
{
    if !cursor.closed() {
        Some(Fault::Ended)
    } else if 0 < room {
        None
    } else {
        Some(Fault::Short)
    }
}

// The fault of a whole text, if it has one: the first byte's, or else the end's.
fn whole(fed: Fed, room: usize) -> Option<Fault>
    ensures { result ≡ whole_stop fed room }
{
    match fed.stop {
        Some(fault) => Some(fault),
        None => end(fed.next, room.saturating_sub(fed.given)),
    }
}

// A whole text: its events and byte 65, from the front of the output. Answers how many there are. A refusal writes nothing.
pub fn read(names: &[u8], text: &[u8], out: &mut [u8]) -> Result<usize, ReadError>
    ensures value { result ≡ read_answer names.now text.now (length out.old) }
    ensures out_after { out.new ≡ read_out names.now text.now out.old }
{
    if !names::good(names) {
        return Err(ReadError::Names);
    }
    let room = out.len();
    let fed = survey(names, Cursor::begin(), text, room);
    if let Some(fault) = whole(fed, room) {
        return Err(ReadError::Text(fault, fed.taken));
    }
    feed(names, Cursor::begin(), text, out);
    out[fed.given] = 65;
    Ok(fed.given + 1)
}
