// The writer: event bytes in, tagged text without blanks out. A scribe, by value, says how far a stream is written, so
// that it can go on in pieces; `write` takes a whole stream, and judges all of it before it writes.
ghost use Rattle.std.specs.Prelude.{◌≡◌, ◌&&◌, ◌+◌, ◌≤◌, ◌++◌, length};
ghost use Rattle.meaning.specs.Lent.{put_at};
ghost use Rattle.grammar.specs.Feeding.{goes_on};
ghost use Rattle.grammar.specs.Writing.{write_answer, write_out};
ghost use Rattle.tags.specs.Feeding.{fed_of};
ghost use Rattle.tags.specs.Writers.{begin, written, ended, has_name, head_of, tail_of, tag_bytes, open_event, point_event, close_event, close_of_event, event_step, spell_step, tag_by, next_by, scribe_step, gives_by, less_by, follower_step, follow_in, follow_of, write_in, written_out};

use crate::feeding;
use crate::feeding::Steps;
use crate::levels::Levels;
use answers::Event;
use grammar::{Fault, WriteError};
use names::Word;

// How far a stream is written: the open elements, and whether byte 65 was read.
#[derive(Clone, Copy)]
pub struct Scribe {
    pub levels: Levels,
    pub ended: bool,
}

// The three forms of a tag: <x>, </x> and <x/>.
#[derive(Clone, Copy, Debug, PartialEq, Eq)]
pub enum Form {
    Opening,
    Closing,
    Empty,
}

#[derive(Clone, Copy)]
pub struct Tag {
    pub form: Form,
    pub name: Word,
}

// The scribe after an event, and the tag that the event gives; the stream's end gives none.
#[derive(Clone, Copy)]
pub struct Spelled {
    pub next: Scribe,
    pub tag: Option<Tag>,
}

// A scribe whose tags are not written, and what they leave of the room, if they fit.
#[derive(Clone, Copy)]
struct Follower {
    scribe: Scribe,
    left: Option<usize>,
}

// What a piece of a stream comes to: what is taken are its events, and what is given are bytes of tags.
pub type Wrote = feeding::Fed<Scribe>;

impl Scribe {
    // Nothing is written yet.
    pub fn begin() -> Scribe
        ensures { result ≡ begin }
    {
        Scribe {
            levels: Levels::none(),
            ended: false,
        }
    }

    // A tag of this form and name; after it these elements are open.
    fn writes(&mut self, levels: Levels, form: Form, name: Word) -> Result<Option<Tag>, Fault>
        ensures value { result ≡ tag_by (Some (written levels form name)) }
        ensures next { self.new ≡ next_by self.old (Some (written levels form name)) }
    {
        self.levels = levels;
        self.ended = false;
        Ok(Some(Tag { form, name }))
    }

    // The stream ends, where nothing is open.
    fn ends(&mut self) -> Result<Option<Tag>, Fault>
        ensures value { result ≡ tag_by (ended self.old) }
        ensures next { self.new ≡ next_by self.old (ended self.old) }
    {
        if self.levels.depth != 0 {
            return Err(Fault::Byte);
        }
        self.ended = true;
        Ok(None)
    }

    fn opens(&mut self, names: &[u8], label: u64) -> Result<Option<Tag>, Fault>
        ensures value { result ≡ tag_by (open_event names.now self.old label) }
        ensures next { self.new ≡ next_by self.old (open_event names.now self.old label) }
    {
        let name = names::name_at(names, label);
        if !has_name(name) || 40 <= self.levels.depth {
            return Err(Fault::Byte);
        }
        self.writes(self.levels.deeper((label % 256) as u8), Form::Opening, name)
    }

    fn points(&mut self, names: &[u8], label: u64) -> Result<Option<Tag>, Fault>
        ensures value { result ≡ tag_by (point_event names.now self.old label) }
        ensures next { self.new ≡ next_by self.old (point_event names.now self.old label) }
    {
        let name = names::name_at(names, label);
        if !has_name(name) {
            return Err(Fault::Byte);
        }
        self.writes(self.levels, Form::Empty, name)
    }

    fn closes(&mut self, names: &[u8]) -> Result<Option<Tag>, Fault>
        ensures value { result ≡ tag_by (close_event names.now self.old) }
        ensures next { self.new ≡ next_by self.old (close_event names.now self.old) }
    {
        let newest = self.levels.newest().ok_or(Fault::Byte)?;
        let name = names::name_at(names, u64::from(newest));
        if !has_name(name) {
            return Err(Fault::Byte);
        }
        self.writes(self.levels.shallower(), Form::Closing, name)
    }

    // A close that names a label: the newest's.
    fn closes_label(&mut self, names: &[u8], label: u64) -> Result<Option<Tag>, Fault>
        ensures value { result ≡ tag_by (close_of_event names.now self.old label) }
        ensures next { self.new ≡ next_by self.old (close_of_event names.now self.old label) }
    {
        match self.levels.newest() {
            Some(newest) if u64::from(newest) == label => self.closes(names),
            _ => Err(Fault::Byte),
        }
    }

    // An event, where byte 65 was not read yet.
    fn takes(&mut self, names: &[u8], event: Event) -> Result<Option<Tag>, Fault>
        ensures value { result ≡ tag_by (event_step names.now self.old event) }
        ensures next { self.new ≡ next_by self.old (event_step names.now self.old event) }
    {
        match event {
            Event::Open(a) => self.opens(names, a),
            Event::Point(a) => self.points(names, a),
            Event::Close => self.closes(names),
            Event::CloseOf(a) => self.closes_label(names, a),
            Event::End => self.ends(),
            Event::Unknown => Err(Fault::Byte),
        }
    }

    // One event byte: the tag that it gives, which the stream's end does not. A byte with which no whole stream goes on leaves
    // the scribe as it was.
    fn spells(&mut self, names: &[u8], byte: u8) -> Result<Option<Tag>, Fault>
        ensures value { result ≡ tag_by (spell_step names.now self.old byte) }
        ensures next { self.new ≡ next_by self.old (spell_step names.now self.old byte) }
    {
        if self.ended {
            return Err(Fault::Byte);
        }
        self.takes(names, Event::from(byte))
    }
}

// The word is a name that can be written: it has 1 to 16 bytes.
fn has_name(name: Word) -> bool
    ensures { result ≡ has_name name }
{
    0 < name.length && name.length < 17
}

// One event byte, if a whole stream goes on with it; after byte 65 nothing does. The names are the first 32 lines of the list.
pub fn spell(names: &[u8], scribe: Scribe, byte: u8) -> Option<Spelled>
    ensures { result ≡ spell_step names.now scribe byte }
{
    let mut next = scribe;
    match next.spells(names, byte) {
        Ok(tag) => Some(Spelled { next, tag }),
        Err(_) => None,
    }
}

// The bytes stand in the output from a place on. That there is room stays a clause, here and where a tag is put: the output is
// lent.
fn put(out: &mut [u8], at: usize, bytes: &[u8])
    requires { at + length bytes.now ≤ length out.old }
    ensures { out.new ≡ put_at at bytes.now out.old }
{
    out[at..at + bytes.len()].copy_from_slice(bytes);
}

impl Form {
    // What stands before the name.
    fn head(self) -> &'static [u8]
        ensures { result.now ≡ head_of self }
    {
        match self {
            Form::Closing => b"</",
            Form::Opening | Form::Empty => b"<",
        }
    }

    // What stands after the name.
    fn tail(self) -> &'static [u8]
        ensures { result.now ≡ tail_of self }
    {
        match self {
            Form::Empty => b"/>",
            Form::Opening | Form::Closing => b">",
        }
    }
}

// A name between what stands before and after it.
fn put_parts(out: &mut [u8], at: usize, head: &[u8], name: &[u8], tail: &[u8])
    requires { at + (length head.now + (length name.now + length tail.now)) ≤ length out.old }
    ensures { out.new ≡ put_at at (head.now ++ (name.now ++ tail.now)) out.old }
{
    put(out, at, head);
    put(out, at + head.len(), name);
    put(out, at + head.len() + name.len(), tail);
}

impl Tag {
    fn length(self) -> usize
        ensures { result ≡ length (tag_bytes self) }
    {
        self.form.head().len() + self.name.spelt().len() + self.form.tail().len()
    }

    fn put(self, out: &mut [u8], at: usize)
        requires { at + length (tag_bytes self) ≤ length out.old }
        ensures { out.new ≡ put_at at (tag_bytes self) out.old }
    {
        let name = self.name.spelt();
        match self.form {
            Form::Opening => put_parts(out, at, b"<", name, b">"),
            Form::Closing => put_parts(out, at, b"</", name, b">"),
            Form::Empty => put_parts(out, at, b"<", name, b"/>"),
        }
    }
}

// How many bytes an event gives.
fn length(tag: Option<Tag>) -> usize
    ensures { result ≡ length (gives_by tag) }
{
    match tag {
        Some(tag) => tag.length(),
        None => 0,
    }
}

fn put_given(out: &mut [u8], at: usize, tag: Option<Tag>)
    requires { at + length (gives_by tag) ≤ length out.old }
    ensures { out.new ≡ put_at at (gives_by tag) out.old }
{
    if let Some(tag) = tag {
        tag.put(out, at);
    }
}

impl Steps for Scribe {
    ghost step = { scribe_step };

    fn take(
        &mut self,
        names: &[u8],
        byte: u8,
        room: usize,
        out: &mut [u8],
        at: usize,
    ) -> Result<usize, Fault> {
        let before = *self;
        match self.spells(names, byte) {
            Ok(tag) => {
                let given = length(tag);
                if room < given {
                    *self = before;
                    return Err(Fault::Short);
                }
                if at <= out.len() && given <= out.len() - at {
                    put_given(out, at, tag);
                }
                Ok(given)
            }
            Err(fault) => Err(fault),
        }
    }
}

// What so many bytes leave of the room, if they fit.
fn less(left: Option<usize>, bytes: usize) -> Option<usize>
    ensures { result ≡ less_by left bytes }
{
    left?.checked_sub(bytes)
}

// Where the room ends it goes on, since a stream that is not whole is told before one that does not fit.
impl Steps for Follower {
    ghost step = { follower_step };

    fn take(
        &mut self,
        names: &[u8],
        byte: u8,
        _room: usize,
        _out: &mut [u8],
        _at: usize,
    ) -> Result<usize, Fault> {
        match self.scribe.spells(names, byte) {
            Ok(tag) => {
                self.left = less(self.left, length(tag));
                Ok(0)
            }
            Err(fault) => Err(fault),
        }
    }
}

// The events, up to the first at fault, without writing their tags.
fn follow(names: &[u8], scribe: Scribe, events: &[u8], room: usize) -> feeding::Fed<Follower>
    ensures { result ≡ follow_of room (follow_in names.now scribe events.now) }
{
    let follower = Follower {
        scribe,
        left: Some(room),
    };
    feeding::feed(names, follower, events, 0, &mut [])
}

// The events are a whole stream.
fn whole(all: feeding::Fed<Follower>) -> bool
    ensures { result ≡ goes_on all.stop && all.next.scribe.ended }
{
    all.stop.is_none() && all.next.scribe.ended
}

// The tags of a piece of a stream, from the output's front: up to the first event at fault, or without room for its tag.
pub fn put_events(names: &[u8], scribe: Scribe, piece: &[u8], out: &mut [u8]) -> Wrote
    ensures value { result ≡ fed_of (write_in names.now scribe (length out.old) piece.now) }
    ensures out_after { out.new ≡ written_out names.now scribe piece.now out.old }
{
    feeding::feed(names, scribe, piece, out.len(), out)
}

// A whole stream as tagged text, from the output's front. Answers how many bytes it has. All of it is judged first: a refusal
// writes nothing.
pub fn write(names: &[u8], events: &[u8], out: &mut [u8]) -> Result<usize, WriteError>
    ensures value { result ≡ write_answer names.now events.now (length out.old) }
    ensures out_after { out.new ≡ write_out names.now events.now out.old }
{
    if !names::good(names) {
        return Err(WriteError::Names);
    }
    let scribe = Scribe::begin();
    let all = follow(names, scribe, events, out.len());
    if !whole(all) {
        return Err(WriteError::Stream(all.taken));
    }
    if all.next.left.is_none() {
        return Err(WriteError::Short);
    }
    let wrote = put_events(names, scribe, events, out);
    Ok(wrote.given)
}
