// The reader: each place of the text is judged by itself, and only then are the events written.
use crate::event::Event;
use crate::names::{is_good, label_of};
use crate::refusal::{Fault, Refusal};
use crate::text::{
    Form, depth, form_at, is_blank, is_letter, is_name_byte, open_tag, tag_end, tag_of, tags_before,
};
use slices::{Output, get, part, refuse_if};

// The name of a tag, which ends with a ">" at a place.
fn name_in(text: &[u8], tag: usize, end: usize) -> &[u8] {
    let first = if get(text, tag.saturating_add(1)) == b'/' {
        2
    } else {
        1
    };
    let last = end.saturating_sub(1);
    let to = if get(text, last) == b'/' { last } else { end };
    part(text, tag.saturating_add(first), to)
}

// A byte of a tag may stand after what stands before it.
fn fits(text: &[u8], tag: usize, at: usize) -> bool {
    let byte = get(text, at);
    let first = tag.saturating_add(1);
    let closing = get(text, first) == b'/';
    if at == first {
        return is_letter(byte) || byte == b'/';
    }
    if closing && at == first.saturating_add(1) {
        return is_letter(byte);
    }
    if get(text, at.saturating_sub(1)) == b'/' {
        return byte == b'>';
    }
    is_name_byte(byte) || byte == b'>' || (byte == b'/' && !closing)
}

// A closing tag has the name of the element that is open there, and one is.
fn is_open_name(text: &[u8], tag: usize, end: usize) -> bool {
    match open_tag(text, tag) {
        Some(open) => name_in(text, open, tag_end(text, open)) == name_in(text, tag, end),
        None => false,
    }
}

// A text, and room for so many events.
#[derive(Clone, Copy)]
struct Reading<'a> {
    names: &'a [u8],
    text: &'a [u8],
    room: usize,
}

impl Reading<'_> {
    // A tag from its "<" to its ">".
    fn judge_tag(&self, tag: usize, end: usize) -> Result<(), Fault> {
        let text = self.text;
        let label = label_of(self.names, name_in(text, tag, end));
        let form = form_at(text, tag);
        let wrong = form == Some(Form::Closing) && !is_open_name(text, tag, end);
        let deep = form == Some(Form::Opening) && 40 <= depth(text, tag);
        refuse_if(label.is_none(), Fault::Unknown)?;
        refuse_if(wrong, Fault::Closing)?;
        refuse_if(deep, Fault::Deep)?;
        refuse_if(self.room <= tags_before(text, tag), Fault::Short)
    }

    fn judge_byte(&self, at: usize) -> Result<(), Fault> {
        let byte = get(self.text, at);
        let Some(tag) = tag_of(self.text, at) else {
            return refuse_if(!is_blank(byte) && byte != b'<', Fault::Byte);
        };
        refuse_if(!fits(self.text, tag, at), Fault::Byte)?;
        if byte == b'>' {
            self.judge_tag(tag, at)
        } else {
            Ok(())
        }
    }

    fn judge_end(&self) -> Result<(), Fault> {
        let end = self.text.len();
        let open = tag_of(self.text, end).is_some() || depth(self.text, end) != 0;
        refuse_if(open, Fault::Ended)?;
        refuse_if(self.room <= tags_before(self.text, end), Fault::Short)
    }

    fn judge(&self) -> Result<(), Refusal> {
        for at in 0..self.text.len() {
            self.judge_byte(at).map_err(|fault| Refusal::At(fault, at))?;
        }
        let end = self.text.len();
        self.judge_end().map_err(|fault| Refusal::At(fault, end))
    }
}

// The event of the tag that ends at a place, if one does; a closing tag names its label.
fn event_at(names: &[u8], text: &[u8], end: usize) -> Option<Event> {
    if get(text, end) != b'>' {
        return None;
    }
    let tag = tag_of(text, end)?;
    let label = label_of(names, name_in(text, tag, end))?;
    match form_at(text, tag)? {
        Form::Opening => Some(Event::Open(label)),
        Form::Empty => Some(Event::Point(label)),
        Form::Closing => Some(Event::Close(Some(label))),
    }
}

// Writes the event of each tag that ends before a place.
pub fn tell(names: &[u8], text: &[u8], place: usize, events: &mut Output) {
    for at in 0..place {
        if let Some(event) = event_at(names, text, at) {
            events.push(u8::from(event));
        }
    }
}

// Writes the events of a text, and says how many there are.
pub fn read(names: &[u8], text: &[u8], out: &mut [u8]) -> Result<usize, Refusal> {
    if !is_good(names) {
        return Err(Refusal::Names);
    }
    let room = out.len();
    Reading { names, text, room }.judge()?;
    let mut events = Output::new(out);
    tell(names, text, text.len(), &mut events);
    events.push(u8::from(Event::End));
    Ok(events.length)
}
