// Event bytes as tagged text: the names from the file `names`, event bytes from standard input, tagged text without blanks
// to standard output. It is the other way round of the program `tagged`.
//
// Events are read in blocks, and may be of any number. The tags of a block are written out before more events are waited
// for. Byte 65 ends the stream: bytes after a taken 65 are not read, since a live source may stay open. At the first byte,
// or the input's end, at which no whole stream goes on, the tags before it are written, then a line on standard error says
// so, with the place counted from 0. A write that fails ends the program; a read that fails counts as the input's end.
#![tactic(auto)]

use grammar::Fault;
use pipes::{End, Filter, Output};
use std::fmt;
use std::ops::ControlFlow;
use tags::writer::Scribe;

// One byte more than the longest good list of names has, so that a longer one is seen to be longer.
const NAMES: usize = names::LONGEST + 1;

// So many bytes of input make a block.
const BLOCK: usize = 4096;

// Room for the tags of a block: the longest has a name of 16 bytes and three more.
const TAGS: usize = 77824;

// That no whole stream goes on. The output has room for a block's tags, so that it is never short.
#[derive(Clone, Copy)]
struct Stuck(Fault);

impl fmt::Display for Stuck {
    fn fmt<W: fmt::Write>(&self, f: &mut fmt::Formatter<W>) -> fmt::Result {
        match self.0 {
            Fault::Short => write!(f, "output short"),
            _ => write!(f, "no whole stream goes on"),
        }
    }
}

// How far the stream is written.
#[derive(Drop)]
struct Writer<'a> {
    names: &'a [u8],
    scribe: Scribe,
}

impl Filter for Writer<'_> {
    type Fault = Stuck;

    // What follows a taken 65 is no fault.
    fn take(&mut self, bytes: &[u8], out: &mut Output) -> ControlFlow<End<Stuck>, usize> {
        let wrote = tags::writer::put_events(
            self.names,
            self.scribe,
            bytes,
            &mut out.room[out.filled..],
        );
        self.scribe = wrote.next;
        out.filled += wrote.given;
        if self.scribe.ended {
            return ControlFlow::Break(End::Whole);
        }
        match wrote.stop {
            None => ControlFlow::Continue(bytes.len()),
            Some(fault) => ControlFlow::Break(End::Fault(wrote.taken, Stuck(fault))),
        }
    }

    // There was no 65, or nothing more would have been read.
    fn end(&mut self, _out: &mut Output) -> Result<(), Stuck> {
        Err(Stuck(Fault::Byte))
    }
}

// `tagged` has the same lines. A shared form is no plainer: it would be handed the filter, the test and the three memories, and
// these are all the lines there are.
fn main(rt: HostRuntime) {
    let mut file = [0u8; NAMES];
    let mut block = [0u8; BLOCK];
    let mut room = [0u8; TAGS];
    let size = pipes::load(&rt, b"names", &mut file);
    let names = &file[..size];
    if names::good(names) {
        let mut writer = Writer {
            names,
            scribe: Scribe::begin(),
        };
        pipes::run(&rt, &mut writer, &mut block, &mut Output::new(&mut room));
    } else {
        pipes::refuse_names(&rt);
    }
}
