// Tagged text as event bytes: the names from the file `names`, tagged text from standard input, event bytes to standard
// output, so that `tagged | watch` follows a simulator that writes tags.
//
// The text is read in large blocks, and may be of any length. The events of a block are written out before more text is
// waited for, so that each event byte comes as soon as its tag is complete. Byte 65 is written at the text's end. At a fault
// the event bytes before it are written, then a line on standard error says what is wrong and at which byte of the text,
// counted from 0; nothing more is read, and no byte 65 is written. A write that fails ends the program; a read that fails
// counts as the text's end.
#![tactic(auto)]

use grammar::Fault;
use pipes::{BLOCK, End, Filter, Output};
use std::ops::ControlFlow;
use tags::reader::Cursor;

// One byte more than the longest good list of names has, so that a longer one is seen to be longer.
const NAMES: usize = names::LONGEST + 1;

// How far the text is read.
#[derive(Drop)]
struct Reader<'a> {
    names: &'a [u8],
    cursor: Cursor,
}

// The output is as long as a block, so that it is never short.
impl Filter for Reader<'_> {
    type Fault = Fault;

    fn take(&mut self, bytes: &[u8], out: &mut Output) -> ControlFlow<End<Fault>, usize> {
        let fed = tags::reader::feed(self.names, self.cursor, bytes, &mut out.room[out.filled..]);
        self.cursor = fed.next;
        out.filled += fed.given;
        match fed.stop {
            None => ControlFlow::Continue(bytes.len()),
            Some(fault) => ControlFlow::Break(End::Fault(fed.taken, fault)),
        }
    }

    // Byte 65, where nothing is open.
    fn end(&mut self, out: &mut Output) -> Result<(), Fault> {
        match tags::reader::end(self.cursor, out.left()) {
            None => {
                let _ = out.put(&[65]);
                Ok(())
            }
            Some(fault) => Err(fault),
        }
    }
}

// `untagged` has the same lines. A shared form is no plainer: it would be handed the filter, the test and the three memories, and
// these are all the lines there are.
fn main(rt: HostRuntime) {
    let mut file = [0u8; NAMES];
    let mut block = [0u8; BLOCK];
    let mut room = [0u8; BLOCK];
    let size = pipes::load(&rt, b"names", &mut file);
    let names = &file[..size];
    if names::good(names) {
        let mut reader = Reader {
            names,
            cursor: Cursor::begin(),
        };
        pipes::run(&rt, &mut reader, &mut block, &mut Output::new(&mut room));
    } else {
        pipes::refuse_names(&rt);
    }
}
