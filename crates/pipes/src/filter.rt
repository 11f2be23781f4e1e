// The loop of a program between two pipes: standard input is read, and what comes of it written to standard output.
ghost use Rattle.std.specs.ControlFlow.{MatchControlFlow};
ghost use Rattle.std.specs.Prelude.{◌≡◌, ⊤, []};
ghost use Rattle.pipes.specs.Counts.{IsPrefixLen};
ghost use Rattle.pipes.specs.Outputs.{waiting};

use crate::{Output, later, read_some};
use std::fmt;
use std::ops::ControlFlow;

// Why a filter takes no more of its input.
#[derive(Clone, Copy)]
pub enum End<F> {
    // It has all that it waits for.
    Whole,
    // What comes after so many bytes is at fault.
    Fault(usize, F),
}

// What a program between two pipes makes of its input.
pub trait Filter {
    // What can be at fault in its input.
    type Fault: fmt::Display + Copy;

    // Takes the bytes that come next, and answers how many of them: all, or as many as there is room for what comes of them;
    // where nothing waits, one at least.
    fn take(&mut self, bytes: &[u8], out: &mut Output) -> ControlFlow<End<Self::Fault>, usize>
        ensures { MatchControlFlow result (λ taken. IsPrefixLen taken bytes.now) (λ _. ⊤) };

    // Takes the end of the input, which may be a fault.
    fn end(&mut self, out: &mut Output) -> Result<(), Self::Fault>;
}

// "refused: FAULT, at PLACE", in one write, so that the lines of another program on the same terminal do not fall into it.
fn tell(rt: &impl Eprint, fault: impl fmt::Display + Copy, place: u64) {
    let _ = eprintln!(rt; "refused: {fault}, at {place}");
}

// The handle, the filter, the output and the place go together through the next functions, and are no struct: with the
// output borrowed in one, that `run` leaves nothing waiting was tried and did not prove.

// A block of the input, which lies so far on. What comes of each step is written out before the next, so that each takes a
// byte at least, and there are no more steps than bytes.
fn follow(
    rt: &HostRuntime,
    filter: &mut impl Filter,
    block: &[u8],
    out: &mut Output,
    before: u64,
) -> ControlFlow<(), u64>
    requires { waiting out.old ≡ [] }
    ensures { waiting out.new ≡ [] }
{
    let mut rest = block;
    let mut place = before;
    for _ in 0..block.len() {
        let step = filter.take(rest, out);
        out.flush(rt)?;
        match step {
            ControlFlow::Continue(taken) => {
                place = later(place, taken);
                rest = &rest[taken..];
            }
            ControlFlow::Break(End::Whole) => return ControlFlow::Break(()),
            ControlFlow::Break(End::Fault(taken, fault)) => {
                tell(rt, fault, later(place, taken));
                return ControlFlow::Break(());
            }
        }
        if rest.is_empty() {
            break;
        }
    }
    ControlFlow::Continue(place)
}

// The end of the input, which lies so far on.
fn finish(rt: &HostRuntime, filter: &mut impl Filter, out: &mut Output, place: u64)
    ensures { waiting out.new ≡ [] }
{
    let last = filter.end(out);
    if out.flush(rt).is_continue() {
        if let Err(fault) = last {
            tell(rt, fault, place);
        }
    }
}

// The next block of the input is read and followed, or its end.
fn follow_some(
    rt: &HostRuntime,
    filter: &mut impl Filter,
    block: &mut [u8],
    out: &mut Output,
    before: u64,
) -> ControlFlow<(), u64>
    requires { waiting out.old ≡ [] }
    ensures { waiting out.new ≡ [] }
{
    let bytes = read_some(&mut rt.stdin(), block);
    if bytes == 0 {
        finish(rt, filter, out, before);
        return ControlFlow::Break(());
    }
    follow(rt, filter, &block[..bytes], out, before)
}

// Runs a filter over standard input, which is read in blocks of the length of `block`. What waits in the output already, and
// what comes of a step, is written out before more input is waited for. A write that fails ends the run; a read that fails
// counts as the input's end. Nothing says that the input ends, and a proved loop has to: no run takes so many turns.
pub fn run(rt: &HostRuntime, filter: &mut impl Filter, block: &mut [u8], out: &mut Output)
    ensures { waiting out.new ≡ [] }
{
    if out.flush(rt).is_break() {
        return;
    }
    let mut place = 0;
    for _ in 0..u64::MAX {
        match follow_some(rt, filter, block, out, place) {
            ControlFlow::Continue(after) => place = after,
            ControlFlow::Break(()) => return,
        }
    }
}
