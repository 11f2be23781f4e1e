// Bytes fed one after another to what takes them step by step, as the reader's cursor and the writer's scribe do.
ghost use Rattle.std.specs.Prelude.{◌≡◌, ◌+◌, ◌≤◌, ℕ, List, length};
ghost use Rattle.meaning.specs.Lent.{put_at, on_front};
ghost use Rattle.grammar.specs.Feeding.{Step};
ghost use Rattle.tags.specs.Feeding.{step_in, told_of, next_of, written_of, feed_in, fed_of};

use grammar::Fault;

// What became of a piece: where it led, how many bytes were taken, how many were given, and the fault that stopped it at the
// next byte.
#[derive(Clone, Copy)]
pub struct Fed<S> {
    pub next: S,
    pub taken: usize,
    pub given: usize,
    pub stop: Option<Fault>,
}

// What takes bytes one by one, and gives others.
pub trait Steps: Copy {
    // What becomes of a byte, by the list of names.
    ghost step: { List ℕ → Self → ℕ → Step Self };

    // One byte, with room for so many bytes of what it gives. They are written from a place of the output on, where it has places
    // for them. Answers how many they are. A byte at fault leaves all as it was.
    fn take(
        &mut self,
        names: &[u8],
        byte: u8,
        room: usize,
        out: &mut [u8],
        at: usize,
    ) -> Result<usize, Fault>
        ensures value { result ≡ told_of (step_in (step names.now) self.old room byte) }
        ensures next { self.new ≡ next_of self.old (step_in (step names.now) self.old room byte) }
        ensures out_after { at + room ≤ length out.old → out.new ≡ put_at at (written_of (step_in (step names.now) self.old room byte)) out.old };
}

// A piece, with room for so many bytes of what it gives, up to the first byte at fault. What it gives is written from the front
// of the output, where it has places for it.
pub fn feed<S: Steps>(names: &[u8], from: S, piece: &[u8], room: usize, out: &mut [u8]) -> Fed<S>
    ensures value { result ≡ fed_of (feed_in (S.step names.now) from room piece.now) }
    ensures out_after { room ≤ length out.old → out.new ≡ on_front (feed_in (S.step names.now) from room piece.now).gives out.old }
{
    let mut next = from;
    let mut given = 0;
    for (taken, &byte) in piece.iter().enumerate() {
        match next.take(names, byte, room - given, out, given) {
            Ok(bytes) => given += bytes,
            Err(fault) => {
                return Fed {
                    next,
                    taken,
                    given,
                    stop: Some(fault),
                };
            }
        }
    }
    Fed {
        next,
        taken: piece.len(),
        given,
        stop: None,
    }
}
