// What waits to be written, in lent memory: the programs use no heap.
ghost use Rattle.std.specs.Prelude.{◌≡◌, ◌-◌, ◌≤◌, ◌↔◌, [], ◌++◌, length, IsOk, OnOk, OnErr};

use std::fmt;
use std::io::Print;
use std::ops::ControlFlow;

// The bytes that wait are the first of the memory. `write!` puts text behind them.
#[derive(Drop)]
pub struct Output<'a> {
    pub room: &'a mut [u8],
    pub filled: usize,
    pub ghost within: { filled ≤ length room.now },
}

impl<'a> Output<'a> {
    ghost use Rattle.pipes.specs.Outputs.{waiting};

    // Nothing waits.
    pub fn new(room: &'a mut [u8]) -> Output<'a>
        ensures { waiting result ≡ [] }
    {
        Output { room, filled: 0 }
    }

    // How many more bytes there is room for.
    pub fn left(&self) -> usize
        ensures { result ≡ length self.now.room.now - self.now.filled }
    {
        self.room.len() - self.filled
    }

    // Puts bytes behind those that wait, or none of them where there is no room for all.
    pub fn put(&mut self, bytes: &[u8]) -> fmt::Result
        ensures ok { OnOk result (waiting self.new ≡ waiting self.old ++ bytes.now) }
        ensures variant { IsOk result ↔ (length bytes.now ≤ length self.old.room.now - self.old.filled) }
        ensures err { OnErr result (waiting self.new ≡ waiting self.old) }
    {
        if self.left() < bytes.len() {
            return Err(fmt::Error);
        }
        let end = self.filled + bytes.len();
        self.room[self.filled..end].copy_from_slice(bytes);
        self.filled = end;
        Ok(())
    }

    // Writes out what waits. A write that fails is a `Break`.
    pub fn flush(&mut self, rt: &impl Print) -> ControlFlow<()>
        ensures { waiting self.new ≡ [] }
    {
        let written = rt.write_all(&self.room[..self.filled]);
        self.filled = 0;
        match written {
            Ok(()) => ControlFlow::Continue(()),
            Err(_) => ControlFlow::Break(()),
        }
    }
}

impl fmt::Write for Output<'_> {
    ghost use Rattle.pipes.specs.Outputs.{waiting};

    ghost write_str_gives = { λ s bytes t. waiting t ≡ waiting s ++ bytes };

    fn write_str(&mut self, s: &str) -> fmt::Result
        ensures ok { IsOk result → waiting self.new ≡ waiting self.old ++ s.now }
        ensures variant { IsOk result ↔ (length s.now ≤ length self.old.room.now - self.old.filled) }
        ensures err { OnErr result (waiting self.new ≡ waiting self.old) }
    {
        self.put(s.as_bytes())
    }
}
