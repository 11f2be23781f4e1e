// The labels of the elements that are open, by value: at most 40.
ghost use Rattle.std.specs.Prelude.{◌≡◌};
ghost use Rattle.tags.specs.Levels.{no_levels, deeper_by, shallower, newest_of};

// The label of each open element, the outermost first, and how many are open. What stands after those does not count.
// An array beside a count, since the reader and the writer have fixed memory and no heap.
#[derive(Clone, Copy)]
pub struct Levels {
    pub labels: [u8; 40],
    pub depth: usize,
}

impl Levels {
    pub fn none() -> Levels
        ensures { result ≡ no_levels }
    {
        Levels {
            labels: [0; 40],
            depth: 0,
        }
    }

    // One element more is open, where that is allowed.
    pub fn deeper(self, label: u8) -> Levels
        ensures { result ≡ deeper_by self label }
    {
        let depth = self.depth;
        let mut next = self;
        if depth < 40 {
            next.labels[depth] = label;
            next.depth = depth + 1;
        }
        next
    }

    // One element fewer is open, where one is.
    pub fn shallower(self) -> Levels
        ensures { result ≡ shallower self }
    {
        let mut next = self;
        next.depth = next.depth.saturating_sub(1);
        next
    }

    // The label of the newest open element. A value in which more than 40 are open has none.
    pub fn newest(self) -> Option<u8>
        ensures { result ≡ newest_of self }
    {
        if self.depth == 0 || 40 < self.depth {
            None
        } else {
            Some(self.labels[self.depth - 1])
        }
    }
}
