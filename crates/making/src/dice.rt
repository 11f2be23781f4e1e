// Numbers that look random.

#[derive(Drop)]
pub struct Dice {
    seed: u64,
}

impl Dice {
    pub fn new(seed: u64) -> Dice {
        Dice { seed }
    }

    // The next word.
    fn turn(&mut self) -> u64 {
        let x = self.seed;
        let y = x ^ (x << 13);
        let z = y ^ (y >> 7);
        self.seed = z ^ (z << 17);
        self.seed
    }

    // A number below a limit; 0 below 0.
    pub fn draw(&mut self, limit: usize) -> usize {
        if limit == 0 {
            return 0;
        }
        ((self.turn() >> 20) % (limit as u64)) as usize
    }

    // A number from one up to another.
    pub fn between(&mut self, low: usize, high: usize) -> usize {
        if high < low {
            return low;
        }
        low.saturating_add(self.draw((high - low).saturating_add(1)))
    }

    pub fn is_one_in(&mut self, of: usize) -> bool {
        self.draw(of) == 0
    }
}
