// What a trial draws with, and what it counts.
use crate::dice::Dice;

#[derive(Drop)]
pub struct Desk<T> {
    pub dice: Dice,
    pub tally: T,
}

impl<T: Default> Desk<T> {
    // Nothing is counted yet. Every trial draws from the same seed.
    pub fn new() -> Desk<T> {
        Desk {
            dice: Dice::new(88172645463325252),
            tally: T::default(),
        }
    }
}
