// A run of a stream that is kept, marked at a position.
use crate::book::Book;
use crate::event::Event;
use slices::{get, put};

// The states put aside and the newest one, at the depth.
#[derive(Clone, Copy)]
pub struct Run {
    states: [usize; 41],
    pub depth: usize,
    positions: usize,
}

impl Run {
    // The run of the first events of the stream from a start state, marked at a position.
    pub fn of(book: &Book, start: usize, events: usize, mark: usize) -> Run {
        let mut run = Run {
            states: [start; 41],
            depth: 0,
            positions: 0,
        };
        for byte in book.stream(events) {
            run = run.step(book, Event::from(*byte), mark);
        }
        run
    }

    pub fn at(&self, level: usize) -> usize {
        get(&self.states, level)
    }

    pub fn newest(&self) -> usize {
        self.at(self.depth)
    }

    // The newest state is another.
    fn in_state(mut self, q: usize) -> Run {
        let depth = self.depth;
        put(&mut self.states, depth, q);
        self
    }

    fn deeper(mut self) -> Run {
        self.depth = self.depth.saturating_add(1);
        self
    }

    fn shallower(mut self) -> Run {
        self.depth = self.depth.saturating_sub(1);
        self
    }

    // A position more; where it is the marked one, the mark.
    fn position(mut self, book: &Book, mark: usize) -> Run {
        self.positions = self.positions.saturating_add(1);
        if self.positions == mark {
            return self.in_state(book.mark(self.newest()));
        }
        self
    }

    // The state waiting outside takes in the tree's last state p.
    fn taking_in(self, book: &Book, p: usize) -> Run {
        self.in_state(book.apply(self.newest(), p))
    }

    fn step(self, book: &Book, event: Event, mark: usize) -> Run {
        match event {
            Event::Open(label) => {
                let begun = self.deeper().in_state(book.opening(usize::from(label)));
                begun.position(book, mark)
            }
            Event::Point(label) => {
                let next = book.point(self.newest(), usize::from(label));
                self.in_state(next).position(book, mark)
            }
            _ => self.shallower().taking_in(book, self.newest()),
        }
    }
}
