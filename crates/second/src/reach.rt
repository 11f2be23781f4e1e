// Which state some hedge, of points and whole trees, takes to which.
use crate::book::Book;
use slices::get;

// A set of states: bit p for state p.
#[derive(Clone, Copy, Default, PartialEq, Eq)]
pub struct States {
    bits: u64,
}

impl States {
    pub fn has(self, p: usize) -> bool {
        p < 64 && (self.bits >> p) % 2 == 1
    }

    fn one(p: usize) -> States {
        States {
            bits: if p < 64 { 1 << p } else { 0 },
        }
    }

    pub fn or(mut self, other: States) -> States {
        self.bits |= other.bits;
        self
    }

    // All that its states lead to.
    pub fn lead_to<F: Fn(usize) -> States>(self, ends: F) -> States
        requires { F.IsAlwaysCallable ends }
    {
        let mut all = States::default();
        for p in 0..64 {
            if self.has(p) {
                all = all.or(ends(p));
            }
        }
        all
    }
}

// For each state those that some hedge takes it to.
#[derive(Drop)]
pub struct Reach {
    ends: [States; 64],
}

impl Reach {
    // All pairs, of a table of n states and k labels. There are at most 64 times 64 to find, one or more a turn.
    pub fn of(book: &Book, n: usize, k: usize) -> Reach {
        let mut reach = Reach {
            ends: [States::default(); 64],
        };
        reach.add_empty();
        for _ in 0..4097 {
            if !reach.add_pairs(book, n, k) {
                break;
            }
        }
        reach
    }

    pub fn ends_from(&self, q: usize) -> States {
        get(&self.ends, q)
    }

    // Each state is reached by the empty hedge.
    fn add_empty(&mut self) {
        for (q, ends) in self.ends.iter_mut().enumerate() {
            *ends = States::one(q);
        }
    }

    // The last states of trees, as far as they are found.
    fn tree_ends(&self, book: &Book, k: usize) -> States {
        let mut ends = States::default();
        for a in 0..k {
            ends = ends.or(self.ends_from(book.opening(a)));
        }
        ends
    }

    // Every pair that is one point or tree further. Answers whether one was new.
    fn add_pairs(&mut self, book: &Book, n: usize, k: usize) -> bool {
        let trees = self.tree_ends(book, k);
        let mut is_new = false;
        for ends in self.ends.iter_mut().take(n) {
            let next = grown(book, k, trees, *ends);
            is_new = is_new || next != *ends;
            *ends = next;
        }
        is_new
    }
}

// The states to which a point takes p.
fn point_ends(book: &Book, p: usize, k: usize) -> States {
    let mut ends = States::default();
    for a in 0..k {
        ends = ends.or(States::one(book.point(p, a)));
    }
    ends
}

// The set with whatever one more point, or tree that ends in one of some states, takes its states to.
fn grown(book: &Book, k: usize, trees: States, set: States) -> States {
    let further = set.lead_to(|p| {
        let by_tree = trees.lead_to(|r| States::one(book.apply(p, r)));
        by_tree.or(point_ends(book, p, k))
    });
    set.or(further)
}
