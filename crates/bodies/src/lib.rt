// A table file that can be stepped by, and the automaton's steps read off it: one method for each body.
//
// The file's bytes are themselves the table. The steps ask for states and labels below its n and k; each answers what
// `automaton` says of the table; bodies go by their numbers (`offsets`). That bound stays a clause, here and above: a state is a word of the file or of lent memory,
// and a type for it would be undone at each step.
#![tactic(auto)]

ghost use Rattle.std.specs.Prelude.{◌≡◌, ◌+◌, ◌*◌, ◌<◌, length, get_or};
ghost use Rattle.bodies.specs.Sound.{Sound, CellOf, states_in, labels_in};

use offsets::Sizes;

// The byte at a place, as a number.
pub fn byte(file: &[u8], at: u64) -> u64
    requires { at < length file.now }
    ensures { result ≡ get_or file.now at 0 }
{
    u64::from(file[at as usize])
}

// A file that can be stepped by: every file that `table::read` takes is one.
#[derive(Clone, Copy)]
pub struct Table<'a> {
    pub file: &'a [u8],
    pub ghost sound: { Sound file.now },
}

impl Table<'_> {
    ghost use Rattle.meaning.specs.Table.{in_body, body_length};
    ghost use Rattle.bodies.specs.Automaton.{automaton};

    fn sizes(&self) -> Sizes
        ensures states { result.states ≡ (automaton self.now).states }
        ensures labels { result.labels ≡ (automaton self.now).labels }
    {
        Sizes {
            states: self.states(),
            labels: self.labels(),
        }
    }

    // Byte j of body i, both counted from 0.
    fn in_body(&self, i: u64, j: u64) -> u64
        requires { (i < 5) × (j < body_length (states_in self.now.file.now) (labels_in self.now.file.now) i) }
        ensures { result ≡ in_body self.now.file.now i j }
    {
        byte(self.file, self.sizes().body_at(i) + j)
    }

    // The cell of row q and column a, of a body i whose rows, one a state, are w wide.
    fn cell(&self, i: u64, w: u64, q: u64, a: u64) -> u64
        requires { CellOf self.now.file.now i w q a }
        ensures { result ≡ in_body self.now.file.now i (q * w + a) }
    {
        self.in_body(i, q * w + a)
    }

    // n.
    pub fn states(&self) -> u64
        ensures { result ≡ (automaton self.now).states }
    {
        byte(self.file, 0)
    }

    // k.
    pub fn labels(&self) -> u64
        ensures { result ≡ (automaton self.now).labels }
    {
        byte(self.file, 1)
    }

    // The start state.
    pub fn start(&self) -> u64
        ensures { result ≡ (automaton self.now).start }
    {
        byte(self.file, 2)
    }

    // O(a): the state in which a tree of label a begins.
    pub fn opening(&self, a: u64) -> u64
        requires { a < (automaton self.now).labels }
        ensures { result ≡ (automaton self.now).opening a }
    {
        self.in_body(0, a)
    }

    // P(q,a): the state that a point of label a takes q to.
    pub fn point(&self, q: u64, a: u64) -> u64
        requires { (q < (automaton self.now).states) × (a < (automaton self.now).labels) }
        ensures { result ≡ (automaton self.now).point q a }
    {
        self.cell(1, self.labels(), q, a)
    }

    // M(q): the state that the mark takes q to.
    pub fn mark(&self, q: u64) -> u64
        requires { q < (automaton self.now).states }
        ensures { result ≡ (automaton self.now).mark q }
    {
        self.in_body(2, q)
    }

    // A(q,p): the state in which q, which waited outside, goes on after a tree that ended in p.
    pub fn apply(&self, q: u64, p: u64) -> u64
        requires { (q < (automaton self.now).states) × (p < (automaton self.now).states) }
        ensures { result ≡ (automaton self.now).apply q p }
    {
        self.cell(3, self.states(), q, p)
    }

    // Is q final?
    pub fn is_final(&self, q: u64) -> bool
        requires { q < (automaton self.now).states }
        ensures { result ≡ (automaton self.now).final q }
    {
        self.in_body(4, q) == 1
    }
}
