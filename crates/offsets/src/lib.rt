// Where the bodies of a table file stand: computed here and nowhere else.
//
// The opening body begins at 29, after the header and the contents. Bodies have numbers, from 0, and no enum: contents and
// bodies are searched by that number, a refusal names it, and the definitions go over it.
#![tactic(auto)]

ghost use Rattle.std.specs.Prelude.{◌≡◌, ◌<◌, ◌≤◌};
ghost use Rattle.meaning.specs.Table.{body_at, body_length};

// How many states and labels an automaton has: at most what a table file can hold.
#[derive(Clone, Copy, Debug, PartialEq, Eq)]
pub struct Sizes {
    pub states: u64,
    pub labels: u64,
    pub ghost few: { (states ≤ 64) × (labels ≤ 32) },
}

impl Sizes {
    // Where the point body begins.
    fn point_at(self) -> u64
        ensures { result ≡ body_at 0 self.labels 1 }
    {
        29 + self.labels
    }

    // Where the mark body begins.
    fn mark_at(self) -> u64
        ensures { result ≡ body_at self.states self.labels 2 }
    {
        self.point_at() + self.states * self.labels
    }

    // Where the apply body begins.
    fn apply_at(self) -> u64
        ensures { result ≡ body_at self.states self.labels 3 }
    {
        self.mark_at() + self.states
    }

    // Where the final body begins.
    fn final_at(self) -> u64
        ensures { result ≡ body_at self.states self.labels 4 }
    {
        self.apply_at() + self.states * self.states
    }

    // The whole file's length.
    pub fn file_length(self) -> u64
        ensures { result ≡ body_at self.states self.labels 5 }
    {
        self.final_at() + self.states
    }

    // Where body i begins, counted from 0.
    pub fn body_at(self, i: u64) -> u64
        requires { i < 5 }
        ensures { result ≡ body_at self.states self.labels i }
    {
        match i {
            0 => 29,
            1 => self.point_at(),
            2 => self.mark_at(),
            3 => self.apply_at(),
            _ => self.final_at(),
        }
    }

    // The length of body i, counted from 0.
    pub fn body_length(self, i: u64) -> u64
        requires { i < 5 }
        ensures { result ≡ body_length self.states self.labels i }
    {
        match i {
            0 => self.labels,
            1 => self.states * self.labels,
            3 => self.states * self.states,
            _ => self.states,
        }
    }
}
