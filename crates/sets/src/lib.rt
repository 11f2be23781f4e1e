// T, acc, safe and down as code: sets of states as 64-bit masks, state i at bit i.
//
// safe and down go over 64 masks in acc's place. Each function answers the mask of `meaning` of the same name; that these
// masks are the smallest sets is proved there. That three of them collect the states that pass a test, each another, stays
// three loops: what a shared one answers would have to be told of a closure, in more words than a loop has.
#![tactic(auto)]

ghost use Rattle.std.specs.Prelude.{◌≡◌, ◌<◌, ◌≤◌};
ghost use Rattle.meaning.specs.Masks.{safe_of, into_of, down_of, in_down, ends_of};
ghost use Rattle.bodies.specs.Automaton.{automaton};

use bodies::Table;
pub use closing::{accs, trees};
use masks::add;
pub use masks::holds;

// safe(x): the q below n whose acc(q) lies in x.
pub fn safe(n: u64, accs: &[u64; 64], x: u64) -> u64
    requires { n ≤ 64 }
    ensures { result ≡ safe_of n accs.now x }
{
    let mut y = 0;
    for q in 0..n {
        let acc = accs[q as usize];
        if acc & x == acc {
            y = add(y, q);
        }
    }
    y
}

// The set of p with A(q,p) in x.
fn into(table: &Table, q: u64, x: u64) -> u64
    requires { q < (automaton table.now).states }
    ensures { result ≡ into_of (automaton table.now) q x }
{
    let mut y = 0;
    for p in 0..table.states() {
        if holds(x, table.apply(q, p)) {
            y = add(y, p);
        }
    }
    y
}

// down(q,x).
pub fn down(table: &Table, accs: &[u64; 64], q: u64, x: u64) -> u64
    requires { q < (automaton table.now).states }
    ensures { result ≡ down_of (automaton table.now) accs.now q x }
{
    safe(table.states(), accs, into(table, q, x))
}

// Is a state in down(q,x)? acc is acc(.) of that state; down(q,x) itself is not worked out.
pub fn in_down(table: &Table, acc: u64, q: u64, x: u64) -> bool
    requires { q < (automaton table.now).states }
    ensures { result ≡ in_down (automaton table.now) acc q x }
{
    let n = table.states();
    for p in 0..64 {
        if holds(acc, p) {
            if n <= p {
                return false;
            }
            if !holds(x, table.apply(q, p)) {
                return false;
            }
        }
    }
    true
}

// The final states, or the others.
pub fn ends(table: &Table, wanted: bool) -> u64
    ensures { result ≡ ends_of (automaton table.now) wanted }
{
    let mut y = 0;
    for q in 0..table.states() {
        if table.is_final(q) == wanted {
            y = add(y, q);
        }
    }
    y
}
