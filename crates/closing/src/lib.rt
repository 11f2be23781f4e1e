// T and acc(q) as code, closed by rounds that stop when nothing is added.
//
// Each function answers the mask of `meaning` of the same name; that these masks are the smallest sets is proved there.
#![tactic(auto)]

ghost use Rattle.std.specs.Prelude.{◌≡◌, ◌<◌};
ghost use Rattle.meaning.specs.Masks.{points_of, applies_of, round_of, openings_of, trees_of, acc_of, accs_over};
ghost use Rattle.bodies.specs.Automaton.{automaton};

use bodies::Table;
use masks::{add, holds};

// x with every P(q,a).
fn add_points(table: &Table, q: u64, x: u64) -> u64
    requires { q < (automaton table.now).states }
    ensures { result ≡ points_of (automaton table.now) q x }
{
    let mut y = x;
    for a in 0..table.labels() {
        y = add(y, table.point(q, a));
    }
    y
}

// x with every A(q,p) for p in trees.
fn add_applies(table: &Table, trees: u64, q: u64, x: u64) -> u64
    requires { q < (automaton table.now).states }
    ensures { result ≡ applies_of (automaton table.now) trees q x }
{
    let mut y = x;
    for p in 0..table.states() {
        if holds(trees, p) {
            y = add(y, table.apply(q, p));
        }
    }
    y
}

// x with what each of its states steps to; a state that is added is followed at once if its turn is still to come.
fn round(table: &Table, trees: u64, x: u64) -> u64
    ensures { result ≡ round_of (automaton table.now) trees x }
{
    let mut y = x;
    for q in 0..table.states() {
        if holds(y, q) {
            y = add_applies(table, trees, q, add_points(table, q, y));
        }
    }
    y
}

// Every O(a).
fn openings(table: &Table) -> u64
    ensures { result ≡ openings_of (automaton table.now) }
{
    let mut y = 0;
    for a in 0..table.labels() {
        y = add(y, table.opening(a));
    }
    y
}

// T. Its rounds go over the set that grows, those of acc over T: two loops, since what a round is given differs.
pub fn trees(table: &Table) -> u64
    ensures { result ≡ trees_of (automaton table.now) }
{
    let mut x = openings(table);
    loop {
        let next = round(table, x, x);
        if next == x {
            break;
        }
        x = next;
    }
    x
}

// acc(q), for trees in T's place.
fn acc(table: &Table, trees: u64, q: u64) -> u64
    requires { q < (automaton table.now).states }
    ensures { result ≡ acc_of (automaton table.now) trees q }
{
    let mut x = 1 << q;
    loop {
        let next = round(table, trees, x);
        if next == x {
            break;
        }
        x = next;
    }
    x
}

// acc(q) for each of 64 states, for trees in T's place; 0 from state n on.
pub fn accs(table: &Table, trees: u64) -> [u64; 64]
    ensures { result ≡ accs_over (automaton table.now) trees }
{
    let mut sets = [0; 64];
    for q in 0..table.states() {
        sets[q as usize] = acc(table, trees, q);
    }
    sets
}
