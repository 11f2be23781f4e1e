// One state in a mask: a set of states is a 64-bit word, state i at bit i.
#![tactic(auto)]

ghost use Rattle.std.specs.Prelude.{◌≡◌, ◌<◌};
ghost use Rattle.meaning.specs.Masks.{has, added};

// Is state i in the set m?
pub fn holds(m: u64, i: u64) -> bool
    requires { i < 64 }
    ensures { result ≡ has m i }
{
    (m >> i) % 2 == 1
}

// The set m with state i.
pub fn add(m: u64, i: u64) -> u64
    requires { i < 64 }
    ensures { result ≡ added m i }
{
    m | (1 << i)
}
