// Words of lent memory, set to 0 or copied.
#![tactic(auto)]

ghost use Rattle.std.specs.Prelude.{◌≡◌, ◌+◌, ◌≤◌, length, drop, replicate};
ghost use Rattle.std.proofs.Math.Seq.{paste};

// The w words from `from` on are copied to `to`.
pub fn copy_words(words: &mut [u64], to: usize, from: usize, w: usize)
    requires { (from + w ≤ length words.old) × (to + w ≤ length words.old) }
    ensures { words.new ≡ paste words.old to (drop from words.old) w }
{
    words.copy_within(from..from + w, to);
}

// Every word is 0.
pub fn clear(words: &mut [u64])
    ensures { words.new ≡ replicate (length words.old) 0 }
{
    words.fill(0);
}
