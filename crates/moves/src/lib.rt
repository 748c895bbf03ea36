// Runs of bytes copied from slice to slice, and moved within one. The moves are loops, which become
// one `memmove`; the library's `copy_within`, which asks for the direction, does not.
#![tactic(auto)]

ghost use Rattle.std.specs.Prelude.{◌≡◌, ◌⊎◌, ◌+◌, ◌≤◌, length, drop};
ghost use Rattle.std.proofs.Math.Seq.{paste};

// Copies n bytes from offset `from` of one slice to offset `to` of another.
pub fn copy(source: &[u8], from: usize, target: &mut [u8], to: usize, n: usize)
    requires { (from + n ≤ length source.now) × (to + n ≤ length target.old) }
    ensures { target.new ≡ paste target.old to (drop from source.now) n }
{
    target[to..to + n].copy_from_slice(&source[from..from + n]);
}

// Moves n bytes within one slice, the first one first: to a lower offset, or past their end.
pub fn move_down(bytes: &mut [u8], from: usize, to: usize, n: usize)
    requires { (from + n ≤ length bytes.old) × (to + n ≤ length bytes.old) × ((to ≤ from) ⊎ (from + n ≤ to)) }
    ensures { bytes.new ≡ paste bytes.old to (drop from bytes.old) n }
{
    for k in 0..n {
        bytes[to + k] = bytes[from + k];
    }
}

// Moves n bytes within one slice to a higher offset, the last one first.
pub fn move_up(bytes: &mut [u8], from: usize, to: usize, n: usize)
    requires { (from ≤ to) × (to + n ≤ length bytes.old) }
    ensures { bytes.new ≡ paste bytes.old to (drop from bytes.old) n }
{
    for left in (0..n).rev() {
        bytes[to + left] = bytes[from + left];
    }
}
