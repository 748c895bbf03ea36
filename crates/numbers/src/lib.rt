// Numbers: the smaller of two lengths, one of four, below a power of two.
#![tactic(auto)]

ghost use Rattle.std.specs.Prelude.{◌≡◌, [], ◌∷◌, ◌^◌, ◌<◌, ◌≤◌, min, ltb, get_or};

// The smaller of two lengths.
pub fn smaller_length(a: usize, b: usize) -> usize
    ensures { result ≡ min a b }
{
    if b < a { b } else { a }
}

// The number of place j among four, by choices that need no jump.
pub fn one_of(j: u64, x0: u64, x1: u64, x2: u64, x3: u64) -> u64
    requires { j < 4 }
    ensures { result ≡ get_or (x0 ∷ x1 ∷ x2 ∷ x3 ∷ []) j 0 }
{
    if j < 2 {
        return if j == 0 { x0 } else { x1 };
    }
    if j == 2 { x2 } else { x3 }
}

// Whether i is below 2^w.
pub fn below(i: u64, w: u64) -> bool
    requires { w ≤ 16 }
    ensures { result ≡ ltb i (2 ^ w) }
{
    i < 1u64 << w
}
