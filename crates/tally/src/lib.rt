// The tally of a store, when leaves are divided and joined (document 01, "Lent memory").
#![tactic(auto)]

ghost use Rattle.std.specs.Prelude.{◌≡◌, true, ◌+◌, ◌-◌, ◌^◌, ◌≤◌, ◌<◌, get_or};
ghost use Rattle.change.specs.Divided.{divided_once, divided_tally};
ghost use Rattle.change.specs.Delete.{joined_once, joined_tally, tally_depth};
ghost use Rattle.tally.specs.Tally.{tally_holds};

use store::Tally;

// Whether a sound store can have a tally: at most 2^x leaves of each depth x.
pub fn tally_holds(tally: Tally) -> bool
    ensures { result ≡ tally_holds tally.leaves }
{
    let leaves = tally.leaves;
    for x in 0..13 {
        if 1u64 << x < leaves[x] as u64 {
            return false;
        }
    }
    true
}

// A leaf of depth x gives way to two of depth x + 1.
#[tactic(auto, unfolding(change::specs::Divided::divided_once))]
pub fn divide_once(tally: Tally, x: usize) -> Tally
    requires { (x < 12) × (get_or tally.leaves (x + 1) 0 + 2 < 2 ^ 32) }
    ensures { result.leaves ≡ divided_once x tally.leaves }
{
    let mut leaves = tally.leaves;
    leaves[x] = leaves[x].saturating_sub(1);
    leaves[x + 1] = leaves[x + 1] + 2;
    Tally { leaves }
}

// So n times, one below the other.
pub fn divide(tally: Tally, x: usize, n: usize) -> Tally
    requires { (x + n ≤ 12) × (tally_holds tally.leaves ≡ true) }
    ensures { result.leaves ≡ divided_tally x n tally.leaves }
{
    let mut divided = tally;
    for y in x..x + n {
        divided = divide_once(divided, y);
    }
    divided
}

// Two leaves of depth x + 1 give way to one of depth x.
#[tactic(auto, unfolding(change::specs::Delete::joined_once))]
pub fn join_once(tally: Tally, x: usize) -> Tally
    requires { (x < 12) × (get_or tally.leaves x 0 + 1 < 2 ^ 32) }
    ensures { result.leaves ≡ joined_once x tally.leaves }
{
    let mut leaves = tally.leaves;
    leaves[x + 1] = leaves[x + 1].saturating_sub(2);
    leaves[x] = leaves[x] + 1;
    Tally { leaves }
}

// So n times, one above the other, the deepest first.
pub fn join(tally: Tally, x: usize, n: usize) -> Tally
    requires { (x + n ≤ 12) × (tally_holds tally.leaves ≡ true) }
    ensures { result.leaves ≡ joined_tally x n tally.leaves }
{
    let mut joined = tally;
    for y in (x..x + n).rev() {
        joined = join_once(joined, y);
    }
    joined
}

// The greatest depth up to n with a leaf, and 0 if there is none.
pub fn greatest_depth(tally: Tally, n: usize) -> usize
    requires { n ≤ 12 }
    ensures { result ≡ tally_depth n tally.leaves }
{
    let leaves = tally.leaves;
    for x in (1..n + 1).rev() {
        if leaves[x] != 0 {
            return x;
        }
    }
    0
}
