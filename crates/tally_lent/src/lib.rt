// The tally, lent to the steps that divide and join regions, which update it (document 01, "Lent
// memory").
#![tactic(auto)]

ghost use Rattle.std.specs.Prelude.{◌≡◌, true, ◌+◌, ◌≤◌};
ghost use Rattle.change.specs.Divided.{divided_tally};
ghost use Rattle.change.specs.Delete.{joined_tally};
ghost use Rattle.tally.specs.Tally.{tally_holds};

use store::Tally;

// A leaf of depth x gives way to two below it, n times: the lent tally is updated.
pub fn divide(tally: &mut Tally, x: usize, n: usize)
    requires { (x + n ≤ 12) × (tally_holds tally.old.leaves ≡ true) }
    ensures { tally.new.leaves ≡ divided_tally x n tally.old.leaves }
{
    *tally = tally::divide(*tally, x, n);
}

// Two leaves give way to one above them, n times, the last of depth x: the lent tally is updated.
pub fn join(tally: &mut Tally, x: usize, n: usize)
    requires { (x + n ≤ 12) × (tally_holds tally.old.leaves ≡ true) }
    ensures { tally.new.leaves ≡ joined_tally x n tally.old.leaves }
{
    *tally = tally::join(*tally, x, n);
}

// The same by value: the tally is lent to `divide`, and returned.
pub fn divided(tally: Tally, x: usize, n: usize) -> Tally
    requires { (x + n ≤ 12) × (tally_holds tally.leaves ≡ true) }
    ensures { result.leaves ≡ divided_tally x n tally.leaves }
{
    let mut lent = tally;
    divide(&mut lent, x, n);
    lent
}

// The same by value: the tally is lent to `join`, and returned.
pub fn joined(tally: Tally, x: usize, n: usize) -> Tally
    requires { (x + n ≤ 12) × (tally_holds tally.leaves ≡ true) }
    ensures { result.leaves ≡ joined_tally x n tally.leaves }
{
    let mut lent = tally;
    join(&mut lent, x, n);
    lent
}
