// Before the first write of a change: whether every leaf whose words the steps set is whole, and
// whether a lower T loses no word. Where a test fails the store is unsound, and the call gives 9.
#![tactic(auto)]

ghost use Rattle.std.specs.Prelude.{suc, ◌≤◌, ◌<◌, length};
ghost use Rattle.shape.specs.Shape.{widths_of};
ghost use Rattle.split.specs.Bits.{split_bit};
ghost use Rattle.region.specs.Strings.{sibling};
ghost use Rattle.directory_lent.specs.Lent.{DirectoryLent};
ghost use Rattle.delete_steps.specs.Steps.{LeavesLent};
ghost use Rattle.directory_tests.specs.Intact.{RegionTold, FoldTold};
ghost use Rattle.change_guard.specs.Guard.{RemovalAsked, JoiningAsked, EmptiesAsked, DepthJoined};
ghost use Rattle.change_guard.specs.Guard.{RemovalTold, JoiningTold, EmptiesTold};

use delete_plan::{Join, Stored};
use directory_tests::halving::folds;
use directory_tests::regions::{region_holds, sibling_holds};
use directory_word::{pack_empty, pack_page};
use shape::widths_of;
use store::State;
use tally::greatest_depth;

// Whether every cell of a key's region of x bits holds a word.
pub fn leaf_whole(state: State, dir: &[u32], encoded: [u32; 4], x: u32, word: u32) -> bool
    requires { DirectoryLent state (length dir.now) × (x ≤ state.deepest) }
    ensures { RegionTold (widths_of state.shape) state.deepest x
        (split_bit (widths_of state.shape) encoded) word dir.now result }
{
    let widths = widths_of(state.shape);
    region_holds(widths, encoded, x as u64, state.deepest as u64, word, dir)
}

// Whether the leaf of a delete's key is whole, where it stays and its only record is removed. It
// hands on the widths alone: a call that takes the state would cost a leaf with more records a copy.
pub fn removal_keeps(state: State, dir: &[u32], encoded: [u32; 4], found: Stored) -> bool
    requires { RemovalAsked state (length dir.now) found }
    ensures { RemovalTold state dir.now encoded found result }
{
    if found.count != 1 {
        return true;
    }
    let word = pack_page(found.page, found.depth);
    let widths = widths_of(state.shape);
    region_holds(
        widths,
        encoded,
        found.depth as u64,
        state.deepest as u64,
        word,
        dir,
    )
}

// Whether the leaves that a delete joins are whole, and no other word is lost at the new T.
pub fn join_keeps(state: State, dir: &[u32], encoded: [u32; 4], found: Stored, join: Join) -> bool
    requires { JoiningAsked state (length dir.now) found join }
    ensures { JoiningTold state dir.now encoded found join result }
{
    let own = pack_page(found.page, found.depth);
    if !leaf_whole(state, dir, encoded, found.depth, own) {
        return false;
    }
    let other = pack_page(join.other, found.depth);
    if !sibling_whole(state, dir, encoded, join.step, other) {
        return false;
    }
    if !empties_whole(state, dir, encoded, join.step, join.top) {
        return false;
    }
    halving_whole(state, dir, encoded, joined_depth(state, found, join))
}

// T after a join.
fn joined_depth(state: State, found: Stored, join: Join) -> u32
    requires { (state.deepest ≤ 12) × LeavesLent state found join }
    ensures { DepthJoined state join result }
{
    let levels = found.depth - join.top;
    let tally = tally::join(state.tally, join.top as usize, levels as usize);
    greatest_depth(tally, state.deepest as usize) as u32
}

// The same for the sibling of its region of z + 1 bits.
fn sibling_whole(state: State, dir: &[u32], encoded: [u32; 4], z: u32, word: u32) -> bool
    requires { DirectoryLent state (length dir.now) × (z < state.deepest) }
    ensures { RegionTold (widths_of state.shape) state.deepest (suc z)
        (sibling (split_bit (widths_of state.shape) encoded) z) word dir.now result }
{
    let widths = widths_of(state.shape);
    sibling_holds(widths, encoded, z as u64, state.deepest as u64, word, dir)
}

// Whether the siblings of its regions of depths y + 1 to m are empty leaves.
fn empties_whole(state: State, dir: &[u32], encoded: [u32; 4], m: u32, y: u32) -> bool
    requires { EmptiesAsked state (length dir.now) m y }
    ensures { EmptiesTold state dir.now encoded m y result }
{
    for z in y..m {
        let word = pack_empty(z + 1);
        if !sibling_whole(state, dir, encoded, z, word) {
            return false;
        }
    }
    true
}

// Whether a directory of depth u has the words of all strings outside its region of u bits.
fn halving_whole(state: State, dir: &[u32], encoded: [u32; 4], u: u32) -> bool
    requires { DirectoryLent state (length dir.now) × (u ≤ state.deepest) }
    ensures { FoldTold (widths_of state.shape) u state.deepest
        (split_bit (widths_of state.shape) encoded) dir.now result }
{
    let widths = widths_of(state.shape);
    folds(widths, encoded, u as u64, state.deepest as u64, dir)
}
