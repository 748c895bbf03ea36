// The steps of a planned delete. None of them can fail.
#![tactic(auto)]

ghost use Rattle.std.specs.Prelude.{◌≡◌, suc, ◌-◌, ◌≤◌, length};
ghost use Rattle.change.specs.Delete.{joined_tally};
ghost use Rattle.delete_steps.specs.Steps.{LeavesLent, LeafLent, LeafKept, JoinLent, LeavesJoined};

use delete_pages::{join_records, remove_record};
use delete_plan::{Join, Stored};
use directory_fill::fill;
use directory_word::{pack_empty, pack_page};
use shape::widths_of;
use store::{State, Tally};
use tally::greatest_depth;

// The key's leaf stays: its record is removed, and a leaf whose only record it was has no page now.
pub fn keep_leaf(state: State, dir: &mut [u32], pages: &mut [u8], encoded: [u32; 4], found: Stored)
    requires { LeafLent state found (length dir.old) pages.old }
    ensures { LeafKept state encoded found dir.old pages.old dir.new
        pages.new }
{
    let shape = state.shape;
    remove_record(pages, shape.capacity as usize, found);
    if found.count != 1 {
        return;
    }
    let word = pack_empty(found.depth);
    fill(
        widths_of(shape),
        encoded,
        found.depth as u64,
        state.deepest as u64,
        word,
        dir,
    );
}

// The key's leaf and its sibling are joined: the record is removed, the others are put into one
// page, and the region of the new leaf is set. Returns the state with the tally and T then.
pub fn join_leaves(
    state: State,
    dir: &mut [u32],
    pages: &mut [u8],
    encoded: [u32; 4],
    found: Stored,
    join: Join,
) -> State
    requires { JoinLent state found join (length dir.old) pages.old }
    ensures { LeavesJoined state encoded found join result dir.old pages.old dir.new
        pages.new }
{
    let shape = state.shape;
    let limits = state.limits;
    let kept = join_records(pages, shape.capacity as usize, found, join);
    let tally = join_tally(state, found, join);
    let depth = greatest_depth(tally, state.deepest as usize);
    let word = pack_page(kept, join.top);
    fill(
        widths_of(shape),
        encoded,
        join.top as u64,
        depth as u64,
        word,
        dir,
    );
    State {
        shape,
        limits,
        deepest: depth as u32,
        tally,
    }
}

// The tally after a join: one leaf at the new one's depth for all that lay below it.
fn join_tally(state: State, found: Stored, join: Join) -> Tally
    requires { (state.deepest ≤ 12) × LeavesLent state found join }
    ensures { result.leaves ≡ joined_tally join.top (suc join.step - join.top) state.tally.leaves }
{
    tally_lent::joined(
        state.tally,
        join.top as usize,
        (found.depth - join.top) as usize,
    )
}
