// The call check: whether a lent store is sound (document 01, "Calls").
#![tactic(auto)]

ghost use Rattle.std.specs.Prelude.{◌≡◌, ◌&&◌, length};
ghost use Rattle.store.specs.Store.{store};
ghost use Rattle.store.specs.Answers.{checked_answer};
ghost use Rattle.store.specs.Promises.{CheckPromise};
ghost use Rattle.check_test.specs.Test.{walk_test, sums_test};
ghost use Rattle.check_call.specs.Private.{StoreLent};

use check_counts::{pages_in_use, same_tally};
use check_walk::regions::whole_region;
use check_walk::walk;
use refusals::{limits_hold, validate_lent};
use shape::refusal::Refusal;
use shape::widths_of;
use store::State;

// Whether the lent store is sound: yes exactly for a sound store, otherwise no. Refused with 1, 14 or
// 15 for a shape outside its bounds, then with 2 for fewer than 2^L words or P pages. Writes nothing.
pub fn check(state: State, dir: &[u32], pages: &[u8]) -> Result<bool, Refusal>
    ensures { CheckPromise (store state dir.now pages.now) (checked_answer result) }
{
    validate_lent(state, dir.len(), pages.len())?;
    if !limits_hold(state) {
        return Ok(false);
    }
    Ok(shows_leaves(state, dir, pages))
}

// Whether words and pages show the leaves of some set, and T, the tally and the pages in use are
// those of the leaves.
fn shows_leaves(state: State, dir: &[u32], pages: &[u8]) -> bool
    requires { StoreLent state (length dir.now) (length pages.now) }
    ensures { result ≡ (walk_test (store state dir.now pages.now)
        && sums_test (store state dir.now pages.now)) }
{
    let widths = widths_of(state.shape);
    let mut tally = [0u32; 13];
    let Some(seen) = walk(state, widths, whole_region(), dir, pages, &mut tally) else {
        return false;
    };
    if seen.depth != state.deepest {
        return false;
    }
    if !same_tally(state.tally, &tally) {
        return false;
    }
    pages_in_use(state.shape.capacity, state.limits.pages, pages) == seen.pages
}
