// The step Find of an insert in a full leaf: where it is divided, without a write. One cut stands
// for all divisions that Otoo's INSERT would make one after the other (I8). Damage that it meets is
// 9.
#![tactic(auto)]

ghost use Rattle.std.specs.Prelude.{◌/◌, ◌%◌, ◌<◌, get_or};
ghost use Rattle.shape.specs.Shape.{widths_of};
ghost use Rattle.pages.specs.Pages.{PageLent};
ghost use Rattle.insert_spare.specs.Spare.{PagesLent};
ghost use Rattle.insert_planned.specs.Planned.{InsertFoundFrom, FullMet, DividingMet};

use insert_cut::{ends_pair, half_of};
use insert_planned::{Found, Split};
use key_encoding::bias_key;
use page::{page_size, page_start};
use pairs::steps_before;
use shape::refusal::Refusal;
use shape::widths_of;
use store::State;
use tally::tally_holds;

// In a full leaf, where the key falls before record i: 6 where its keys and the new one share their
// first L split bits, 9 where two have one key, where they differ above the leaf or the tally is
// none of a sound store.
pub fn find_split(
    state: State,
    pages: &[u8],
    key: u64,
    page: u32,
    depth: u32,
    i: usize,
) -> Result<Found, Refusal>
    requires { PagesLent state pages.now × PageLent state.shape.capacity page pages.now }
    ensures { InsertFoundFrom state pages.now
        (λ before encoded. FullMet before encoded key page depth i) result }
{
    let shape = state.shape;
    let limits = state.limits;
    let capacity = shape.capacity as usize;
    let bias = bias_key(shape);
    let widths = widths_of(shape);
    let start = page_start(capacity, page as usize);
    let end = start + page_size(capacity);
    let pair = ends_pair(&pages[start..end], capacity, widths, bias, key, i);
    if pair == 64 {
        return Err(Refusal::Unsound);
    }
    let step = steps_before(widths, pair);
    if (limits.depth as u64) <= step {
        return Err(Refusal::Depth);
    }
    if step < (depth as u64) {
        return Err(Refusal::Unsound);
    }
    if !tally_holds(state.tally) {
        return Err(Refusal::Unsound);
    }
    let behind = i;
    find_cut(
        state,
        pages,
        key,
        Split {
            page,
            depth,
            behind,
            pair,
            step,
        },
    )
}

// Where a full leaf's page is cut: 9 where the key does not fall into its half.
fn find_cut(state: State, pages: &[u8], key: u64, split: Split) -> Result<Found, Refusal>
    requires pages_lent { PagesLent state pages.now × PageLent state.shape.capacity split.page pages.now }
    requires pair_bound { (split.pair < 64)
        × (split.pair / 4 < get_or (widths_of state.shape) (split.pair % 4) 0) }
    ensures { InsertFoundFrom state pages.now (λ before encoded. DividingMet before encoded key split)
        result }
{
    let shape = state.shape;
    let capacity = shape.capacity as usize;
    let start = page_start(capacity, split.page as usize);
    let end = start + page_size(capacity);
    let half = half_of(
        &pages[start..end],
        capacity,
        widths_of(shape),
        bias_key(shape),
        key,
        split.behind,
        split.pair,
    );
    let Some(cut) = half else {
        return Err(Refusal::Unsound);
    };
    Ok(Found::Full(split, cut))
}
