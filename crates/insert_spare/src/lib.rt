// A free page for a leaf that newly gets one. Which of those free it is, document 01 leaves open.
#![tactic(auto)]

ghost use Rattle.std.specs.Prelude.{◌≡◌, ◌-◌, ◌^◌, ◌<◌};
ghost use Rattle.pages.specs.Pages.{free_page};
ghost use Rattle.insert_spare.specs.Spare.{PagesLent, leaves_above};

use pages::free_page;
use store::{State, Tally};

// A free page; P where none is. About as many pages as there are leaves are taken, the first ones:
// the search starts at the last of them.
pub fn spare_page(state: State, pages: &[u8]) -> u32
    requires { PagesLent state pages.now }
    ensures { result ≡ free_page state.shape.capacity pages.now state.limits.pages
        (leaves_above state.tally.leaves 13 - 1) }
{
    let shape = state.shape;
    let limits = state.limits;
    let start = leaf_count(state.tally).saturating_sub(1);
    free_page(pages, shape.capacity as usize, limits.pages as usize, start) as u32
}

// How many leaves a tally has.
fn leaf_count(tally: Tally) -> usize
    ensures { result ≡ leaves_above tally.leaves 13 }
{
    let mut n: usize = 0;
    for count in tally.leaves.iter() {
        n += *count as usize;
    }
    n
}
