// The step Allocate of an insert (I2 of Otoo's INSERT): a page for the leaf that newly gets one. It
// writes nothing; the steps after it cannot fail.
#![tactic(auto)]

ghost use Rattle.store.specs.Store.{store};
ghost use Rattle.insert_planned.specs.Planned.{InsertFound, NullFound, FullFound};
ghost use Rattle.insert_allocate.specs.Planned.{InsertPlanned};

use change_guard::leaf_whole;
use directory_word::{pack_empty, pack_page};
use insert_cut::Cut;
use insert_planned::{Found, Split};
use insert_spare::spare_page;
use shape::refusal::Refusal;
use store::State;

// What is to be done: a page, of a leaf of a depth, takes the record at a place among the records that
// it has; an empty leaf, of a depth, gets a free page; a full leaf is divided, and a free page takes
// the records from a cut on.
#[derive(Clone, Copy)]
pub enum Plan {
    Take(u32, u32, usize, usize),
    Get(u32, u32),
    Divide(Split, Cut, u32),
}

// I2, a page for what was found, or find's refusal: 7 where a leaf needs one and none is free, 9
// where not every cell of the leaf holds its word. A page with room needs no other.
pub fn allocate(
    state: State,
    dir: &[u32],
    pages: &[u8],
    encoded: [u32; 4],
    found: Result<Found, Refusal>,
) -> Result<Plan, Refusal>
    requires { InsertFound (store state dir.now pages.now) encoded found }
    ensures { InsertPlanned (store state dir.now pages.now) encoded result }
{
    match found {
        Err(refusal) => Err(refusal),
        Ok(Found::Room(page, depth, place, count)) => Ok(Plan::Take(page, depth, place, count)),
        Ok(Found::Null(depth)) => allocate_first(state, dir, pages, encoded, depth),
        Ok(Found::Full(split, cut)) => allocate_half(state, dir, pages, encoded, split, cut),
    }
}

// I2, "If p is null allocate a new page": the first page of an empty leaf.
fn allocate_first(
    state: State,
    dir: &[u32],
    pages: &[u8],
    encoded: [u32; 4],
    depth: u32,
) -> Result<Plan, Refusal>
    requires { NullFound (store state dir.now pages.now) encoded depth }
    ensures { InsertPlanned (store state dir.now pages.now) encoded result }
{
    let limits = state.limits;
    let free = spare_page(state, pages);
    if free == limits.pages {
        return Err(Refusal::Pages);
    }
    if !leaf_whole(state, dir, encoded, depth, pack_empty(depth)) {
        return Err(Refusal::Unsound);
    }
    Ok(Plan::Get(free, depth))
}

// I2, "Allocate a new page": one for the records of a full leaf with bit 1.
fn allocate_half(
    state: State,
    dir: &[u32],
    pages: &[u8],
    encoded: [u32; 4],
    split: Split,
    cut: Cut,
) -> Result<Plan, Refusal>
    requires { FullFound (store state dir.now pages.now) encoded split cut }
    ensures { InsertPlanned (store state dir.now pages.now) encoded result }
{
    let limits = state.limits;
    let free = spare_page(state, pages);
    if free == limits.pages {
        return Err(Refusal::Pages);
    }
    let word = pack_page(split.page, split.depth);
    if !leaf_whole(state, dir, encoded, split.depth, word) {
        return Err(Refusal::Unsound);
    }
    Ok(Plan::Divide(split, cut, free))
}
