// The walk of the call check over all regions: what words and pages show of each (document 01,
// "Calls").
#![tactic(auto)]

pub mod regions;

ghost use Rattle.std.specs.Prelude.{◌≡◌, ◌-◌, length, get_or};
ghost use Rattle.shape.specs.Shape.{width_list};
ghost use Rattle.check_walk.specs.Sums.{PageSeen, LeafSeen, Walked, PageAsked, Walks, TallyRoom};

use check_seen::{Seen, depth_of, joined, page_seen};
use key_encoding::bias_key;
use page::page_size;
use regions::{Region, same_words, sides_of};
use shape::Widths;
use store::State;

// Walks a region, bit 0 before bit 1, and adds its leaves to the tally: none if it does not pass. A
// region is a leaf if the word of its first cell has no greater depth.
pub fn walk(
    state: State,
    widths: Widths,
    region: Region,
    dir: &[u32],
    pages: &[u8],
    tally: &mut [u32],
) -> Option<Seen>
    requires { Walks state (width_list widths) (length dir.now) (length pages.now) region
        × TallyRoom (state.deepest - region.depth) tally.old }
    ensures { Walked state (width_list widths) dir.now pages.now region
        tally.old result tally.new }
{
    let word = dir[region.address as usize];
    if depth_of(word) <= region.depth {
        return leaf(state, widths, region, word, dir, pages, tally);
    }
    if (state.deepest as u64) <= region.depth {
        return None;
    }
    let sides = sides_of(widths, region);
    let lower = walk(state, widths, sides.lower, dir, pages, tally)?;
    let upper = walk(state, widths, sides.upper, dir, pages, tally)?;
    joined(state.shape.capacity, lower, upper)
}

// Tests a leaf: its depth, its page, and that all its cells hold its word.
fn leaf(
    state: State,
    widths: Widths,
    region: Region,
    word: u32,
    dir: &[u32],
    pages: &[u8],
    tally: &mut [u32],
) -> Option<Seen>
    requires { Walks state (width_list widths) (length dir.now) (length pages.now) region
        × TallyRoom (state.deepest - region.depth) tally.old × (word ≡ get_or dir.now region.address 0) }
    ensures { LeafSeen state (width_list widths) dir.now pages.now region
        tally.old result tally.new }
{
    if depth_of(word) != region.depth {
        return None;
    }
    let seen = leaf_page(state, widths, region, word & 0xffff, pages)?;
    if !same_words(widths, region, state.deepest as u64, word, dir) {
        return None;
    }
    let x = region.depth as usize;
    tally[x] = tally[x] + 1;
    Some(seen)
}

// Tests the page that a word's lower half names: none, or one of the P pages.
fn leaf_page(state: State, widths: Widths, region: Region, field: u32, pages: &[u8]) -> Option<Seen>
    requires { PageAsked state (width_list widths) (length pages.now) region }
    ensures { PageSeen state (width_list widths) pages.now region field result }
{
    if field == 0 {
        return Some(Seen {
            records: 0,
            pages: 0,
            depth: 0,
        });
    }
    let page = field - 1;
    if state.limits.pages <= page {
        return None;
    }
    let capacity = state.shape.capacity;
    let size = page_size(capacity as usize);
    let start = (page as usize) * size;
    let end = start + size;
    let bias = bias_key(state.shape);
    page_seen(
        widths,
        capacity,
        bias,
        &pages[start..end],
        region.depth,
        region.string,
    )
}
