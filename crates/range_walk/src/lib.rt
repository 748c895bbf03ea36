// The range call's walk over the regions: the pages of the leaves whose region meets a box, noted
// in order before any of their records is read (document 02, request 1). A box is two packed keys,
// its low and its high end in each attribute.
#![tactic(auto)]

ghost use Rattle.std.specs.Prelude.{◌≡◌, ◌+◌, ◌-◌, ◌^◌, ◌≤◌, length};
ghost use Rattle.directory_word.specs.Word.{depth_field};
ghost use Rattle.query_rows.specs.Rows.{deepest_in};
ghost use Rattle.query_walk.specs.Noting.{Walkable};
ghost use Rattle.query_walk.specs.Turns.{Wrote, Turn, leaf_by};
ghost use Rattle.range_walk.specs.Meeting.{Meeting};
ghost use Rattle.range_walk.specs.Private.{seen_meeting, meets_by_row};

use directory_word::depth_of;
use key_between::lies_between;
use query_rows::{BIT, DEEPEST, FIXED, ROW, TABLE, VALUE, address_by};
use query_walk::{DAMAGED, MOST_PAGES, is_leaf, note};
use store::State;

// Notes the pages of the leaves whose region meets the box from low to high and that are not empty,
// bit 0 before bit 1, from the front of the list on, and returns their number. The table may be that
// of any query: what it wants is not looked at. None where it meets what no sound store has, as a
// query's walk.
pub fn note_met(
    state: State,
    rows: &[u64; TABLE],
    low: u64,
    high: u64,
    dir: &[u32],
    pages: &[u8],
    list: &mut [u32],
) -> Option<usize>
    requires walkable { Walkable state rows.now (length dir.now) (length pages.now) (length list.old) }
    requires deepest_in_bounds { 2 ^ state.deepest ≤ length list.old }
    ensures { Meeting state low high dir.now pages.now list.old result
        list.new }
{
    let word = dir[0];
    let count = if is_leaf(word, 0) {
        note(rows, pages, list, 0, word, 0, 0)
    } else {
        walk(rows, low, high, dir, pages, list, 0, 0, word, 0, 0)
    };
    if MOST_PAGES < count {
        return None;
    }
    Some(count)
}

// Notes the pages below the region of depth x with this index vector and low corner, whose own cell
// holds the word, from place n on, and returns the next place, or DAMAGED. The region is no leaf; a
// side that meets the box and is one is noted here, so that a leaf takes no turn of its own. A side
// meets the box if in no attribute its lowest value is above the high end, or its first bits below
// those of the low end. The 1-side's word is read only where it meets the box.
fn walk(
    rows: &[u64; TABLE],
    low: u64,
    high: u64,
    dir: &[u32],
    pages: &[u8],
    list: &mut [u32],
    index: u64,
    corner: u64,
    word: u32,
    x: usize,
    n: usize,
) -> usize
    requires turn { Turn rows.now dir.now (length pages.now) (length list.old) index corner x n }
    requires x_in_bounds { n + 2 ^ (deepest_in rows.now - x) ≤ length list.old }
    requires fact { depth_field word ≡ x → ⊥ }
    ensures { Wrote list.old n
        (seen_meeting rows.now dir.now (leaf_by rows.now pages.now)
        (meets_by_row rows.now low high) (deepest_in rows.now)
        (deepest_in rows.now - x) x index corner word)
        result list.new }
{
    let depth = depth_of(word) as usize;
    if depth < x {
        return DAMAGED;
    }
    let t = rows[DEEPEST] as usize;
    if t < depth {
        return DAMAGED;
    }
    let deeper = x + 1;
    let at = x * ROW;
    let floor = low & rows[deeper * ROW + FIXED];
    let upper = index + rows[at + BIT];
    let top = corner + rows[at + VALUE];
    let m = if !lies_between(floor, high, corner) {
        n
    } else if is_leaf(word, deeper) {
        note(rows, pages, list, corner, word, deeper, n)
    } else {
        walk(
            rows, low, high, dir, pages, list, index, corner, word, deeper, n,
        )
    };
    if MOST_PAGES < m {
        return m;
    }
    if !lies_between(floor, high, top) {
        return m;
    }
    let other = dir[address_by(rows, at, upper)];
    if is_leaf(other, deeper) {
        return note(rows, pages, list, top, other, deeper, m);
    }
    walk(
        rows, low, high, dir, pages, list, upper, top, other, deeper, m,
    )
}
