// The plan of a delete, made before anything is written (document 01, "Calls"): the key's record,
// and whether its leaf stays or is joined.
#![tactic(auto)]

ghost use Rattle.std.specs.Prelude.{◌≡◌, ◌≤◌, length};
ghost use Rattle.record.specs.Packed.{unpacked_key};
ghost use Rattle.page.specs.Page.{page_at};
ghost use Rattle.pages.specs.Pages.{PageLent};
ghost use Rattle.page_matches.specs.KeyPlace.{key_place, place_below};
ghost use Rattle.store.specs.Store.{store};
ghost use Rattle.refusals.specs.Passed.{Passed};
ghost use Rattle.delete_plan.specs.Plan.{LeafMet, DeletePlanned};
ghost use Rattle.delete_plan.specs.Met.{LeafCount, sought, LeafFound, SiblingMet, JoinAsked, JoinMade};

use delete_siblings::{climb, find_sibling, sibling_word_holds, step_bit};
use directory_word::{Leaf, unpack};
use key_encoding::{bias_key, to_fields};
use leaf_word::{key_word, word_holds};
use page::{page_size, page_start};
use page_ends::{fair_count, fixed_bits};
use page_matches::find_key;
use record::pack_key;
use refusals::limits_hold;
use shape::refusal::Refusal;
use shape::{Key, widths_of};
use store::State;
use tally::tally_holds;

// Where the key's record is stored: page and depth of its leaf, and its place among the records of
// the page.
#[derive(Clone, Copy)]
pub struct Stored {
    pub page: u32,
    pub depth: u32,
    pub place: usize,
    pub count: usize,
}

// The key's leaf and its sibling give way to one leaf: the sibling's page and how many records it
// has, the split step that divided the two and the key's bit there, the depth of the new leaf.
#[derive(Clone, Copy)]
pub struct Join {
    pub other: u32,
    pub count: usize,
    pub step: u32,
    pub bit: bool,
    pub top: u32,
}

// What a delete is to do: take the record out of a leaf that stays, or of one that is joined.
#[derive(Clone, Copy)]
pub enum Plan {
    Keep(Stored),
    Join(Stored, Join),
}

// Plans a delete of a key, given by its encodings, after 1, 14, 15, 2 and 3: 9 for limits or a word
// that no sound store has, 5 for a leaf without a page.
pub fn plan_delete(state: State, dir: &[u32], pages: &[u8], encoded: Key) -> Result<Plan, Refusal>
    requires { Passed (store state dir.now pages.now) encoded.values }
    ensures { DeletePlanned (store state dir.now pages.now) encoded.values result }
{
    if !limits_hold(state) {
        return Err(Refusal::Unsound);
    }
    let widths = widths_of(state.shape);
    let at = key_word(widths, state.deepest as u64, dir, pack_key(encoded));
    if !word_holds(state, at.word) {
        return Err(Refusal::Unsound);
    }
    let found = unpack(at.word);
    let Leaf::Page(page, depth) = found else {
        return Err(Refusal::Absent(at.depth));
    };
    plan_leaf(state, dir, pages, encoded, page, depth)
}

// The plan for a leaf with a page: 9 for a count of 0 or above b, and where the first or the last
// record is out of bounds or does not begin with the leaf's string; 5 where no record has the key. A
// leaf of depth 0 has no sibling.
fn plan_leaf(
    state: State,
    dir: &[u32],
    pages: &[u8],
    encoded: Key,
    page: u32,
    depth: u32,
) -> Result<Plan, Refusal>
    requires { LeafMet (store state dir.now pages.now) encoded.values page depth }
    ensures { DeletePlanned (store state dir.now pages.now) encoded.values result }
{
    let shape = state.shape;
    let mask = fixed_bits(widths_of(shape), depth as u64);
    let bias = bias_key(shape);
    let packed = pack_key(encoded);
    let found = seek(
        pages,
        shape.capacity as usize,
        bias,
        packed,
        mask,
        page,
        depth,
    )?;
    if depth == 0 {
        return Ok(Plan::Keep(found));
    }
    plan_sibling(state, dir, pages, encoded, found, mask)
}

// Where a packed key is on the page of a leaf that fixes the bits of a mask: 9 for a page that cannot
// be the leaf's, 5 where no record has the key.
fn seek(
    pages: &[u8],
    capacity: usize,
    bias: u64,
    key: u64,
    mask: u64,
    page: u32,
    depth: u32,
) -> Result<Stored, Refusal>
    requires { PageLent capacity page pages.now }
    ensures { result ≡ sought capacity bias key mask (page_at capacity pages.now page) page depth }
{
    let Some(count) = count_on(pages, capacity, page as usize, bias, key, mask) else {
        return Err(Refusal::Unsound);
    };
    let fields = to_fields(bias, key);
    let Some(place) = place_on(pages, capacity, page as usize, count, fields) else {
        return Err(Refusal::Absent(depth));
    };
    Ok(Stored {
        page,
        depth,
        place,
        count,
    })
}

// How many records page g has, where it can be that of a leaf that fixes the bits of a mask and in
// which a packed key falls; None for another page.
fn count_on(
    pages: &[u8],
    capacity: usize,
    g: usize,
    bias: u64,
    key: u64,
    mask: u64,
) -> Option<usize>
    requires { PageLent capacity g pages.now }
    ensures { LeafCount capacity bias mask key (page_at capacity pages.now g) result }
{
    let start = page_start(capacity, g);
    let end = start + page_size(capacity);
    fair_count(&pages[start..end], capacity, bias, key, mask)
}

// The place of the first of the n records of page g that has the packed fields of a key; None where
// none has.
fn place_on(pages: &[u8], capacity: usize, g: usize, n: usize, fields: u64) -> Option<usize>
    requires { PageLent capacity g pages.now × (n ≤ capacity) }
    ensures { result ≡ place_below n (key_place fields (page_at capacity pages.now g) n 0) }
{
    let start = page_start(capacity, g);
    let end = start + page_size(capacity);
    find_key(&pages[start..end], n, fields)
}

// The plan for a leaf below depth 0, which fixes the bits of a mask: it stays where its sibling is
// divided. 9 for a word of the sibling that no sound store has.
fn plan_sibling(
    state: State,
    dir: &[u32],
    pages: &[u8],
    encoded: Key,
    found: Stored,
    mask: u64,
) -> Result<Plan, Refusal>
    requires { LeafFound (store state dir.now pages.now) encoded.values found mask }
    ensures { DeletePlanned (store state dir.now pages.now) encoded.values result }
{
    let packed = pack_key(encoded);
    let beside = find_sibling(state, dir, packed, found.depth - 1);
    let word = beside.word;
    if !sibling_word_holds(state, word, found.depth) {
        return Err(Refusal::Unsound);
    }
    let sibling = unpack(word);
    let Leaf::Page(other, depth) = sibling else {
        return Ok(Plan::Keep(found));
    };
    if depth != found.depth {
        return Ok(Plan::Keep(found));
    }
    plan_pair(state, dir, pages, encoded, found, mask, other, beside.key)
}

// The plan for a leaf and its sibling of the same depth, with page `other`, in which the packed key
// `beside` falls: they are joined where both fit one page without the record. 9 for a page that
// cannot be the sibling's, and for a tally that no sound store has.
fn plan_pair(
    state: State,
    dir: &[u32],
    pages: &[u8],
    encoded: Key,
    found: Stored,
    mask: u64,
    other: u32,
    beside: u64,
) -> Result<Plan, Refusal>
    requires { SiblingMet (store state dir.now pages.now) encoded.values found mask other beside }
    ensures { DeletePlanned (store state dir.now pages.now) encoded.values result }
{
    let shape = state.shape;
    let capacity = shape.capacity as usize;
    let bias = bias_key(shape);
    let Some(count) = count_on(pages, capacity, other as usize, bias, beside, mask) else {
        return Err(Refusal::Unsound);
    };
    if capacity + 1 < found.count + count {
        return Ok(Plan::Keep(found));
    }
    if !tally_holds(state.tally) {
        return Err(Refusal::Unsound);
    }
    let join = plan_join(state, dir, pack_key(encoded), found.depth, other, count);
    Ok(Plan::Join(found, join))
}

// The join of the leaf of depth x in which a packed key falls with its sibling, which has page `other`
// and so many records.
fn plan_join(state: State, dir: &[u32], key: u64, x: u32, other: u32, count: usize) -> Join
    requires { JoinAsked state (length dir.now) x }
    ensures { JoinMade state dir.now (unpacked_key key) x other count result }
{
    let step = x - 1;
    let bit = step_bit(state.shape, key, step);
    let top = climb(state, dir, key, step);
    Join {
        other,
        count,
        step,
        bit,
        top,
    }
}
