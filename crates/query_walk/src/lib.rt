// The query's walk over the regions: the pages of the agreeing leaves, noted in order before any of
// their records is read (document 01, "Calls").
#![tactic(auto)]

ghost use Rattle.std.specs.Prelude.{◌≡◌, ◌-◌, eqb, length};
ghost use Rattle.directory_word.specs.Word.{depth_field};
ghost use Rattle.query_rows.specs.Rows.{deepest_in};
ghost use Rattle.query_walk.specs.Noting.{Noting, Walkable};
ghost use Rattle.query_walk.specs.Private.{PageAsked, seen_by, given_side};
ghost use Rattle.query_walk.specs.Turns.{Wrote, NoteAsked, Turn, leaf_by, page_fair};

use directory_word::{depth_of, field_of};
use page::{page_size, page_start};
use page_ends::fair_count;
use query_rows::{
    BIAS, BIT, CAPACITY, DEEPEST, FIXED, PAGES, ROW, TABLE, TALLIED, VALUE, WANTED, address_by,
};
use store::State;

// No store has more pages, so that no walk notes more.
pub const MOST_PAGES: usize = 4096;

// What a part of the walk returns in place of a number of pages.
pub const DAMAGED: usize = 65535;

// Notes the pages of the leaves that agree with the query of this table and are not empty, bit 0
// before bit 1, from the front of the list on, and returns their number. None where it meets a word
// with a bit of 20-31 set, with a depth below its region's or above T, of a leaf whose depth has none
// in the tally, or with a page number of P or more; or a page whose count is 0 or above b, or whose
// first or last record is not one of the leaf's.
pub fn note_pages(
    state: State,
    rows: &[u64; TABLE],
    dir: &[u32],
    pages: &[u8],
    list: &mut [u32],
) -> Option<usize>
    requires { Walkable state rows.now (length dir.now) (length pages.now) (length list.old) }
    ensures { Noting state rows.now dir.now pages.now list.old result
        list.new }
{
    let word = dir[0];
    let count = if is_leaf(word, 0) {
        note(rows, pages, list, 0, word, 0, 0)
    } else {
        walk(rows, dir, pages, list, 0, 0, word, 0, 0)
    };
    if MOST_PAGES < count {
        return None;
    }
    Some(count)
}

// Notes the pages below the region of depth x with this index vector and low corner, whose own cell
// holds the word, from place n on, and returns the next place, or DAMAGED. The region is no leaf; a
// side that is one is noted here, so that a leaf takes no turn of its own. The 0-side has the same cell
// and corner, so that only the 1-side's address is computed and its word read. Which side a given
// bit leads to is chosen without a jump, which could not be foretold.
fn walk(
    rows: &[u64; TABLE],
    dir: &[u32],
    pages: &[u8],
    list: &mut [u32],
    index: u64,
    corner: u64,
    word: u32,
    x: usize,
    n: usize,
) -> usize
    requires turn { Turn rows.now dir.now (length pages.now) (length list.old) index corner x n }
    requires fact { depth_field word ≡ x → ⊥ }
    ensures { Wrote list.old n
        (seen_by rows.now dir.now (leaf_by rows.now pages.now)
        (deepest_in rows.now) (deepest_in rows.now - x) x index corner word)
        result list.new }
{
    let depth = depth_of(word) as usize;
    if depth < x {
        return DAMAGED;
    }
    let t = rows[DEEPEST] as usize;
    if t < depth {
        return DAMAGED;
    }
    let deeper = x + 1;
    let at = x * ROW;
    let wanted = rows[at + WANTED];
    let upper = index + rows[at + BIT];
    let high = corner + rows[at + VALUE];
    let other = dir[address_by(rows, at, upper)];
    if wanted < 2 {
        let side = given_side(wanted, index, upper);
        let low = given_side(wanted, corner, high);
        let own = given_word(wanted, word, other);
        if is_leaf(own, deeper) {
            return note(rows, pages, list, low, own, deeper, n);
        }
        return walk(rows, dir, pages, list, side, low, own, deeper, n);
    }
    let m = if is_leaf(word, deeper) {
        note(rows, pages, list, corner, word, deeper, n)
    } else {
        walk(rows, dir, pages, list, index, corner, word, deeper, n)
    };
    if MOST_PAGES < m {
        return m;
    }
    if is_leaf(other, deeper) {
        return note(rows, pages, list, high, other, deeper, m);
    }
    walk(rows, dir, pages, list, upper, high, other, deeper, m)
}

// Whether a region of depth x with this word is a leaf: the word names this depth.
pub fn is_leaf(word: u32, x: usize) -> bool
    ensures { result ≡ eqb (depth_field word) x }
{
    let depth = depth_of(word) as usize;
    depth == x
}

// Notes the page of the word of a leaf of depth x with this corner at place n, if it has one, and
// returns the next place, or DAMAGED.
pub fn note(
    rows: &[u64; TABLE],
    pages: &[u8],
    list: &mut [u32],
    corner: u64,
    word: u32,
    x: usize,
    n: usize,
) -> usize
    requires { NoteAsked rows.now (length pages.now) (length list.old) x n }
    ensures { Wrote list.old n
        (leaf_by rows.now pages.now x corner word)
        result list.new }
{
    let depths = rows[TALLIED];
    if (depths >> x) & 1 == 0 {
        return DAMAGED;
    }
    let field = field_of(word) as usize;
    if field == 0 {
        return n;
    }
    let p = rows[PAGES] as usize;
    if p < field {
        return DAMAGED;
    }
    let page = field - 1;
    if !page_fair(rows, pages, page, corner, x) {
        return DAMAGED;
    }
    list[n] = page as u32;
    n + 1
}

// Whether a page can be that of the leaf of depth x with this corner: its count is 1 to b, and its
// first and last record agree with the corner in the bits that are fixed at this depth.
fn page_fair(rows: &[u64; TABLE], pages: &[u8], page: usize, corner: u64, x: usize) -> bool
    requires { PageAsked rows.now (length pages.now) page x }
    ensures { result ≡ page_fair rows.now pages.now x corner page }
{
    let b = rows[CAPACITY] as usize;
    let fixed = rows[x * ROW + FIXED];
    let bias = rows[BIAS];
    let start = page_start(b, page);
    let end = start + page_size(b);
    fair_count(&pages[start..end], b, bias, corner, fixed).is_some()
}

// The lower of two numbers of a region's sides where the query wants bit 0, else the upper.
fn given_side(wanted: u64, lower: u64, upper: u64) -> u64
    ensures { result ≡ given_side wanted lower upper }
{
    if wanted == 0 { lower } else { upper }
}

// The same of two words.
fn given_word(wanted: u64, lower: u32, upper: u32) -> u32
    ensures { result ≡ given_side wanted lower upper }
{
    if wanted == 0 { lower } else { upper }
}
