// The step Find of an insert (Otoo's FIND, and I1 of his INSERT): the leaf of a key, and what an
// insert meets there. It writes nothing (document 01, "Calls"). Damage that it meets is 9.
#![tactic(auto)]

ghost use Rattle.std.specs.Prelude.{◌≡◌, true, ◌≤◌};
ghost use Rattle.pages.specs.Pages.{PageLent};
ghost use Rattle.store.specs.Store.{store};
ghost use Rattle.refusals.specs.Passed.{Passed};
ghost use Rattle.leaf_word.specs.Hold.{word_holds};
ghost use Rattle.insert_spare.specs.Spare.{PagesLent};
ghost use Rattle.insert_planned.specs.Planned.{KeyAsked, InsertFound, InsertFoundFrom, WordMet, LeafMet};

use directory_word::{Leaf, unpack};
use insert_full::find_split;
use insert_planned::Found;
use key_encoding::bias_key;
use leaf_word::{key_word, page_holds, word_holds};
use page::{page_size, page_start};
use pages::count_at;
use record::pack_key;
use refusals::limits_hold;
use shape::refusal::Refusal;
use shape::{Key, widths_of};
use store::State;

// What an insert of a key, given by its encodings, meets after 1, 14, 15, 2 and 3: F1 and F2, the
// key's cell; F3, its word.
pub fn find(state: State, dir: &[u32], pages: &[u8], encoded: Key) -> Result<Found, Refusal>
    requires { Passed (store state dir.now pages.now) encoded.values }
    ensures { InsertFound (store state dir.now pages.now) encoded.values result }
{
    if !limits_hold(state) {
        return Err(Refusal::Unsound);
    }
    let packed = pack_key(encoded);
    let widths = widths_of(state.shape);
    let at = key_word(widths, state.deepest as u64, dir, packed);
    if !word_holds(state, at.word) {
        return Err(Refusal::Unsound);
    }
    find_page(state, pages, packed, at.word)
}

// F3, F4: the page of the leaf that the word of a packed key's cell names, where it has one.
fn find_page(state: State, pages: &[u8], key: u64, word: u32) -> Result<Found, Refusal>
    requires { PagesLent state pages.now × (word_holds state word ≡ true) × KeyAsked state key }
    ensures { InsertFoundFrom state pages.now
        (λ before encoded. WordMet before encoded key word) result }
{
    let leaf = unpack(word);
    match leaf {
        Leaf::Empty(depth) => Ok(Found::Null(depth)),
        Leaf::Page(page, depth) => find_place(state, pages, key, page, depth),
    }
}

// F4, I1: the key's place on the page of its leaf. 9 for a count of 0 or above b, and where the
// first or the last record is out of bounds or does not begin with the leaf's string; 4 where the
// key is there.
fn find_place(state: State, pages: &[u8], key: u64, page: u32, depth: u32) -> Result<Found, Refusal>
    requires { PagesLent state pages.now × PageLent state.shape.capacity page pages.now
        × KeyAsked state key × (depth ≤ state.deepest) }
    ensures { InsertFoundFrom state pages.now
        (λ before encoded. LeafMet before encoded key page depth) result }
{
    let shape = state.shape;
    let capacity = shape.capacity as usize;
    let n = count_at(pages, capacity, page as usize);
    if n == 0 {
        return Err(Refusal::Unsound);
    }
    if capacity < n {
        return Err(Refusal::Unsound);
    }
    if !page_holds(shape, pages, page as usize, n, depth, key) {
        return Err(Refusal::Unsound);
    }
    let start = page_start(capacity, page as usize);
    let end = start + page_size(capacity);
    let part = &pages[start..end];
    let Err(i) = page_place::find(part, n, widths_of(shape), bias_key(shape), key) else {
        return Err(Refusal::Stored);
    };
    if n < capacity {
        return Ok(Found::Room(page, depth, i, n));
    }
    find_split(state, pages, key, page, depth, i)
}
