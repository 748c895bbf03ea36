// The call Lookup: a key's record, by the word of its cell and the page of its leaf (document 01,
// "Calls").
#![tactic(auto)]

ghost use Rattle.std.specs.Prelude.{◌≡◌, ◌≤◌, length};
ghost use Rattle.directory_word.specs.Word.{depth_field};
ghost use Rattle.page.specs.Fields.{record_offset};
ghost use Rattle.page.specs.Page.{page_at};
ghost use Rattle.page_matches.specs.KeyPlace.{key_place};
ghost use Rattle.store.specs.Answers.{found_answer};
ghost use Rattle.store.specs.Promises.{LookupPromise};
ghost use Rattle.store.specs.Store.{store};
ghost use Rattle.refusals.specs.Passed.{Passed};
ghost use Rattle.leaf_word.specs.Hold.{LeafAsked};
ghost use Rattle.lookup.specs.Private.{place_answer, page_answer, word_answer, sought_answer, KeyPassed};

use directory_word::{Leaf, unpack};
use key_encoding::{bias_key, encode_key, to_fields};
use leaf_word::{KeyWord, key_word, own_count, word_holds};
use page::{content_at, page_size, page_start};
use page_matches::find_key;
use record::pack_key;
use refusals::{encodings_fit, limits_hold, validate_lent};
use shape::refusal::Refusal;
use shape::{Key, Shape, widths_of};
use store::{Found, State};

// The content of a key's record, the pages read, 1, and the depth of the key's leaf. Refused with 1,
// 14, 15, 2, 3, 5 or 9, the first that holds in this order; 5 carries the depth of the leaf in which
// the absent key falls. Writes nothing.
pub fn lookup(state: State, dir: &[u32], pages: &[u8], key: Key) -> Result<Found, Refusal>
    ensures { LookupPromise (store state dir.now pages.now) key.values
        (found_answer result) }
{
    validate_lent(state, dir.len(), pages.len())?;
    let encoded = encode_key(state.shape, key);
    if !encodings_fit(state.shape, encoded) {
        return Err(Refusal::Value);
    }
    seek_key(state, dir, pages, encoded)
}

// The record of a key, given by its encodings, after 1, 14, 15, 2 and 3: 9 for limits that no sound
// store has.
fn seek_key(state: State, dir: &[u32], pages: &[u8], encoded: Key) -> Result<Found, Refusal>
    requires { Passed (store state dir.now pages.now) encoded.values }
    ensures { found_answer result
        ≡ sought_answer (store state dir.now pages.now) encoded.values }
{
    if !limits_hold(state) {
        return Err(Refusal::Unsound);
    }
    let packed = pack_key(encoded);
    let widths = widths_of(state.shape);
    let at = key_word(widths, state.deepest as u64, dir, packed);
    seek_by_word(state, pages, at, packed)
}

// The record of a packed key in the leaf that the word at its cell names: 9 for a word that no sound
// store has, 5 for a leaf without a page, which is not read.
fn seek_by_word(state: State, pages: &[u8], at: KeyWord, key: u64) -> Result<Found, Refusal>
    requires { KeyPassed state pages.now key × (at.depth ≡ depth_field at.word) }
    ensures { found_answer result ≡ word_answer state pages.now key at.word }
{
    let word = at.word;
    if !word_holds(state, word) {
        return Err(Refusal::Unsound);
    }
    let found = unpack(word);
    let Leaf::Page(page, depth) = found else {
        return Err(Refusal::Absent(at.depth));
    };
    seek_at(state.shape, pages, page as usize, depth, key)
}

// The record of a packed key on page g, which is read, of the key's leaf: 9 for a page that a leaf of
// this depth cannot have.
fn seek_at(shape: Shape, pages: &[u8], g: usize, depth: u32, key: u64) -> Result<Found, Refusal>
    requires { LeafAsked shape pages.now g depth key }
    ensures { found_answer result ≡ page_answer shape depth key (page_at shape.capacity pages.now g) }
{
    let Some(n) = own_count(shape, pages, g, depth, key) else {
        return Err(Refusal::Unsound);
    };
    let capacity = shape.capacity as usize;
    let start = page_start(capacity, g);
    let end = start + page_size(capacity);
    let fields = to_fields(bias_key(shape), key);
    seek_in_page(&pages[start..end], n, depth, fields)
}

// The record with the packed fields of a key among the n of the page of a leaf of this depth: 5 where
// it is not there.
#[tactic(auto, unfolding(crate::specs::Private::place_answer))]
fn seek_in_page(page: &[u8], n: usize, depth: u32, fields: u64) -> Result<Found, Refusal>
    requires { (n ≤ 16) × (record_offset n ≤ length page.now) }
    ensures { found_answer result
        ≡ place_answer depth page.now n (key_place fields page.now n 0) }
{
    let Some(i) = find_key(page, n, fields) else {
        return Err(Refusal::Absent(depth));
    };
    Ok(Found {
        content: content_at(page, i),
        reads: 1,
        depth,
    })
}
