// The call Insert: a record joins the store (document 01, "Calls"), unless its payload is 0
// (document 02, request 2). Its steps are those of Otoo's INSERT (source document 001) in their
// order: find, allocate, double, set the words; docs/INSERT.md sets them side by side.
#![tactic(auto)]

ghost use Rattle.std.specs.Prelude.{◌≡◌};
ghost use Rattle.store.specs.Answers.{changed_answer, changed_state};
ghost use Rattle.store.specs.Promises.{key_number, AddPromise, InsertPromise};
ghost use Rattle.store.specs.Store.{store};

use insert_allocate::{Plan, allocate};
use insert_find::find;
use insert_pages::{divide_pages, insert_record};
use insert_words::{count_leaves, double, set_word, set_words};
use key_encoding::{bias_key, encode_key, to_fields};
use record::{Content, pack_key};
use refusals::{encodings_fit, validate_lent};
use shape::Key;
use shape::refusal::Refusal;
use store::{Changed, State};

// Adds a record, and returns the depth of its leaf afterwards; a full leaf is divided until no leaf
// has more than b. Refused with 1, 14, 15, 2, 3, 11 (a payload of 0), 4, 6, 7 or 9, the first that
// holds in this order; a refused call changes nothing. On any store no word and no page of another
// leaf is lost.
pub fn insert(
    state: State,
    dir: &mut [u32],
    pages: &mut [u8],
    key: Key,
    content: Content,
) -> Result<Changed, Refusal>
    ensures { InsertPromise (store state dir.old pages.old) key.values content
        (changed_answer result) (store (changed_state state result) dir.new pages.new) }
{
    validate_lent(state, dir.len(), pages.len())?;
    if !encodings_fit(state.shape, encode_key(state.shape, key)) {
        return Err(Refusal::Value);
    }
    if content.payload == 0 {
        return Err(Refusal::Payload);
    }
    add(state, dir, pages, key, content)
}

// A record joins the store, whatever its payload, after 1, 14, 15, 2 and 3. Find and allocate hold
// every refusal, 4, 6, 7 and 9, and write nothing; the steps after them cannot fail.
pub fn add(
    state: State,
    dir: &mut [u32],
    pages: &mut [u8],
    key: Key,
    content: Content,
) -> Result<Changed, Refusal>
    requires { key_number (store state dir.old pages.old) key.values ≡ 0 }
    ensures { AddPromise (store state dir.old pages.old) key.values content
        (changed_answer result) (store (changed_state state result) dir.new pages.new) }
{
    let encoded = encode_key(state.shape, key);
    let encodings = encoded.values;
    // find: F1 to F4, I1
    let found = find(state, dir, pages, encoded);
    // allocate: I2
    let plan = match allocate(state, dir, pages, encodings, found) {
        Ok(plan) => plan,
        Err(refusal) => return Err(refusal),
    };
    let packed = pack_key(encoded);
    let fields = to_fields(bias_key(state.shape), packed);
    let b = state.shape.capacity as usize;
    match plan {
        // I2, page p is not full: the record
        Plan::Take(page, depth, place, count) => {
            insert_record(pages, b, page as usize, place, count, fields, content);
            Ok(Changed { state, depth })
        }
        // I2, page p was null: the record; set the words: I4, I5
        Plan::Get(page, depth) => {
            insert_record(pages, b, page as usize, 0, 0, fields, content);
            set_word(state, dir, encodings, page, depth);
            Ok(Changed { state, depth })
        }
        Plan::Divide(split, cut, free) => {
            // double: I2
            let deeper = double(state, dir, split);
            // set the words: I4, I5, I7
            set_words(deeper, dir, encodings, split, cut.bit, free);
            // the tally: I3, I7
            let state = count_leaves(deeper, split);
            // the pages: I6; the record: I8
            divide_pages(
                pages,
                b,
                split.page as usize,
                free as usize,
                cut,
                fields,
                content,
            );
            // the key's leaf is a half of the region that the step divides
            let depth = split.step as u32 + 1;
            Ok(Changed { state, depth })
        }
    }
}
