// Fresh, load and the calls that change a store, for hosts: the state lies in lent words (crate
// `host_state`), and the answer is a number, 0 for an accepted call, with the attribute beside 14, of
// insert and delete with a depth beside it. Fewer words than a state has show no shape, so that insert
// and delete are refused with 1; Fresh and load, which are given no state, are refused with 2.
#![tactic(auto)]

ghost use Rattle.store.specs.Store.{memory, store};
ghost use Rattle.store.specs.Promises.{InsertPromise, DeletePromise};
ghost use Rattle.host_changes.specs.Changes.{LentChangePromise};
ghost use Rattle.host_changes.specs.Fresh.{LentFreshPromise};
ghost use Rattle.host_changes.specs.Load.{LentLoadPromise};

use delete::delete;
use fresh::fresh;
use host_results::{ChangeResult, MakeResult, settle, settle_change};
use host_state::{STATE_SIZE, state_in};
use insert::insert;
use load::load;
use record::Content;
use shape::{Key, Shape};

// Makes a store without records in lent memory: the words of its state, word 0 and the counts of the
// P pages. Refused with 1, 14 or 15 for a shape outside its bounds, then with 2 for fewer words than a
// state has, no directory word or no whole page; a refused call changes nothing. Where the state is
// too short, the shape is judged as if no memory were lent.
pub fn fresh_in_words(
    shape: Shape,
    state: &mut [u32],
    dir: &mut [u32],
    pages: &mut [u8],
) -> MakeResult
    ensures { LentFreshPromise shape state.old (memory dir.old pages.old)
        result.number result.attribute state.new (memory dir.new pages.new) }
{
    if state.len() >= STATE_SIZE {
        let made = fresh(shape, dir, pages);
        return settle(state, made);
    }
    let refused = fresh(shape, &mut dir[0..0], &mut pages[0..0]);
    settle(state, refused)
}

// Adds a record, divides regions until no leaf has more than b, and returns the depth of the record's
// leaf afterwards. Refused with 1, 14, 15, 2, 3, 11 (a payload of 0), 4, 6, 7 or 9, the first that
// holds in this order, 14 with an attribute, all with depth 0; a refused call changes nothing.
pub fn insert_in_words(
    state: &mut [u32],
    dir: &mut [u32],
    pages: &mut [u8],
    key: Key,
    payload: u32,
) -> ChangeResult
    ensures { LentChangePromise (λ before answer after. InsertPromise
        (store before dir.old pages.old) key.values (record { payload = payload }) answer
        (store after dir.new pages.new)) state.old result.number result.attribute result.depth
        state.new }
{
    let content = Content { payload };
    let inserted = insert(state_in(state), dir, pages, key, content);
    settle_change(state, inserted)
}

// Removes the record of a key, joins leaves until the set's own leaves stand, and returns the depth
// of the key's leaf afterwards. Refused with 1, 14, 15, 2, 3, 5 or 9, the first that holds in this
// order: 14 with an attribute, 5 with the depth of the leaf in which the absent key falls, the others
// with 0 for both; a refused call changes nothing.
pub fn delete_in_words(
    state: &mut [u32],
    dir: &mut [u32],
    pages: &mut [u8],
    key: Key,
) -> ChangeResult
    ensures { LentChangePromise (λ before answer after. DeletePromise
        (store before dir.old pages.old) key.values answer
        (store after dir.new pages.new)) state.old result.number result.attribute result.depth
        state.new }
{
    let deleted = delete(state_in(state), dir, pages, key);
    settle_change(state, deleted)
}

// Makes a store of a file's shape and records in lent memory, with P and L as Fresh fixes them.
// Refused with 12 (no whole file), 1, 14 or 15 (the file's shape), 13 (a shape with stray bytes, a
// value outside its bounds, records not strictly rising), 2 (fewer words than a state has, no
// directory word, no whole page), then 6 or 7 at the first record that meets them; a refused call
// changes nothing. Where the state is too short, the file is judged as if no memory were lent.
pub fn load_in_words(
    file: &[u8],
    state: &mut [u32],
    dir: &mut [u32],
    pages: &mut [u8],
) -> MakeResult
    ensures { LentLoadPromise file.now state.old
        (memory dir.old pages.old) result.number result.attribute state.new
        (memory dir.new pages.new) }
{
    if state.len() >= STATE_SIZE {
        let loaded = load(file, dir, pages);
        return settle(state, loaded);
    }
    let refused = load(file, &mut dir[0..0], &mut pages[0..0]);
    settle(state, refused)
}
