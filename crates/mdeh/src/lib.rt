// The C interface: what Rust or C links. Each call is that of `host_map`, `host_reads` or
// `host_changes`, with its contract, exported.
#![tactic(auto)]

ghost use Rattle.std.specs.Prelude.{[], ◌∷◌, ◌≤◌};
ghost use Rattle.address_formula.specs.Index.{index_list};
ghost use Rattle.address_calls.specs.Answers.{address_answer, index_answer};
ghost use Rattle.model.specs.Model.{found, listed};
ghost use Rattle.store.specs.Store.{store, memory};
ghost use Rattle.store.specs.Promises.{LookupPromise, QueryPromise, RangePromise, CheckPromise};
ghost use Rattle.store.specs.Promises.{InsertPromise, DeletePromise};
ghost use Rattle.host_state.specs.Image.{state_in};
ghost use Rattle.host_results.specs.Result.{Reports, Keeps, KeepsDepth, is_yes};
ghost use Rattle.host_results.specs.Wanted.{wanted_of};
ghost use Rattle.shape.specs.Range.{intervals_of};
ghost use Rattle.host_changes.specs.Changes.{LentChangePromise};
ghost use Rattle.host_changes.specs.Fresh.{LentFreshPromise};
ghost use Rattle.host_changes.specs.Load.{LentLoadPromise};
ghost use Rattle.file.specs.Promises.{SavePromise};

use address_formula::Index;
use host_changes::{delete_in_words, fresh_in_words, insert_in_words, load_in_words};
use host_map::{AddressResult, IndexResult, address_result, index_result};
use host_reads::{check_result, lookup_result, query_result, range_result, save_result};
use host_results::{
    ChangeResult, CheckResult, HostQuery, HostRange, LookupResult, MakeResult, QueryResult,
    SaveResult,
};
use shape::{Key, Shape};

// Makes a store without records in lent memory: the words of its state, word 0 and the counts of the
// P pages. Refused with 1, 14 or 15 for a shape outside its bounds, then with 2 for fewer words than a
// state has, no directory word or no whole page; a refused call changes nothing.
#[unsafe(no_mangle)]
pub extern "C" fn mdeh_fresh(
    shape: Shape,
    state: &mut [u32],
    dir: &mut [u32],
    pages: &mut [u8],
) -> MakeResult
    ensures { LentFreshPromise shape state.old (memory dir.old pages.old)
        result.number result.attribute state.new (memory dir.new pages.new) }
{
    fresh_in_words(shape, state, dir, pages)
}

// Adds a record, divides regions until no leaf has more than b, and returns the depth of the record's
// leaf afterwards. Refused with 1, 14, 15, 2, 3, 11 (a payload of 0), 4, 6, 7 or 9, the first that
// holds in this order, 14 with an attribute, all with depth 0; a refused call changes nothing.
#[unsafe(no_mangle)]
pub extern "C" fn mdeh_insert(
    state: &mut [u32],
    dir: &mut [u32],
    pages: &mut [u8],
    key: Key,
    payload: u32,
) -> ChangeResult
    ensures { LentChangePromise (λ before answer after. InsertPromise
        (store before dir.old pages.old) key.values (record { payload = payload }) answer
        (store after dir.new pages.new)) state.old result.number result.attribute result.depth
        state.new }
{
    insert_in_words(state, dir, pages, key, payload)
}

// Removes the record of a key, joins leaves until the set's own leaves stand, and returns the depth
// of the key's leaf afterwards. Refused with 1, 14, 15, 2, 3, 5 or 9, the first that holds in this
// order: 14 with an attribute, 5 with the depth of the leaf in which the absent key falls, the others
// with 0 for both; a refused call changes nothing.
#[unsafe(no_mangle)]
pub extern "C" fn mdeh_delete(
    state: &mut [u32],
    dir: &mut [u32],
    pages: &mut [u8],
    key: Key,
) -> ChangeResult
    ensures { LentChangePromise (λ before answer after. DeletePromise
        (store before dir.old pages.old) key.values answer
        (store after dir.new pages.new)) state.old result.number result.attribute result.depth
        state.new }
{
    delete_in_words(state, dir, pages, key)
}

// The payload of a key's record, the pages read, 1, and the depth of the key's leaf. Refused with 1,
// 14, 15, 2, 3, 5 or 9, the first that holds in this order: 14 with an attribute, 5 with the depth of
// the leaf in which the absent key falls, the others with 0 for both. Writes nothing.
#[unsafe(no_mangle)]
pub extern "C" fn mdeh_lookup(state: &[u32], dir: &[u32], pages: &[u8], key: Key) -> LookupResult
    ensures { KeepsDepth result.number result.attribute result.depth
        (found (record { payload = result.payload }) result.reads) (found (record { payload = 0 }) 0)
        (LookupPromise (store (state_in state.now) dir.now pages.now) key.values) }
{
    lookup_result(state, dir, pages, key)
}

// The records that match a partial-match query, written into the output in split order while whole
// ones fit; how many were written, how many match, how many pages were read. Refused with 1, 14, 15,
// 2, 8, 3 or 9, the first that holds in this order; a refused call leaves the output as it came.
#[unsafe(no_mangle)]
pub extern "C" fn mdeh_query(
    state: &[u32],
    dir: &[u32],
    pages: &[u8],
    wanted: HostQuery,
    out: &mut [u8],
) -> QueryResult
    ensures { Keeps result.number result.attribute (listed result.written result.total result.reads) (listed 0 0 0)
        (λ answer. QueryPromise (store (state_in state.now) dir.now pages.now)
        (wanted_of wanted.given wanted.values) out.old answer out.new) }
{
    query_result(state, dir, pages, wanted, out)
}

// The records inside a box of values, written into the output in split order while whole ones fit;
// how many were written, how many lie inside, how many pages were read. Refused with 1, 14, 15, 2, 8,
// 3, 10 or 9, the first that holds in this order; a refused call leaves the output as it came.
#[unsafe(no_mangle)]
pub extern "C" fn mdeh_range(
    state: &[u32],
    dir: &[u32],
    pages: &[u8],
    within: HostRange,
    out: &mut [u8],
) -> QueryResult
    ensures { Keeps result.number result.attribute (listed result.written result.total result.reads) (listed 0 0 0)
        (λ answer. RangePromise (store (state_in state.now) dir.now pages.now)
        (intervals_of within.given within.lows within.highs) out.old answer out.new) }
{
    range_result(state, dir, pages, within, out)
}

// Whether the lent store is sound. Refused with 1, 14 or 15 for a shape outside its bounds, then with
// 2 for fewer than 2^L words or P pages. Writes nothing.
#[unsafe(no_mangle)]
pub extern "C" fn mdeh_check(state: &[u32], dir: &[u32], pages: &[u8]) -> CheckResult
    ensures keeps { Keeps result.number result.attribute (is_yes result.sound) (is_yes 0)
        (CheckPromise (store (state_in state.now) dir.now pages.now)) }
    ensures sound_bound { result.sound ≤ 1 }
{
    check_result(state, dir, pages)
}

// Writes the file of the store's records from the output's first byte on, and returns how many bytes
// it has; the bytes behind it stay. Refused with 1, 14, 15, 2 (slices), 9, or 2 (an output shorter
// than the file), the first that holds in this order; a refused call leaves the output as it came.
#[unsafe(no_mangle)]
pub extern "C" fn mdeh_save(state: &[u32], dir: &[u32], pages: &[u8], out: &mut [u8]) -> SaveResult
    ensures { Keeps result.number result.attribute result.size 0
        (λ answer. SavePromise (store (state_in state.now) dir.now pages.now)
        out.old answer out.new) }
{
    save_result(state, dir, pages, out)
}

// Makes a store of a file's shape and records in lent memory, with P and L as Fresh fixes them.
// Refused with 12 (no whole file), 1, 14 or 15 (the file's shape), 13 (a shape with stray bytes, a
// value outside its bounds, records not strictly rising), 2 (fewer words than a state has, no
// directory word, no whole page), then 6 or 7 at the first record that meets them; a refused call
// changes nothing.
#[unsafe(no_mangle)]
pub extern "C" fn mdeh_load(
    file: &[u8],
    state: &mut [u32],
    dir: &mut [u32],
    pages: &mut [u8],
) -> MakeResult
    ensures { LentLoadPromise file.now state.old
        (memory dir.old pages.old) result.number result.attribute state.new
        (memory dir.new pages.new) }
{
    load_in_words(file, state, dir, pages)
}

// The address of an index vector. Refused with 1, 14 or 15 for a shape outside its bounds, then with
// 3 for an index of 2^w_j or more or an unused index other than 0.
#[unsafe(no_mangle)]
pub extern "C" fn mdeh_address(shape: Shape, index: Index) -> AddressResult
    ensures { Reports result.number result.attribute result.address 0 (address_answer shape (index_list index)) }
{
    address_result(shape, index)
}

// The index vector at an address. Refused with 1, 14 or 15 for a shape outside its bounds, then with
// 3 for an address of 2^W or more.
#[unsafe(no_mangle)]
pub extern "C" fn mdeh_index(shape: Shape, address: u64) -> IndexResult
    ensures { Reports result.number result.attribute (index_list result.index) (0 ∷ 0 ∷ 0 ∷ 0 ∷ [])
        (index_answer shape address) }
{
    index_result(shape, address)
}
