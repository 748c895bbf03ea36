// The calls that read a store, for hosts: the state lies in lent words (crate `host_state`), and an
// answer is a struct of numbers. A number of 0 stands for an accepted call; any other is the refusal's
// (document 01, "Refused calls"), and the values beside it are 0, but for the attribute beside 14 and
// the depth beside 5. Fewer words than a state has show no shape, so that a call is refused with 1.
#![tactic(auto)]

ghost use Rattle.std.specs.Prelude.{◌≤◌};
ghost use Rattle.model.specs.Model.{found, listed};
ghost use Rattle.store.specs.Store.{store};
ghost use Rattle.store.specs.Promises.{LookupPromise, QueryPromise, RangePromise, CheckPromise};
ghost use Rattle.file.specs.Promises.{SavePromise};
ghost use Rattle.host_state.specs.Image.{state_in};
ghost use Rattle.host_results.specs.Result.{Keeps, KeepsDepth, is_yes};
ghost use Rattle.host_results.specs.Wanted.{wanted_of};
ghost use Rattle.shape.specs.Range.{intervals_of};

use check_call::check;
use host_results::{
    CheckResult, HostQuery, HostRange, LookupResult, QueryResult, SaveResult, checked_result,
    found_result, listed_result, saved_result, store_query, store_range,
};
use host_state::state_in;
use lookup::lookup;
use query::query;
use range::range;
use save::save;
use shape::Key;

// The payload of a key's record, the pages read, 1, and the depth of the key's leaf. Refused with 1,
// 14, 15, 2, 3, 5 or 9, the first that holds in this order: 14 with an attribute, 5 with the depth of
// the leaf in which the absent key falls, the others with 0 for both. Writes nothing.
pub fn lookup_result(state: &[u32], dir: &[u32], pages: &[u8], key: Key) -> LookupResult
    ensures { KeepsDepth result.number result.attribute result.depth
        (found (record { payload = result.payload }) result.reads) (found (record { payload = 0 }) 0)
        (LookupPromise (store (state_in state.now) dir.now pages.now) key.values) }
{
    found_result(lookup(state_in(state), dir, pages, key))
}

// The records that match a partial-match query, written into the output in split order while whole
// ones fit; how many were written, how many match, how many pages were read. Refused with 1, 14, 15,
// 2, 8, 3 or 9, the first that holds in this order; a refused call leaves the output as it came.
pub fn query_result(
    state: &[u32],
    dir: &[u32],
    pages: &[u8],
    wanted: HostQuery,
    out: &mut [u8],
) -> QueryResult
    ensures { Keeps result.number result.attribute (listed result.written result.total result.reads) (listed 0 0 0)
        (λ answer. QueryPromise (store (state_in state.now) dir.now pages.now)
        (wanted_of wanted.given wanted.values) out.old answer out.new) }
{
    listed_result(query(state_in(state), dir, pages, store_query(wanted), out))
}

// The records inside a box of values, written into the output in split order while whole ones fit;
// how many were written, how many lie inside, how many pages were read. Refused with 1, 14, 15, 2, 8,
// 3, 10 or 9, the first that holds in this order; a refused call leaves the output as it came.
pub fn range_result(
    state: &[u32],
    dir: &[u32],
    pages: &[u8],
    within: HostRange,
    out: &mut [u8],
) -> QueryResult
    ensures { Keeps result.number result.attribute (listed result.written result.total result.reads) (listed 0 0 0)
        (λ answer. RangePromise (store (state_in state.now) dir.now pages.now)
        (intervals_of within.given within.lows within.highs) out.old answer out.new) }
{
    listed_result(range(state_in(state), dir, pages, store_range(within), out))
}

// Whether the lent store is sound. Refused with 1, 14 or 15 for a shape outside its bounds, then with
// 2 for fewer than 2^L words or P pages. Writes nothing.
pub fn check_result(state: &[u32], dir: &[u32], pages: &[u8]) -> CheckResult
    ensures keeps { Keeps result.number result.attribute (is_yes result.sound) (is_yes 0)
        (CheckPromise (store (state_in state.now) dir.now pages.now)) }
    ensures sound_bound { result.sound ≤ 1 }
{
    checked_result(check(state_in(state), dir, pages))
}

// Writes the file of the store's records from the output's first byte on, and returns how many bytes
// it has; the bytes behind it stay. Refused with 1, 14, 15, 2 (slices), 9, or 2 (an output shorter
// than the file), the first that holds in this order; a refused call leaves the output as it came.
pub fn save_result(state: &[u32], dir: &[u32], pages: &[u8], out: &mut [u8]) -> SaveResult
    ensures { Keeps result.number result.attribute result.size 0
        (λ answer. SavePromise (store (state_in state.now) dir.now pages.now)
        out.old answer out.new) }
{
    saved_result(save(state_in(state), dir, pages, out))
}
