// The call range: the records inside a box of values (document 02, request 1).
#![tactic(auto)]

ghost use Rattle.std.specs.Prelude.{length};
ghost use Rattle.shape.specs.Range.{range_intervals};
ghost use Rattle.store.specs.Store.{store};
ghost use Rattle.store.specs.Promises.{RangePromise};
ghost use Rattle.store.specs.Answers.{listed_answer};
ghost use Rattle.range.specs.Private.{Tested};

use key_encoding::bias_key;
use query_rows::{TABLE, fill_limits, fill_rows, free_query};
use range_number::{high_key, low_key, validate_range};
use range_records::put_within;
use range_walk::note_met;
use record::RECORD_SIZE;
use refusals::limits_hold;
use shape::Range;
use shape::refusal::Refusal;
use store::{Counts, State};

// The records inside a box of values, written into the output in split order while whole ones fit;
// how many were written, how many lie inside, how many pages were read. Refused with 1, 14, 15, 2,
// 8, 3, 10 or 9, the first that holds in this order; a refused call leaves the output as it came.
pub fn range(
    state: State,
    dir: &[u32],
    pages: &[u8],
    range: Range,
    out: &mut [u8],
) -> Result<Counts, Refusal>
    ensures { RangePromise (store state dir.now pages.now) (range_intervals range)
        out.old (listed_answer result) out.new }
{
    validate_range(state, dir.len(), pages.len(), range)?;
    if !limits_hold(state) {
        return Err(Refusal::Unsound);
    }
    let depth = state.deepest as usize;
    let mut rows = [0u64; TABLE];
    fill_rows(state.shape, free_query(), depth, &mut rows);
    if depth <= 4 {
        let mut few = [0u32; 16];
        return read_pages(state, range, &mut rows, dir, pages, &mut few, out);
    }
    if depth <= 6 {
        let mut some = [0u32; 64];
        return read_pages(state, range, &mut rows, dir, pages, &mut some, out);
    }
    if depth <= 8 {
        let mut more = [0u32; 256];
        return read_pages(state, range, &mut rows, dir, pages, &mut more, out);
    }
    let mut list = [0u32; 4096];
    read_pages(state, range, &mut rows, dir, pages, &mut list, out)
}

// The same once the state, the range and the limits are tested and the rows are made, which are
// those of any query, with a list for the pages that are read: at most 2^T.
fn read_pages(
    state: State,
    range: Range,
    rows: &mut [u64; TABLE],
    dir: &[u32],
    pages: &[u8],
    list: &mut [u32],
    out: &mut [u8],
) -> Result<Counts, Refusal>
    requires { Tested state (range_intervals range) rows.old (length dir.now) (length pages.now)
        (length list.old) }
    ensures { RangePromise (store state dir.now pages.now) (range_intervals range)
        out.old (listed_answer result) out.new }
{
    let low = low_key(state.shape, range);
    let high = high_key(state.shape, range);
    fill_limits(state, rows);
    let noted = note_met(state, rows, low, high, dir, pages, list);
    let Some(n) = noted else {
        return Err(Refusal::Unsound);
    };
    let shape = state.shape;
    let total = put_within(
        pages,
        shape.capacity as usize,
        bias_key(shape),
        low,
        high,
        &list[..n],
        out,
    );
    Ok(Counts {
        written: total.min(out.len() / RECORD_SIZE) as u64,
        total: total as u64,
        reads: n as u64,
    })
}
