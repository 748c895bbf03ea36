// The call save: the records of a store as the bytes of a file (document 02, request 5).
#![tactic(auto)]

ghost use Rattle.std.specs.Prelude.{◌≡◌, ◌≤◌, length};
ghost use mathlib.Core.List.{flat_map};
ghost use Rattle.shape.specs.Shape.{shape_number};
ghost use Rattle.store.specs.Store.{store};
ghost use Rattle.query_seen.specs.Seen.{walk_seen};
ghost use Rattle.query_walk.specs.Noting.{Put};
ghost use Rattle.query_records.specs.Records.{PageWithin, ListOf, page_fields};
ghost use Rattle.list_call.specs.Lent.{LimitsLent};
ghost use Rattle.file.specs.Answers.{saved_answer};
ghost use Rattle.file.specs.Promises.{SavePromise};
ghost use Rattle.save.specs.Private.{Filed, free_bits};

use file::END_SIZE;
use file_parts::put_end;
use query_records::{count_records, put_whole};
use query_rows::{TABLE, fill_limits, fill_rows, free_query};
use query_walk::note_pages;
use record::RECORD_SIZE;
use refusals::{limits_hold, validate_lent};
use shape::Shape;
use shape::refusal::Refusal;
use store::State;

// Writes the file of the store's records from the output's first byte on, and returns how many
// bytes it has; the bytes behind it stay. Refused with 1, 14, 15, 2 for short slices, 9, or 2 for an
// output shorter than the file, the first that holds in this order; a refused call leaves the output
// as it came. Writes nothing in the store.
pub fn save(state: State, dir: &[u32], pages: &[u8], out: &mut [u8]) -> Result<u64, Refusal>
    ensures { SavePromise (store state dir.now pages.now) out.old
        (saved_answer result) out.new }
{
    validate_lent(state, dir.len(), pages.len())?;
    if !limits_hold(state) {
        return Err(Refusal::Unsound);
    }
    let mut list = [0u32; 4096];
    let noted = note_all(state, dir, pages, &mut list);
    let Some(n) = noted else {
        return Err(Refusal::Unsound);
    };
    write_file(state.shape, pages, &list[..n], out)
}

// Notes the pages of all leaves that are not empty, in the order of a query's walk.
fn note_all(state: State, dir: &[u32], pages: &[u8], list: &mut [u32]) -> Option<usize>
    requires { LimitsLent state (length dir.now) (length pages.now) × (4096 ≤ length list.old) }
    ensures { Put list.old (walk_seen state dir.now pages.now free_bits) result
        list.new }
{
    let mut rows = [0u64; TABLE];
    fill_rows(state.shape, free_query(), state.deepest as usize, &mut rows);
    fill_limits(state, &mut rows);
    note_pages(state, &rows, dir, pages, list)
}

// Writes the file of the records of the pages of the list, whose shape this is, if it fits; else
// refused with 2.
fn write_file(shape: Shape, pages: &[u8], list: &[u32], out: &mut [u8]) -> Result<u64, Refusal>
    requires { (shape_number shape ≡ 0)
        × ListOf (PageWithin shape.capacity pages.now) shape.capacity (length list.now) list.now }
    ensures { Filed shape (flat_map (page_fields shape.capacity pages.now)
        list.now) out.old (saved_answer result) out.new }
{
    let capacity = shape.capacity as usize;
    let total = count_records(pages, capacity, list);
    let end = RECORD_SIZE * total;
    let size = end + END_SIZE;
    if out.len() < size {
        return Err(Refusal::Memory);
    }
    put_whole(pages, capacity, list, out);
    put_end(out, shape, total);
    Ok(size as u64)
}
