// 6 and 7 of a file's records, found without a write (document 02, request 5): "6 and 7 at the first
// record that meets them". The records are in split order, so that the leaves of the first i are
// told by the first split steps in which neighbours differ, none further apart than b places.
#![tactic(auto)]

ghost use Rattle.std.specs.Prelude.{◌≡◌, cond, [], suc, ◌+◌, ◌-◌, ◌*◌, ◌≤◌, ltb, length};
ghost use Rattle.shape.specs.Refusal.{answered_by, tested};
ghost use Rattle.shape.specs.Shape.{Fit, width_list};
ghost use Rattle.record.specs.Bytes.{record_size};
ghost use Rattle.record.specs.Packed.{unpacked_key};
ghost use Rattle.key_order.specs.Order.{first_step};
ghost use Rattle.page.specs.Page.{records_from};
ghost use Rattle.file.specs.Loading.{join_conditions};
ghost use Rattle.file_scan.specs.Asked.{Scannable, fixed_with};
ghost use Rattle.file_scan.specs.Scan.{file_step, starts_by, scan_conditions};

use file::encodings_at;
use key_encoding::bias_key;
use key_order::first_step;
use shape::refusal::Refusal;
use shape::{Shape, Widths, widths_of};
use store::Limits;

// Whether a file's n records join one after the other. Refused with 6 or 7 at the first that does not.
pub fn validate_room(shape: Shape, limits: Limits, file: &[u8], n: usize) -> Result<(), Refusal>
    requires { Scannable shape limits n file.now }
    ensures { tested result ≡ answered_by (join_conditions (fixed_with shape limits) []
        (records_from shape n 0 file.now)) tt }
{
    scan(
        widths_of(shape),
        bias_key(shape),
        shape.capacity as usize,
        limits,
        file,
        n,
    )
}

// The same by neighbours: 6 where a record's leaf would lie deeper than L, 7 where the records up to
// it have more than P non-empty leaves.
fn scan(
    widths: Widths,
    bias: u64,
    capacity: usize,
    limits: Limits,
    file: &[u8],
    n: usize,
) -> Result<(), Refusal>
    requires { Fit (width_list widths) × (1 ≤ capacity) × (record_size * n ≤ length file.now) }
    ensures { tested result ≡ answered_by (scan_conditions (file_step (width_list widths) bias file.now)
        capacity limits.depth limits.pages n 0 0) tt }
{
    let deepest = limits.depth as u64;
    let pages = limits.pages as u64;
    let mut leaves = 0;
    let mut depth = 0;
    let mut last = 0;
    for i in 0..n {
        let key = encodings_at(file, i, bias);
        // Of the record b places before it, or of the first one where there are fewer.
        let back = encodings_at(file, i.saturating_sub(capacity), bias);
        let next = depth_at(widths, capacity, i, back, key);
        if deepest < next {
            return Err(Refusal::Depth);
        }
        leaves += new_leaves(widths, capacity, i, depth, back, last, key);
        if pages < leaves {
            return Err(Refusal::Pages);
        }
        depth = next;
        last = key;
    }
    Ok(())
}

// The depth of record i's leaf among the first i + 1: b + 1 records do not share a leaf, so that it
// lies below the step in which record i and the one b places before it differ.
fn depth_at(widths: Widths, capacity: usize, i: usize, back: u64, key: u64) -> u64
    requires { Fit (width_list widths) }
    ensures { result ≡ cond (ltb i capacity) 0
        (suc (first_step (width_list widths) (unpacked_key back) (unpacked_key key))) }
{
    if i < capacity {
        return 0;
    }
    first_step(widths, back, key) + 1
}

// How many non-empty leaves record i adds: 1 where it is the first, lies outside the leaf of record
// i - 1, which has the given depth, or divides it, as it is full; otherwise 0.
fn new_leaves(
    widths: Widths,
    capacity: usize,
    i: usize,
    depth: u64,
    back: u64,
    last: u64,
    key: u64,
) -> u64
    requires { Fit (width_list widths) }
    ensures { result ≡ cond (starts_by capacity i depth
        (first_step (width_list widths) (unpacked_key last) (unpacked_key key))
        (first_step (width_list widths) (unpacked_key back) (unpacked_key last))) 1 0 }
{
    if i == 0 {
        return 1;
    }
    if first_step(widths, last, key) < depth {
        return 1;
    }
    if i < capacity {
        return 0;
    }
    if first_step(widths, back, last) < depth {
        return 0;
    }
    1
}
