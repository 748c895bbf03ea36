// Halves of a full page and one key more: the pair at which they part, and the page's cut there.
#![tactic(auto)]

ghost use Rattle.std.specs.Prelude.{◌≡◌, ◌/◌, ◌%◌, ◌≤◌, ◌<◌, get_or, length};
ghost use Rattle.shape.specs.Shape.{Fit, width_list};
ghost use Rattle.record.specs.Packed.{unpacked_key};
ghost use Rattle.page.specs.Fields.{record_offset};
ghost use Rattle.key_order.specs.Order.{FirstPair};
ghost use Rattle.insert_cut.specs.Halves.{first_key, last_key, Halved};

use key_order::{first_pair, pair_bit};
use page::code_at;
use page_place::first_one;
use shape::Widths;

// Where a page is cut: its first record with bit 1; a new key's bit, and its place in its own half.
#[derive(Clone, Copy)]
pub struct Cut {
    pub start: usize,
    pub bit: bool,
    pub place: usize,
}

// The place of the first pair in which the first and the last differ of the n keys of a page and one
// more, which falls before record i; 64 where they do not.
pub fn ends_pair(page: &[u8], n: usize, widths: Widths, bias: u64, key: u64, i: usize) -> u64
    requires { (1 ≤ n) × (n ≤ 16) × (record_offset n ≤ length page.now) × Fit (width_list widths) }
    ensures { FirstPair (width_list widths) (unpacked_key (first_key bias page.now key i))
        (unpacked_key (last_key bias page.now n key i)) result }
{
    let first = first_key(page, bias, key, i);
    let last = last_key(page, n, bias, key, i);
    first_pair(widths, first, last)
}

// The first key of all.
fn first_key(page: &[u8], bias: u64, key: u64, i: usize) -> u64
    requires { record_offset 1 ≤ length page.now }
    ensures { result ≡ first_key bias page.now key i }
{
    if i == 0 { key } else { code_at(page, 0, bias) }
}

// The last key of all.
fn last_key(page: &[u8], n: usize, bias: u64, key: u64, i: usize) -> u64
    requires { (1 ≤ n) × (n ≤ 16) × (record_offset n ≤ length page.now) }
    ensures { result ≡ last_key bias page.now n key i }
{
    if i == n {
        key
    } else {
        code_at(page, n - 1, bias)
    }
}

// Cuts a page of n records at its first record with bit 1 at the place of a split step, where a key
// falls before record i. None where the key falls outside its half, or its half is the whole page.
pub fn half_of(
    page: &[u8],
    n: usize,
    widths: Widths,
    bias: u64,
    key: u64,
    i: usize,
    pair: u64,
) -> Option<Cut>
    requires le_n { (1 ≤ n) × (n ≤ 16) × (record_offset n ≤ length page.now) × Fit (width_list widths) }
    requires pair_bound { (pair < 64) × (pair / 4 < get_or (width_list widths) (pair % 4) 0) }
    ensures { Halved (width_list widths) bias page.now n key i pair result }
{
    let start = first_one(page, n, widths, bias, pair);
    if pair_bit(widths, key, pair) {
        if i < start {
            return None;
        }
        if start == 0 {
            return None;
        }
        return Some(Cut {
            start,
            bit: true,
            place: i - start,
        });
    }
    if start < i {
        return None;
    }
    if start == n {
        return None;
    }
    Some(Cut {
        start,
        bit: false,
        place: i,
    })
}
