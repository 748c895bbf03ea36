// The test of one page of a lent store (document 01, "Lent memory"): its count and its records.
#![tactic(auto)]

pub mod codes;

ghost use Rattle.std.specs.Prelude.{◌≡◌, ◌<◌, ◌≤◌, ℕ, List, ltb, length};
ghost use Rattle.shape.specs.Shape.{Fit, width_list, index_fits};
ghost use Rattle.record.specs.Packed.{unpacked_key};
ghost use Rattle.check_page.specs.PageTest.{key_code, Reads, ascending, page_passes, TestedPage};

use codes::begins;
use key_order::{compare, first_step};
use numbers::below;
use page::{code_at, count, key_at};
use record::value_at;
use shape::Widths;

// Whether a page holds 1 to b records in split order, each within the widths and beginning with the
// x bits of the number `string`, where a shape adds a bias to its values. Records in split order all
// begin as the first and the last one do.
pub fn page_passes(
    widths: Widths,
    capacity: u32,
    bias: u64,
    page: &[u8],
    x: u64,
    string: u64,
) -> bool
    requires { TestedPage (width_list widths) capacity x (length page.now) }
    ensures { result ≡ page_passes (width_list widths) capacity x string bias page.now }
{
    let n = count(page);
    if n == 0 {
        return false;
    }
    if (capacity as usize) < n {
        return false;
    }
    let first = code_at(page, 0, bias);
    if !begins(widths, first, x, string) {
        return false;
    }
    if first_step(widths, first, code_at(page, n - 1, bias)) < x {
        return false;
    }
    if bias == 0 {
        return ascends(widths, n, |k| key_at(page, k));
    }
    ascends(widths, n, |k| code_at(page, k, bias))
}

// Whether the n records of a page are in split order, each within the widths. `read` gives the
// packed encodings of record k: of a shape without marks they are the record's fields. The bits
// that any of the keys has are those of a key within the widths.
fn ascends<F: Fn(usize) -> u64>(widths: Widths, n: usize, read: F) -> bool
    requires bounds { (0 < n) × Fit (width_list widths) }
    requires readable { (k : ℕ) → k < n → F.pre read k }
    ensures { (page : List ℕ) (bias : ℕ) → Reads (F.post read) page bias n → result ≡ ascending (width_list widths) bias page n }
{
    let mut last = read(0);
    let mut bits = last;
    for k in 1..n {
        let key = read(k);
        if !stands_before(widths, last, key) {
            return false;
        }
        bits = bits | key;
        last = key;
    }
    key_fits(widths, bits)
}

// Whether x stands before y in split order.
fn stands_before(widths: Widths, x: u64, y: u64) -> bool
    requires { Fit (width_list widths) }
    ensures { result
        ≡ ltb (key_code (width_list widths) (unpacked_key x)) (key_code (width_list widths) (unpacked_key y)) }
{
    compare(widths, x, y).is_lt()
}

// Whether each value of a packed key is below 2^w_j.
fn key_fits(widths: Widths, key: u64) -> bool
    requires { Fit (width_list widths) }
    ensures { result ≡ index_fits (width_list widths) (unpacked_key key) }
{
    if !below(value_at(key, 0), widths.w0) {
        return false;
    }
    if !below(value_at(key, 1), widths.w1) {
        return false;
    }
    if !below(value_at(key, 2), widths.w2) {
        return false;
    }
    below(value_at(key, 3), widths.w3)
}
