// Whether a page is its leaf's, by the first and the last of its records (document 01, "Regions of
// a set"): under a mask of the bits that the leaf fixes both agree with a key of the leaf.
#![tactic(auto)]

ghost use Rattle.std.specs.Prelude.{◌≡◌, ◌+◌, ◌-◌, ◌/◌, ◌^◌, ◌<◌, ◌≤◌, min, length};
ghost use Rattle.shape.specs.Shape.{Fit, width_list, total};
ghost use Rattle.split.specs.Steps.{steps_below};
ghost use Rattle.page.specs.Fields.{record_offset};
ghost use Rattle.page.specs.Page.{page_size, count_of};
ghost use Rattle.page_ends.specs.Ends.{fixed_bits, ends_agree};
ghost use Rattle.page_ends.specs.Fair.{fair_count, positive};

use page::{code_at, count};
use pairs::{depth_before, early_place, place_of};
use shape::{Widths, total_of};

// The bits of a packed key that are fixed in a leaf of depth x. Most often the place of its steps
// is the one tried first.
pub fn fixed_bits(widths: Widths, x: u64) -> u64
    requires { Fit (width_list widths) × (x ≤ total (width_list widths)) }
    ensures { result ≡ fixed_bits (width_list widths) x }
{
    let near = early_place(widths, x);
    if free_before(widths, near) + x == total_of(widths) {
        return fixed_bits_before(widths, near);
    }
    fixed_bits_before(widths, place_of(widths, x))
}

// The bits of a packed key that are fixed in a leaf of the steps before place g.
pub fn fixed_bits_before(widths: Widths, g: u64) -> u64
    requires { Fit (width_list widths) × (g ≤ 64) }
    ensures { result ≡ fixed_bits (width_list widths) (length (steps_below (width_list widths) g)) }
{
    let m0 = fixed_before(widths.w0, g, 0);
    let m1 = fixed_before(widths.w1, g, 1);
    let m2 = fixed_before(widths.w2, g, 2);
    let m3 = fixed_before(widths.w3, g, 3);
    m0 + (m1 << 16) + (m2 << 32) + (m3 << 48)
}

// How many records a page has, where it can be the page of a leaf that fixes the bits of a mask: 1 to
// b, the first and the last of them in agreement with a packed key of the leaf in these bits. None
// for another page.
pub fn fair_count(page: &[u8], capacity: usize, bias: u64, key: u64, mask: u64) -> Option<usize>
    requires { (capacity ≤ 16) × (page_size capacity ≤ length page.now) }
    ensures { result
        ≡ positive (fair_count capacity (ends_agree bias mask key page.now (count_of page.now)) page.now) }
{
    let n = count(page);
    if n == 0 {
        return None;
    }
    if capacity < n {
        return None;
    }
    if ends_agree(page, n, bias, key, mask) {
        Some(n)
    } else {
        None
    }
}

// Whether the first and the last of the n records of a page agree with a packed key in the bits of
// a mask.
pub fn ends_agree(page: &[u8], n: usize, bias: u64, key: u64, mask: u64) -> bool
    requires { (1 ≤ n) × (n ≤ 16) × (record_offset n ≤ length page.now) }
    ensures { result ≡ ends_agree bias mask key page.now n }
{
    let first = code_at(page, 0, bias) ^ key;
    let last = code_at(page, n - 1, bias) ^ key;
    (first | last) & mask == 0
}

// How many bits of a key the steps before place g leave free.
fn free_before(widths: Widths, g: u64) -> u64
    requires { Fit (width_list widths) × (g ≤ 64) }
    ensures { (result + length (steps_below (width_list widths) g) ≡ total (width_list widths)) × (result ≤ 64) }
{
    let f0 = free_bits(widths.w0, g, 0);
    let f1 = free_bits(widths.w1, g, 1);
    let f2 = free_bits(widths.w2, g, 2);
    let f3 = free_bits(widths.w3, g, 3);
    f0 + f1 + f2 + f3
}

// The bits of a value of attribute j, of w bits, that the steps before place g fix, and those past
// its width: all of 16 but the lowest.
fn fixed_before(w: u64, g: u64, j: u64) -> u64
    requires { (w ≤ 16) × (g ≤ 64) × (j < 4) }
    ensures { (result ≡ 2 ^ 16 - 2 ^ (w - min w ((g + 3 - j) / 4))) × (result < 2 ^ 16) }
{
    0x10000 - (1u64 << free_bits(w, g, j))
}

// How many of the w bits of attribute j the steps before place g leave free.
fn free_bits(w: u64, g: u64, j: u64) -> u64
    requires { (w ≤ 16) × (g ≤ 64) × (j < 4) }
    ensures { (result + min w ((g + 3 - j) / 4) ≡ w) × (result ≤ 16) }
{
    w - depth_before(w, g, j)
}
