// The address of an index vector by the formula (document 01, "Address map"), as a number of mixed
// radix: index z of the latest step in front, then a digit below 2^h_j for each other attribute j,
// where h_j is its depth just before that step.
#![tactic(auto)]

ghost use Rattle.std.specs.Prelude.{◌≡◌, ◌+◌, ◌-◌, ◌^◌, ◌<◌, ◌≤◌, get_or};
ghost use Rattle.shape.specs.Shape.{Fit, width_list, index_fits};
ghost use Rattle.address.specs.Address.{address};
ghost use Rattle.address.specs.Vectors.{InBox};
ghost use Rattle.address_formula.specs.Digits.{append_digit};
ghost use Rattle.address_formula.specs.Index.{index_list};
ghost use Rattle.address_formula.specs.LatestPair.{creating_pair, latest_pair};

use numbers::{below, one_of};
use pairs::depth_before;
use shape::Widths;

// An index vector; unused indices are 0.
#[repr(C)]
#[derive(Clone, Copy)]
pub struct Index {
    pub i0: u64,
    pub i1: u64,
    pub i2: u64,
    pub i3: u64,
}

// The address of an index vector of the box.
pub fn locate(widths: Widths, index: Index) -> u64
    requires { InBox (width_list widths) (index_list index) }
    ensures { result ≡ address (width_list widths) (index_list index) }
{
    let latest = latest_pair(index);
    if latest == 0 {
        return 0;
    }
    address_before(widths, index, latest - 1)
}

// The address of an index vector of the box whose latest pair is at place g.
pub fn address_before(widths: Widths, index: Index, g: u64) -> u64
    requires { (g < 256) × InBox (width_list widths) (index_list index) × (latest_pair (index_list index) ≡ g + 1) }
    ensures { result ≡ address (width_list widths) (index_list index) }
{
    let z = g % 4;
    let h0 = depth_before(widths.w0, g, 0);
    let h1 = depth_before(widths.w1, g, 1);
    let h2 = depth_before(widths.w2, g, 2);
    let h3 = depth_before(widths.w3, g, 3);
    let a0 = index_of(index, z);
    let a1 = append_digit(a0, h0, index.i0, 0, z);
    let a2 = append_digit(a1, h1, index.i1, 1, z);
    let a3 = append_digit(a2, h2, index.i2, 2, z);
    append_digit(a3, h3, index.i3, 3, z)
}

// Whether each index is below 2^w_j.
pub fn index_fits(widths: Widths, index: Index) -> bool
    requires { Fit (width_list widths) }
    ensures { result ≡ index_fits (width_list widths) (index_list index) }
{
    if !below(index.i0, widths.w0) {
        return false;
    }
    if !below(index.i1, widths.w1) {
        return false;
    }
    if !below(index.i2, widths.w2) {
        return false;
    }
    below(index.i3, widths.w3)
}

// One more than the place of the latest pair of the indices' highest bits; 0 where all are 0.
fn latest_pair(index: Index) -> u64
    ensures { (result ≡ latest_pair (index_list index)) × (result ≤ 256) }
{
    let n0 = pairs_after(index.i0, 0);
    let n1 = pairs_after(index.i1, 1);
    let n2 = pairs_after(index.i2, 2);
    let n3 = pairs_after(index.i3, 3);
    let n = n0.min(n1).min(n2).min(n3);
    if n < 256 { 256 - n } else { 0 }
}

// How many of the 256 pairs are after that of i's highest bit as an index of attribute j; 256 or more
// for i = 0.
fn pairs_after(i: u64, j: u64) -> u64
    requires { j < 4 }
    ensures { creating_pair i j ≡ 256 - result }
{
    4 * (u64::leading_zeros(i) as u64) + 3 - j
}

// The index of attribute z.
fn index_of(index: Index, z: u64) -> u64
    requires { z < 4 }
    ensures { result ≡ get_or (index_list index) z 0 }
{
    one_of(z, index.i0, index.i1, index.i2, index.i3)
}

// The address so far times 2^h, plus i; unchanged for attribute z, whose index is in front.
fn append_digit(a: u64, h: u64, i: u64, j: u64, z: u64) -> u64
    requires { (h ≤ 16) × (append_digit a (2 ^ h) i j z < 2 ^ 64) }
    ensures { result ≡ append_digit a (2 ^ h) i j z }
{
    if j == z {
        return a;
    }
    (a << h) + i
}
