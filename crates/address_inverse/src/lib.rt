// The index vector at an address (document 01, "Address map"): the digits of the address taken off
// from the last on.
#![tactic(auto)]

ghost use Rattle.std.specs.Prelude.{◌≡◌, ◌^◌, ◌<◌, ◌≤◌};
ghost use Rattle.shape.specs.Shape.{Fit, width_list, total};
ghost use Rattle.address.specs.Vectors.{IndexAt};
ghost use Rattle.address_formula.specs.Index.{index_list};
ghost use Rattle.address_inverse.specs.Appended.{AppendedBy};
ghost use Rattle.address_inverse.specs.Private.{drop_digit, digit_of};

use address_formula::Index;
use pairs::{depth_before, step_place};
use shape::Widths;

// The index vector at an address below 2^W.
pub fn vector_at(widths: Widths, a: u64) -> Index
    requires { Fit (width_list widths) × (a < 2 ^ total (width_list widths)) }
    ensures { IndexAt (width_list widths) a (index_list result) }
{
    if a == 0 {
        return Index {
            i0: 0,
            i1: 0,
            i2: 0,
            i3: 0,
        };
    }
    let t = 63 - (u64::leading_zeros(a) as u64);
    let g = step_place(widths, t);
    index_before(widths, a, t, g)
}

// The index vector at address a, which the step t, the pair at place g, appended.
pub fn index_before(widths: Widths, a: u64, t: u64, g: u64) -> Index
    requires { AppendedBy (width_list widths) a t g }
    ensures { IndexAt (width_list widths) a (index_list result) }
{
    let z = g % 4;
    let h0 = depth_before(widths.w0, g, 0);
    let h1 = depth_before(widths.w1, g, 1);
    let h2 = depth_before(widths.w2, g, 2);
    let h3 = depth_before(widths.w3, g, 3);
    let a3 = drop_digit(a, h3, 3, z);
    let a2 = drop_digit(a3, h2, 2, z);
    let a1 = drop_digit(a2, h1, 1, z);
    let a0 = drop_digit(a1, h0, 0, z);
    let i0 = digit_of(a0, a1, h0, 0, z);
    let i1 = digit_of(a0, a2, h1, 1, z);
    let i2 = digit_of(a0, a3, h2, 2, z);
    let i3 = digit_of(a0, a, h3, 3, z);
    Index { i0, i1, i2, i3 }
}

// The address without its h low bits; unchanged for attribute z.
fn drop_digit(a: u64, h: u64, j: u64, z: u64) -> u64
    requires { h ≤ 16 }
    ensures { result ≡ drop_digit a (2 ^ h) j z }
{
    if j == z {
        return a;
    }
    a >> h
}

// The h low bits of a; the front x for attribute z.
fn digit_of(x: u64, a: u64, h: u64, j: u64, z: u64) -> u64
    requires { h ≤ 16 }
    ensures { result ≡ digit_of x a (2 ^ h) j z }
{
    if j == z {
        return x;
    }
    a & ((1u64 << h) - 1)
}
