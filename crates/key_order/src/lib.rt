// Split order of keys (document 01, "Shape and split steps"): the first split step in which two
// packed keys differ, from exclusive-or and leading zeros, and which key stands first. Bits of a
// value past its width are never looked at.
//
// A pair (bit k, attribute j) is handed on as its place 4k + j among all pairs; 64 stands for none.
#![tactic(auto)]

ghost use Rattle.std.specs.Prelude.{◌≡◌, ◌/◌, ◌%◌, ◌<◌, ◌≤◌, get_or};
ghost use Rattle.shape.specs.Shape.{Fit, width_list};
ghost use Rattle.split.specs.Bits.{bit_of};
ghost use Rattle.pairs.specs.Pairs.{IsStep};
ghost use Rattle.record.specs.Packed.{packed_value, unpacked_key};
ghost use Rattle.key_order.specs.Order.{first_step, compared, FirstPair};
ghost use Rattle.key_order.specs.Private.{top_bits, LeadingOne, BitOfFirst, Chosen, FirstBit};

use pairs::{steps_before, width_at};
use shape::Widths;
use std::cmp::Ordering;

// The number of the first split step in which two keys differ; W where they do not.
pub fn first_step(widths: Widths, x: u64, y: u64) -> u64
    requires { Fit (width_list widths) }
    ensures { result ≡ first_step (width_list widths) (unpacked_key x) (unpacked_key y) }
{
    steps_before(widths, first_pair(widths, x, y))
}

// How x stands to y in split order. With each attribute's differing bits at the top of a word, the
// leading one of all four is the first bit in which any attribute differs.
pub fn compare(widths: Widths, x: u64, y: u64) -> Ordering
    requires { Fit (width_list widths) }
    ensures { result ≡ compared (width_list widths) (unpacked_key x) (unpacked_key y) }
{
    let z = x ^ y;
    let d0 = top_bits(z, widths.w0, 0);
    let d1 = top_bits(z, widths.w1, 1);
    let d2 = top_bits(z, widths.w2, 2);
    let d3 = top_bits(z, widths.w3, 3);
    let all = d0 | d1 | d2 | d3;
    if all == 0 {
        return Ordering::Equal;
    }
    if bit_of_first(widths, x, leading_one(all), d0, d1, d2) == 0 {
        return Ordering::Less;
    }
    Ordering::Greater
}

// The place of the first pair in which two keys differ; 64 where they do not: a number, as the least
// of four is taken without a jump.
pub fn first_pair(widths: Widths, x: u64, y: u64) -> u64
    requires { Fit (width_list widths) }
    ensures { FirstPair (width_list widths) (unpacked_key x) (unpacked_key y) result }
{
    let z = x ^ y;
    let p0 = first_bit(z, widths.w0, 0);
    let p1 = first_bit(z, widths.w1, 1);
    let p2 = first_bit(z, widths.w2, 2);
    let p3 = first_bit(z, widths.w3, 3);
    p0.min(p1).min(p2.min(p3)).min(64)
}

// The bit of a key at the place of a split step.
pub fn pair_bit(widths: Widths, key: u64, g: u64) -> bool
    requires { Fit (width_list widths) × (g < 64) × IsStep (width_list widths) g }
    ensures { result ≡ bit_of (get_or (width_list widths) (g % 4) 0) (packed_value key (g % 4)) (g / 4) }
{
    let j = g % 4;
    let low = 16 * j + width_at(widths, j) - 1 - g / 4;
    (key >> low) & 1 == 1
}

// The value of attribute j, its w bits at the top of the word.
fn top_bits(key: u64, w: u64, j: u64) -> u64
    requires { (w ≤ 16) × (j < 4) }
    ensures { result ≡ top_bits w (packed_value key j) }
{
    ((key >> (16 * j)) << 48) << (16 - w)
}

// The highest bit that is 1 in a number other than 0, alone.
fn leading_one(n: u64) -> u64
    requires { 0 < n }
    ensures { LeadingOne n result }
{
    0x8000_0000_0000_0000u64 >> u64::leading_zeros(n)
}

// One bit of a key, alone or 0: in the top bits of attribute j, for the first j of which dj has it,
// and of attribute 3 where none of d0, d1, d2 has it.
fn bit_of_first(widths: Widths, key: u64, bit: u64, d0: u64, d1: u64, d2: u64) -> u64
    requires { Fit (width_list widths) }
    ensures { BitOfFirst (width_list widths) key bit d0 d1 d2 result }
{
    let a3 = top_bits(key, widths.w3, 3);
    let b2 = choose(bit, d2, top_bits(key, widths.w2, 2), a3);
    let b1 = choose(bit, d1, top_bits(key, widths.w1, 1), b2);
    choose(bit, d0, top_bits(key, widths.w0, 0), b1)
}

// One bit, alone or 0: a's where d has it, b's where not. It is taken by masks: which one it is
// varies from key to key, so that a jump would often be mispredicted.
fn choose(bit: u64, d: u64, a: u64, b: u64) -> u64
    ensures { Chosen bit d a b result }
{
    let e = d & bit;
    (a & e) | (b & (bit ^ e))
}

// The place of the first bit that is 1 in the value of attribute j; 64 or more where there is none.
// In the value's top bits the leading zeros count from bit 0.
fn first_bit(z: u64, w: u64, j: u64) -> u64
    requires { (w ≤ 16) × (j < 4) }
    ensures { FirstBit w (packed_value z j) j result }
{
    let top = top_bits(z, w, j);
    4 * (u64::leading_zeros(top) as u64) + j
}
