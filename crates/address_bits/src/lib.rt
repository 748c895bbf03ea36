// Index vectors with the bit of one pair set or cleared. The pair at place g is (bit g / 4, attribute
// g mod 4).
#![tactic(auto)]

ghost use Rattle.std.specs.Prelude.{◌≡◌, ◌/◌, ◌%◌, ◌^◌, ◌<◌, ◌≤◌, get_or};
ghost use Rattle.address_formula.specs.Index.{index_list};
ghost use Rattle.address_bits.specs.Bits.{bit_set, bit_cleared};
ghost use Rattle.address_bits.specs.Private.{only_at};

use address_formula::Index;

// The vector with the bit set; no higher bit of that index is.
pub fn with_bit(index: Index, g: u64) -> Index
    requires { (g < 64) × (get_or (index_list index) (g % 4) 0 < 2 ^ (g / 4)) }
    ensures { index_list result ≡ bit_set g (index_list index) }
{
    let bit = 1u64 << (g / 4);
    let z = g % 4;
    let d0 = only_at(bit, 0, z);
    let d1 = only_at(bit, 1, z);
    let d2 = only_at(bit, 2, z);
    let d3 = only_at(bit, 3, z);
    Index {
        i0: index.i0 + d0,
        i1: index.i1 + d1,
        i2: index.i2 + d2,
        i3: index.i3 + d3,
    }
}

// The vector with the bit cleared, which is that index's highest.
pub fn without_bit(index: Index, g: u64) -> Index
    requires { (g < 64) × (2 ^ (g / 4) ≤ get_or (index_list index) (g % 4) 0) }
    ensures { index_list result ≡ bit_cleared g (index_list index) }
{
    let bit = 1u64 << (g / 4);
    let z = g % 4;
    let d0 = only_at(bit, 0, z);
    let d1 = only_at(bit, 1, z);
    let d2 = only_at(bit, 2, z);
    let d3 = only_at(bit, 3, z);
    Index {
        i0: index.i0 - d0,
        i1: index.i1 - d1,
        i2: index.i2 - d2,
        i3: index.i3 - d3,
    }
}

// x for attribute z, 0 for the others.
fn only_at(x: u64, j: u64, z: u64) -> u64
    ensures { result ≡ only_at x j z }
{
    if j == z { x } else { 0 }
}
