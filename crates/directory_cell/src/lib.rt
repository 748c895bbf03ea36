// The cell of a key: the index vector of its first t split bits, and its address. Lookup, insert and
// delete begin with a packed key, which goes from function to function in a register: an array of
// values goes through memory, written value by value and read as a whole, for which processors wait.
#![tactic(auto)]

ghost use Rattle.std.specs.Prelude.{◌≡◌, ◌≤◌, ◌<◌, length};
ghost use Rattle.shape.specs.Shape.{Fit, width_list, total};
ghost use Rattle.split.specs.Steps.{steps_below};
ghost use Rattle.split.specs.Bits.{bit_of, split_bit};
ghost use Rattle.address_formula.specs.Index.{index_list};
ghost use Rattle.record.specs.Packed.{unpacked_key};
ghost use Rattle.cell.specs.Cell.{sum_bits, cell, cell_address};
ghost use Rattle.directory_cell.specs.Private.{reversed_bits};

use address_formula::{Index, locate};
use pairs::{depth_before, early_place, place_of, steps_before};
use record::{unpack_key, value_at};
use shape::Widths;

// The address of a packed key's cell in a directory of depth t.
pub fn find_cell(widths: Widths, key: u64, t: u64) -> u64
    requires { Fit (width_list widths) × (t ≤ total (width_list widths)) }
    ensures { result ≡ cell_address (width_list widths) t (split_bit (width_list widths) (unpacked_key key)) }
{
    let index = cell_of(widths, key, t);
    locate(widths, index)
}

// The same of a key that is given by its encodings, for tests that are seldom asked.
pub fn locate_cell(widths: Widths, key: [u32; 4], t: u64) -> u64
    requires { Fit (width_list widths) × (t ≤ total (width_list widths)) }
    ensures { result ≡ cell_address (width_list widths) t (split_bit (width_list widths) key) }
{
    let index = cell_before(widths, key, place_of(widths, t));
    locate(widths, index)
}

// The index vector of a packed key's first t split bits. Most often the place tried first has t
// steps before it and is among the first four bits' places.
fn cell_of(widths: Widths, key: u64, t: u64) -> Index
    requires { Fit (width_list widths) × (t ≤ total (width_list widths)) }
    ensures { index_list result ≡ cell (width_list widths) t (split_bit (width_list widths) (unpacked_key key)) }
{
    let near = early_place(widths, t);
    if steps_before(widths, near) == t {
        if near <= 16 {
            return near_cell(widths, key, near);
        }
    }
    cell_before(widths, unpack_key(key), place_of(widths, t))
}

// The index vector of a packed key's split bits before the pair at place g. A place is most often
// among the first four bits'.
pub fn cell_at(widths: Widths, key: u64, g: u64) -> Index
    requires { Fit (width_list widths) × (g ≤ 64) }
    ensures { index_list result
        ≡ cell (width_list widths) (length (steps_below (width_list widths) g))
        (split_bit (width_list widths) (unpacked_key key)) }
{
    if g <= 16 {
        return near_cell(widths, key, g);
    }
    cell_before(widths, unpack_key(key), g)
}

// The index vector of a packed key's split bits before the pair at place g, of at most four bits
// each.
fn near_cell(widths: Widths, key: u64, g: u64) -> Index
    requires { Fit (width_list widths) × (g ≤ 16) }
    ensures { index_list result
        ≡ cell (width_list widths) (length (steps_below (width_list widths) g))
        (split_bit (width_list widths) (unpacked_key key)) }
{
    let d0 = depth_before(widths.w0, g, 0);
    let d1 = depth_before(widths.w1, g, 1);
    let d2 = depth_before(widths.w2, g, 2);
    let d3 = depth_before(widths.w3, g, 3);
    let i0 = index_of_few(widths.w0, value_at(key, 0), d0);
    let i1 = index_of_few(widths.w1, value_at(key, 1), d1);
    let i2 = index_of_few(widths.w2, value_at(key, 2), d2);
    let i3 = index_of_few(widths.w3, value_at(key, 3), d3);
    Index { i0, i1, i2, i3 }
}

// The index vector of a key's split bits before the pair at place g.
pub fn cell_before(widths: Widths, key: [u32; 4], g: u64) -> Index
    requires { Fit (width_list widths) × (g ≤ 64) }
    ensures { index_list result
        ≡ cell (width_list widths) (length (steps_below (width_list widths) g)) (split_bit (width_list widths) key) }
{
    let h0 = depth_before(widths.w0, g, 0);
    let h1 = depth_before(widths.w1, g, 1);
    let h2 = depth_before(widths.w2, g, 2);
    let h3 = depth_before(widths.w3, g, 3);
    let i0 = index_of_bits(widths.w0, key[0] as u64, h0);
    let i1 = index_of_bits(widths.w1, key[1] as u64, h1);
    let i2 = index_of_bits(widths.w2, key[2] as u64, h2);
    let i3 = index_of_bits(widths.w3, key[3] as u64, h3);
    Index { i0, i1, i2, i3 }
}

// The first h of an encoding's w bits as an index: the first of them with weight 1. A `reverse_bits`
// of 64 bits is compiled as a loop here, that of 16 is not.
fn index_of_bits(w: u64, encoding: u64, h: u64) -> u64
    requires { (h ≤ w) × (w ≤ 16) }
    ensures { result ≡ sum_bits (bit_of w encoding) h }
{
    if h <= 4 {
        return index_of_few(w, encoding, h);
    }
    let rest = encoding >> (w - h);
    let sixteen = (rest & 0xffff) as u16;
    (sixteen.reverse_bits() as u64) >> (16 - h)
}

// The same of at most four: reversed at once by a table, in fewer instructions than `reverse_bits`
// takes, and what is past them shifted out.
fn index_of_few(w: u64, encoding: u64, h: u64) -> u64
    requires { (h ≤ w) × (w ≤ 16) × (h ≤ 4) }
    ensures { result ≡ sum_bits (bit_of w encoding) h }
{
    let rest = encoding >> (w - h);
    let four = reversed(rest & 0xf);
    four >> (4 - h)
}

// Four bits in reverse order, from the table of all sixteen.
fn reversed(four: u64) -> u64
    requires { four < 16 }
    ensures { (result ≡ reversed_bits four) × (result < 16) }
{
    (0xf7b3d591e6a2c480 >> (4 * four)) & 0xf
}
