// The table that a query's walk uses, made once a query: six numbers for each depth up to 12, and
// behind them five that stay the same. The row of depth x, from 6x on:
//
//     0             for the address of a cell that step x appended: the multiplier of indices 0, 1
//     1             that of indices 2, 3
//     2   BIT       the bit that step x sets in a vector of 16-bit lanes
//     3   WANTED    the query's bit at step x: 0, 1, or 2 where it is free
//     4   VALUE     the bit that step x sets in a packed key
//     5   FIXED     the bits of a packed key that are fixed at depth x
//
// Behind the rows:
//
//     78  PAGES     P
//     79  CAPACITY  b
//     80  DEEPEST   T
//     81  TALLIED   the depths that have a leaf in the tally
//     82  BIAS      what is added to packed fields
#![tactic(auto)]

ghost use Rattle.std.specs.Prelude.{◌≡◌, ◌+◌, ◌*◌, ◌^◌, ◌<◌, ◌≤◌, cond, [], ◌∷◌, eqb, get_or, length};
ghost use Rattle.std.proofs.Math.Option.{none};
ghost use Rattle.std.proofs.lemmas.List.Edits.{sets};
ghost use Rattle.shape.specs.Shape.{shape_number, width_list, widths_of};
ghost use Rattle.shape.specs.Key.{per_attribute, wanted_values};
ghost use Rattle.split.specs.Steps.{steps_below};
ghost use Rattle.model.specs.Sets.{query_bit_of};
ghost use Rattle.query_rows.specs.Rows.{Rows, RowsAsked, step_row, row_list, wanted_at, wanted_number};
ghost use Rattle.query_rows.specs.Rows.{other_depth, multiplier, tallied_depths, limited, most_pages};
ghost use Rattle.query_rows.specs.Vectors.{Addressable, row_address};
ghost use Rattle.query_rows.specs.Private.{RowsFilled, BitAsked, StepAt, PlaceAsked, BitOf};

use key_encoding::bias_key;
use page_ends::fixed_bits_before;
use pairs::{depth_before, width_at};
use shape::{Attribute, Query, Shape, Wanted, Widths, widths_of};
use store::{State, Tally};

// How many numbers the table has.
pub const TABLE: usize = 83;

// How many numbers a row has.
pub const ROW: usize = 6;

// Where the numbers of a row stand in it; the last one in the next row.
pub const BIT: usize = 2;

pub const WANTED: usize = 3;

pub const VALUE: usize = 4;

pub const FIXED: usize = 5;

const NEXT_FIXED: usize = ROW + FIXED;

// Where the numbers behind the rows stand.
pub const PAGES: usize = 78;

pub const CAPACITY: usize = 79;

pub const DEEPEST: usize = 80;

pub const TALLIED: usize = 81;

pub const BIAS: usize = 82;

// What the walk needs of a step: the two multipliers for the address of a cell that the step
// appended, the bit that the step sets in a vector of 16-bit lanes, the query's bit (0, 1, or 2
// where it is free), and the bit that the step sets in a packed key.
#[derive(Clone, Copy)]
pub struct Row {
    pub low: u64,
    pub high: u64,
    pub bit: u64,
    pub wanted: u64,
    pub value: u64,
}

// Writes the rows of the steps below t for a query, given by its encodings, and the bits that are
// fixed at each depth up to t.
pub fn fill_rows(shape: Shape, query: Query, t: usize, rows: &mut [u64; TABLE])
    requires { RowsAsked shape t (length rows.old) }
    ensures { (length rows.new ≡ length rows.old)
        × Rows (widths_of shape) (wanted_at (widths_of shape) (wanted_values query)) t rows.new }
{
    let widths = widths_of(shape);
    rows[FIXED] = fixed_bits_before(widths, 0);
    let mut x = 0;
    for bit in 0..16 {
        if x == t {
            break;
        }
        x = fill_bit(widths, query, t, bit, rows, x);
    }
}

// Writes the rows of the steps below t of this bit, x of which come before, and returns how many steps
// have a row then. It goes through the four attributes in a loop of its own, which is unrolled.
fn fill_bit(
    widths: Widths,
    query: Query,
    t: usize,
    bit: u64,
    rows: &mut [u64; TABLE],
    before: usize,
) -> usize
    requires { BitAsked (width_list widths) (wanted_at (width_list widths) (wanted_values query)) t bit before
        rows.old }
    ensures { (length rows.new ≡ length rows.old)
        × RowsFilled (width_list widths) (wanted_at (width_list widths) (wanted_values query)) t (4 * bit + 4) result
        rows.new }
{
    let mut x = before;
    for z in 0..4 {
        if x < t && bit < width_at(widths, z) {
            put_row(rows, x * ROW, row_at(widths, query, 4 * bit + z));
            x += 1;
        }
    }
    x
}

// Writes behind the rows what stays the same in a walk: P, b, T, the depths in the tally, the shape's
// bias.
pub fn fill_limits(state: State, rows: &mut [u64; TABLE])
    requires { shape_number state.shape ≡ 0 }
    ensures { rows.new ≡ limited state rows.old }
{
    let shape = state.shape;
    let limits = state.limits;
    rows[PAGES] = limits.pages as u64;
    rows[CAPACITY] = shape.capacity as u64;
    rows[DEEPEST] = state.deepest as u64;
    rows[TALLIED] = tallied_depths(state.tally);
    rows[BIAS] = bias_key(shape);
}

// The query that gives nothing: a walk by its rows enters every region.
pub fn free_query() -> Query
    ensures { wanted_values result ≡ per_attribute (λ j. none) }
{
    let free = Attribute {
        wanted: Wanted::Free,
    };
    let attributes = [free, free, free, free];
    Query { attributes }
}

// How many pages a walk by the rows of the steps below t notes at most: twice as many for each step in
// which the query is free.
pub fn most_pages(rows: &[u64; TABLE], t: usize) -> usize
    requires { t ≤ 12 }
    ensures { result ≡ most_pages rows.now t 0 }
{
    let mut most = 1;
    for x in (0..t).rev() {
        if 1 < rows[x * ROW + WANTED] {
            most *= 2;
        }
    }
    most
}

// The address of a cell of this index vector that the step of the row at this place appended: each
// half of the vector times its multiplier has in bits 16 to 31 the sum of its two shifted indices.
pub fn address_by(rows: &[u64; TABLE], at: usize, index: u64) -> usize
    requires { Addressable rows.now at }
    ensures { result ≡ row_address rows.now at index }
{
    let low = ((index & 0xffff_ffff) * rows[at]) >> 16;
    let high = ((index >> 32) * rows[at + 1]) >> 16;
    ((low & 0xffff) + (high & 0xffff)) as usize
}

// The depths that have a leaf in the tally, one bit each, depth 0 lowest.
fn tallied_depths(tally: Tally) -> u64
    ensures { result ≡ tallied_depths tally.leaves }
{
    let mut depths: u64 = 0;
    for x in (0..13).rev() {
        depths = (depths << 1) | ((tally.leaves[x] != 0) as u64);
    }
    depths
}

// The row of the step at place g.
fn row_at(widths: Widths, query: Query, g: u64) -> Row
    requires { StepAt (width_list widths) g }
    ensures { row_list result
        ≡ step_row (width_list widths) (wanted_at (width_list widths) (wanted_values query))
        (length (steps_below (width_list widths) g)) }
{
    let z = g % 4;
    let bit = g / 4;
    let h0 = other_depth(widths.w0, g, 0);
    let h1 = other_depth(widths.w1, g, 1);
    let h2 = other_depth(widths.w2, g, 2);
    let h3 = other_depth(widths.w3, g, 3);
    let all = h0 + h1 + h2 + h3;
    let width = width_at(widths, z);
    let s0 = shift_of(0, z, all, h1 + h2 + h3);
    let s1 = shift_of(1, z, all, h2 + h3);
    let s2 = shift_of(2, z, all, h3);
    let s3 = shift_of(3, z, all, 0);
    Row {
        low: multiplier_of(s0, s1),
        high: multiplier_of(s2, s3),
        bit: 1u64 << (16 * z + bit),
        wanted: wanted_bit(query, z as usize, width, bit),
        value: 1u64 << (16 * z + (width - 1 - bit)),
    }
}

// The depth of attribute j of w bits just before place g; 0 for the attribute of the step.
fn other_depth(w: u64, g: u64, j: u64) -> u64
    requires { PlaceAsked w g j }
    ensures { (result ≡ other_depth w g j) × (result ≤ 16) }
{
    if j == g % 4 {
        return 0;
    }
    depth_before(w, g, j)
}

// All other depths for the attribute of the step, else those behind j.
fn shift_of(j: u64, z: u64, all: u64, behind: u64) -> u64
    ensures { result ≡ cond (eqb j z) all behind }
{
    if j == z { all } else { behind }
}

// What two indices of 16 bits in one number are multiplied by, so that in bits 16 to 31 stands the
// first shifted by s plus the second shifted by r.
fn multiplier_of(s: u64, r: u64) -> u64
    requires { (s ≤ 12) × (r ≤ 12) }
    ensures { result ≡ multiplier s r }
{
    (65536u64 << s) + (1u64 << r)
}

// What the query says of a bit of attribute j: the encoding's bit, or 2 where it is free.
fn wanted_bit(query: Query, j: usize, width: u64, bit: u64) -> u64
    requires { BitOf width bit j }
    ensures { result ≡ wanted_number (query_bit_of width bit (get_or (wanted_values query) j none)) }
{
    match query.attributes[j].wanted {
        Wanted::Free => 2,
        Wanted::Given(value) => ((value as u64) >> (width - 1 - bit)) & 1,
    }
}

// Writes a row from a place on, and to the next row the bits that are fixed there: one more.
fn put_row(rows: &mut [u64; TABLE], at: usize, row: Row)
    requires { (at + 12 ≤ 78) × (get_or rows.old (at + 5) 0 + row.value < 2 ^ 64) }
    ensures { rows.new
        ≡ sets (sets rows.old at (row_list row)) (at + 11)
        ((get_or rows.old (at + 5) 0 + row.value) ∷ []) }
{
    let fixed = rows[at + FIXED] + row.value;
    let a1 = at + 1;
    let a2 = a1 + 1;
    let a3 = a2 + 1;
    let a4 = a3 + 1;
    rows[at] = row.low;
    rows[a1] = row.high;
    rows[a2] = row.bit;
    rows[a3] = row.wanted;
    rows[a4] = row.value;
    rows[at + NEXT_FIXED] = fixed;
}
