// Shapes of a store, keys, queries and ranges (document 01, "Shape and split steps", "Calls"; document
// 02, request 7).
#![tactic(auto)]

pub mod refusal;

ghost use Rattle.std.specs.Prelude.{◌≡◌, ◌<◌, ◌≤◌};
ghost use Rattle.shape.specs.Shape.{within, widths_fit, bad_width, lowest_bad, shape_conditions, width_of, widths_of};
ghost use Rattle.shape.specs.Shape.{width_list, Fit, total};
ghost use Rattle.shape.specs.Key.{wanted_value, value_or, is_given};
ghost use Rattle.shape.specs.Refusal.{answered_by, tested};

use refusal::Refusal;

// The attribute count d, a width in bits for each attribute, the page capacity b in records, and the
// marks of signed attributes, bit j for attribute j. Widths and marks past d are ignored.
#[repr(C)]
#[derive(Clone, Copy, Default)]
pub struct Shape {
    pub attributes: u32,
    pub widths: [u32; 4],
    pub capacity: u32,
    pub signs: u32,
}

// The widths that count: those of a shape, 0 past d.
#[repr(C)]
#[derive(Clone, Copy)]
pub struct Widths {
    pub w0: u64,
    pub w1: u64,
    pub w2: u64,
    pub w3: u64,
}

// A key: a value for each attribute, 0 for an unused one. A value below 0, of a signed attribute, is a
// number of 32 bits in two's complement.
#[repr(C)]
#[derive(Clone, Copy)]
pub struct Key {
    pub values: [u32; 4],
}

// What a query says of an attribute: nothing, or the value that it wants. An enum of its own, as
// document 01 names it.
#[derive(Clone, Copy)]
pub enum Wanted {
    Free,
    Given(u32),
}

impl Wanted {
    // The value that it wants, or `free`.
    pub fn value_or(self, free: u32) -> u32
        ensures { result ≡ value_or free (wanted_value self) }
    {
        match self {
            Wanted::Free => free,
            Wanted::Given(value) => value,
        }
    }

    // Whether it wants a value.
    pub fn is_given(self) -> bool
        ensures { result ≡ is_given (wanted_value self) }
    {
        match self {
            Wanted::Free => false,
            Wanted::Given(_) => true,
        }
    }
}

#[derive(Clone, Copy)]
pub struct Attribute {
    pub wanted: Wanted,
}

// A partial-match query, attribute by attribute.
#[derive(Clone, Copy)]
pub struct Query {
    pub attributes: [Attribute; 4],
}

// What a range says of an attribute: nothing, or its lowest and its highest value, both included. An
// enum as `Wanted` is, so that a range reads as a query does.
#[derive(Clone, Copy)]
pub enum Span {
    Free,
    Within(u32, u32),
}

#[derive(Clone, Copy)]
pub struct RangeAttribute {
    pub span: Span,
}

// A range query, attribute by attribute: a box of values (document 02, request 1).
#[derive(Clone, Copy)]
pub struct Range {
    pub attributes: [RangeAttribute; 4],
}

// Whether a shape is within its bounds. Refused with 1 for d outside 1 to 4, 14 for a width in use
// outside 1 to 16, 15 for a capacity outside 1 to 16, the first that holds in this order.
pub fn validate(shape: Shape) -> Result<(), Refusal>
    ensures { tested result ≡ answered_by (shape_conditions shape) tt }
{
    if !in_range(1, 4, shape.attributes) {
        return Err(Refusal::Shape);
    }
    if !widths_fit(shape) {
        return Err(Refusal::Width(bad_width(shape)));
    }
    if !in_range(1, 16, shape.capacity) {
        return Err(Refusal::Capacity);
    }
    Ok(())
}

// The lowest attribute below d whose width is outside 1 to 16, which 14 names; 4 where there is none.
// Only a refused call asks for it.
pub fn bad_width(shape: Shape) -> u32
    ensures { result ≡ lowest_bad shape }
{
    for j in 0..4 {
        if is_bad(shape, j) {
            return j as u32;
        }
    }
    4
}

// The widths that count, of any shape.
pub fn widths_of(shape: Shape) -> Widths
    ensures { width_list result ≡ widths_of shape }
{
    let w0 = width_of(shape, 0);
    let w1 = width_of(shape, 1);
    let w2 = width_of(shape, 2);
    let w3 = width_of(shape, 3);
    Widths { w0, w1, w2, w3 }
}

// W: the sum of the widths.
pub fn total_of(widths: Widths) -> u64
    requires { Fit (width_list widths) }
    ensures { (result ≡ total (width_list widths)) × (result ≤ 64) }
{
    widths.w0 + widths.w1 + widths.w2 + widths.w3
}

// Whether each width in use is 1 to 16.
fn widths_fit(shape: Shape) -> bool
    requires { shape.attributes ≤ 4 }
    ensures { result ≡ widths_fit shape }
{
    let widths = shape.widths;
    let count = shape.attributes as usize;
    for j in 0..count {
        if !in_range(1, 16, widths[j]) {
            return false;
        }
    }
    true
}

// Whether attribute j is below d and its width outside 1 to 16.
fn is_bad(shape: Shape, j: usize) -> bool
    requires { j < 4 }
    ensures { result ≡ bad_width shape j }
{
    let widths = shape.widths;
    let d = shape.attributes as usize;
    if d <= j {
        return false;
    }
    !in_range(1, 16, widths[j])
}

// Whether x is from lo to hi, both included.
fn in_range(lo: u32, hi: u32, x: u32) -> bool
    ensures { result ≡ within lo hi x }
{
    if x < lo {
        return false;
    }
    x <= hi
}

// The width of attribute j, 0 from d on.
fn width_of(shape: Shape, j: usize) -> u64
    requires { j < 4 }
    ensures { result ≡ width_of shape j }
{
    let widths = shape.widths;
    if j < (shape.attributes as usize) {
        return widths[j] as u64;
    }
    0
}
