// The encodings of a call's values and of the fields of a page (document 01, "Shape and split
// steps"; document 02, request 4): split order, directory and regions go by them. A call encodes its
// values here before it looks for a key.
#![tactic(auto)]

ghost use Rattle.std.specs.Prelude.{◌≡◌, ◌<◌, slice_index_or};
ghost use Rattle.std.proofs.Math.Option.{none};
ghost use Rattle.shape.specs.Shape.{shape_number};
ghost use Rattle.shape.specs.Key.{marked, bias, encode, encodings, wanted_value, wanted_values, encode_wanted, encoded_wanted};
ghost use Rattle.record.specs.Lanes.{lane_sum, lane_difference, bias_key};

use record::pack_key;
use shape::{Attribute, Key, Query, Shape, Wanted};
use std::num::wrapping_add_u32;

// The key of the encodings of a key's values.
pub fn encode_key(shape: Shape, key: Key) -> Key
    requires { shape_number shape ≡ 0 }
    ensures { result.values ≡ encodings shape key.values }
{
    if shape.signs == 0 {
        return key;
    }
    let values = key.values;
    let e0 = encode_value(shape, 0, values[0]);
    let e1 = encode_value(shape, 1, values[1]);
    let e2 = encode_value(shape, 2, values[2]);
    let e3 = encode_value(shape, 3, values[3]);
    Key {
        values: [e0, e1, e2, e3],
    }
}

// The query that gives the encodings of the values that a query gives.
pub fn encode_query(shape: Shape, query: Query) -> Query
    requires { shape_number shape ≡ 0 }
    ensures { wanted_values result ≡ encoded_wanted shape (wanted_values query) }
{
    if shape.signs == 0 {
        return query;
    }
    let a0 = encode_wanted(shape, 0, query);
    let a1 = encode_wanted(shape, 1, query);
    let a2 = encode_wanted(shape, 2, query);
    let a3 = encode_wanted(shape, 3, query);
    let attributes = [a0, a1, a2, a3];
    Query { attributes }
}

// What the shape adds to values, packed: added to packed fields it gives their packed encodings.
pub fn bias_key(shape: Shape) -> u64
    requires { shape_number shape ≡ 0 }
    ensures { result ≡ bias_key shape }
{
    if shape.signs == 0 {
        return 0;
    }
    let b0 = bias_of(shape, 0);
    let b1 = bias_of(shape, 1);
    let b2 = bias_of(shape, 2);
    let b3 = bias_of(shape, 3);
    pack_key(Key {
        values: [b0, b1, b2, b3],
    })
}

// The packed encodings of packed fields.
pub fn to_encodings(bias: u64, fields: u64) -> u64
    ensures { result ≡ lane_sum fields bias }
{
    if bias == 0 {
        return fields;
    }
    lane_add(fields, bias)
}

// The packed fields of packed encodings.
pub fn to_fields(bias: u64, key: u64) -> u64
    ensures { result ≡ lane_difference key bias }
{
    if bias == 0 {
        return key;
    }
    lane_sub(key, bias)
}

// The encoding of a value of attribute j.
fn encode_value(shape: Shape, j: usize, value: u32) -> u32
    requires { (shape_number shape ≡ 0) × (j < 4) }
    ensures { result ≡ encode shape j value }
{
    wrapping_add_u32(value, bias_of(shape, j))
}

// What a query says of attribute j, by its encoding.
fn encode_wanted(shape: Shape, j: usize, query: Query) -> Attribute
    requires { (shape_number shape ≡ 0) × (j < 4) }
    ensures { wanted_value result.wanted ≡ encode_wanted shape j (slice_index_or (wanted_values query) j none) }
{
    let attribute = query.attributes[j];
    let wanted = attribute.wanted;
    match wanted {
        Wanted::Free => Attribute {
            wanted: Wanted::Free,
        },
        Wanted::Given(value) => Attribute {
            wanted: Wanted::Given(encode_value(shape, j, value)),
        },
    }
}

// What is added to a value of attribute j: 0 where it is not marked.
fn bias_of(shape: Shape, j: usize) -> u32
    requires { (shape_number shape ≡ 0) × (j < 4) }
    ensures { result ≡ bias shape j }
{
    if !is_marked(shape, j) {
        return 0;
    }
    let widths = shape.widths;
    1u32 << (widths[j] - 1)
}

// Whether attribute j is marked.
fn is_marked(shape: Shape, j: usize) -> bool
    requires { j < 4 }
    ensures { result ≡ marked shape j }
{
    if j < (shape.attributes as usize) {
        return (shape.signs >> (j as u32)) & 1 == 1;
    }
    false
}

// The sum of two packed keys, value by value modulo 2^16.
fn lane_add(x: u64, y: u64) -> u64
    ensures { result ≡ lane_sum x y }
{
    let low = 0x7fff7fff7fff7fffu64;
    ((x & low) + (y & low)) ^ ((x ^ y) & 0x8000800080008000)
}

// Their difference.
fn lane_sub(x: u64, y: u64) -> u64
    ensures { result ≡ lane_difference x y }
{
    let top = 0x8000800080008000u64;
    ((x | top) - (y & 0x7fff7fff7fff7fff)) ^ (((x ^ y) & top) ^ top)
}
