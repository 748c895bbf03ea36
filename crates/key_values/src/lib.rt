// The values of packed encodings (document 02, request 4): a call that is given a record's bytes has
// its key's values from them.
#![tactic(auto)]

ghost use Rattle.std.specs.Prelude.{◌≡◌, ◌+◌, ◌-◌, ◌%◌, ◌^◌, ◌<◌};
ghost use Rattle.shape.specs.Shape.{shape_number};
ghost use Rattle.shape.specs.Key.{per_attribute, decode};
ghost use Rattle.record.specs.Packed.{packed_value};

use key_encoding::bias_key;
use record::{unpack_key, value_at};
use shape::{Key, Shape};
use std::num::wrapping_sub_u32;

// The key of the values that packed encodings stand for.
pub fn decode_key(shape: Shape, key: u64) -> Key
    requires { shape_number shape ≡ 0 }
    ensures { result.values ≡ per_attribute (λ j. decode shape j (packed_value key j)) }
{
    if shape.signs == 0 {
        return Key {
            values: unpack_key(key),
        };
    }
    let bias = bias_key(shape);
    let v0 = value_less(key, bias, 0);
    let v1 = value_less(key, bias, 1);
    let v2 = value_less(key, bias, 2);
    let v3 = value_less(key, bias, 3);
    Key {
        values: [v0, v1, v2, v3],
    }
}

// The encoding of attribute j less what was added to its value, modulo 2^32.
fn value_less(key: u64, bias: u64, j: u64) -> u32
    requires { j < 4 }
    ensures { result ≡ (packed_value key j + (2 ^ 32 - packed_value bias j)) % 2 ^ 32 }
{
    wrapping_sub_u32(value_at(key, j) as u32, value_at(bias, j) as u32)
}
