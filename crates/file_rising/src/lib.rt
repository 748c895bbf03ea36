// Whether the records of a file are a set in split order (document 02, request 5): every value
// within its bounds, and each record behind the one before it.
#![tactic(auto)]

ghost use Rattle.std.specs.Prelude.{◌≡◌, ◌||◌, ◌*◌, ◌≤◌, eqb, length};
ghost use Rattle.shape.specs.Shape.{shape_number, Fit, width_list, total};
ghost use Rattle.split.specs.Bits.{split_bit};
ghost use Rattle.region.specs.Sets.{before};
ghost use Rattle.record.specs.Bytes.{record_size};
ghost use Rattle.record.specs.Packed.{unpacked_key};
ghost use Rattle.page.specs.Page.{records_from};
ghost use Rattle.model.specs.Sets.{is_set};

use file::encodings_at;
use key_encoding::bias_key;
use key_order::compare;
use record::unpack_key;
use refusals::encodings_fit;
use shape::{Key, Shape, Widths, widths_of};

// Whether the first n records of a file are a set in split order; 13 is due if not. Every value
// fits if the union of all their bits does, so that the bounds are judged once, at the end.
pub fn is_set(shape: Shape, file: &[u8], n: usize) -> bool
    requires { (shape_number shape ≡ 0) × (record_size * n ≤ length file.now) }
    ensures { result ≡ is_set shape (records_from shape n 0 file.now) }
{
    let widths = widths_of(shape);
    let bias = bias_key(shape);
    let mut last = 0;
    let mut bits = 0;
    for i in 0..n {
        let key = encodings_at(file, i, bias);
        if !may_follow(widths, i, last, key) {
            return false;
        }
        bits = bits | key;
        last = key;
    }
    encodings_fit(
        shape,
        Key {
            values: unpack_key(bits),
        },
    )
}

// Whether record i, with the packed encodings `key`, may follow the one before it, with `last`: it
// stands behind it in split order. The first record follows none.
fn may_follow(widths: Widths, i: usize, last: u64, key: u64) -> bool
    requires { Fit (width_list widths) }
    ensures { result
        ≡ (eqb i 0
        || before (split_bit (width_list widths)) (total (width_list widths)) 0 (unpacked_key last) (unpacked_key key)) }
{
    i == 0 || compare(widths, last, key).is_lt()
}
