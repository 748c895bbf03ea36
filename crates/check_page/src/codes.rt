// The first split bits of a key as one number, the first bit highest.
ghost use Rattle.std.specs.Prelude.{◌≡◌, ◌-◌, ◌/◌, ◌^◌, ◌<◌, ◌≤◌, eqb};
ghost use Rattle.shape.specs.Shape.{Fit, width_list, total};
ghost use Rattle.split.specs.Bits.{split_bit};
ghost use Rattle.record.specs.Packed.{unpacked_key};
ghost use Rattle.check_test.specs.Codes.{code};
ghost use Rattle.check_page.specs.PageTest.{key_code};

use key_order::pair_bit;
use pairs::width_at;
use shape::Widths;

// Whether the first x split bits of a packed key are the number `string`.
pub fn begins(widths: Widths, key: u64, x: u64, string: u64) -> bool
    requires { Fit (width_list widths) × (x ≤ total (width_list widths)) }
    ensures { result
        ≡ eqb (key_code (width_list widths) (unpacked_key key) / 2 ^ (total (width_list widths) - x)) string }
{
    first_bits(widths, key, x) == string
}

// The first x split bits of a packed key. The pairs (bit k, attribute j) are looked at in order, at
// place 4k + j. No `for`: the loop goes over places, and ends by the number of bits.
fn first_bits(widths: Widths, key: u64, x: u64) -> u64
    requires { Fit (width_list widths) × (x ≤ total (width_list widths)) }
    ensures { result ≡ code x 0 (split_bit (width_list widths) (unpacked_key key)) }
{
    let mut code = 0;
    let mut n = 0;
    let mut g = 0;
    while n < x {
        if g / 4 < width_at(widths, g % 4) {
            code = (code << 1) | pair_bit(widths, key, g) as u64;
            n += 1;
        }
        g += 1;
    }
    code
}
