// The sibling of a key's region in the directory: the region whose last split bit is the other one.
#![tactic(auto)]

ghost use Rattle.std.specs.Prelude.{◌≡◌, ◌/◌, ◌%◌, ◌^◌, ◌<◌, ◌≤◌, get_or, length};
ghost use Rattle.shape.specs.Shape.{Fit, width_list};
ghost use Rattle.split.specs.Steps.{steps_below};
ghost use Rattle.split.specs.Bits.{split_bit};
ghost use Rattle.record.specs.Packed.{unpacked_key};
ghost use Rattle.directory_sibling.specs.Sibling.{StepWithin, sibling_address, SiblingWord};

use address_bits::with_bit;
use address_formula::locate;
use directory_cell::cell_at;
use key_order::pair_bit;
use pairs::width_at;
use shape::Widths;

// The word of a cell of the sibling of a packed key's region that ends with the step at place g, in a
// directory of depth t. If the sibling is a leaf or within one, all its cells have this word.
pub fn sibling_word(widths: Widths, key: u64, g: u64, t: u64, dir: &[u32]) -> u32
    requires { StepWithin (width_list widths) g t × (2 ^ t ≤ length dir.now) }
    ensures { SiblingWord (width_list widths) (unpacked_key key) (length (steps_below (width_list widths) g)) t
        dir.now result }
{
    let cell = sibling_cell(widths, key, g);
    dir[cell as usize]
}

// The address of the sibling's cell of as many bits, which more bits 0 do not change. The half with
// bit 0 has the index vector of the region before the step; in that of the other its bit is set.
fn sibling_cell(widths: Widths, key: u64, g: u64) -> u64
    requires { Fit (width_list widths) × (g < 64) × (g / 4 < get_or (width_list widths) (g % 4) 0) }
    ensures { result
        ≡ sibling_address (width_list widths) (unpacked_key key) (length (steps_below (width_list widths) g)) }
{
    let index = cell_at(widths, key, g);
    if pair_bit(widths, key, g) {
        return locate(widths, index);
    }
    locate(widths, with_bit(index, g))
}

// The split bit of a key, given by its encodings, at the step at place g.
pub fn bit_at(widths: Widths, key: [u32; 4], g: u64) -> bool
    requires { Fit (width_list widths) × (g / 4 < get_or (width_list widths) (g % 4) 0) }
    ensures { result ≡ split_bit (width_list widths) key (length (steps_below (width_list widths) g)) }
{
    let w = width_at(widths, g % 4);
    let encoding = key[(g % 4) as usize];
    (encoding >> (w - (g / 4 + 1))) & 1 == 1
}
