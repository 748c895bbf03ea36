// Setting every cell of a region to a word. The cells of a region of x bits in a directory of depth t
// are its own, at the region's address, and for each step y from x to t - 1 those whose last bit 1 is
// bit y. These have the addresses first + v for every v whose bits are among those of a mask.
#![tactic(auto)]

ghost use Rattle.std.specs.Prelude.{◌+◌, ◌<◌, ◌≤◌, length};
ghost use Rattle.shape.specs.Shape.{width_list};
ghost use Rattle.split.specs.Bits.{split_bit};
ghost use Rattle.address_formula.specs.Index.{index_list};
ghost use Rattle.directory.specs.Directory.{DirectoryFits, Filled};
ghost use Rattle.directory.specs.Blocks.{RegionAt, BlocksFilled, BlockFits, BlockFilled, MaskFilled};

use address_bits::with_bit;
use address_formula::{Index, address_before, locate};
use directory_cell::cell_before;
use pairs::{place_of, step_from};
use shape::Widths;

// Sets every cell of the region of a key's first x split bits, in a directory of depth t. No other
// word changes.
pub fn fill(widths: Widths, key: [u32; 4], x: u64, t: u64, word: u32, dir: &mut [u32])
    requires { DirectoryFits (width_list widths) t (length dir.old) × (x ≤ t) }
    ensures { Filled (width_list widths) t x (split_bit (width_list widths) key) word
        dir.old dir.new }
{
    let start = place_of(widths, x);
    let index = cell_before(widths, key, start);
    let own = locate(widths, index);
    dir[own as usize] = word;
    fill_blocks(widths, index, start, x, t, word, dir);
}

// Sets the cells of the region of x bits at an index vector but its own; x steps are before the place
// start.
fn fill_blocks(widths: Widths, index: Index, start: u64, x: u64, t: u64, word: u32, dir: &mut [u32])
    requires { RegionAt (width_list widths) (index_list index) start x t (length dir.old) }
    ensures { BlocksFilled (width_list widths) (index_list index) x t word
        dir.old dir.new }
{
    let mut g = start;
    let mut last = index;
    for y in x..t {
        let step = step_from(widths, y, g);
        let first = with_bit(index, step);
        last = with_bit(last, step);
        fill_block(widths, first, last, step, word, dir);
        g = step + 1;
    }
}

// Sets the cells of a block from its first to its last, where the bits that vary are 0 and 1. The
// pair at place g appended them all.
fn fill_block(widths: Widths, first: Index, last: Index, g: u64, word: u32, dir: &mut [u32])
    requires { BlockFits (width_list widths) g (index_list first) (index_list last) (length dir.old) }
    ensures { BlockFilled (width_list widths) (index_list first) (index_list last) word
        dir.old dir.new }
{
    let base = address_before(widths, first, g);
    let end = address_before(widths, last, g);
    fill_mask(base, end - base, word, dir);
}

// Sets the words at base + v for every v whose bits are among those of the mask, from the greatest v
// down: the next one below v is (v - 1) & mask.
fn fill_mask(base: u64, mask: u64, word: u32, dir: &mut [u32])
    requires { (base + mask < length dir.old) × (base + mask < 4096) }
    ensures { MaskFilled base mask word dir.old dir.new }
{
    let mut v = mask;
    dir[(base + v) as usize] = word;
    while 0 < v {
        v = (v - 1) & mask;
        dir[(base + v) as usize] = word;
    }
}
