// Whether every cell of a region holds a word. The cells are those that `directory_fill::fill`
// sets: the region's own, and for each step y from x to t - 1 those at first + v for every v whose
// bits are among those of a mask.
ghost use Rattle.std.specs.Prelude.{suc, ◌+◌, ◌<◌, ◌≤◌, length};
ghost use Rattle.shape.specs.Shape.{width_list};
ghost use Rattle.split.specs.Bits.{split_bit};
ghost use Rattle.address_formula.specs.Index.{index_list};
ghost use Rattle.directory.specs.Directory.{DirectoryFits};
ghost use Rattle.directory.specs.Blocks.{RegionAt, BlockFits};
ghost use Rattle.region.specs.Strings.{sibling};
ghost use Rattle.directory_tests.specs.Intact.{RegionTold};
ghost use Rattle.directory_tests.specs.Private.{CellsTold, BlocksTold, BlockTold, MaskTold};

use address_bits::with_bit;
use address_formula::{Index, address_before, locate};
use directory_cell::cell_before;
use directory_sibling::bit_at;
use pairs::{place_of, step_from, step_place};
use shape::Widths;

// Whether every cell of the region of a key's first x split bits holds a word, in a directory of
// depth t.
pub fn region_holds(widths: Widths, key: [u32; 4], x: u64, t: u64, word: u32, dir: &[u32]) -> bool
    requires { DirectoryFits (width_list widths) t (length dir.now) × (x ≤ t) }
    ensures { RegionTold (width_list widths) t x (split_bit (width_list widths) key) word
        dir.now result }
{
    let start = place_of(widths, x);
    let index = cell_before(widths, key, start);
    cells_hold(widths, index, start, x, t, word, dir)
}

// The same for the sibling of a key's region of z + 1 bits.
pub fn sibling_holds(widths: Widths, key: [u32; 4], z: u64, t: u64, word: u32, dir: &[u32]) -> bool
    requires { DirectoryFits (width_list widths) t (length dir.now) × (z < t) }
    ensures { RegionTold (width_list widths) t (suc z)
        (sibling (split_bit (width_list widths) key) z) word dir.now result }
{
    let g = step_place(widths, z);
    let index = cell_before(widths, key, g);
    if bit_at(widths, key, g) {
        return cells_hold(widths, index, g + 1, z + 1, t, word, dir);
    }
    let other = with_bit(index, g);
    cells_hold(widths, other, g + 1, z + 1, t, word, dir)
}

// The same for the region of x bits at an index vector; x steps are before the place start.
fn cells_hold(
    widths: Widths,
    index: Index,
    start: u64,
    x: u64,
    t: u64,
    word: u32,
    dir: &[u32],
) -> bool
    requires { RegionAt (width_list widths) (index_list index) start x t (length dir.now) }
    ensures { CellsTold (width_list widths) (index_list index) x t word dir.now result }
{
    let own = locate(widths, index);
    if dir[own as usize] != word {
        return false;
    }
    blocks_hold(widths, index, start, x, t, word, dir)
}

// The same for the cells of the region but its own.
fn blocks_hold(
    widths: Widths,
    index: Index,
    start: u64,
    x: u64,
    t: u64,
    word: u32,
    dir: &[u32],
) -> bool
    requires { RegionAt (width_list widths) (index_list index) start x t (length dir.now) }
    ensures { BlocksTold (width_list widths) (index_list index) x t word dir.now result }
{
    let mut g = start;
    let mut last = index;
    for y in x..t {
        let step = step_from(widths, y, g);
        let first = with_bit(index, step);
        last = with_bit(last, step);
        if !block_holds(widths, first, last, step, word, dir) {
            return false;
        }
        g = step + 1;
    }
    true
}

// Whether the cells of a block hold a word, from its first to its last, where the bits that vary
// are 0 and 1.
fn block_holds(widths: Widths, first: Index, last: Index, g: u64, word: u32, dir: &[u32]) -> bool
    requires { BlockFits (width_list widths) g (index_list first) (index_list last) (length dir.now) }
    ensures { BlockTold (width_list widths) (index_list first) (index_list last) word
        dir.now result }
{
    let base = address_before(widths, first, g);
    let end = address_before(widths, last, g);
    mask_holds(base, end - base, word, dir)
}

// Whether the words at base + v are this one for every v whose bits are among those of the mask,
// from the greatest v down.
fn mask_holds(base: u64, mask: u64, word: u32, dir: &[u32]) -> bool
    requires { (base + mask < length dir.now) × (base + mask < 4096) }
    ensures { MaskTold base mask word dir.now result }
{
    let mut v = mask;
    if dir[(base + v) as usize] != word {
        return false;
    }
    while 0 < v {
        v = (v - 1) & mask;
        if dir[(base + v) as usize] != word {
            return false;
        }
    }
    true
}
