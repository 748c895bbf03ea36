// Regions as the walk hands them on, and the words in a region's cells.
ghost use Rattle.std.specs.Prelude.{◌≡◌, ◌<◌, ◌≤◌, length};
ghost use Rattle.shape.specs.Shape.{Fit, width_list, total};
ghost use Rattle.directory.specs.Directory.{DirectoryFits};
ghost use Rattle.check_walk.specs.Regions.{whole_region, RegionIn, SidesOf, SameWords};

use address_bits::with_bit;
use address_formula::{Index, locate};
use pairs::step_from;
use shape::Widths;

// A region: the index vector and the address of its first cell, a place with as many split steps
// before it as the region is deep, its depth, and its string as a number.
#[derive(Clone, Copy)]
pub struct Region {
    pub index: Index,
    pub address: u64,
    pub place: u64,
    pub depth: u64,
    pub string: u64,
}

// The two regions of a divided one, that with bit 0 and that with bit 1.
#[derive(Clone, Copy)]
pub struct Sides {
    pub lower: Region,
    pub upper: Region,
}

// The region of the empty string.
pub fn whole_region() -> Region
    ensures { result ≡ whole_region }
{
    let index = Index {
        i0: 0,
        i1: 0,
        i2: 0,
        i3: 0,
    };
    Region {
        index,
        address: 0,
        place: 0,
        depth: 0,
        string: 0,
    }
}

// The two sides of a region at its next split step.
pub fn sides_of(widths: Widths, region: Region) -> Sides
    requires { Fit (width_list widths) × (region.depth < total (width_list widths))
        × RegionIn (width_list widths) region }
    ensures { SidesOf (width_list widths) region result }
{
    let index = region.index;
    let step = step_from(widths, region.depth, region.place);
    let set = with_bit(index, step);
    let doubled = region.string << 1;
    let lower = Region {
        index,
        address: region.address,
        place: step + 1,
        depth: region.depth + 1,
        string: doubled,
    };
    let upper = Region {
        index: set,
        address: locate(widths, set),
        place: step + 1,
        depth: region.depth + 1,
        string: doubled | 1,
    };
    Sides { lower, upper }
}

// Whether every cell of a region holds a word, in a directory of depth t.
pub fn same_words(widths: Widths, region: Region, t: u64, word: u32, dir: &[u32]) -> bool
    requires { DirectoryFits (width_list widths) t (length dir.now) × (region.depth ≤ t)
        × RegionIn (width_list widths) region }
    ensures { SameWords (width_list widths) t dir.now region word result }
{
    if region.depth < t {
        let sides = sides_of(widths, region);
        if !same_words(widths, sides.lower, t, word, dir) {
            return false;
        }
        return same_words(widths, sides.upper, t, word, dir);
    }
    dir[region.address as usize] == word
}
