// Whether a directory of less depth shows the same words, but for a key's region: before T falls.
ghost use Rattle.std.specs.Prelude.{suc, ◌<◌, ◌≤◌, length};
ghost use Rattle.shape.specs.Shape.{width_list};
ghost use Rattle.split.specs.Bits.{split_bit};
ghost use Rattle.directory.specs.Directory.{DirectoryFits};
ghost use Rattle.directory_tests.specs.Intact.{FoldTold};
ghost use Rattle.directory_tests.specs.Private.{StepTold, PairTold};

use directory_cell::locate_cell;
use directory_double::whole_of;
use pairs::step_place;
use shape::Widths;

// Whether each cell of depth t that is not in the region of a key's first u split bits holds the
// word of the cell of its first u bits. Step by step: at depth s the region of the key's first s
// bits is left out.
pub fn folds(widths: Widths, key: [u32; 4], u: u64, t: u64, dir: &[u32]) -> bool
    requires { DirectoryFits (width_list widths) t (length dir.now) × (u ≤ t) }
    ensures { FoldTold (width_list widths) u t (split_bit (width_list widths) key) dir.now result }
{
    for s in u..t {
        let own = locate_cell(widths, key, s);
        if !step_folds(widths, s, own, dir) {
            return false;
        }
    }
    true
}

// Whether each cell of depth s + 1 holds the word of the cell of its first s bits, but for the cell
// of depth s at the address own.
fn step_folds(widths: Widths, s: u64, own: u64, dir: &[u32]) -> bool
    requires { DirectoryFits (width_list widths) (suc s) (length dir.now) }
    ensures { StepTold (width_list widths) s own dir.now result }
{
    let g = step_place(widths, s);
    let size = 1u64 << s;
    for a in size..2 * size {
        let whole = whole_of(widths, s, g, a);
        if !pair_folds(a, whole, own, dir) {
            return false;
        }
    }
    true
}

// Whether the words at a and at the cell's own address are one, or that is the cell left out.
fn pair_folds(a: u64, whole: u64, own: u64, dir: &[u32]) -> bool
    requires { (a < length dir.now) × (whole < length dir.now) × (a < 4096) × (whole < 4096) }
    ensures { PairTold a whole own dir.now result }
{
    if whole == own {
        return true;
    }
    dir[a as usize] == dir[whole as usize]
}
