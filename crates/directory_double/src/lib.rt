// Doubling the directory: each cell's word goes to both of its halves.
#![tactic(auto)]

ghost use Rattle.std.specs.Prelude.{suc, length};
ghost use Rattle.shape.specs.Shape.{width_list};
ghost use Rattle.address_inverse.specs.Appended.{AppendedBy};
ghost use Rattle.directory.specs.Directory.{DirectoryFits, Doubled};
ghost use Rattle.directory.specs.Blocks.{UpperHalf};

use address_bits::without_bit;
use address_formula::locate;
use address_inverse::index_before;
use pairs::step_place;
use shape::Widths;

// Doubles the directory from depth t to t + 1. Words below 2^t and from 2^(t+1) on stay.
pub fn double(widths: Widths, t: u64, dir: &mut [u32])
    requires { DirectoryFits (width_list widths) (suc t) (length dir.old) }
    ensures { Doubled (width_list widths) t dir.old dir.new }
{
    let g = step_place(widths, t);
    let size = 1u64 << t;
    for a in size..2 * size {
        let whole = whole_of(widths, t, g, a);
        let word = dir[whole as usize];
        dir[a as usize] = word;
    }
}

// The address of the cell whose upper half step t, the pair at place g, appended at a.
pub fn whole_of(widths: Widths, t: u64, g: u64, a: u64) -> u64
    requires { AppendedBy (width_list widths) a t g }
    ensures { UpperHalf (width_list widths) t a result }
{
    let index = index_before(widths, a, t, g);
    let whole = without_bit(index, g);
    locate(widths, whole)
}
