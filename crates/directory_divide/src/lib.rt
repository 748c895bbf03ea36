// The directory's words of a leaf that is divided: doubled until the new leaves fit, then the words
// of the leaf's region set to its new leaves.
#![tactic(auto)]

ghost use Rattle.std.specs.Prelude.{◌≡◌, ◌<◌, ◌≤◌, length};
ghost use Rattle.shape.specs.Shape.{width_list};
ghost use Rattle.split.specs.Bits.{split_bit};
ghost use Rattle.directory.specs.Directory.{DirectoryFits};
ghost use Rattle.change.specs.Divided.{Deepened, SiblingsSet, LeavesSet};

use directory_double::double;
use directory_fill::fill;
use directory_word::{pack_empty, pack_page};
use shape::Widths;

// Doubles the directory from depth t to u. Words from 2^u on stay.
pub fn deepen(widths: Widths, t: u64, u: u64, dir: &mut [u32])
    requires { DirectoryFits (width_list widths) u (length dir.old) × (t ≤ u) }
    ensures { Deepened (width_list widths) t u dir.old dir.new }
{
    for depth in t..u {
        double(widths, depth, dir);
    }
}

// Sets the words of a leaf of depth x that gives way to empty siblings of a key's regions down to
// depth m and to two leaves of depth m + 1: page `zero` for bit 0 of step m, page `one` for bit 1.
// `bit` is the key's. The region of m bits is set to the other half's page, then the key's half.
pub fn set_leaves(
    widths: Widths,
    key: [u32; 4],
    x: u64,
    m: u64,
    t: u64,
    zero: u32,
    one: u32,
    bit: bool,
    dir: &mut [u32],
)
    requires directory_fits { DirectoryFits (width_list widths) t (length dir.old) × (x ≤ m) × (m < t) }
    requires zero_bound { (zero < 65535) × (one < 65535) }
    requires bit_value { bit ≡ split_bit (width_list widths) key m }
    ensures { LeavesSet (width_list widths) t x m (split_bit (width_list widths) key) zero one
        dir.old dir.new }
{
    set_siblings(widths, key, x, m, t, dir);
    let depth = (m + 1) as u32;
    let (other, own) = if bit { (zero, one) } else { (one, zero) };
    fill(widths, key, m, t, pack_page(other, depth), dir);
    fill(widths, key, m + 1, t, pack_page(own, depth), dir);
}

// Sets the siblings of a key's regions of depths x + 1 to m to empty leaves. For each depth the
// whole region one bit shorter is set: its other half, the key's, is set later.
fn set_siblings(widths: Widths, key: [u32; 4], x: u64, m: u64, t: u64, dir: &mut [u32])
    requires { DirectoryFits (width_list widths) t (length dir.old) × (x ≤ m) × (m ≤ t) }
    ensures { SiblingsSet (width_list widths) t x m (split_bit (width_list widths) key)
        dir.old dir.new }
{
    for y in x..m {
        let word = pack_empty((y + 1) as u32);
        fill(widths, key, y, t, word, dir);
    }
}
