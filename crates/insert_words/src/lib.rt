// The steps of an insert that change words and tally (I2 to I5, I7 of Otoo's INSERT). None of them
// can fail.
#![tactic(auto)]

ghost use Rattle.std.specs.Prelude.{◌≡◌, ◌≤◌, ◌<◌, length};
ghost use Rattle.shape.specs.Shape.{widths_of};
ghost use Rattle.split.specs.Bits.{split_bit};
ghost use Rattle.directory.specs.Directory.{Filled};
ghost use Rattle.directory_lent.specs.Lent.{DirectoryLent};
ghost use Rattle.directory_word.specs.Word.{word_of};
ghost use Rattle.directory_word.specs.declared.Leaf.TheVariants.{Page};
ghost use Rattle.change.specs.Divided.{LeavesSet};
ghost use Rattle.insert_words.specs.Divided.{DoublingAsked, DirectoryDoubled, LeavesAsked};
ghost use Rattle.insert_words.specs.Divided.{TallyAsked, LeavesCounted};

use directory_divide::{deepen, set_leaves};
use directory_fill::fill;
use directory_word::pack_page;
use insert_planned::Split;
use shape::widths_of;
use store::State;

// Double, I2: the directory is doubled until the new leaves of a full leaf fit. Returns the state
// with the new T. The words show the same leaves as before: no other word is set until it is done.
pub fn double(state: State, dir: &mut [u32], split: Split) -> State
    requires { DoublingAsked state split (length dir.old) }
    ensures { DirectoryDoubled state split dir.old result dir.new }
{
    let shape = state.shape;
    let limits = state.limits;
    let tally = state.tally;
    let old = state.deepest as u64;
    let depth = old.max(split.step + 1);
    deepen(widths_of(shape), old, depth, dir);
    let deepest = depth as u32;
    State {
        shape,
        limits,
        deepest,
        tally,
    }
}

// Set the words, I4, I5 and I7: the cells of a full leaf get the words of its new leaves, the empty
// ones beside them included.
pub fn set_words(
    state: State,
    dir: &mut [u32],
    encoded: [u32; 4],
    split: Split,
    bit: bool,
    free: u32,
)
    requires { DirectoryLent state (length dir.old) × LeavesAsked state encoded split bit free }
    ensures { LeavesSet (widths_of state.shape) state.deepest split.depth split.step
        (split_bit (widths_of state.shape) encoded) split.page free dir.old dir.new }
{
    let widths = widths_of(state.shape);
    let t = state.deepest as u64;
    let x = split.depth as u64;
    set_leaves(
        widths, encoded, x, split.step, t, split.page, free, bit, dir,
    );
}

// Set the words, I4 and I5, of a leaf that was empty: its cells get its page.
pub fn set_word(state: State, dir: &mut [u32], encoded: [u32; 4], page: u32, depth: u32)
    requires { DirectoryLent state (length dir.old) × (depth ≤ state.deepest) × (page < 65535) }
    ensures { Filled (widths_of state.shape) state.deepest depth
        (split_bit (widths_of state.shape) encoded) (word_of (Page page depth)) dir.old dir.new }
{
    let widths = widths_of(state.shape);
    let t = state.deepest as u64;
    let word = pack_page(page, depth);
    fill(widths, encoded, depth as u64, t, word, dir);
}

// The tally, I3 and I7: the new leaves are counted in place of the one that gave way.
pub fn count_leaves(state: State, split: Split) -> State
    requires { TallyAsked state split }
    ensures { LeavesCounted state split result }
{
    let shape = state.shape;
    let limits = state.limits;
    let deepest = state.deepest;
    let x = split.depth as u64;
    let levels = split.step + 1 - x;
    let tally = tally_lent::divided(state.tally, x as usize, levels as usize);
    State {
        shape,
        limits,
        deepest,
        tally,
    }
}
