// Inner steps, exported for tests and benchmarks: each export hands its arguments on to one step,
// with that step's contract. A caller tests what the `requires` asks. Enums cross as numbers
// (`specs/`).
//
// Here are the steps on the directory; the modules have those on words, keys, pages and queries,
// and whole lists of calls.
#![tactic(auto)]

pub mod calls;
pub mod keys;
pub mod matching;
pub mod records;
pub mod words;

ghost use Rattle.std.specs.Prelude.{◌≡◌, suc, ◌≤◌, length};
ghost use Rattle.shape.specs.Shape.{Fit, width_list, total};
ghost use Rattle.split.specs.Bits.{split_bit};
ghost use Rattle.cell.specs.Cell.{cell_address};
ghost use Rattle.record.specs.Packed.{unpacked_key};
ghost use Rattle.directory.specs.Directory.{DirectoryFits, Doubled, Filled};
ghost use Rattle.insert_words.specs.Divided.{DoublingAsked, DirectoryDoubled};
ghost use Rattle.probe.specs.Fields.{split_of};

use directory_cell::find_cell;
use directory_double::double;
use directory_fill::fill;
use insert_planned::Split;
use shape::{Key, Widths};
use store::State;

// A full leaf and the split step at which it is divided (crate `insert_planned`).
#[repr(C)]
#[derive(Clone, Copy)]
pub struct SplitFields {
    pub page: u32,
    pub depth: u32,
    pub behind: usize,
    pub pair: u64,
    pub step: u64,
}

// The address of a packed key's cell in a directory of depth t.
#[unsafe(no_mangle)]
pub extern "C" fn probe_find_cell(widths: Widths, key: u64, t: u64) -> u64
    requires { Fit (width_list widths) × (t ≤ total (width_list widths)) }
    ensures { result ≡ cell_address (width_list widths) t (split_bit (width_list widths) (unpacked_key key)) }
{
    find_cell(widths, key, t)
}

// Doubles the directory from depth t to t + 1.
#[unsafe(no_mangle)]
pub extern "C" fn probe_double(widths: Widths, t: u64, dir: &mut [u32])
    requires { DirectoryFits (width_list widths) (suc t) (length dir.old) }
    ensures { Doubled (width_list widths) t dir.old dir.new }
{
    double(widths, t, dir);
}

// Doubles the directory until the new leaves of a full leaf fit. Returns the state with the new T.
#[unsafe(no_mangle)]
pub extern "C" fn probe_insert_double(state: State, dir: &mut [u32], split: SplitFields) -> State
    requires { DoublingAsked state (split_of split) (length dir.old) }
    ensures { DirectoryDoubled state (split_of split) dir.old result dir.new }
{
    let found = Split {
        page: split.page,
        depth: split.depth,
        behind: split.behind,
        pair: split.pair,
        step: split.step,
    };
    insert_words::double(state, dir, found)
}

// Sets every cell of the region of a key's first x split bits, in a directory of depth t.
#[unsafe(no_mangle)]
pub extern "C" fn probe_fill(widths: Widths, key: Key, x: u64, t: u64, word: u32, dir: &mut [u32])
    requires { DirectoryFits (width_list widths) t (length dir.old) × (x ≤ t) }
    ensures { Filled (width_list widths) t x (split_bit (width_list widths) key.values) word dir.old
        dir.new }
{
    let values = key.values;
    fill(widths, values, x, t, word, dir);
}
