// The siblings of a key's regions (document 01, "Calls", Delete): the word of the one beside the key's
// leaf and a key that falls there, whether a sound store can have the word, and how far up siblings
// are empty leaves.
#![tactic(auto)]

ghost use Rattle.std.specs.Prelude.{◌≡◌, [], ◌/◌, ◌%◌, ◌<◌, ◌≤◌, get_or, length};
ghost use Rattle.shape.specs.Shape.{Fit, shape_number, width_list, widths_of, total};
ghost use Rattle.split.specs.Bits.{split_bit};
ghost use Rattle.record.specs.Packed.{unpacked_key};
ghost use Rattle.store.specs.Store.{store};
ghost use Rattle.change.specs.Delete.{AtSibling};
ghost use Rattle.directory_lent.specs.Lent.{DirectoryLent};
ghost use Rattle.delete_siblings.specs.Siblings.{SiblingAsked, SiblingFound, sibling_holds, Climbed};
ghost use Rattle.delete_siblings.specs.Private.{flipped_key};

use directory_sibling::sibling_word;
use directory_word::pack_empty;
use key_order::pair_bit;
use leaf_word::word_holds;
use pairs::{step_place, width_at};
use shape::{Shape, Widths, widths_of};
use store::State;

// The sibling of a key's region: the word of one of its cells, and a packed key that falls there.
#[derive(Clone, Copy)]
pub struct Sibling {
    pub word: u32,
    pub key: u64,
}

// The sibling of a packed key's region of z + 1 bits.
pub fn find_sibling(state: State, dir: &[u32], key: u64, z: u32) -> Sibling
    requires { SiblingAsked state (length dir.now) key z }
    ensures { SiblingFound state dir.now key z result }
{
    let widths = widths_of(state.shape);
    let g = step_place(widths, z as u64);
    let word = sibling_word(widths, key, g, state.deepest as u64, dir);
    Sibling {
        word,
        key: flipped(widths, key, g),
    }
}

// A packed key with the other bit at the step at place g.
fn flipped(widths: Widths, key: u64, g: u64) -> u64
    requires { Fit (width_list widths) × (g / 4 < get_or (width_list widths) (g % 4) 0) }
    ensures { result ≡ flipped_key (width_list widths) g key }
{
    let w = width_at(widths, g % 4);
    key ^ (1u64 << (16 * (g % 4) + (w - (g / 4 + 1))))
}

// Whether a sound store can have a word at the sibling of a leaf of a depth that has a page: its leaf
// is not above that leaf, and none without a page beside it. The words of all these are up to that of
// the latter.
pub fn sibling_word_holds(state: State, word: u32, depth: u32) -> bool
    requires { (state.deepest ≤ 12) × (depth < 16) }
    ensures { result ≡ sibling_holds state depth word }
{
    if !word_holds(state, word) {
        return false;
    }
    pack_empty(depth) < word
}

// The split bit of a packed key at a step.
pub fn step_bit(shape: Shape, key: u64, step: u32) -> bool
    requires { (shape_number shape ≡ 0) × (step < total (widths_of shape)) }
    ensures { result ≡ split_bit (widths_of shape) (unpacked_key key) step }
{
    let widths = widths_of(shape);
    let pair = step_place(widths, step as u64);
    pair_bit(widths, key, pair)
}

// The least depth y such that from depth m up the siblings of a packed key's regions are empty
// leaves, those of depths y + 1 to m.
pub fn climb(state: State, dir: &[u32], key: u64, m: u32) -> u32
    requires { DirectoryLent state (length dir.now) × (m < state.deepest) }
    ensures { Climbed state dir.now (unpacked_key key) m result }
{
    for z in (0..m).rev() {
        let word = word_beside(state, dir, key, z);
        if word != pack_empty(z + 1) {
            return z + 1;
        }
    }
    0
}

// The word of a cell of the sibling of a packed key's region of z + 1 bits.
fn word_beside(state: State, dir: &[u32], key: u64, z: u32) -> u32
    requires { DirectoryLent state (length dir.now) × (z < state.deepest) }
    ensures { AtSibling (store state dir.now []) (unpacked_key key) z (λ w. result ≡ w) }
{
    let widths = widths_of(state.shape);
    let g = step_place(widths, z as u64);
    sibling_word(widths, key, g, state.deepest as u64, dir)
}
