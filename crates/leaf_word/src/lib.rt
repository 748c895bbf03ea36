// The word at a key's cell and the page of its leaf, and whether a sound store can have them: how
// lookup, insert and delete begin (document 01, "Lent memory").
#![tactic(auto)]

ghost use Rattle.std.specs.Prelude.{◌≡◌, ◌≤◌, get_or, length};
ghost use Rattle.shape.specs.Shape.{width_list};
ghost use Rattle.split.specs.Bits.{split_bit};
ghost use Rattle.cell.specs.Cell.{cell_address};
ghost use Rattle.directory_word.specs.Word.{depth_field};
ghost use Rattle.record.specs.Packed.{unpacked_key};
ghost use Rattle.page.specs.Page.{page_at};
ghost use Rattle.page_ends.specs.Fair.{positive};
ghost use Rattle.leaf_word.specs.Hold.{CellAsked, word_holds, own_page, own_count, LeafAsked, OwnAsked};

use directory_cell::find_cell;
use directory_word::{depth_of, field_of};
use key_encoding::bias_key;
use page::{page_size, page_start};
use page_ends::{ends_agree, fair_count, fixed_bits};
use shape::{Shape, Widths, widths_of};
use store::State;

// What is found at a key's cell: its word, and the depth of the leaf that the word names.
#[derive(Clone, Copy)]
pub struct KeyWord {
    pub word: u32,
    pub depth: u32,
}

// The word at the cell of a packed key, in a directory of depth t, and its leaf's depth.
pub fn key_word(widths: Widths, t: u64, dir: &[u32], key: u64) -> KeyWord
    requires { CellAsked (width_list widths) t (length dir.now) }
    ensures word_value { result.word ≡ get_or dir.now
        (cell_address (width_list widths) t (split_bit (width_list widths) (unpacked_key key))) 0 }
    ensures depth_value { result.depth ≡ depth_field result.word }
{
    let cell = find_cell(widths, key, t);
    let word = dir[cell as usize];
    KeyWord {
        word,
        depth: depth_of(word),
    }
}

// Whether a sound store can have a word: its depth is at most T and one that the tally has a leaf of,
// its page one of the P. Where a bit of 20-31 is set the depth is 16 or more, so that it is above T.
pub fn word_holds(state: State, word: u32) -> bool
    requires { state.deepest ≤ 12 }
    ensures { result ≡ word_holds state word }
{
    let depth = depth_of(word);
    if state.deepest < depth {
        return false;
    }
    let tally = state.tally;
    let leaves = tally.leaves;
    if leaves[depth as usize] == 0 {
        return false;
    }
    let limits = state.limits;
    field_of(word) <= limits.pages
}

// Whether page g, of n records, can be that of the leaf of a depth in which a packed key falls: its
// first and its last record have values in bounds and begin with the leaf's string.
pub fn page_holds(shape: Shape, pages: &[u8], g: usize, n: usize, depth: u32, key: u64) -> bool
    requires { OwnAsked shape pages.now g n depth key }
    ensures { result ≡ own_page shape depth key (page_at shape.capacity pages.now g) n }
{
    let mask = fixed_bits(widths_of(shape), depth as u64);
    let bias = bias_key(shape);
    let capacity = shape.capacity as usize;
    let start = page_start(capacity, g);
    let end = start + page_size(capacity);
    ends_agree(&pages[start..end], n, bias, key, mask)
}

// How many records page g has, where it can be that of the leaf of a depth in which a packed key
// falls: 1 to b, the first and the last of them with values in bounds and the leaf's string at their
// beginning. None for another page.
pub fn own_count(shape: Shape, pages: &[u8], g: usize, depth: u32, key: u64) -> Option<usize>
    requires { LeafAsked shape pages.now g depth key }
    ensures { result ≡ positive (own_count shape depth key (page_at shape.capacity pages.now g)) }
{
    let mask = fixed_bits(widths_of(shape), depth as u64);
    let bias = bias_key(shape);
    let capacity = shape.capacity as usize;
    let start = page_start(capacity, g);
    let end = start + page_size(capacity);
    fair_count(&pages[start..end], capacity, bias, key, mask)
}
