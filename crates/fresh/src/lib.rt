// The call Fresh: a store without records in lent memory (document 01, "Lent memory", "Calls";
// document 02, request 7).
#![tactic(auto)]

ghost use Rattle.std.specs.Prelude.{◌≡◌, ◌∷◌, ◌*◌, ◌%◌, ◌^◌, ◌<◌, ◌≤◌, length, set, replicate};
ghost use Rattle.shape.specs.Shape.{shape_number};
ghost use Rattle.page.specs.Page.{page_size};
ghost use Rattle.model.specs.Limits.{logarithm, page_limit_of, depth_limit_of, fresh_shape};
ghost use Rattle.store.specs.Answers.{made_answer, made_state};
ghost use Rattle.store.specs.Fresh.{FreshPromise, cleared_counts};
ghost use Rattle.store.specs.Store.{memory, store};
ghost use Rattle.fresh.specs.Memory.{lacks_word_or_page};

use page::page_size;
use shape::refusal::Refusal;
use shape::{Shape, total_of, validate, widths_of};
use store::{Limits, State, Tally};

// Makes a store without records in lent memory: the state, word 0 and the counts of the P pages.
// Refused with 1 for d, 14 for a width, which names its attribute, 15 for the capacity outside its
// bounds, then with 2 for no directory word or no whole page; a refused call changes nothing.
pub fn fresh(shape: Shape, dir: &mut [u32], pages: &mut [u8]) -> Result<State, Refusal>
    ensures { FreshPromise shape (memory dir.old pages.old)
        (made_answer result)
        (store (made_state result) dir.new pages.new) }
{
    validate(shape)?;
    let words = dir.len();
    let bytes = pages.len();
    if lacks_word_or_page(shape, words, bytes) {
        return Err(Refusal::Memory);
    }
    let page_count = page_limit(shape, bytes);
    let limit = depth_limit(shape, words);
    dir[0] = 0;
    clear_counts(pages, shape.capacity, page_count);
    let limits = Limits {
        pages: page_count,
        depth: limit,
    };
    Ok(State {
        shape: fresh_shape(shape),
        limits,
        deepest: 0,
        tally: one_leaf(),
    })
}

// Whether there is no directory word or no whole page.
pub fn lacks_word_or_page(shape: Shape, words: usize, bytes: usize) -> bool
    ensures { result ≡ lacks_word_or_page shape words bytes }
{
    if words == 0 {
        return true;
    }
    bytes < page_size(shape.capacity as usize)
}

// P: the smaller of 4,096 and the whole pages in the lent bytes.
pub fn page_limit(shape: Shape, bytes: usize) -> u32
    ensures { result ≡ page_limit_of shape bytes }
{
    let whole = bytes / page_size(shape.capacity as usize);
    whole.min(4096) as u32
}

// L: the smallest of 12, W and the rounded-down base-2 logarithm of the directory's length.
pub fn depth_limit(shape: Shape, words: usize) -> u32
    requires { (shape_number shape ≡ 0) × (0 < words) }
    ensures { result ≡ depth_limit_of shape words }
{
    let bits = total_of(widths_of(shape));
    bits.min(log2(words as u64)).min(12) as u32
}

// The rounded-down base-2 logarithm, from the leading zeros.
fn log2(m: u64) -> u64
    requires { 0 < m }
    ensures { result ≡ logarithm 64 m }
{
    63 - (u64::leading_zeros(m) as u64)
}

// Sets the counts of the first n pages of b records to 0.
fn clear_counts(pages: &mut [u8], b: u32, n: u32)
    requires { n * page_size b ≤ length pages.old }
    ensures { pages.new ≡ cleared_counts b n pages.old }
{
    let size = page_size(b as usize);
    for page in 0..n {
        let start = (page as usize) * size;
        let end = start + size;
        clear_count(&mut pages[start..end]);
    }
}

// Sets the count of one page to 0.
fn clear_count(page: &mut [u8])
    requires { 2 ≤ length page.old }
    ensures { page.new ≡ set (set page.old 0 0) 1 0 }
{
    page[0] = 0;
    page[1] = 0;
}

// The shape with its widths past d as 0, and without its marks past d.
fn fresh_shape(shape: Shape) -> Shape
    requires { shape_number shape ≡ 0 }
    ensures { result ≡ fresh_shape shape }
{
    let used = widths_of(shape);
    let widths = [
        used.w0 as u32,
        used.w1 as u32,
        used.w2 as u32,
        used.w3 as u32,
    ];
    Shape {
        attributes: shape.attributes,
        widths,
        capacity: shape.capacity,
        signs: marks_below(shape.signs, shape.attributes),
    }
}

// The marks of the first d attributes.
pub fn marks_below(signs: u32, d: u32) -> u32
    requires { d ≤ 4 }
    ensures { result ≡ signs % 2 ^ d }
{
    signs % (1u32 << d)
}

// The tally of one leaf, at depth 0.
fn one_leaf() -> Tally
    ensures { result.leaves ≡ 1 ∷ replicate 12 0 }
{
    let mut leaves = [0u32; 13];
    leaves[0] = 1;
    Tally { leaves }
}
