// What a call on a store finds without a look into words and pages (document 01, "Refused calls"): 1,
// 14, 15, then 2; 3 by a key's encodings; and limits that no sound store has, which is 9.
#![tactic(auto)]

ghost use Rattle.std.specs.Prelude.{◌≡◌};
ghost use Rattle.shape.specs.Shape.{shape_number, widths_of, index_fits};
ghost use Rattle.refusals.specs.Limits.{limits_hold};
ghost use Rattle.shape.specs.Refusal.{answered_by, tested};
ghost use Rattle.refusals.specs.Lengths.{lacks_memory, lent_by};

use page::page_start;
use shape::refusal::Refusal;
use shape::{Key, Shape, total_of, validate, widths_of};
use store::State;

// Whether enough memory is lent for a state. Refused with 1, 14 or 15 for a shape outside its bounds,
// then with 2 for fewer than 2^L words or P pages.
#[tactic(auto, using(crate::proofs::LentLaws::shape_first))]
pub fn validate_lent(state: State, words: usize, bytes: usize) -> Result<(), Refusal>
    ensures { tested result ≡ answered_by (lent_by state words bytes) tt }
{
    validate(state.shape)?;
    if lacks_memory(state, words, bytes) {
        return Err(Refusal::Memory);
    }
    Ok(())
}

// Whether P is 1 to 4,096, L at most 12 and at most W, and T at most L.
pub fn limits_hold(state: State) -> bool
    requires { shape_number state.shape ≡ 0 }
    ensures { result ≡ limits_hold state }
{
    let limits = state.limits;
    if limits.pages < 1 {
        return false;
    }
    if 4096 < limits.pages {
        return false;
    }
    if 12 < limits.depth {
        return false;
    }
    if total_of(widths_of(state.shape)) < (limits.depth as u64) {
        return false;
    }
    state.deepest <= limits.depth
}

// Whether each encoding of a key fits its attribute, so that 3 is not due: none has a bit past its
// width.
pub fn encodings_fit(shape: Shape, encoded: Key) -> bool
    requires { shape_number shape ≡ 0 }
    ensures { result ≡ index_fits (widths_of shape) encoded.values }
{
    let values = encoded.values;
    let widths = widths_of(shape);
    let low = ((values[0] as u64) >> widths.w0) | ((values[1] as u64) >> widths.w1);
    let high = ((values[2] as u64) >> widths.w2) | ((values[3] as u64) >> widths.w3);
    low | high == 0
}

// Whether there are fewer than 2^L words or P pages. No slice has 2^64 words; page P would begin
// where the P pages end.
fn lacks_memory(state: State, words: usize, bytes: usize) -> bool
    requires { shape_number state.shape ≡ 0 }
    ensures { result ≡ lacks_memory state words bytes }
{
    let limits = state.limits;
    if 63 < limits.depth {
        return true;
    }
    if (words as u64) < 1u64 << limits.depth {
        return true;
    }
    let shape = state.shape;
    bytes < page_start(shape.capacity as usize, limits.pages as usize)
}
