// The first refusal of a query that needs no look into words and pages (document 01, "Refused
// calls").
#![tactic(auto)]

ghost use Rattle.std.specs.Prelude.{◌≡◌, ◌<◌, ◌||◌, not, ltb, get_or};
ghost use Rattle.std.proofs.Math.Option.{none};
ghost use Rattle.shape.specs.Refusal.{answered_by, tested};
ghost use Rattle.shape.specs.Shape.{shape_number};
ghost use Rattle.shape.specs.Key.{wanted_values, is_given, names_unused, query_fits};
ghost use Rattle.query_number.specs.Number.{query_by};

use address_formula::{Index, index_fits};
use key_encoding::encode_query;
use refusals::validate_lent;
use shape::refusal::Refusal;
use shape::{Query, Shape, widths_of};
use store::State;

// Whether a query may walk the regions. Refused with 1, 14, 15, 2, 8 for a query that names attribute d
// or above, 3 for a given value of 2^w_j or more, the first that holds in this order.
pub fn validate_query(state: State, words: usize, bytes: usize, query: Query) -> Result<(), Refusal>
    ensures { tested result ≡ answered_by (query_by state words bytes (wanted_values query)) tt }
{
    validate_lent(state, words, bytes)?;
    let shape = state.shape;
    if names_unused(shape, query) {
        return Err(Refusal::Attribute);
    }
    if !query_fits(shape, query) {
        return Err(Refusal::Value);
    }
    Ok(())
}

// Whether a query gives an attribute that the shape does not have.
fn names_unused(shape: Shape, query: Query) -> bool
    ensures { result ≡ names_unused shape (wanted_values query) }
{
    for j in 0..4 {
        if !allowed_at(shape, query, j) {
            return true;
        }
    }
    false
}

// Whether attribute j is one of the shape, or free.
fn allowed_at(shape: Shape, query: Query, j: usize) -> bool
    requires { j < 4 }
    ensures { result ≡ (ltb j shape.attributes || not (is_given (get_or (wanted_values query) j none))) }
{
    j < (shape.attributes as usize) || !query.attributes[j].wanted.is_given()
}

// Whether each value that a query gives fits its attribute: its encoding does.
pub fn query_fits(shape: Shape, query: Query) -> bool
    requires { shape_number shape ≡ 0 }
    ensures { result ≡ query_fits shape (wanted_values query) }
{
    let encoded = encode_query(shape, query);
    let i0 = encoded.attributes[0].wanted.value_or(0) as u64;
    let i1 = encoded.attributes[1].wanted.value_or(0) as u64;
    let i2 = encoded.attributes[2].wanted.value_or(0) as u64;
    let i3 = encoded.attributes[3].wanted.value_or(0) as u64;
    index_fits(widths_of(shape), Index { i0, i1, i2, i3 })
}
