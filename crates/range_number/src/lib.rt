// The ends of a range, and its first refusal that needs no look into words and pages (document 02,
// request 1). A range is two queries, of its low and of its high ends.
#![tactic(auto)]

ghost use Rattle.std.specs.Prelude.{◌≡◌, ℕ, ◌<◌, get_or};
ghost use Rattle.std.proofs.Math.Option.{Option, none};
ghost use Rattle.shape.specs.Refusal.{answered_by, tested};
ghost use Rattle.shape.specs.Shape.{shape_number};
ghost use Rattle.shape.specs.Key.{per_attribute, wanted_value, wanted_values, encoded_wanted};
ghost use Rattle.shape.specs.Range.{Interval, range_intervals};
ghost use Rattle.record.specs.Packed.{packed_key};
ghost use Rattle.page_matches.specs.Pattern.{GivenSixteenBits};
ghost use Rattle.range_number.specs.Ends.{EndsAs, low_ends, high_ends, values_or};
ghost use Rattle.range_number.specs.Ends.{low_key, high_key};
ghost use Rattle.range_number.specs.Number.{range_by};

use key_between::lies_between;
use key_encoding::encode_query;
use query_number::{query_fits, validate_query};
use record::pack_key;
use shape::refusal::Refusal;
use shape::{Attribute, Key, Query, Range, Shape, Span, Wanted};
use store::State;

// Whether a range may walk the regions. Refused with 1, 14, 15, 2, 8 for a range that names attribute
// d or above, 3 for an end of 2^w_j or more, 10 for a low end above its high end, the first that holds
// in this order.
pub fn validate_range(state: State, words: usize, bytes: usize, range: Range) -> Result<(), Refusal>
    ensures { tested result ≡ answered_by (range_by state words bytes (range_intervals range)) tt }
{
    let lows = low_ends(range);
    validate_query(state, words, bytes, lows)?;
    let highs = high_ends(range);
    if !query_fits(state.shape, highs) {
        return Err(Refusal::Value);
    }
    let low = low_key(state.shape, range);
    if !lies_between(low, high_key(state.shape, range), low) {
        return Err(Refusal::Interval);
    }
    Ok(())
}

// The encodings of the low ends as a packed key; 0 where an attribute is free.
pub fn low_key(shape: Shape, range: Range) -> u64
    requires { (shape_number shape ≡ 0)
        × GivenSixteenBits (encoded_wanted shape (low_ends (range_intervals range))) }
    ensures { result ≡ low_key shape (range_intervals range) }
{
    key_or(encode_query(shape, low_ends(range)), 0)
}

// The encodings of the high ends as a packed key; 2^16 - 1 where an attribute is free.
pub fn high_key(shape: Shape, range: Range) -> u64
    requires { (shape_number shape ≡ 0)
        × GivenSixteenBits (encoded_wanted shape (high_ends (range_intervals range))) }
    ensures { result ≡ high_key shape (range_intervals range) }
{
    key_or(encode_query(shape, high_ends(range)), 0xffff)
}

// The query that gives the low end of each interval.
fn low_ends(range: Range) -> Query
    ensures { wanted_values result ≡ low_ends (range_intervals range) }
{
    ends(range, |low, _| low)
}

// The query that gives the high end of each interval.
fn high_ends(range: Range) -> Query
    ensures { wanted_values result ≡ high_ends (range_intervals range) }
{
    ends(range, |_, high| high)
}

// The query that gives one end of each interval.
fn ends<F: Fn(u32, u32) -> u32 + Copy>(range: Range, end: F) -> Query
    requires { F.IsAlwaysCallable end }
    ensures { (wanted : Option Interval → Option ℕ) → EndsAs (F.post end) wanted
        → wanted_values result ≡ per_attribute (λ j. wanted (get_or (range_intervals range) j none)) }
{
    let a0 = end_at(range, 0, end);
    let a1 = end_at(range, 1, end);
    let a2 = end_at(range, 2, end);
    let a3 = end_at(range, 3, end);
    let attributes = [a0, a1, a2, a3];
    Query { attributes }
}

// One end of attribute j's interval, or free.
fn end_at<F: Fn(u32, u32) -> u32 + Copy>(range: Range, j: usize, end: F) -> Attribute
    requires place { j < 4 }
    requires ends { F.IsAlwaysCallable end }
    ensures { (wanted : Option Interval → Option ℕ) → EndsAs (F.post end) wanted
        → wanted_value result.wanted ≡ wanted (get_or (range_intervals range) j none) }
{
    let attribute = range.attributes[j];
    let span = attribute.span;
    match span {
        Span::Free => Attribute {
            wanted: Wanted::Free,
        },
        Span::Within(low, high) => Attribute {
            wanted: Wanted::Given(end(low, high)),
        },
    }
}

// The packed key of the values that a query gives, and of `free` where it gives none.
fn key_or(query: Query, free: u32) -> u64
    requires { (GivenSixteenBits (wanted_values query)) × (free < 65536) }
    ensures { result ≡ packed_key (values_or free (wanted_values query)) }
{
    let v0 = query.attributes[0].wanted.value_or(free);
    let v1 = query.attributes[1].wanted.value_or(free);
    let v2 = query.attributes[2].wanted.value_or(free);
    let v3 = query.attributes[3].wanted.value_or(free);
    pack_key(Key {
        values: [v0, v1, v2, v3],
    })
}
