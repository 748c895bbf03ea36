// What the fields of a line are for the store: the shape, the key and the payload, the query.
ghost use Rattle.std.specs.Prelude.{◌≡◌, cond, ◌+◌, ◌<◌, ◌≤◌, ltb};
ghost use Rattle.std.proofs.Math.Option.{none};
ghost use Rattle.shape.specs.Key.{wanted_value, wanted_values};
ghost use Rattle.stock_command.specs.Asked.{number_at, item_at, values_from, items_of, shape_in, content_in};

use record::Content;
use shape::{Attribute, Key, Query, Shape, Wanted};
use stock_line::{Field, Line};

// Field j as a number; 0 for `*` and past the six that are kept.
pub fn number_at(line: Line, j: usize) -> u32
    ensures { result ≡ number_at line j }
{
    match line.kept.get(j) {
        Some(Field::Number(value)) => *value,
        _ => 0,
    }
}

// The shape of a line `shape`, whose first field is d. No attribute is marked.
#[tactic(auto, unfolding(crate::specs::Asked::shape_in))]
pub fn shape_of(line: Line) -> Shape
    ensures { result ≡ shape_in line }
{
    let attributes = number_at(line, 0);
    let d = attributes as usize;
    let widths = values_from(line, d, 1);
    let capacity = number_at(line, d + 1);
    Shape {
        attributes,
        widths,
        capacity,
        signs: 0,
    }
}

// The key of a line whose first d fields are its values.
pub fn key_of(line: Line, d: usize) -> Key
    ensures { result.values ≡ values_from line d 0 }
{
    let values = values_from(line, d, 0);
    Key { values }
}

// What a line `put` gives besides the d values.
#[tactic(auto, unfolding(crate::specs::Asked::content_in))]
pub fn content_of(line: Line, d: usize) -> Content
    ensures { result ≡ content_in line d }
{
    let payload = number_at(line, d);
    Content { payload }
}

// The query of a line `list` with d fields.
#[tactic(auto, unfolding(crate::specs::Asked::items_of, shape::specs::Key::wanted_values))]
pub fn query_of(line: Line, d: usize) -> Query
    ensures { wanted_values result ≡ items_of line d }
{
    Query {
        attributes: [
            attribute_at(line, d, 0),
            attribute_at(line, d, 1),
            attribute_at(line, d, 2),
            attribute_at(line, d, 3),
        ],
    }
}

// The numbers of d fields from one on, one for each attribute, 0 past d.
#[tactic(auto, unfolding(crate::specs::Asked::values_from))]
fn values_from(line: Line, d: usize, from: usize) -> [u32; 4]
    requires { from ≤ 1 }
    ensures { result ≡ values_from line d from }
{
    [
        value_at(line, d, from, 0),
        value_at(line, d, from, 1),
        value_at(line, d, from, 2),
        value_at(line, d, from, 3),
    ]
}

// That of attribute j.
fn value_at(line: Line, d: usize, from: usize, j: usize) -> u32
    requires { (from ≤ 1) × (j < 4) }
    ensures { result ≡ cond (ltb j d) (number_at line (from + j)) 0 }
{
    if j < d { number_at(line, from + j) } else { 0 }
}

// What the fields of a query say of attribute j: free for `*`, and past d.
fn attribute_at(line: Line, d: usize, j: usize) -> Attribute
    requires { j < 4 }
    ensures { wanted_value result.wanted ≡ cond (ltb j d) (item_at line j) none }
{
    let wanted = match line.kept[j] {
        Field::Number(value) if j < d => Wanted::Given(value),
        _ => Wanted::Free,
    };
    Attribute { wanted }
}
