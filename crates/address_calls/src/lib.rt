// The calls of the address map and its inverse (document 01, "Address map"; document 02, request 7).
#![tactic(auto)]

ghost use Rattle.std.specs.Prelude.{◌≡◌, ◌^◌, ◌≤◌, ltb};
ghost use Rattle.address_formula.specs.Index.{index_list};
ghost use Rattle.address_calls.specs.Answers.{address_answer, address_answer_of, index_answer, index_answer_of};

use address_formula::{Index, index_fits, locate};
use address_inverse::vector_at;
use shape::refusal::Refusal;
use shape::{Shape, total_of, validate, widths_of};

// The address of an index vector. Refused with 1, 14 or 15 for a shape outside its bounds, then with
// 3 for an index of 2^w_j or more or an unused index other than 0.
pub fn address_of(shape: Shape, index: Index) -> Result<u64, Refusal>
    ensures { address_answer_of result ≡ address_answer shape (index_list index) }
{
    validate(shape)?;
    let widths = widths_of(shape);
    if !index_fits(widths, index) {
        return Err(Refusal::Value);
    }
    Ok(locate(widths, index))
}

// The index vector at an address. Refused with 1, 14 or 15 for a shape outside its bounds, then with
// 3 for an address of 2^W or more.
pub fn index_at(shape: Shape, address: u64) -> Result<Index, Refusal>
    ensures { index_answer_of result ≡ index_answer shape address }
{
    validate(shape)?;
    let widths = widths_of(shape);
    if !address_fits(address, total_of(widths)) {
        return Err(Refusal::Value);
    }
    Ok(vector_at(widths, address))
}

// Whether a is below 2^t: with t = 64 every address is.
fn address_fits(a: u64, t: u64) -> bool
    requires { t ≤ 64 }
    ensures { result ≡ ltb a (2 ^ t) }
{
    if 64 <= t {
        return true;
    }
    a < 1u64 << t
}
