// The address map for hosts: an answer as a struct of numbers. A number of 0 stands for an accepted
// call; any other is the refusal's (document 01, "Refused calls"), and the values beside it are 0, but
// for the attribute beside 14 (document 02, request 7).
#![tactic(auto)]

ghost use Rattle.std.specs.Prelude.{◌≡◌, [], ◌∷◌};
ghost use Rattle.address_formula.specs.Index.{index_list};
ghost use Rattle.address_calls.specs.Answers.{address_answer, index_answer};
ghost use Rattle.host_results.specs.Result.{Reports};

use address_calls::{address_of, index_at};
use address_formula::Index;
use shape::Shape;

// The address of an index vector.
#[repr(C)]
#[derive(Clone, Copy)]
pub struct AddressResult {
    pub number: u32,
    pub attribute: u32,
    pub address: u64,
}

// The index vector at an address.
#[repr(C)]
#[derive(Clone, Copy)]
pub struct IndexResult {
    pub number: u32,
    pub attribute: u32,
    pub index: Index,
}

// The address of an index vector. Refused with 1, 14 or 15 for a shape outside its bounds, then with
// 3 for an index of 2^w_j or more or an unused index other than 0.
pub fn address_result(shape: Shape, index: Index) -> AddressResult
    ensures { Reports result.number result.attribute result.address 0 (address_answer shape (index_list index)) }
{
    match address_of(shape, index) {
        Ok(address) => AddressResult {
            number: 0,
            attribute: 0,
            address,
        },
        Err(refusal) => AddressResult {
            number: refusal.number(),
            attribute: refusal.attribute(),
            address: 0,
        },
    }
}

// The index vector at an address. Refused with 1, 14 or 15 for a shape outside its bounds, then with
// 3 for an address of 2^W or more.
pub fn index_result(shape: Shape, address: u64) -> IndexResult
    ensures { Reports result.number result.attribute (index_list result.index) (0 ∷ 0 ∷ 0 ∷ 0 ∷ [])
        (index_answer shape address) }
{
    match index_at(shape, address) {
        Ok(index) => IndexResult {
            number: 0,
            attribute: 0,
            index,
        },
        Err(refusal) => IndexResult {
            number: refusal.number(),
            attribute: refusal.attribute(),
            index: no_index(),
        },
    }
}

// The index beside a refusal.
fn no_index() -> Index
    ensures { index_list result ≡ 0 ∷ 0 ∷ 0 ∷ 0 ∷ [] }
{
    Index {
        i0: 0,
        i1: 0,
        i2: 0,
        i3: 0,
    }
}
