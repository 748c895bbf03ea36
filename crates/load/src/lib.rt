// The call load: a store made from the bytes of a file (document 02, requests 5 and 7). Every refusal
// is found before the first write; then Fresh, and the records one after the other.
#![tactic(auto)]

ghost use Rattle.std.specs.Prelude.{◌≡◌, true, ◌&&◌};
ghost use Rattle.shape.specs.Refusal.{answered_by, tested};
ghost use Rattle.shape.specs.Shape.{shape_number};
ghost use Rattle.model.specs.Sets.{is_set};
ghost use Rattle.store.specs.Answers.{made_answer, made_state};
ghost use Rattle.store.specs.Store.{memory, store};
ghost use Rattle.file.specs.File.{file_shape, file_records, is_whole, is_plain};
ghost use Rattle.file.specs.Promises.{LoadPromise};
ghost use Rattle.load.specs.Lengths.{load_conditions_by};
ghost use Rattle.load.specs.Private.{Joining, Joined};

use file::encodings_at;
use file_parts::{is_plain, is_whole, record_count, shape_in};
use file_rising::is_set;
use file_scan::validate_room;
use fresh::{depth_limit, fresh, lacks_word_or_page, page_limit};
use insert::add;
use key_encoding::bias_key;
use key_values::decode_key;
use record::{RECORD_SIZE, read_content};
use shape::refusal::Refusal;
use shape::validate;
use store::{Limits, State, state_after};

// Makes a store of a file's shape and records in lent memory, with P and L as Fresh fixes them.
// Refused with 12 (no whole file), 1, 14 or 15 (the file's shape), 13 (a shape with stray bytes, a
// value outside its bounds, records not strictly rising), 2, then 6 or 7 at the first record that
// meets them; a refused call changes nothing. A payload of 0 loads.
pub fn load(file: &[u8], dir: &mut [u32], pages: &mut [u8]) -> Result<State, Refusal>
    ensures { LoadPromise file.now (memory dir.old pages.old)
        (made_answer result) (store (made_state result) dir.new pages.new) }
{
    validate_file(file, dir.len(), pages.len())?;
    let empty = fresh(shape_in(file), dir, pages)?;
    let n = record_count(file);
    Ok(add_records(empty, dir, pages, file, n))
}

// Whether a file loads into so many words and bytes. Refused with 12, 1, 14, 15, 13, 2, 6 or 7, the
// first that holds in this order.
#[tactic(auto, using(crate::proofs::NumberLaws::shape_first))]
fn validate_file(file: &[u8], words: usize, bytes: usize) -> Result<(), Refusal>
    ensures { tested result ≡ answered_by (load_conditions_by file.now words bytes) tt }
{
    if !is_whole(file) {
        return Err(Refusal::File);
    }
    let shape = shape_in(file);
    validate(shape)?;
    let content = content_holds(file);
    let lacking = lacks_word_or_page(shape, words, bytes);
    if !content {
        return Err(Refusal::Content);
    }
    if lacking {
        return Err(Refusal::Memory);
    }
    let limits = Limits {
        pages: page_limit(shape, bytes),
        depth: depth_limit(shape, words),
    };
    validate_room(shape, limits, file, record_count(file))
}

// Whether 13 is not due: nothing stands in the unused bytes and bits of a file's shape, and its
// records are a set.
fn content_holds(file: &[u8]) -> bool
    requires { (is_whole file.now ≡ true) × (shape_number (file_shape file.now) ≡ 0) }
    ensures { result ≡ (is_plain file.now
        && is_set (file_shape file.now) (file_records file.now)) }
{
    if !is_plain(file) {
        return false;
    }
    is_set(shape_in(file), file, record_count(file))
}

// Adds the first n records of a file to a store without records, one after the other.
fn add_records(state: State, dir: &mut [u32], pages: &mut [u8], file: &[u8], n: usize) -> State
    requires { Joining (store state dir.old pages.old) n file.now }
    ensures { Joined (store state dir.old pages.old) n file.now
        (store result dir.new pages.new) }
{
    let shape = state.shape;
    let bias = bias_key(shape);
    let mut current = state;
    for i in 0..n {
        let key = decode_key(shape, encodings_at(file, i, bias));
        let content = read_content(file, RECORD_SIZE * i);
        let added = add(current, dir, pages, key, content);
        current = state_after(current, added);
    }
    current
}
