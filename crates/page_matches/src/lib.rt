// The records of a page that match a query, written into the output (document 01, "Calls"), those
// whose key lies between two others, and the record with a key. The four values of a record are
// compared at once, as its packed key.
#![tactic(auto)]

ghost use Rattle.std.specs.Prelude.{◌≡◌, ℕ, Bool, List, ◌+◌, ◌*◌, ◌%◌, ◌^◌, ◌<◌, ◌≤◌, get_or, length};
ghost use Rattle.std.proofs.Math.Option.{none};
ghost use Rattle.shape.specs.Key.{wanted_values};
ghost use Rattle.record.specs.Bytes.{record_size};
ghost use Rattle.page.specs.Fields.{record_offset, record_field, fields_from};
ghost use Rattle.page_matches.specs.Pattern.{wanted_mask, wanted_field};
ghost use Rattle.page_matches.specs.Pattern.{pattern_of, gives_nothing, passes};
ghost use Rattle.page_matches.specs.Within.{lies_in};
ghost use Rattle.page_matches.specs.Mask.{AnswersAs, match_mask, slots_of, picked_by};
ghost use Rattle.page_matches.specs.Output.{hits, emit_one, emit};
ghost use Rattle.page_matches.specs.KeyPlace.{key_place, place_below};

use key_between::lies_between;
use key_encoding::to_encodings;
use page::{content_at, key_at};
use record::{RECORD_SIZE, pack_key, write_record};
use record_copy::copy_records;
use shape::{Key, Query};

// The bytes of a page that has room for 16 records, the most that a store's pages have.
const SIXTEEN_RECORDS: usize = 2 + RECORD_SIZE * 16;

// A query for packed keys: the bits that it gives, and what they are.
#[repr(C)]
#[derive(Clone, Copy)]
pub struct Pattern {
    pub mask: u64,
    pub value: u64,
}

// The pattern of a query: the low 16 bits of its values, as fields of a page have them.
pub fn pattern_of(query: Query) -> Pattern
    ensures { result ≡ pattern_of (wanted_values query) }
{
    let m0 = mask_at(query, 0);
    let m1 = mask_at(query, 1);
    let m2 = mask_at(query, 2);
    let m3 = mask_at(query, 3);
    let v0 = bits_at(query, 0);
    let v1 = bits_at(query, 1);
    let v2 = bits_at(query, 2);
    let v3 = bits_at(query, 3);
    let masks = Key {
        values: [m0, m1, m2, m3],
    };
    let values = Key {
        values: [v0, v1, v2, v3],
    };
    Pattern {
        mask: pack_key(masks),
        value: pack_key(values),
    }
}

// Whether a pattern gives nothing, so that every record matches.
pub fn gives_nothing(pattern: Pattern) -> bool
    ensures { result ≡ gives_nothing pattern }
{
    pattern.mask | pattern.value == 0
}

// Writes the records that match, of the n of a page, into the output from its record `total` on,
// while whole ones fit. Returns how many match, with the `total` before.
pub fn put_matches(page: &[u8], n: usize, pattern: Pattern, out: &mut [u8], total: usize) -> usize
    requires { (n < 64) × (record_offset n ≤ length page.now) × (total + n ≤ 2 ^ 32) }
    ensures value { result ≡ total + length (hits (passes pattern) n page.now) }
    ensures out_after { out.new ≡ emit out.old total (hits (passes pattern) n page.now) }
{
    if gives_nothing(pattern) {
        return put_all(page, n, out, total);
    }
    put_picked(page, match_mask(page, n, pattern), out, total)
}

// The place of the first of the n records of a page that has a packed key; None where none has. All
// the records that the page has room for are compared, as by mask_of.
pub fn find_key(page: &[u8], n: usize, key: u64) -> Option<usize>
    requires { (n < 64) × (record_offset n ≤ length page.now) }
    ensures { result ≡ place_below n (key_place key page.now n 0) }
{
    let place = if page.len() == SIXTEEN_RECORDS {
        find_among(page, 16, key)
    } else {
        find_among(page, (page.len() - 2) / RECORD_SIZE, key)
    };
    (place < n).then_some(place)
}

// The n records of a page that match, bit i for record i.
pub fn match_mask(page: &[u8], n: usize, pattern: Pattern) -> u64
    requires { (n < 64) × (record_offset n ≤ length page.now) }
    ensures { result ≡ match_mask (passes pattern) page.now n 0 }
{
    mask_of(page, n, |key| key & pattern.mask == pattern.value)
}

// The n records of a page whose packed key lies between two others, value by value: bit i for
// record i.
pub fn within_mask(page: &[u8], n: usize, bias: u64, low: u64, high: u64) -> u64
    requires { (n < 64) × (record_offset n ≤ length page.now) }
    ensures { result ≡ match_mask (lies_in bias low high) page.now n 0 }
{
    mask_of(
        page,
        n,
        |key| lies_between(low, high, to_encodings(bias, key)),
    )
}

// Writes the n records of a page into the output from its record `total` on, while whole ones fit.
// Returns `total` and n.
pub fn put_all(page: &[u8], n: usize, out: &mut [u8], total: usize) -> usize
    requires { (record_offset n ≤ length page.now) × (total + n ≤ 2 ^ 32) }
    ensures value { result ≡ total + n }
    ensures out_after { out.new ≡ emit out.old total (fields_from n 2 page.now) }
{
    let room = out.len() / RECORD_SIZE;
    if room <= total {
        return total + n;
    }
    let fit = n.min(room - total);
    copy_records(page, 2, out, RECORD_SIZE * total, fit);
    total + n
}

// Writes the records of a page that a mask picks, record i by bit i, into the output from its
// record `total` on, while whole ones fit. Returns how many these are, with the `total` before.
pub fn put_picked(page: &[u8], mask: u64, out: &mut [u8], total: usize) -> usize
    requires { (mask < 2 ^ slots_of page.now) × (total + length (picked_by mask page.now) ≤ 2 ^ 32) }
    ensures value { result ≡ total + length (picked_by mask page.now) }
    ensures out_after { out.new ≡ emit out.old total (picked_by mask page.now) }
{
    let mut left = mask;
    let mut found = total;
    while left != 0 {
        put_record(page, u64::trailing_zeros(left) as usize, out, found);
        found += 1;
        left = left & (left - 1);
    }
    found
}

// The place of the first of k records that has a packed key; k where none has. A choice for each
// record, without a jump, from the last down, so that the first that has the key stays.
fn find_among(page: &[u8], k: usize, key: u64) -> usize
    requires { record_offset k ≤ length page.now }
    ensures { result ≡ key_place key page.now k 0 }
{
    let mut place = k;
    for i in (0..k).rev() {
        place = if key_at(page, i) == key { i } else { place };
    }
    place
}

// The n records of a page whose packed key passes a test, bit i for record i. All the records that
// the page has room for are tested, so that no jump depends on its bytes or on n. Where these are
// 16, their number is a constant, and the compiler unrolls the loop over them.
fn mask_of<F: Fn(u64) -> bool>(page: &[u8], n: usize, test: F) -> u64
    requires lent { (n < 64) × (record_offset n ≤ length page.now) }
    requires tests { F.IsAlwaysCallable test }
    ensures { (passed : List ℕ → Bool) → AnswersAs (F.post test) passed
        → result ≡ match_mask passed page.now n 0 }
{
    let mask = if page.len() == SIXTEEN_RECORDS {
        mask_among(page, 16, test)
    } else {
        mask_among(page, (page.len() - 2) / RECORD_SIZE, test)
    };
    mask & ((1u64 << n) - 1)
}

// The k records of a page whose packed key passes a test, bit i for record i; of more than 64, the
// low 64 bits.
fn mask_among<F: Fn(u64) -> bool>(page: &[u8], k: usize, test: F) -> u64
    requires lent { record_offset k ≤ length page.now }
    requires tests { F.IsAlwaysCallable test }
    ensures { (passed : List ℕ → Bool) → AnswersAs (F.post test) passed
        → result ≡ match_mask passed page.now k 0 % 2 ^ 64 }
{
    let mut mask: u64 = 0;
    for i in (0..k).rev() {
        mask = (mask << 1) | (test(key_at(page, i)) as u64);
    }
    mask
}

// Writes record i of a page into the output as its record `place`, if it fits.
fn put_record(page: &[u8], i: usize, out: &mut [u8], place: usize)
    requires { (record_offset i + record_size ≤ length page.now) × (place < 2 ^ 32) }
    ensures { out.new ≡ emit_one place (record_field page.now i) out.old }
{
    if place < out.len() / RECORD_SIZE {
        write_record(
            out,
            RECORD_SIZE * place,
            key_at(page, i),
            content_at(page, i),
        );
    }
}

// The bits of a value that a query gives: all 16 or none.
fn mask_at(query: Query, j: usize) -> u32
    requires { j < 4 }
    ensures { result ≡ wanted_mask (get_or (wanted_values query) j none) }
{
    if query.attributes[j].wanted.is_given() {
        0xffff
    } else {
        0
    }
}

// What these bits are.
fn bits_at(query: Query, j: usize) -> u32
    requires { j < 4 }
    ensures { result ≡ wanted_field (get_or (wanted_values query) j none) }
{
    query.attributes[j].wanted.value_or(0) & 0xffff
}
