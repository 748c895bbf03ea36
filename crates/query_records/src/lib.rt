// The records of the pages that a walk noted, counted, or written into the output (document 01,
// "Calls"): all of them, or those that match.
#![tactic(auto)]

ghost use Rattle.std.specs.Prelude.{◌≡◌, ◌+◌, ◌^◌, ◌<◌, ◌≤◌, length, take};
ghost use mathlib.Core.List.{flat_map};
ghost use Rattle.page.specs.Page.{page_at};
ghost use Rattle.page_matches.specs.Pattern.{passes};
ghost use Rattle.page_matches.specs.Output.{emit};
ghost use Rattle.query_records.specs.Records.{PageWithin, MatchedWithin, ListOf, PutAsked, Emitted, list_hits};
ghost use Rattle.query_records.specs.Records.{page_fields, page_mask, matched_fields};

use page::{count, page_size, page_start};
use page_matches::{Pattern, gives_nothing, match_mask, put_all, put_picked};

// No store has more pages, so that a page number is below this.
const MOST_PAGES: u32 = 4096;

// Writes the records that match, of the pages of the list, one page after the other, into the output
// while whole ones fit. Returns how many match. Where something is given, all the pages are matched
// before the first record is written; the list's numbers are then lost.
pub fn put_pages(
    pages: &[u8],
    capacity: usize,
    pattern: Pattern,
    list: &mut [u32],
    out: &mut [u8],
) -> usize
    requires { ListOf (PageWithin capacity pages.now) capacity (length list.old) list.old }
    ensures value { (result ≡ length (list_hits (passes pattern) capacity pages.now list.old))
        × (result ≤ 65536) }
    ensures out_after { out.new
        ≡ emit out.old 0
        (list_hits (passes pattern) capacity pages.now list.old) }
{
    if gives_nothing(pattern) {
        return put_whole(pages, capacity, list, out);
    }
    let m = match_pages(pages, capacity, pattern, list);
    put_matched(pages, capacity, &list[..m], out)
}

// How many records the pages of the list have.
pub fn count_records(pages: &[u8], capacity: usize, list: &[u32]) -> usize
    requires { ListOf (PageWithin capacity pages.now) capacity (length list.now) list.now }
    ensures { (result ≡ length (flat_map (page_fields capacity pages.now) list.now))
        × (result ≤ 65536) }
{
    let mut total = 0;
    for &g in list {
        total += count_at(pages, capacity, g as usize);
    }
    total
}

// Writes all records of the pages of the list. Returns how many these are.
// `put_matched` and `put_within` differ in what they put of a word: one function over a closure would
// need more lines for what each of its calls leaves of the output than the three loops have.
pub fn put_whole(pages: &[u8], capacity: usize, list: &[u32], out: &mut [u8]) -> usize
    requires { ListOf (PageWithin capacity pages.now) capacity (length list.now) list.now }
    ensures { Emitted (page_fields capacity pages.now) list.now out.old out.new result }
{
    let mut total = 0;
    for &g in list {
        total = put_at(pages, capacity, g as usize, out, total);
    }
    total
}

// How many records page g has.
fn count_at(pages: &[u8], capacity: usize, g: usize) -> usize
    requires { (capacity ≤ 16) × PageWithin capacity pages.now g }
    ensures { (result ≡ length (page_fields capacity pages.now g)) × (result ≤ 16) }
{
    let start = page_start(capacity, g);
    let end = start + page_size(capacity);
    count(&pages[start..end])
}

// The records of page g alone, written from record `total` of the output on. Returns how many
// these are, with the `total` before.
fn put_at(pages: &[u8], capacity: usize, g: usize, out: &mut [u8], total: usize) -> usize
    requires { PutAsked (PageWithin capacity pages.now) capacity g total }
    ensures value { result ≡ total + length (page_fields capacity pages.now g) }
    ensures out_after { out.new ≡ emit out.old total (page_fields capacity pages.now g) }
{
    let start = page_start(capacity, g);
    let end = start + page_size(capacity);
    let n = count(&pages[start..end]);
    put_all(&pages[start..end], n, out, total)
}

// Matches the pages of the list. The list then begins with the pages that have a match, in the same
// order: each as its number, and 4,096 times the mask of its records that match. Returns how many
// these are. No jump depends on the bytes of a page.
fn match_pages(pages: &[u8], capacity: usize, pattern: Pattern, list: &mut [u32]) -> usize
    requires { ListOf (PageWithin capacity pages.now) capacity (length list.old) list.old }
    ensures list_of { ListOf (MatchedWithin capacity pages.now) capacity result list.new }
    ensures list_after { flat_map (matched_fields capacity pages.now) (take result list.new)
        ≡ list_hits (passes pattern) capacity pages.now list.old }
{
    let mut m = 0;
    for i in 0..list.len() {
        let g = list[i];
        let mask = match_at(pages, capacity, g as usize, pattern);
        list[m] = g + mask * MOST_PAGES;
        m += (mask != 0) as usize;
    }
    m
}

// The records of page g that match, bit i for record i.
fn match_at(pages: &[u8], capacity: usize, g: usize, pattern: Pattern) -> u32
    requires { (capacity ≤ 16) × PageWithin capacity pages.now g }
    ensures { (result ≡ page_mask (passes pattern) (page_at capacity pages.now g)) × (result < 2 ^ capacity) }
{
    let start = page_start(capacity, g);
    let end = start + page_size(capacity);
    let n = count(&pages[start..end]);
    match_mask(&pages[start..end], n, pattern) as u32
}

// Writes the records that match, of the matched pages of the list. Returns how many these are.
fn put_matched(pages: &[u8], capacity: usize, list: &[u32], out: &mut [u8]) -> usize
    requires { ListOf (MatchedWithin capacity pages.now) capacity (length list.now) list.now }
    ensures { Emitted (matched_fields capacity pages.now) list.now out.old out.new result }
{
    let mut total = 0;
    for &matched in list {
        total = put_matched_page(pages, capacity, matched, out, total);
    }
    total
}

// The same of one matched page, from record `total` of the output on. Returns how many these are,
// with the `total` before.
fn put_matched_page(
    pages: &[u8],
    capacity: usize,
    matched: u32,
    out: &mut [u8],
    total: usize,
) -> usize
    requires { PutAsked (MatchedWithin capacity pages.now) capacity matched total }
    ensures value { result ≡ total + length (matched_fields capacity pages.now matched) }
    ensures out_after { out.new
        ≡ emit out.old total (matched_fields capacity pages.now matched) }
{
    let start = page_start(capacity, (matched % MOST_PAGES) as usize);
    let end = start + page_size(capacity);
    put_picked(
        &pages[start..end],
        (matched / MOST_PAGES) as u64,
        out,
        total,
    )
}
