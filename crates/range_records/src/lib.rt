// The records of the pages that a range call's walk noted, written into the output: those whose key
// lies between two packed keys, value by value.
#![tactic(auto)]

ghost use Rattle.std.specs.Prelude.{◌≡◌, ◌+◌, ◌≤◌, length};
ghost use Rattle.page.specs.Page.{page_at};
ghost use Rattle.page_matches.specs.Within.{lies_in};
ghost use Rattle.page_matches.specs.Output.{emit};
ghost use Rattle.query_records.specs.Records.{PageWithin, ListOf, PutAsked, page_hits, list_hits};

use page::{count, page_size, page_start};
use page_matches::{put_all, put_picked, within_mask};

// Writes the records that lie between two keys, of the pages of the list, one page after the other,
// into the output while whole ones fit. Returns how many lie between.
pub fn put_within(
    pages: &[u8],
    capacity: usize,
    bias: u64,
    low: u64,
    high: u64,
    list: &[u32],
    out: &mut [u8],
) -> usize
    requires { ListOf (PageWithin capacity pages.now) capacity (length list.now) list.now }
    ensures value { (result ≡ length (list_hits (lies_in bias low high) capacity pages.now
        list.now)) × (result ≤ 65536) }
    ensures out_after { out.new
        ≡ emit out.old 0
        (list_hits (lies_in bias low high) capacity pages.now list.now) }
{
    let mut total = 0;
    for &g in list {
        total = put_within_page(pages, capacity, g as usize, bias, low, high, out, total);
    }
    total
}

// The same of page g alone, from record `total` of the output on; where all of its records lie
// between, they are copied in blocks. Returns how many lie between, with the `total` before.
fn put_within_page(
    pages: &[u8],
    capacity: usize,
    g: usize,
    bias: u64,
    low: u64,
    high: u64,
    out: &mut [u8],
    total: usize,
) -> usize
    requires { PutAsked (PageWithin capacity pages.now) capacity g total }
    ensures value { result ≡ total + length (page_hits (lies_in bias low high) (page_at capacity pages.now g)) }
    ensures out_after { out.new
        ≡ emit out.old total (page_hits (lies_in bias low high) (page_at capacity pages.now g)) }
{
    let start = page_start(capacity, g);
    let end = start + page_size(capacity);
    let n = count(&pages[start..end]);
    let mask = within_mask(&pages[start..end], n, bias, low, high);
    if mask == (1u64 << n) - 1 {
        return put_all(&pages[start..end], n, out, total);
    }
    put_picked(&pages[start..end], mask, out, total)
}
