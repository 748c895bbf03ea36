// The pages of a delete: the key's record removed, and the records of its leaf and its sibling put
// into one page. No step can fail.
#![tactic(auto)]

ghost use Rattle.std.specs.Prelude.{◌≡◌};
ghost use Rattle.delete_pages.specs.PageBytes.{RecordLent, PairLent, removed_bytes, RecordsJoined};
ghost use Rattle.delete_pages.specs.Private.{BothLent, PagesJoined};

use delete_plan::{Join, Stored};
use page::{page_size, page_start};
use pages::carry;

// Removes the key's record from the page of its leaf.
pub fn remove_record(pages: &mut [u8], capacity: usize, found: Stored)
    requires { RecordLent capacity found pages.old }
    ensures { pages.new
        ≡ removed_bytes capacity found.page found.place found.count pages.old }
{
    let start = page_start(capacity, found.page as usize);
    let end = start + page_size(capacity);
    page::remove_at(&mut pages[start..end], found.place, found.count);
}

// Removes the key's record, and puts the others and those of the sibling's page into one page.
// Returns that page; the other is free.
pub fn join_records(pages: &mut [u8], capacity: usize, found: Stored, join: Join) -> u32
    requires { PairLent capacity found join pages.old }
    ensures { RecordsJoined capacity found join pages.old pages.new result }
{
    remove_record(pages, capacity, found);
    join_pages(
        pages,
        capacity,
        found.page,
        found.count - 1,
        join.other,
        join.count,
        join.bit,
    )
}

// Puts the n records of page g and the k of page h into one of the two, and frees the other: those
// with bit 1 go behind the others. The bit is that of the records of page g. Returns the page that
// has the records.
fn join_pages(
    pages: &mut [u8],
    capacity: usize,
    g: u32,
    n: usize,
    h: u32,
    k: usize,
    bit: bool,
) -> u32
    requires { BothLent capacity g n h k pages.old }
    ensures { PagesJoined capacity g n h k bit pages.old pages.new result }
{
    if bit {
        carry(pages, capacity, g as usize, 0, n, h as usize, k);
        return h;
    }
    carry(pages, capacity, h as usize, 0, k, g as usize, n);
    g
}
