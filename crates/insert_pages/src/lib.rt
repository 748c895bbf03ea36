// The pages of an accepted insert (I2, I6, I8 of Otoo's INSERT): one takes the record, a full one is
// divided. None of the steps can fail.
#![tactic(auto)]

ghost use Rattle.std.specs.Prelude.{◌≡◌, ◌<◌, ◌≤◌};
ghost use Rattle.record.specs.Packed.{packed_bytes};
ghost use Rattle.pages.specs.Pages.{PageLent};
ghost use Rattle.insert_pages.specs.Inserted.{inserted_pages, CutFits, divided_pages};

use insert_cut::Cut;
use page::{page_size, page_start};
use pages::carry;
use record::Content;

// The record, I2 and I8: put before record i of the n of page p.
pub fn insert_record(
    pages: &mut [u8],
    capacity: usize,
    p: usize,
    i: usize,
    n: usize,
    key: u64,
    content: Content,
)
    requires { PageLent capacity p pages.old × (i ≤ n) × (n < capacity) }
    ensures { pages.new ≡ inserted_pages capacity p i n (packed_bytes key content) pages.old }
{
    let start = page_start(capacity, p);
    let end = start + page_size(capacity);
    page::insert_at(&mut pages[start..end], i, n, key, content);
}

// The pages, I6: a full one is divided. A free one takes the records from the cut on; then the
// record goes into its own half, I8.
pub fn divide_pages(
    pages: &mut [u8],
    capacity: usize,
    page: usize,
    free: usize,
    cut: Cut,
    key: u64,
    content: Content,
)
    requires page_lent { PageLent capacity page pages.old × PageLent capacity free pages.old }
    requires cut_fits { CutFits capacity cut }
    ensures { pages.new
        ≡ divided_pages capacity page free cut (packed_bytes key content) pages.old }
{
    carry(pages, capacity, page, cut.start, capacity, free, 0);
    let (own, count) = if cut.bit {
        (free, capacity - cut.start)
    } else {
        (page, cut.start)
    };
    insert_record(pages, capacity, own, cut.place, count, key, content);
}
