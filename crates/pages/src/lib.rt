// The lent pages, side by side: a part of them for each page, handed to the steps on one page
// (document 01, "Lent memory"). Page g has the 2 + 12b bytes from g times that on.
#![tactic(auto)]

ghost use Rattle.std.specs.Prelude.{◌≡◌, ◌+◌, ◌-◌, ◌*◌, ◌<◌, ◌≤◌, length};
ghost use Rattle.page.specs.Page.{count_of, page_size, page_at};
ghost use Rattle.pages.specs.Pages.{PageLent, carried_pages, first_free, free_page};

use page::{page_size, page_start};
use record::RECORD_SIZE;
use record_copy::copy_records;

// Carries records between two pages: those from m on of page p, which has n, go behind the j
// records of page q, and page p keeps its first m. With j = 0 this divides a page; with m = 0 it
// joins two, and page p is free.
pub fn carry(pages: &mut [u8], capacity: usize, p: usize, m: usize, n: usize, q: usize, j: usize)
    requires page_lent { PageLent capacity p pages.old × PageLent capacity q pages.old }
    requires m_le_n { (m ≤ n) × (n ≤ capacity) × (j + (n - m) ≤ capacity) }
    ensures { pages.new ≡ carried_pages capacity p m n q j pages.old }
{
    let mut carried = [0u8; 192];
    let size = page_size(capacity);
    let run = n - m;
    let from = page_start(capacity, p);
    let from_end = from + size;
    copy_records(
        &pages[from..from_end],
        2 + RECORD_SIZE * m,
        &mut carried,
        0,
        run,
    );
    page::set_count(&mut pages[from..from_end], m);
    let to = page_start(capacity, q);
    let to_end = to + size;
    page::append(&mut pages[to..to_end], j, &carried, run);
}

// How many records page p has, as its count says.
pub fn count_at(pages: &[u8], capacity: usize, p: usize) -> usize
    requires { PageLent capacity p pages.now }
    ensures { (result ≡ count_of (page_at capacity pages.now p)) × (result < 65536) }
{
    let start = page_start(capacity, p);
    let end = start + page_size(capacity);
    page::count(&pages[start..end])
}

// A free one of the first n pages: the first from page `start` on, else the first of all; n where
// none is. Where pages are taken from the first on, one is near if `start` is about how many are
// taken.
#[tactic(auto, unfolding(crate::specs::Pages::free_page))]
pub fn free_page(pages: &[u8], capacity: usize, n: usize, start: usize) -> usize
    requires { (capacity ≤ 16) × (n ≤ 4096) × (n * page_size capacity ≤ length pages.now) }
    ensures { result ≡ free_page capacity pages.now n start }
{
    let p = free_from(pages, capacity, n, start);
    if p < n {
        return p;
    }
    first_free(pages, capacity, n)
}

// The first of the first n pages that is free; n where none is.
pub fn first_free(pages: &[u8], capacity: usize, n: usize) -> usize
    requires { (capacity ≤ 16) × (n ≤ 4096) × (n * page_size capacity ≤ length pages.now) }
    ensures { result ≡ first_free capacity pages.now n 0 }
{
    free_from(pages, capacity, n, 0)
}

// The first free one of the pages from `start` to n; n, or `start` if that is greater, where none
// is.
fn free_from(pages: &[u8], capacity: usize, n: usize, start: usize) -> usize
    requires { (capacity ≤ 16) × (n ≤ 4096) × (n * page_size capacity ≤ length pages.now) }
    ensures { result ≡ first_free capacity pages.now (n - start) start }
{
    for p in start..n {
        if count_at(pages, capacity, p) == 0 {
            return p;
        }
    }
    n.max(start)
}
