// The steps on one page and on the lent pages.
ghost use Rattle.std.specs.Prelude.{◌≡◌, ◌+◌, ◌-◌, ◌*◌, ◌<◌, ◌≤◌, length};
ghost use Rattle.record.specs.Bytes.{record_size};
ghost use Rattle.record.specs.Packed.{packed_bytes};
ghost use Rattle.page.specs.Page.{count_of, page_size};
ghost use Rattle.page.specs.Fields.{record_offset, key_at, content_at};
ghost use Rattle.page.specs.Changes.{inserted_page, removed_page};
ghost use Rattle.pages.specs.Pages.{PageLent, carried_pages, first_free};

use page::{content_at, count, insert_at, key_at, remove_at};
use pages::{carry, first_free};
use record::Content;

// How many records a page has, as its count says.
#[unsafe(no_mangle)]
pub extern "C" fn probe_count(page: &[u8]) -> usize
    requires { 2 ≤ length page.now }
    ensures { (result ≡ count_of page.now) × (result < 65536) }
{
    count(page)
}

// The packed key of record i.
#[unsafe(no_mangle)]
pub extern "C" fn probe_key_at(page: &[u8], i: usize) -> u64
    requires { record_offset i + record_size ≤ length page.now }
    ensures { result ≡ key_at page.now i }
{
    key_at(page, i)
}

// The content of record i.
#[unsafe(no_mangle)]
pub extern "C" fn probe_content_at(page: &[u8], i: usize) -> Content
    requires { record_offset i + record_size ≤ length page.now }
    ensures { result ≡ content_at page.now i }
{
    content_at(page, i)
}

// Inserts a record at place i of a page that has n records, and room for one more.
#[unsafe(no_mangle)]
pub extern "C" fn probe_insert_at(page: &mut [u8], i: usize, n: usize, key: u64, content: Content)
    requires { (i ≤ n) × (record_offset n + record_size ≤ length page.old) }
    ensures { page.new ≡ inserted_page i n (packed_bytes key content) page.old }
{
    insert_at(page, i, n, key, content);
}

// Removes record i of a page that has n.
#[unsafe(no_mangle)]
pub extern "C" fn probe_remove_at(page: &mut [u8], i: usize, n: usize)
    requires { (i < n) × (record_offset n ≤ length page.old) }
    ensures { page.new ≡ removed_page i n page.old }
{
    remove_at(page, i, n);
}

// Carries the records from m on of page p, which has n, behind the j records of page q.
#[unsafe(no_mangle)]
pub extern "C" fn probe_carry(
    pages: &mut [u8],
    capacity: usize,
    p: usize,
    m: usize,
    n: usize,
    q: usize,
    j: usize,
)
    requires page_lent { PageLent capacity p pages.old × PageLent capacity q pages.old }
    requires m_le_n { (m ≤ n) × (n ≤ capacity) × (j + (n - m) ≤ capacity) }
    ensures { pages.new ≡ carried_pages capacity p m n q j pages.old }
{
    carry(pages, capacity, p, m, n, q, j);
}

// The first of the first n pages that is free; n where none is.
#[unsafe(no_mangle)]
pub extern "C" fn probe_first_free(pages: &[u8], capacity: usize, n: usize) -> usize
    requires { (capacity ≤ 16) × (n ≤ 4096) × (n * page_size capacity ≤ length pages.now) }
    ensures { result ≡ first_free capacity pages.now n 0 }
{
    first_free(pages, capacity, n)
}
