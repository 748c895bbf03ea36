// One page of the lent bytes: its count and its records (document 01, "Lent memory"). Each function
// is handed the page's bytes only. Bytes past the records that the count says are free.
#![tactic(auto)]

ghost use Rattle.std.specs.Prelude.{◌≡◌, ◌+◌, ◌*◌, ◌^◌, ◌<◌, ◌≤◌, length};
ghost use Rattle.record.specs.Packed.{packed_bytes};
ghost use Rattle.record.specs.Bytes.{record_size};
ghost use Rattle.page.specs.Page.{page_size, count_of};
ghost use Rattle.page.specs.Fields.{record_offset, key_at, code_at, content_at};
ghost use Rattle.page.specs.Changes.{counted_page, inserted_page, removed_page, appended_page};

use key_encoding::to_encodings;
use record::numbers::{read16, write16};
use record::{Content, RECORD_SIZE, read_content, read_key, write_record};
use record_copy::copy_records;

// The bytes of a page that holds so many records.
pub fn page_size(capacity: usize) -> usize
    requires { capacity < 2 ^ 32 }
    ensures { result ≡ page_size capacity }
{
    2 + RECORD_SIZE * capacity
}

// Where page g begins in the lent bytes.
pub fn page_start(capacity: usize, g: usize) -> usize
    requires { (capacity < 2 ^ 16) × (g < 2 ^ 32) }
    ensures { result ≡ g * page_size capacity }
{
    g * page_size(capacity)
}

// How many records the page has, as its count says.
pub fn count(page: &[u8]) -> usize
    requires { 2 ≤ length page.now }
    ensures { (result ≡ count_of page.now) × (result < 65536) }
{
    read16(page, 0) as usize
}

// Sets the count: the page has its first n records.
pub fn set_count(page: &mut [u8], n: usize)
    requires { 2 ≤ length page.old }
    ensures { page.new ≡ counted_page n page.old }
{
    write16(page, 0, n as u64);
}

// The packed fields of record i's key.
pub fn key_at(page: &[u8], i: usize) -> u64
    requires { record_offset i + record_size ≤ length page.now }
    ensures { result ≡ key_at page.now i }
{
    read_key(page, 2 + RECORD_SIZE * i)
}

// The packed encodings of record i's key, where a shape adds a bias to its values.
pub fn code_at(page: &[u8], i: usize, bias: u64) -> u64
    requires { record_offset i + record_size ≤ length page.now }
    ensures { result ≡ code_at bias page.now i }
{
    to_encodings(bias, key_at(page, i))
}

// The content of record i.
pub fn content_at(page: &[u8], i: usize) -> Content
    requires { record_offset i + record_size ≤ length page.now }
    ensures { result ≡ content_at page.now i }
{
    read_content(page, 2 + RECORD_SIZE * i)
}

// Inserts a record at place i of a page that has n records, and room for one more.
pub fn insert_at(page: &mut [u8], i: usize, n: usize, key: u64, content: Content)
    requires { (i ≤ n) × (record_offset n + record_size ≤ length page.old) }
    ensures { page.new ≡ inserted_page i n (packed_bytes key content) page.old }
{
    let from = 2 + RECORD_SIZE * i;
    let run = RECORD_SIZE * (n - i);
    moves::move_up(page, from, from + RECORD_SIZE, run);
    write_record(page, from, key, content);
    write16(page, 0, (n + 1) as u64);
}

// Removes record i of a page that has n.
pub fn remove_at(page: &mut [u8], i: usize, n: usize)
    requires { (i < n) × (record_offset n ≤ length page.old) }
    ensures { page.new ≡ removed_page i n page.old }
{
    let to = 2 + RECORD_SIZE * i;
    let run = RECORD_SIZE * (n - i - 1);
    moves::move_down(page, to + RECORD_SIZE, to, run);
    write16(page, 0, (n - 1) as u64);
}

// Appends the k records that `source` begins with to a page that has n.
pub fn append(page: &mut [u8], n: usize, source: &[u8], k: usize)
    requires { (record_offset (n + k) ≤ length page.old) × (record_size * k ≤ length source.now) }
    ensures { page.new ≡ appended_page n k source.now page.old }
{
    copy_records(source, 0, page, 2 + RECORD_SIZE * n, k);
    write16(page, 0, (n + k) as u64);
}
