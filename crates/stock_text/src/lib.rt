// The replies of the program `stock` as bytes (document 01, "Proof table and the printed run"). Each
// function writes into a lent text from an offset on, and returns the offset behind what it wrote.
// Bytes before the first offset stay, those past the second are free.
#![tactic(auto)]

ghost use Rattle.std.specs.Prelude.{[], ◌∷◌, ◌+◌, ◌*◌, ◌≤◌, length};
ghost use Rattle.record.specs.Bytes.{record_size, field};
ghost use Rattle.stock_text.specs.Text.{Grown, line_size, decimal, field_text, ok_text, bad_text, refused_text};
ghost use Rattle.stock_text.specs.Text.{values_text, record_text, records_text, sum_text};

use record::numbers::read16;
use record::{RECORD_SIZE, read_content};

// The bytes that a line of a list is given.
pub const LINE_SIZE: usize = 48;

const SPACE: u8 = 32;

const NEWLINE: u8 = 10;

// Writes `ok`.
pub fn put_ok(text: &mut [u8], at: usize) -> usize
    requires { at + 3 ≤ length text.old }
    ensures { Grown text.old at ok_text text.new result }
{
    put_bytes(text, at, b"ok\n")
}

// Writes `bad line`.
pub fn put_bad(text: &mut [u8], at: usize) -> usize
    requires { at + 9 ≤ length text.old }
    ensures { Grown text.old at bad_text text.new result }
{
    put_bytes(text, at, b"bad line\n")
}

// Writes `no` and the number of a refusal.
pub fn put_refused(text: &mut [u8], at: usize, number: u32) -> usize
    requires { at + 24 ≤ length text.old }
    ensures { Grown text.old at (refused_text number) text.new result }
{
    let end = put_bytes(text, at, b"no ");
    put_field(text, end, number as u64, NEWLINE)
}

// Writes the first n records of a query's output, each as put_record does.
pub fn put_records(text: &mut [u8], at: usize, out: &[u8], n: usize, d: usize) -> usize
    requires { (d ≤ 4) × (n ≤ 256) × (at + line_size * n ≤ length text.old) × (record_size * n ≤ length out.now) }
    ensures grown { Grown text.old at (records_text d n out.now) text.new result }
    ensures upper_bound { result ≤ at + 35 * n }
{
    let mut end = at;
    for i in 0..n {
        end = put_record(text, end, out, i, d);
    }
    end
}

// Writes record i of a query's output: the values of its d attributes, then its payload.
pub fn put_record(text: &mut [u8], at: usize, out: &[u8], i: usize, d: usize) -> usize
    requires { (d ≤ 4) × (at + line_size ≤ length text.old) × (record_size * i + record_size ≤ length out.now) }
    ensures grown { Grown text.old at
        (record_text d (field out.now (record_size * i) record_size))
        text.new result }
    ensures upper_bound { result ≤ at + 35 }
{
    let start = RECORD_SIZE * i;
    let end = put_values(text, at, out, start, d);
    let content = read_content(out, start);
    put_field(text, end, content.payload as u64, NEWLINE)
}

// Writes `=`, and how many records match and how many pages were read.
pub fn put_sum(text: &mut [u8], at: usize, total: u64, reads: u64) -> usize
    requires { at + 44 ≤ length text.old }
    ensures { Grown text.old at (sum_text total reads) text.new result }
{
    let start = put_bytes(text, at, b"= ");
    let end = put_field(text, start, total, SPACE);
    put_field(text, end, reads, NEWLINE)
}

// Writes a number in decimal, without leading zeros.
pub fn put_decimal(text: &mut [u8], at: usize, n: u64) -> usize
    requires { at + 20 ≤ length text.old }
    ensures { Grown text.old at (decimal n) text.new result }
{
    let last = 48 + (n % 10) as u8;
    if n < 10 {
        return put_byte(text, at, last);
    }
    let end = put_decimal(text, at, n / 10);
    put_byte(text, end, last)
}

// Writes one byte.
pub fn put_byte(text: &mut [u8], at: usize, byte: u8) -> usize
    requires { at + 1 ≤ length text.old }
    ensures { Grown text.old at (byte ∷ []) text.new result }
{
    text[at] = byte;
    at + 1
}

// Writes bytes that are given.
fn put_bytes(text: &mut [u8], at: usize, bytes: &[u8]) -> usize
    requires { at + length bytes.now ≤ length text.old }
    ensures { Grown text.old at bytes.now text.new result }
{
    let n = bytes.len();
    moves::copy(bytes, 0, text, at, n);
    at + n
}

// Writes the values of the first d attributes of the record at an offset of the output, with a space
// behind each.
fn put_values(text: &mut [u8], at: usize, out: &[u8], start: usize, d: usize) -> usize
    requires { (d ≤ 4) × (at + line_size ≤ length text.old) × (start + record_size ≤ length out.now) }
    ensures grown { Grown text.old at
        (values_text d (field out.now start record_size))
        text.new result }
    ensures upper_bound { result ≤ at + 6 * d }
{
    let mut end = at;
    for j in 0..d {
        end = put_field(text, end, read16(out, start + 2 * j), SPACE);
    }
    end
}

// Writes a number and the byte behind it.
fn put_field(text: &mut [u8], at: usize, n: u64, behind: u8) -> usize
    requires { at + 21 ≤ length text.old }
    ensures grown { Grown text.old at (field_text n behind) text.new result }
    ensures upper_bound { result ≤ at + 21 }
{
    let end = put_decimal(text, at, n);
    put_byte(text, end, behind)
}
