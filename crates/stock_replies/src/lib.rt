// The replies to the store's answers (document 01, "Proof table and the printed run").
#![tactic(auto)]

ghost use Rattle.std.specs.Prelude.{◌++◌, ◌+◌, ◌*◌, ◌≤◌, length};
ghost use Rattle.record.specs.Bytes.{record_size};
ghost use Rattle.store.specs.Answers.{made_answer, changed_answer, listed_answer};
ghost use Rattle.stock_text.specs.Text.{Grown, records_text, sum_text};
ghost use Rattle.stock_replies.specs.Replies.{output_records, reply_size, answer_text, listed_text};
ghost use Rattle.stock_replies.specs.Printed.{Printable};

use record::RECORD_SIZE;
use shape::refusal::Refusal;
use stock_text::{LINE_SIZE, put_ok, put_records, put_refused, put_sum};
use store::{Changed, Counts, State};

// The records that the output of a list holds.
pub const OUTPUT_RECORDS: usize = 256;

// The bytes of that output.
pub const OUTPUT_SIZE: usize = OUTPUT_RECORDS * RECORD_SIZE;

// The bytes that the longest reply is given: a line for each of these records, and one for the sum.
pub const REPLY_SIZE: usize = (OUTPUT_RECORDS + 1) * LINE_SIZE;

// Writes `ok`, or `no` and the number, for a shape; the attribute beside 14 is not printed.
pub fn put_made(text: &mut [u8], at: usize, answer: Result<State, Refusal>) -> usize
    requires { at + reply_size ≤ length text.old }
    ensures { Grown text.old at (answer_text (made_answer answer)) text.new result }
{
    match answer {
        Ok(_) => put_ok(text, at),
        Err(refusal) => put_refused(text, at, refusal.number()),
    }
}

// Writes `ok`, or `no` and the number, for a record that is put or cut; neither a depth nor the
// attribute beside 14 is printed.
pub fn put_changed(text: &mut [u8], at: usize, answer: Result<Changed, Refusal>) -> usize
    requires { at + reply_size ≤ length text.old }
    ensures { Grown text.old at (answer_text (changed_answer answer)) text.new result }
{
    match answer {
        Ok(_) => put_ok(text, at),
        Err(refusal) => put_refused(text, at, refusal.number()),
    }
}

// Writes the records and the sum, or `no` and the number.
pub fn put_listed(
    text: &mut [u8],
    at: usize,
    out: &[u8],
    listed: Result<Counts, Refusal>,
    d: usize,
) -> usize
    requires { (at + reply_size ≤ length text.old) × Printable d (listed_answer listed) out.now }
    ensures { Grown text.old at (listed_text d (listed_answer listed) out.now)
        text.new result }
{
    match listed {
        Ok(counts) => put_found(text, at, out, counts, d),
        Err(refusal) => put_refused(text, at, refusal.number()),
    }
}

// Writes the records and the sum.
fn put_found(text: &mut [u8], at: usize, out: &[u8], counts: Counts, d: usize) -> usize
    requires { (at + reply_size ≤ length text.old) × (d ≤ 4) × (counts.written ≤ output_records)
        × (record_size * counts.written ≤ length out.now) }
    ensures { Grown text.old at
        (records_text d counts.written out.now ++ sum_text counts.total counts.reads)
        text.new result }
{
    let end = put_records(text, at, out, counts.written as usize, d);
    put_sum(text, end, counts.total, counts.reads)
}
