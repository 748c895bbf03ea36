// Calls and answers as numbers, as a replay takes and gives them (document 01, "The plain model of
// demand 3"; document 02, requests 1, 6 and 7).
#![tactic(auto)]

ghost use Rattle.std.specs.Prelude.{◌≡◌, ◌++◌, ◌+◌, ◌*◌, ◌≤◌, length, take, drop};
ghost use Rattle.shape.specs.Key.{wanted_values, wanted_value};
ghost use Rattle.shape.specs.Refusal.{told};
ghost use Rattle.shape.specs.Range.{range_intervals, span_interval, interval_if};
ghost use Rattle.store.specs.Answers.{changed_answer, found_answer, listed_answer};
ghost use Rattle.replay_encoding.specs.Encoding.{call_size, request_at, value_if, wanted_in, request_size};
ghost use Rattle.replay_encoding.specs.Encoding.{intervals_in, answer_size, answer_words};
ghost use Rattle.replay_encoding.specs.Words.{four_at};

use numbers::smaller_length;
use shape::refusal::Refusal;
use shape::{Attribute, Query, Range, RangeAttribute, Span, Wanted};
use store::{Changed, Counts, Found};

// The words of one call.
pub const CALL_SIZE: usize = 15;

// The words of one answer.
pub const ANSWER_SIZE: usize = 4;

// A call as its words say it: 0 insert, 1 delete, 2 lookup, 3 query, any other kind a range; a
// value for each attribute, of a range the low end; for a query and a range whether it is given
// (not 0), and the bytes of the output; for a range the high ends.
#[derive(Clone, Copy)]
pub struct Request {
    pub kind: u32,
    pub values: [u32; 4],
    pub given: [u32; 4],
    pub payload: u32,
    pub size: u32,
    pub highs: [u32; 4],
}

// Call i of the encoded ones.
pub fn read_request(calls: &[u32], i: usize) -> Request
    requires { call_size * i + call_size ≤ length calls.now }
    ensures { result ≡ request_at calls.now i }
{
    let at = CALL_SIZE * i;
    Request {
        kind: calls[at],
        values: four_words(calls, at + 1),
        given: four_words(calls, at + 5),
        payload: calls[at + 9],
        size: calls[at + 10],
        highs: four_words(calls, at + 11),
    }
}

// The bytes of a call's output, where so many are left.
pub fn request_size(request: Request, room: usize) -> usize
    ensures { (result ≡ request_size request room) × (result ≤ room) }
{
    if request.kind < 3 {
        return 0;
    }
    smaller_length(request.size as usize, room)
}

// The query that a call asks.
pub fn query_of(request: Request) -> Query
    ensures { wanted_values result ≡ wanted_in request }
{
    let given = request.given;
    let values = request.values;
    let attributes = [
        attribute_of(given[0], values[0]),
        attribute_of(given[1], values[1]),
        attribute_of(given[2], values[2]),
        attribute_of(given[3], values[3]),
    ];
    Query { attributes }
}

// The range that a call asks.
pub fn range_of(request: Request) -> Range
    ensures { range_intervals result ≡ intervals_in request }
{
    let given = request.given;
    let lows = request.values;
    let highs = request.highs;
    let attributes = [
        range_attribute_of(given[0], lows[0], highs[0]),
        range_attribute_of(given[1], lows[1], highs[1]),
        range_attribute_of(given[2], lows[2], highs[2]),
        range_attribute_of(given[3], lows[3], highs[3]),
    ];
    Range { attributes }
}

// The words of an insert's or a delete's answer.
#[tactic(auto, unfolding(crate::specs::Encoding::answer_words))]
pub fn changed_words(answer: Result<Changed, Refusal>) -> [u64; 4]
    ensures { result ≡ answer_words (changed_answer answer) }
{
    match answer {
        Ok(changed) => [0, 0, 0, changed.depth as u64],
        Err(refusal) => refused_words(refusal),
    }
}

// The words of a lookup's answer.
#[tactic(auto, unfolding(crate::specs::Encoding::answer_words))]
pub fn found_words(answer: Result<Found, Refusal>) -> [u64; 4]
    ensures { result ≡ answer_words (found_answer answer) }
{
    match answer {
        Ok(found) => {
            let content = found.content;
            [
                0,
                content.payload as u64,
                found.reads as u64,
                found.depth as u64,
            ]
        }
        Err(refusal) => refused_words(refusal),
    }
}

// The words of a query's or a range's answer.
#[tactic(auto, unfolding(crate::specs::Encoding::answer_words))]
pub fn listed_words(answer: Result<Counts, Refusal>) -> [u64; 4]
    ensures { result ≡ answer_words (listed_answer answer) }
{
    match answer {
        Ok(counts) => [0, counts.written, counts.total, counts.reads],
        Err(refusal) => refused_words(refusal),
    }
}

// The words of a refusal: its number, the attribute beside 14, the depth beside 5.
#[tactic(auto, using(crate::proofs::EncodingLaws::words_told))]
fn refused_words(refusal: Refusal) -> [u64; 4]
    ensures { result ≡ answer_words (told refusal) }
{
    [
        refusal.number() as u64,
        refusal.attribute() as u64,
        0,
        refusal.depth() as u64,
    ]
}

// Writes the answer of call i.
pub fn put_answer(answers: &mut [u64], i: usize, words: [u64; 4])
    requires { answer_size * i + answer_size ≤ length answers.old }
    ensures { answers.new ≡ take (answer_size * i) answers.old
        ++ four_at words 0 ++ drop (answer_size * i + answer_size) answers.old }
{
    let at = ANSWER_SIZE * i;
    answers[at] = words[0];
    answers[at + 1] = words[1];
    answers[at + 2] = words[2];
    answers[at + 3] = words[3];
}

// The four words from a place on.
fn four_words(words: &[u32], at: usize) -> [u32; 4]
    requires { at + 4 ≤ length words.now }
    ensures { result ≡ four_at words.now at }
{
    [words[at], words[at + 1], words[at + 2], words[at + 3]]
}

// An attribute of a query: its value where it is given, else free.
fn attribute_of(given: u32, value: u32) -> Attribute
    ensures { wanted_value result.wanted ≡ value_if given value }
{
    if given == 0 {
        return Attribute {
            wanted: Wanted::Free,
        };
    }
    Attribute {
        wanted: Wanted::Given(value),
    }
}

// An attribute of a range: its interval where it is given, else free.
fn range_attribute_of(given: u32, low: u32, high: u32) -> RangeAttribute
    ensures { span_interval result.span ≡ interval_if given low high }
{
    if given == 0 {
        return RangeAttribute { span: Span::Free };
    }
    RangeAttribute {
        span: Span::Within(low, high),
    }
}
