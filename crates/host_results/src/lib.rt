// What crosses the C interface as numbers: an answer as a struct of numbers, a change as its number,
// attribute, depth and its state in words, a query and a range as they come. A number of 0 stands for
// an accepted call; any other is the refusal's (document 01, "Refused calls"), and the values beside
// it are 0, but for the attribute beside 14 and the depth beside 5 (document 02, requests 6 and 7).
#![tactic(auto)]

ghost use Rattle.std.specs.Prelude.{◌≡◌, false, ◌<◌, ◌≤◌, get_or, length};
ghost use Rattle.shape.specs.Key.{wanted_value, wanted_values};
ghost use Rattle.shape.specs.Range.{span_interval, range_intervals, interval_if, intervals_of};
ghost use Rattle.shape.specs.Refusal.{is_refused, number_told, carried_beside};
ghost use Rattle.model.specs.Model.{found, listed};
ghost use Rattle.store.specs.Answers.{made_answer, made_state, changed_answer, changed_state};
ghost use Rattle.store.specs.Answers.{found_answer, listed_answer, checked_answer};
ghost use Rattle.store.specs.declared.State.{State};
ghost use Rattle.file.specs.Answers.{saved_answer};
ghost use Rattle.host_state.specs.Image.{state_size};
ghost use Rattle.host_results.specs.Depthless.{depthless};
ghost use Rattle.host_results.specs.Result.{Reports, KeepsDepth, is_yes};
ghost use Rattle.host_results.specs.Settled.{depth_told, Settled};
ghost use Rattle.host_results.specs.Wanted.{wanted_if, wanted_of};

use host_state::put_state;
use shape::refusal::Refusal;
use shape::{Attribute, Query, Range, RangeAttribute, Span, Wanted};
use store::{Changed, Counts, Found, State};

// A partial-match query: attribute j is given `values[j]` where `given[j]` is not 0, otherwise free.
#[repr(C)]
#[derive(Clone, Copy)]
pub struct HostQuery {
    pub given: [u32; 4],
    pub values: [u32; 4],
}

// A range: attribute j is to lie from `lows[j]` to `highs[j]`, both included, where `given[j]` is
// not 0, otherwise it is free.
#[repr(C)]
#[derive(Clone, Copy)]
pub struct HostRange {
    pub given: [u32; 4],
    pub lows: [u32; 4],
    pub highs: [u32; 4],
}

// The number of Fresh or of a load. Here and below `attribute` is the one that 14 names, otherwise 0.
#[repr(C)]
#[derive(Clone, Copy)]
pub struct MakeResult {
    pub number: u32,
    pub attribute: u32,
}

// The depth of a key's leaf after an insert or a delete; of a delete's 5, that of the leaf in which
// the absent key falls.
#[repr(C)]
#[derive(Clone, Copy)]
pub struct ChangeResult {
    pub number: u32,
    pub attribute: u32,
    pub depth: u32,
}

// The payload of a key's record, the pages read, and the depth of the key's leaf.
#[repr(C)]
#[derive(Clone, Copy)]
pub struct LookupResult {
    pub number: u32,
    pub attribute: u32,
    pub payload: u32,
    pub reads: u32,
    pub depth: u32,
}

// How many records a query or a range wrote, how many match, how many pages it read.
#[repr(C)]
#[derive(Clone, Copy)]
pub struct QueryResult {
    pub number: u32,
    pub attribute: u32,
    pub written: u64,
    pub total: u64,
    pub reads: u64,
}

// 1 for a sound store, 0 for any other.
#[repr(C)]
#[derive(Clone, Copy)]
pub struct CheckResult {
    pub number: u32,
    pub attribute: u32,
    pub sound: u32,
}

// How many bytes the file of a store has.
#[repr(C)]
#[derive(Clone, Copy)]
pub struct SaveResult {
    pub number: u32,
    pub attribute: u32,
    pub size: u64,
}

// A lookup's answer as numbers.
pub fn found_result(answer: Result<Found, Refusal>) -> LookupResult
    ensures { KeepsDepth result.number result.attribute result.depth
        (found (record { payload = result.payload }) result.reads)
        (found (record { payload = 0 }) 0) (λ told. told ≡ found_answer answer) }
{
    match answer {
        Ok(found) => LookupResult {
            number: 0,
            attribute: 0,
            payload: found.content.payload,
            reads: found.reads,
            depth: found.depth,
        },
        Err(refusal) => LookupResult {
            number: refusal.number(),
            attribute: refusal.attribute(),
            payload: 0,
            reads: 0,
            depth: refusal.depth(),
        },
    }
}

// A query's or a range's answer as numbers; none of them carries a depth.
#[tactic(auto, using(crate::proofs::ResultLaws::reports_depthless))]
pub fn listed_result(answer: Result<Counts, Refusal>) -> QueryResult
    ensures { Reports result.number result.attribute (listed result.written result.total result.reads) (listed 0 0 0)
        (depthless (listed_answer answer)) }
{
    match answer {
        Ok(counts) => QueryResult {
            number: 0,
            attribute: 0,
            written: counts.written,
            total: counts.total,
            reads: counts.reads,
        },
        Err(refusal) => QueryResult {
            number: refusal.number(),
            attribute: refusal.attribute(),
            written: 0,
            total: 0,
            reads: 0,
        },
    }
}

// A check's answer as numbers; none carries a depth.
#[tactic(auto, using(crate::proofs::ResultLaws::reports_depthless))]
pub fn checked_result(answer: Result<bool, Refusal>) -> CheckResult
    ensures reports { Reports result.number result.attribute (is_yes result.sound) (is_yes 0)
        (depthless (checked_answer answer)) }
    ensures sound_bound { result.sound ≤ 1 }
{
    match answer {
        Ok(sound) => CheckResult {
            number: 0,
            attribute: 0,
            sound: sound as u32,
        },
        Err(refusal) => CheckResult {
            number: refusal.number(),
            attribute: refusal.attribute(),
            sound: 0,
        },
    }
}

// A save's answer as numbers; none carries a depth.
#[tactic(auto, using(crate::proofs::ResultLaws::reports_depthless))]
pub fn saved_result(answer: Result<u64, Refusal>) -> SaveResult
    ensures { Reports result.number result.attribute result.size 0 (depthless (saved_answer answer)) }
{
    match answer {
        Ok(size) => SaveResult {
            number: 0,
            attribute: 0,
            size,
        },
        Err(refusal) => SaveResult {
            number: refusal.number(),
            attribute: refusal.attribute(),
            size: 0,
        },
    }
}

// Writes the state of a store that is made into its words, and returns number and attribute.
pub fn settle(words: &mut [u32], making: Result<State, Refusal>) -> MakeResult
    requires { is_refused (made_answer making) ≡ false → state_size ≤ length words.old }
    ensures number_value { (result.number ≡ number_told (made_answer making))
        × (result.attribute ≡ carried_beside 14 (made_answer making)) }
    ensures settled { Settled (made_answer making) (made_state making) words.old
        words.new }
{
    match making {
        Ok(state) => {
            put_state(words, state);
            MakeResult {
                number: 0,
                attribute: 0,
            }
        }
        Err(refusal) => MakeResult {
            number: refusal.number(),
            attribute: refusal.attribute(),
        },
    }
}

// Writes the state of an accepted change into its words, and returns its number, attribute and depth.
pub fn settle_change(words: &mut [u32], change: Result<Changed, Refusal>) -> ChangeResult
    requires { is_refused (changed_answer change) ≡ false → state_size ≤ length words.old }
    ensures number_value { (result.number ≡ number_told (changed_answer change))
        × (result.attribute ≡ carried_beside 14 (changed_answer change))
        × (result.depth ≡ depth_told (changed_answer change)) }
    ensures settled { (before : State) → Settled (changed_answer change) (changed_state before change) words.old
        words.new }
{
    match change {
        Ok(changed) => {
            put_state(words, changed.state);
            ChangeResult {
                number: 0,
                attribute: 0,
                depth: changed.depth,
            }
        }
        Err(refusal) => ChangeResult {
            number: refusal.number(),
            attribute: refusal.attribute(),
            depth: refusal.depth(),
        },
    }
}

// The query as the store takes it.
pub fn store_query(query: HostQuery) -> Query
    ensures { wanted_values result ≡ wanted_of query.given query.values }
{
    let a0 = wanted_at(query, 0);
    let a1 = wanted_at(query, 1);
    let a2 = wanted_at(query, 2);
    let a3 = wanted_at(query, 3);
    let attributes = [a0, a1, a2, a3];
    Query { attributes }
}

// The range as the store takes it.
pub fn store_range(range: HostRange) -> Range
    ensures { range_intervals result ≡ intervals_of range.given range.lows range.highs }
{
    let a0 = span_at(range, 0);
    let a1 = span_at(range, 1);
    let a2 = span_at(range, 2);
    let a3 = span_at(range, 3);
    let attributes = [a0, a1, a2, a3];
    Range { attributes }
}

// What a query wants of attribute j.
fn wanted_at(query: HostQuery, j: usize) -> Attribute
    requires { j < 4 }
    ensures { wanted_value result.wanted ≡ wanted_if (get_or query.given j 0) (get_or query.values j 0) }
{
    let given = query.given;
    let values = query.values;
    if given[j] == 0 {
        return Attribute {
            wanted: Wanted::Free,
        };
    }
    Attribute {
        wanted: Wanted::Given(values[j]),
    }
}

// What a range says of attribute j.
fn span_at(range: HostRange, j: usize) -> RangeAttribute
    requires { j < 4 }
    ensures { span_interval result.span ≡ interval_if (get_or range.given j 0) (get_or range.lows j 0)
        (get_or range.highs j 0) }
{
    let given = range.given;
    let lows = range.lows;
    let highs = range.highs;
    if given[j] == 0 {
        return RangeAttribute { span: Span::Free };
    }
    RangeAttribute {
        span: Span::Within(lows[j], highs[j]),
    }
}
