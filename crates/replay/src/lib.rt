// Demand 3 on the running code: a list of calls, encoded in a lent slice, is run on a fresh store or
// on a loaded one in lent memory, and the answers and outputs are those of the plain model (document
// 01, "The plain model of demand 3").
#![tactic(auto)]

ghost use Rattle.store.specs.Store.{memory, store};
ghost use Rattle.store.specs.Answers.{made_answer, made_state};
ghost use Rattle.replay_encoding.specs.Encoding.{call_count};
ghost use Rattle.replay.specs.Private.{CallsRan};
ghost use Rattle.replay.specs.Replayed.{Replayed, ReplayedFile};

use fresh::fresh;
use load::load;
use replay_call::run_call;
use replay_encoding::{ANSWER_SIZE, CALL_SIZE, put_answer, read_request, request_size};
use shape::Shape;
use shape::refusal::Refusal;
use store::State;

// Makes a store in lent memory and runs the calls on it, as many as there are whole ones and as many
// as the answers have room for. Refused as Fresh is; then nothing is changed.
pub fn replay(
    shape: Shape,
    dir: &mut [u32],
    pages: &mut [u8],
    calls: &[u32],
    answers: &mut [u64],
    out: &mut [u8],
) -> Result<State, Refusal>
    ensures { Replayed shape (memory dir.old pages.old)
        calls.now answers.old out.old (made_answer result)
        (store (made_state result) dir.new pages.new) answers.new out.new }
{
    let empty = fresh(shape, dir, pages)?;
    Ok(run_calls(empty, dir, pages, calls, answers, out))
}

// The same on a store made from a file. Refused as load is; then nothing is changed.
pub fn replay_file(
    file: &[u8],
    dir: &mut [u32],
    pages: &mut [u8],
    calls: &[u32],
    answers: &mut [u64],
    out: &mut [u8],
) -> Result<State, Refusal>
    ensures { ReplayedFile file.now (memory dir.old pages.old)
        calls.now answers.old out.old (made_answer result)
        (store (made_state result) dir.new pages.new) answers.new out.new }
{
    let loaded = load(file, dir, pages)?;
    Ok(run_calls(loaded, dir, pages, calls, answers, out))
}

// Runs the calls on a store, one after the other.
fn run_calls(
    state: State,
    dir: &mut [u32],
    pages: &mut [u8],
    calls: &[u32],
    answers: &mut [u64],
    out: &mut [u8],
) -> State
    ensures { CallsRan (store state dir.old pages.old)
        calls.now answers.old out.old
        (call_count calls.now answers.old)
        (store result dir.new pages.new) answers.new out.new }
{
    let n = (calls.len() / CALL_SIZE).min(answers.len() / ANSWER_SIZE);
    let mut current = state;
    let mut start: usize = 0;
    for i in 0..n {
        let request = read_request(calls, i);
        let end = start + request_size(request, out.len() - start);
        let step = run_call(current, dir, pages, request, &mut out[start..end]);
        let words = step.words;
        put_answer(answers, i, words);
        current = step.state;
        start = end;
    }
    current
}
