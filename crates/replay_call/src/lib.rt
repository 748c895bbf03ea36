// One encoded call, run on a store (document 01, "The plain model of demand 3"; document 02,
// request 1).
#![tactic(auto)]

ghost use Rattle.std.specs.Prelude.{◌≡◌, length};
ghost use Rattle.store.specs.Store.{store};
ghost use Rattle.store.specs.Answers.{changed_answer, changed_state};
ghost use Rattle.replay_encoding.specs.Encoding.{call_of, request_size, answer_words};
ghost use Rattle.replay_call.specs.Promise.{CallKept};

use delete::delete;
use insert::insert;
use lookup::lookup;
use query::query;
use range::range;
use record::Content;
use replay_encoding::{Request, changed_words, found_words, listed_words, query_of, range_of};
use shape::Key;
use shape::refusal::Refusal;
use store::{Changed, State, state_after};

// The state after a call, and the words of its answer.
#[derive(Clone, Copy)]
pub struct Step {
    pub state: State,
    pub words: [u64; 4],
}

// Runs one call on a store. A call other than a query or a range has no output.
pub fn run_call(
    state: State,
    dir: &mut [u32],
    pages: &mut [u8],
    request: Request,
    out: &mut [u8],
) -> Step
    requires { length out.old ≡ request_size request (length out.old) }
    ensures { CallKept (store state dir.old pages.old)
        (call_of request out.old) result.words out.new
        (store result.state dir.new pages.new) }
{
    let values = request.values;
    let key = Key { values };
    if request.kind == 0 {
        let content = Content {
            payload: request.payload,
        };
        return changed_step(state, insert(state, dir, pages, key, content));
    }
    if request.kind == 1 {
        return changed_step(state, delete(state, dir, pages, key));
    }
    if request.kind == 2 {
        let words = found_words(lookup(state, dir, pages, key));
        return Step { state, words };
    }
    if request.kind == 3 {
        let words = listed_words(query(state, dir, pages, query_of(request), out));
        return Step { state, words };
    }
    let words = listed_words(range(state, dir, pages, range_of(request), out));
    Step { state, words }
}

// The state and the words after a call that may change the store.
fn changed_step(before: State, change: Result<Changed, Refusal>) -> Step
    ensures { (result.state ≡ changed_state before change) × (result.words ≡ answer_words (changed_answer change)) }
{
    Step {
        state: state_after(before, change),
        words: changed_words(change),
    }
}
