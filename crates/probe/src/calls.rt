// Lists of calls, encoded in words, replayed on a fresh store or on a loaded one.
ghost use Rattle.std.specs.Prelude.{◌≡◌};
ghost use Rattle.shape.specs.Refusal.{number_told, carried_beside};
ghost use Rattle.store.specs.Answers.{made_answer, made_state};
ghost use Rattle.store.specs.Store.{memory, store};
ghost use Rattle.replay.specs.Replayed.{Replayed, ReplayedFile};
ghost use Rattle.host_results.specs.Result.{Keeps};

use replay::{replay, replay_file};
use shape::Shape;
use shape::refusal::Refusal;
use store::State;

// The number of Fresh's or the load's refusal, 0 where it is accepted; beside 14 the attribute,
// otherwise 0; and the state after the calls.
#[repr(C)]
#[derive(Clone, Copy)]
pub struct ReplayFields {
    pub number: u32,
    pub attribute: u32,
    pub state: State,
}

// Makes a store in lent memory and runs the calls on it, as many as there are whole ones and as
// many as the answers have room for. Refused as Fresh is; then nothing is changed.
#[unsafe(no_mangle)]
pub extern "C" fn probe_replay(
    shape: Shape,
    dir: &mut [u32],
    pages: &mut [u8],
    calls: &[u32],
    answers: &mut [u64],
    out: &mut [u8],
) -> ReplayFields
    ensures { Keeps result.number result.attribute tt tt (λ answer.
        Replayed shape (memory dir.old pages.old)
        calls.now answers.old out.old answer
        (store result.state dir.new pages.new) answers.new out.new) }
{
    fields_of(replay(shape, dir, pages, calls, answers, out))
}

// Makes a store of a file in lent memory and runs the calls on it in the same way. Refused as load
// is; then nothing is changed.
#[unsafe(no_mangle)]
pub extern "C" fn probe_replay_file(
    file: &[u8],
    dir: &mut [u32],
    pages: &mut [u8],
    calls: &[u32],
    answers: &mut [u64],
    out: &mut [u8],
) -> ReplayFields
    ensures { Keeps result.number result.attribute tt tt (λ answer.
        ReplayedFile file.now (memory dir.old pages.old)
        calls.now answers.old out.old answer
        (store result.state dir.new pages.new) answers.new out.new) }
{
    fields_of(replay_file(file, dir, pages, calls, answers, out))
}

// The number, the attribute and the state of a store that is made.
fn fields_of(making: Result<State, Refusal>) -> ReplayFields
    ensures { (result.number ≡ number_told (made_answer making))
        × (result.attribute ≡ carried_beside 14 (made_answer making)) × (result.state ≡ made_state making) }
{
    match making {
        Ok(state) => ReplayFields {
            number: 0,
            attribute: 0,
            state,
        },
        Err(refusal) => ReplayFields {
            number: refusal.number(),
            attribute: refusal.attribute(),
            state: State::default(),
        },
    }
}
