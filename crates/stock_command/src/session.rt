// The session that command lines are read in.
ghost use Rattle.store.specs.Answers.{made_answer, made_state};
ghost use Rattle.stock_command.specs.Session.{Begun};

use shape::refusal::Refusal;
use store::State;

// The state of the store, if a shape was accepted.
#[derive(Clone, Copy)]
pub struct Session {
    pub begun: bool,
    pub state: State,
}

// The session after Fresh: the new store if it was accepted, otherwise the one that there was.
pub fn begin(session: Session, making: Result<State, Refusal>) -> Session
    ensures { Begun session (made_answer making) (made_state making) result }
{
    match making {
        Ok(state) => Session { begun: true, state },
        Err(_) => session,
    }
}
