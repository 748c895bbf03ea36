// What a command line asks in a session (document 01, "Proof table and the printed run").
#![tactic(auto)]

pub mod fields;
pub mod session;

ghost use Rattle.std.specs.Prelude.{◌≡◌, ◌&&◌, not, ℕ, eqb};
ghost use Rattle.stock_command.specs.Asked.{asked, asked_shape};
ghost use Rattle.stock_command.specs.Commands.{asked_as};

use fields::number_at;
use session::Session;
use stock_line::{Kind, Line};

// A line that asks nothing, one of a shape with d outside 1 to 4, a shape, and the three others.
#[derive(Clone, Copy)]
pub enum Command {
    Nothing,
    NoShape,
    NewShape,
    Put,
    Cut,
    List,
}

// The command of a line.
#[tactic(auto, unfolding(crate::specs::Asked::asked, crate::specs::Asked::asked_put, crate::specs::Asked::asked_cut, crate::specs::Asked::asked_list))]
pub fn command_of(session: Session, line: Line) -> Command
    ensures { asked_as line session.state.shape.attributes result ≡ asked session line }
{
    let d = session.state.shape.attributes as usize;
    match line.kind {
        Kind::Bad => Command::Nothing,
        Kind::Shape => shape_command(line),
        Kind::Put => {
            if has_numbers(session.begun, line, d + 1) {
                Command::Put
            } else {
                Command::Nothing
            }
        }
        Kind::Cut => {
            if has_numbers(session.begun, line, d) {
                Command::Cut
            } else {
                Command::Nothing
            }
        }
        Kind::List => {
            if has_fields(session.begun, line, d) {
                Command::List
            } else {
                Command::Nothing
            }
        }
    }
}

// Whether a line has n fields, and none is `*`; false in a session without a store.
fn has_numbers(begun: bool, line: Line, n: usize) -> bool
    ensures { result ≡ (begun && (not line.star && eqb line.count n)) }
{
    !line.star && has_fields(begun, line, n)
}

// The same where fields may be `*`.
fn has_fields(begun: bool, line: Line, n: usize) -> bool
    ensures { result ≡ (begun && eqb line.count n) }
{
    begun && line.count == n
}

// The command of a line `shape`.
#[tactic(auto, unfolding(crate::specs::Asked::asked_shape))]
fn shape_command(line: Line) -> Command
    ensures { (d : ℕ) → asked_as line d result ≡ asked_shape line }
{
    if line.star || line.count == 0 {
        return Command::Nothing;
    }
    let d = number_at(line, 0);
    if d < 1 || 4 < d {
        return Command::NoShape;
    }
    if line.count == (d as usize) + 2 {
        return Command::NewShape;
    }
    Command::Nothing
}
