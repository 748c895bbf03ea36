// A command line on the store that a program holds (document 01, "Proof table and the printed
// run"): what it asks, the call, and the reply.
#![tactic(auto)]

ghost use Rattle.std.specs.Prelude.{List, ℕ, ◌+◌, ◌≤◌, length};
ghost use Rattle.stock_command.specs.Asked.{asked, nothing, no_shape, new_shape};
ghost use Rattle.stock_command.specs.Commands.{asked_as};
ghost use Rattle.stock_command.specs.declared.Command.TheVariants as command;
ghost use Rattle.stock_replies.specs.Replies.{output_size, reply_size};
ghost use Rattle.stock_console.specs.Console.{StockMemory, ReplyPromise, stock_memory};

use delete::delete;
use fresh::fresh;
use insert::insert;
use query::query;
use shape::Shape;
use stock_command::fields::{content_of, key_of, query_of, shape_of};
use stock_command::session::{Session, begin};
use stock_command::{Command, command_of};
use stock_line::Line;
use stock_replies::{put_changed, put_listed, put_made};
use stock_text::{put_bad, put_refused};
use store::state_after;

// The session to go on with, and the end of the text.
#[derive(Clone, Copy)]
pub struct Next {
    pub session: Session,
    pub end: usize,
}

// Does what a line asks, and writes the reply into the text from an offset on.
pub fn reply(
    session: Session,
    line: Line,
    dir: &mut [u32],
    pages: &mut [u8],
    out: &mut [u8],
    text: &mut [u8],
    at: usize,
) -> Next
    requires { (at + reply_size ≤ length text.old) × (length out.old ≤ output_size) }
    ensures { ReplyPromise (asked session line) session
        (stock_memory dir.old pages.old out.old)
        text.old at result
        (stock_memory dir.new pages.new out.new)
        text.new }
{
    let command = command_of(session, line);
    match command {
        Command::Nothing => reply_bad(session, text, at),
        Command::NoShape => reply_outside(session, text, at),
        Command::NewShape => reply_shape(session, shape_of(line), dir, pages, text, at),
        Command::Put => reply_put(session, line, dir, pages, text, at),
        Command::Cut => reply_cut(session, line, dir, pages, text, at),
        Command::List => reply_list(session, line, dir, pages, out, text, at),
    }
}

// The reply to a line that asks nothing.
fn reply_bad(session: Session, text: &mut [u8], at: usize) -> Next
    requires { at + reply_size ≤ length text.old }
    ensures { (m : StockMemory)
        → ReplyPromise nothing session m text.old at result m text.new }
{
    let end = put_bad(text, at);
    Next { session, end }
}

// The reply to a shape with d outside 1 to 4.
fn reply_outside(session: Session, text: &mut [u8], at: usize) -> Next
    requires { at + reply_size ≤ length text.old }
    ensures { (m : StockMemory)
        → ReplyPromise no_shape session m text.old at result m text.new }
{
    let end = put_refused(text, at, 1);
    Next { session, end }
}

// A shape: an accepted one starts a fresh store.
fn reply_shape(
    session: Session,
    shape: Shape,
    dir: &mut [u32],
    pages: &mut [u8],
    text: &mut [u8],
    at: usize,
) -> Next
    requires { at + reply_size ≤ length text.old }
    ensures { (out : List ℕ) → ReplyPromise (new_shape shape) session
        (stock_memory dir.old pages.old out)
        text.old at result
        (stock_memory dir.new pages.new out)
        text.new }
{
    let making = fresh(shape, dir, pages);
    let after = begin(session, making);
    let end = put_made(text, at, making);
    Next {
        session: after,
        end,
    }
}

// A record that is put.
fn reply_put(
    session: Session,
    line: Line,
    dir: &mut [u32],
    pages: &mut [u8],
    text: &mut [u8],
    at: usize,
) -> Next
    requires { at + reply_size ≤ length text.old }
    ensures { (out : List ℕ)
        → ReplyPromise (asked_as line session.state.shape.attributes command.Put) session
        (stock_memory dir.old pages.old out)
        text.old at result
        (stock_memory dir.new pages.new out)
        text.new }
{
    let state = session.state;
    let shape = state.shape;
    let d = shape.attributes as usize;
    let key = key_of(line, d);
    let content = content_of(line, d);
    let change = insert(state, dir, pages, key, content);
    let end = put_changed(text, at, change);
    let after = Session {
        begun: true,
        state: state_after(state, change),
    };
    Next {
        session: after,
        end,
    }
}

// A key that is cut.
fn reply_cut(
    session: Session,
    line: Line,
    dir: &mut [u32],
    pages: &mut [u8],
    text: &mut [u8],
    at: usize,
) -> Next
    requires { at + reply_size ≤ length text.old }
    ensures { (out : List ℕ)
        → ReplyPromise (asked_as line session.state.shape.attributes command.Cut) session
        (stock_memory dir.old pages.old out)
        text.old at result
        (stock_memory dir.new pages.new out)
        text.new }
{
    let state = session.state;
    let shape = state.shape;
    let d = shape.attributes as usize;
    let key = key_of(line, d);
    let change = delete(state, dir, pages, key);
    let end = put_changed(text, at, change);
    let after = Session {
        begun: true,
        state: state_after(state, change),
    };
    Next {
        session: after,
        end,
    }
}

// The records that match a query.
fn reply_list(
    session: Session,
    line: Line,
    dir: &[u32],
    pages: &[u8],
    out: &mut [u8],
    text: &mut [u8],
    at: usize,
) -> Next
    requires { (at + reply_size ≤ length text.old) × (length out.old ≤ output_size) }
    ensures { ReplyPromise (asked_as line session.state.shape.attributes command.List) session
        (stock_memory dir.now pages.now out.old)
        text.old at result
        (stock_memory dir.now pages.now out.new)
        text.new }
{
    let state = session.state;
    let shape = state.shape;
    let d = shape.attributes as usize;
    let listed = query(state, dir, pages, query_of(line, d), out);
    let end = put_listed(text, at, out, listed, d);
    Next { session, end }
}
