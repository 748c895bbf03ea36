// Input, in pieces of any size: each line that ends is replied to (document 01, "Proof table and the
// printed run").
#![tactic(auto)]

ghost use Rattle.std.specs.Prelude.{◌≡◌, false, ◌+◌, ◌≤◌, length};
ghost use Rattle.stock_line.specs.LineBytes.{start};
ghost use Rattle.stock_replies.specs.Replies.{output_size, reply_size};
ghost use Rattle.stock_console.specs.Console.{stock_memory};
ghost use Rattle.stock_input.specs.Input.{standing, Stepped, Standable, RunPromise, nothing_read};

use stock_command::session::Session;
use stock_console::reply;
use stock_line::{Reading, begin, end, feed};
use stock_replies::REPLY_SIZE;
use store::State;

const NEWLINE: u8 = 10;

// The session, what was read of the line that has not ended, and the end of the text.
#[derive(Clone, Copy)]
pub struct Progress {
    pub session: Session,
    pub reading: Reading,
    pub end: usize,
}

// How far a run over a piece came.
#[derive(Clone, Copy)]
pub struct Reach {
    pub progress: Progress,
    pub next: usize,
}

// No store, no line, no text.
pub fn start() -> Progress
    ensures { (result.reading ≡ start) × (result.end ≡ 0) × (result.session.begun ≡ false) }
{
    Progress {
        session: Session {
            begun: false,
            state: State::default(),
        },
        reading: begin(),
        end: 0,
    }
}

// Reads a piece from a place on, until its end, or until less than one longest reply is free in the
// text.
pub fn run(
    progress: Progress,
    piece: &[u8],
    from: usize,
    dir: &mut [u32],
    pages: &mut [u8],
    out: &mut [u8],
    text: &mut [u8],
) -> Reach
    requires { Standable progress text.old × (from ≤ length piece.now) × (length out.old ≤ output_size) }
    ensures { RunPromise piece.now from progress
        (stock_memory dir.old pages.old out.old)
        text.old result.next result.progress
        (stock_memory dir.new pages.new out.new)
        text.new }
{
    let mut here = progress;
    for next in from..piece.len() {
        if text.len() - here.end < REPLY_SIZE {
            return Reach {
                progress: here,
                next,
            };
        }
        here = step(here, piece[next], dir, pages, out, text);
    }
    Reach {
        progress: here,
        next: piece.len(),
    }
}

// Reads one byte: a newline ends the line.
pub fn step(
    progress: Progress,
    byte: u8,
    dir: &mut [u32],
    pages: &mut [u8],
    out: &mut [u8],
    text: &mut [u8],
) -> Progress
    requires { (progress.reading.fields ≤ 7) × (progress.end + reply_size ≤ length text.old)
        × (length out.old ≤ output_size) }
    ensures stepped { Stepped byte
        (standing progress (stock_memory dir.old pages.old out.old) text.old)
        (standing result (stock_memory dir.new pages.new out.new) text.new) }
    ensures standable { Standable result text.new }
{
    if byte == NEWLINE {
        let line = end(progress.reading);
        let next = reply(progress.session, line, dir, pages, out, text, progress.end);
        return Progress {
            session: next.session,
            reading: begin(),
            end: next.end,
        };
    }
    Progress {
        reading: feed(progress.reading, byte),
        ..progress
    }
}

// Whether nothing was read of a line.
pub fn is_empty(reading: Reading) -> bool
    ensures { result ≡ nothing_read reading }
{
    reading.fields == 0 && reading.word == 1
}

// The same progress, after its text was printed.
pub fn printed(progress: Progress) -> Progress
    ensures { (result.session ≡ progress.session) × (result.reading ≡ progress.reading) × (result.end ≡ 0) }
{
    Progress { end: 0, ..progress }
}
