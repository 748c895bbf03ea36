// The program `stock` (document 01, "Proof table and the printed run"): reads lines from standard
// input, and prints the reply to each.
#![tactic(auto)]

ghost use Rattle.std.specs.Prelude.{◌≤◌, length};
ghost use Rattle.stock_replies.specs.Replies.{reply_size};
ghost use Rattle.stock.specs.Lends.{Lends};

use std::io::{self, Input, Read, Write};
use stock_input::{Progress, is_empty, printed, run, start, step};
use stock_replies::OUTPUT_SIZE;

// Lends 4,096 words, 32,768 page bytes, 256 output records, and a text.
fn main(rt: HostRuntime) {
    let mut piece = [0u8; 65536];
    let mut text = [0u8; 65536];
    let mut dir = [0u32; 4096];
    let mut pages = [0u8; 32768];
    let mut out = [0u8; OUTPUT_SIZE];
    let mut input = rt.reader();
    let mut output = io::writer(&rt);
    serve(
        &mut input,
        &mut output,
        &mut piece,
        &mut dir,
        &mut pages,
        &mut out,
        &mut text,
    );
}

// Reads pieces until the input ends, or until a read fails. A proved loop has to end, and nothing says
// that the input does: so it counts its turns, up to a number that no run uses up.
fn serve<R: Read, W: Write>(
    input: &mut R,
    output: &mut W,
    piece: &mut [u8],
    dir: &mut [u32],
    pages: &mut [u8],
    out: &mut [u8],
    text: &mut [u8],
)
    requires { Lends dir.old pages.old out.old × (reply_size ≤ length text.old) }
{
    let mut progress = start();
    for _ in 0..u64::MAX {
        let n = input.read(piece).unwrap_or(0);
        if n == 0 {
            finish(progress, output, dir, pages, out, text);
            return;
        }
        progress = answer(progress, output, &piece[..n], dir, pages, out, text);
    }
}

// Replies to the lines that end in a piece. A write that fails is passed over.
fn answer<W: Write>(
    progress: Progress,
    output: &mut W,
    piece: &[u8],
    dir: &mut [u32],
    pages: &mut [u8],
    out: &mut [u8],
    text: &mut [u8],
) -> Progress
    requires { (progress.reading.fields ≤ 7) × Lends dir.old pages.old out.old
        × (reply_size ≤ length text.old) }
    ensures { result.reading.fields ≤ 7 }
{
    let mut here = progress;
    let mut at = 0;
    // Not a `for`: each run says how far it came.
    while at < piece.len() {
        let reach = run(printed(here), piece, at, dir, pages, out, text);
        here = reach.progress;
        at = reach.next;
        let _ = output.write_all(&text[..here.end]);
    }
    here
}

// Replies to a last line that no newline ends.
fn finish<W: Write>(
    progress: Progress,
    output: &mut W,
    dir: &mut [u32],
    pages: &mut [u8],
    out: &mut [u8],
    text: &mut [u8],
)
    requires { (progress.reading.fields ≤ 7) × Lends dir.old pages.old out.old
        × (reply_size ≤ length text.old) }
{
    let reading = progress.reading;
    if is_empty(reading) {
        return;
    }
    let last = step(printed(progress), 10, dir, pages, out, text);
    let _ = output.write_all(&text[..last.end]);
}
