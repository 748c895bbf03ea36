// A state in 32-bit words, as a host keeps it between calls: it needs no knowledge of the struct.
//
//     word 0        d
//     words 1-4     the widths of attributes 0 to 3
//     word 5        b
//     words 6-8     P, L, T
//     words 9-21    the tally of depths 0 to 12
//     word 22       the marks of signed attributes
#![tactic(auto)]

ghost use Rattle.std.specs.Prelude.{◌≡◌, ◌≤◌, length};
ghost use Rattle.host_state.specs.Image.{state_size, shown_state, state_in, state_put};

use shape::Shape;
use store::{Limits, State, Tally};

// The words of a state.
pub const STATE_SIZE: usize = 23;

// The state that a slice of words shows: that of its first. Fewer than a state has show the state
// without attributes, on which every call is refused with 1.
pub fn state_in(words: &[u32]) -> State
    ensures { result ≡ state_in words.now }
{
    if words.len() < STATE_SIZE {
        return State::default();
    }
    shown_state(words)
}

// Writes a state into the first words, which then show it. The others stay.
pub fn put_state(words: &mut [u32], state: State)
    requires { state_size ≤ length words.old }
    ensures put { words.new ≡ state_put state words.old }
    ensures shown { state_in words.new ≡ state }
{
    let shape = state.shape;
    let widths = shape.widths;
    let limits = state.limits;
    let leaves = state.tally.leaves;
    let image = [
        shape.attributes,
        widths[0],
        widths[1],
        widths[2],
        widths[3],
        shape.capacity,
        limits.pages,
        limits.depth,
        state.deepest,
        leaves[0],
        leaves[1],
        leaves[2],
        leaves[3],
        leaves[4],
        leaves[5],
        leaves[6],
        leaves[7],
        leaves[8],
        leaves[9],
        leaves[10],
        leaves[11],
        leaves[12],
        shape.signs,
    ];
    words[..STATE_SIZE].copy_from_slice(&image);
}

// The state of the first words.
fn shown_state(words: &[u32]) -> State
    requires { state_size ≤ length words.now }
    ensures { result ≡ shown_state words.now }
{
    let widths = [words[1], words[2], words[3], words[4]];
    let shape = Shape {
        attributes: words[0],
        widths,
        capacity: words[5],
        signs: words[22],
    };
    let limits = Limits {
        pages: words[6],
        depth: words[7],
    };
    let leaves = [
        words[9], words[10], words[11], words[12], words[13], words[14], words[15], words[16],
        words[17], words[18], words[19], words[20], words[21],
    ];
    let tally = Tally { leaves };
    State {
        shape,
        limits,
        deepest: words[8],
        tally,
    }
}
