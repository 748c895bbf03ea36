// Pairs (bit k, attribute j) by their place 4k + j among all pairs, in the order of the split steps:
// the depths at a place, how many steps are before it, and the place of a step.
#![tactic(auto)]

ghost use Rattle.std.specs.Prelude.{◌≡◌, ◌<◌, ◌≤◌, min, get_or, length};
ghost use Rattle.shape.specs.Shape.{Fit, width_list, total};
ghost use Rattle.split.specs.Steps.{steps_below};
ghost use Rattle.pairs.specs.Pairs.{bits_before, StepPair, StepsBefore};

use numbers::one_of;
use shape::Widths;

// The place of step t.
pub fn step_place(widths: Widths, t: u64) -> u64
    requires { Fit (width_list widths) × (t < total (width_list widths)) }
    ensures { StepPair (width_list widths) t result }
{
    step_from(widths, t, place_of(widths, t))
}

// The place of step t, sought from a place with t steps before it.
pub fn step_from(widths: Widths, t: u64, start: u64) -> u64
    requires { Fit (width_list widths) × (t < total (width_list widths))
        × StepsBefore (width_list widths) t start }
    ensures { StepPair (width_list widths) t result }
{
    for g in start..64 {
        if g / 4 < width_at(widths, g % 4) {
            return g;
        }
    }
    0
}

// A place with t steps before it.
pub fn place_of(widths: Widths, t: u64) -> u64
    requires { Fit (width_list widths) × (t ≤ total (width_list widths)) }
    ensures { StepsBefore (width_list widths) t result }
{
    let near = early_place(widths, t);
    let n = steps_before(widths, near);
    place_from(widths, t, near, n)
}

// A place with at most t steps before it: with t as long as no attribute in use is used up, since
// these take turns. For three of them 4t/3, by a product that gives it up to t = 48.
pub fn early_place(widths: Widths, t: u64) -> u64
    requires { Fit (width_list widths) × (t ≤ total (width_list widths)) }
    ensures { (result ≤ 64) × (length (steps_below (width_list widths) result) ≤ t) }
{
    if widths.w3 != 0 {
        return t;
    }
    if widths.w2 != 0 {
        return t * 171 / 128;
    }
    if widths.w1 != 0 {
        return t + t / 2 * 2;
    }
    4 * t
}

// How many steps are before a place: the number of the step there.
pub fn steps_before(widths: Widths, g: u64) -> u64
    requires { Fit (width_list widths) × (g ≤ 64) }
    ensures { StepsBefore (width_list widths) result g }
{
    let h0 = depth_before(widths.w0, g, 0);
    let h1 = depth_before(widths.w1, g, 1);
    let h2 = depth_before(widths.w2, g, 2);
    let h3 = depth_before(widths.w3, g, 3);
    h0 + h1 + h2 + h3
}

// The depth of an attribute j of w bits just before the pair at place g.
pub fn depth_before(w: u64, g: u64, j: u64) -> u64
    requires { (g < 256) × (j < 4) }
    ensures { result ≡ min w (bits_before g j) }
{
    w.min((g + 3 - j) / 4)
}

// The width of attribute j.
pub fn width_at(widths: Widths, j: u64) -> u64
    requires { j < 4 }
    ensures { result ≡ get_or (width_list widths) j 0 }
{
    one_of(j, widths.w0, widths.w1, widths.w2, widths.w3)
}

// A place with t steps before it, sought from one with n.
fn place_from(widths: Widths, t: u64, start: u64, n: u64) -> u64
    requires { Fit (width_list widths) × (t ≤ total (width_list widths))
        × (n ≤ t) × StepsBefore (width_list widths) n start }
    ensures { StepsBefore (width_list widths) t result }
{
    let mut before = n;
    for g in start..64 {
        if before == t {
            return g;
        }
        if g / 4 < width_at(widths, g % 4) {
            before += 1;
        }
    }
    64
}
