// Packed keys between two others, value by value. The four values are compared two at a time: those
// of attributes 0 and 2 have 16 free bits above them where the other two are cleared.
#![tactic(auto)]

ghost use Rattle.std.specs.Prelude.{◌≡◌};
ghost use Rattle.key_between.specs.Between.{lies_between};
ghost use Rattle.key_between.specs.Private.{even_values, even_flags, not_below, within_at};

// The bit above each of the values of attributes 0 and 2.
const ABOVE: u64 = 0x0001_0000_0001_0000;

// Whether a packed key lies between two others in each of its four values, both ends included. No
// jump depends on them.
pub fn lies_between(low: u64, high: u64, key: u64) -> bool
    ensures { result ≡ lies_between low high key }
{
    even_within(low, high, key) & even_within(low >> 16, high >> 16, key >> 16) == ABOVE
}

// Which of the values of attributes 0 and 2 lie between those of two others: the bit above each.
fn even_within(low: u64, high: u64, key: u64) -> u64
    ensures { result ≡ even_flags (within_at low high key 0) (within_at low high key 2) }
{
    not_below(low, key) & not_below(key, high)
}

// Which of the values of attributes 0 and 2 are, in the second key, not below those of the first:
// the bit above each. It is set before the subtraction, which clears it where it has to borrow.
fn not_below(first: u64, second: u64) -> u64
    ensures { result ≡ even_flags (not_below first second 0) (not_below first second 2) }
{
    ((even_values(second) + ABOVE) - even_values(first)) & ABOVE
}

// The values of attributes 0 and 2, the others cleared.
fn even_values(key: u64) -> u64
    ensures { result ≡ even_values key }
{
    key & 0x0000_ffff_0000_ffff
}
