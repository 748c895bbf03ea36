// Whole records copied from slice to slice, many bytes at once.
#![tactic(auto)]

ghost use Rattle.std.specs.Prelude.{◌≡◌, ◌+◌, ◌*◌, ◌≤◌, length, drop};
ghost use Rattle.std.proofs.Math.Seq.{paste};
ghost use Rattle.record.specs.Bytes.{record_size};

use record::RECORD_SIZE;
use record::numbers::{read64, write64};

// The bytes that are copied at once.
const BLOCK: usize = 48;

// Copies n records from offset `from` of one slice to offset `to` of another, a block at a time.
// The last block may begin with bytes that are copied already. Pages have at most 16 records; the
// loop is for more.
// A loop by hand, as in `copy_few`: `step_by` needs a measure too, and an invariant on its iterator.
pub fn copy_records(source: &[u8], from: usize, target: &mut [u8], to: usize, n: usize)
    requires { (from + record_size * n ≤ length source.now) × (to + record_size * n ≤ length target.old) }
    ensures { target.new
        ≡ paste target.old to (drop from source.now) (record_size * n) }
{
    let size = RECORD_SIZE * n;
    if size < BLOCK {
        copy_few(source, from, target, to, n);
        return;
    }
    if n <= 16 {
        copy_page(source, from, target, to, n);
        return;
    }
    let last = size - BLOCK;
    let mut k = 0;
    while k < last {
        copy_block(source, from + k, target, to + k);
        k += BLOCK;
    }
    copy_block(source, from + last, target, to + last);
}

// The same for few records, eight bytes at a time.
fn copy_few(source: &[u8], from: usize, target: &mut [u8], to: usize, n: usize)
    requires { (from + record_size * n ≤ length source.now) × (to + record_size * n ≤ length target.old) }
    ensures { target.new
        ≡ paste target.old to (drop from source.now) (record_size * n) }
{
    if n == 0 {
        return;
    }
    let last = RECORD_SIZE * n - 8;
    let mut k = 0;
    while k < last {
        copy_eight(source, from + k, target, to + k);
        k += 8;
    }
    copy_eight(source, from + last, target, to + last);
}

// The same for 4 to 16 records, in four blocks: one that would begin behind the last begins with it,
// so that no jump depends on n.
fn copy_page(source: &[u8], from: usize, target: &mut [u8], to: usize, n: usize)
    requires { (4 ≤ n) × (n ≤ 16) × (from + record_size * n ≤ length source.now)
        × (to + record_size * n ≤ length target.old) }
    ensures { target.new
        ≡ paste target.old to (drop from source.now) (record_size * n) }
{
    let last = RECORD_SIZE * n - BLOCK;
    let second = last.min(BLOCK);
    let third = last.min(2 * BLOCK);
    copy_block(source, from, target, to);
    copy_block(source, from + second, target, to + second);
    copy_block(source, from + third, target, to + third);
    copy_block(source, from + last, target, to + last);
}

// Copies a block.
fn copy_block(source: &[u8], from: usize, target: &mut [u8], to: usize)
    requires { (from + 48 ≤ length source.now) × (to + 48 ≤ length target.old) }
    ensures { target.new ≡ paste target.old to (drop from source.now) 48 }
{
    copy_sixteen(source, from, target, to);
    copy_sixteen(source, from + 16, target, to + 16);
    copy_sixteen(source, from + 32, target, to + 32);
}

// Copies sixteen bytes. All are read before the first is written: as nothing tells the compiler that
// the slices lie apart, only so are they one move.
fn copy_sixteen(source: &[u8], from: usize, target: &mut [u8], to: usize)
    requires { (from + 16 ≤ length source.now) × (to + 16 ≤ length target.old) }
    ensures { target.new ≡ paste target.old to (drop from source.now) 16 }
{
    let low = read64(source, from);
    let high = read64(source, from + 8);
    write64(target, to, low);
    write64(target, to + 8, high);
}

// Copies eight bytes.
fn copy_eight(source: &[u8], from: usize, target: &mut [u8], to: usize)
    requires { (from + 8 ≤ length source.now) × (to + 8 ≤ length target.old) }
    ensures { target.new ≡ paste target.old to (drop from source.now) 8 }
{
    write64(target, to, read64(source, from));
}
