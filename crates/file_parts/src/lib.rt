// The parts of a file (document 02, request 5), read and written: its shape and its trailer.
#![tactic(auto)]

ghost use Rattle.std.specs.Prelude.{◌≡◌, true, ◌+◌, ◌-◌, ◌*◌, ◌^◌, ◌≤◌, ◌<◌, eqb, length, get_or};
ghost use Rattle.std.proofs.Math.Seq.{paste};
ghost use Rattle.shape.specs.Shape.{all_below, shape_number};
ghost use Rattle.record.specs.Bytes.{record_size};
ghost use Rattle.file.specs.File.{letters, end_size, file_size, shape_bytes, trailer_bytes, end_bytes};
ghost use Rattle.file.specs.File.{byte_before, number_before, file_count, file_shape, is_whole, is_plain};

use file::END_SIZE;
use fresh::marks_below;
use moves::copy;
use record::RECORD_SIZE;
use record::numbers::{read32, write32};
use shape::{Shape, widths_of};

// The letters M, D, E, H, with which the trailer begins.
const LETTERS: [u8; 4] = [0x4d, 0x44, 0x45, 0x48];

// How far before the end of a file its parts begin, the first one, the shape, at END_SIZE. The
// widths, behind d.
const WIDTHS: usize = 23;

// The page capacity b.
const CAPACITY: usize = 19;

// The marks of signed attributes.
const MARKS: usize = 18;

// The last byte of the shape, 0.
const LAST: usize = 17;

// The trailer, with the letters first.
const TRAILER: usize = 16;

// The distance back to the shape.
const SHAPE_DISTANCE: usize = 12;

// The distance back to the first byte of the file.
const FILE_DISTANCE: usize = 8;

// The record count.
const COUNT: usize = 4;

// The bytes of the shape.
const SHAPE_SIZE: usize = END_SIZE - TRAILER;

// Whether a file ends in a trailer with the letters, and with the distances of its count and its
// length; 12 is due if not.
pub fn is_whole(file: &[u8]) -> bool
    ensures { result ≡ is_whole file.now }
{
    let size = file.len();
    if size < END_SIZE {
        return false;
    }
    if !has_letters(file) {
        return false;
    }
    if number_before(file, SHAPE_DISTANCE) != (END_SIZE as u64) {
        return false;
    }
    let counted = size_with(number_before(file, COUNT));
    if number_before(file, FILE_DISTANCE) != counted {
        return false;
    }
    (size as u64) == counted
}

// How many records a whole file has.
pub fn record_count(file: &[u8]) -> usize
    requires { is_whole file.now ≡ true }
    ensures { (result ≡ file_count file.now)
        × (file_size result ≡ length file.now) }
{
    number_before(file, COUNT) as usize
}

// The shape that a file names, within its bounds or not.
pub fn shape_in(file: &[u8]) -> Shape
    requires { end_size ≤ length file.now }
    ensures { result ≡ file_shape file.now }
{
    let widths = [
        byte_before(file, WIDTHS),
        byte_before(file, WIDTHS - 1),
        byte_before(file, WIDTHS - 2),
        byte_before(file, WIDTHS - 3),
    ];
    Shape {
        attributes: byte_before(file, END_SIZE),
        widths,
        capacity: byte_before(file, CAPACITY),
        signs: byte_before(file, MARKS),
    }
}

// Whether the last byte of a file's shape, the unused widths and the marks without an attribute are
// 0; 13 is due if not.
pub fn is_plain(file: &[u8]) -> bool
    requires { (end_size ≤ length file.now) × (shape_number (file_shape file.now) ≡ 0) }
    ensures { result ≡ is_plain file.now }
{
    if byte_before(file, LAST) != 0 {
        return false;
    }
    let shape = shape_in(file);
    let unused = &shape.widths[shape.attributes as usize..];
    unused.iter().all(|width| *width == 0) && shape.signs >> shape.attributes == 0
}

// Writes what stands behind n records: the shape and the trailer.
pub fn put_end(out: &mut [u8], shape: Shape, n: usize)
    requires { (shape_number shape ≡ 0) × (n ≤ 65536) × (file_size n ≤ length out.old) }
    ensures { out.new
        ≡ paste out.old (record_size * n) (end_bytes shape n) end_size }
{
    let at = RECORD_SIZE * n;
    put_shape(out, at, shape);
    put_trailer(out, at + SHAPE_SIZE, n as u64);
}

// Whether a file's trailer begins with the letters.
fn has_letters(file: &[u8]) -> bool
    requires { end_size ≤ length file.now }
    ensures { result
        ≡ all_below 4 (λ i. eqb (byte_before (16 - i) file.now) (get_or letters i 0)) }
{
    file[file.len() - TRAILER..].starts_with(&LETTERS)
}

// The bytes of a file with so many records. The sum is made in 64 bits, so that no count wraps.
fn size_with(count: u64) -> u64
    requires { count < 2 ^ 32 }
    ensures { result ≡ file_size count }
{
    (RECORD_SIZE as u64) * count + (END_SIZE as u64)
}

// The byte that stands n bytes before the end of a file.
fn byte_before(file: &[u8], n: usize) -> u32
    requires { (0 < n) × (n ≤ length file.now) }
    ensures { result ≡ byte_before n file.now }
{
    file[file.len() - n] as u32
}

// The number in the four bytes from n bytes before the end of a file on.
fn number_before(file: &[u8], n: usize) -> u64
    requires { (4 ≤ n) × (n ≤ length file.now) }
    ensures { (result ≡ number_before n file.now) × (result < 2 ^ 32) }
{
    read32(file, file.len() - n)
}

// Writes the shape at an offset.
fn put_shape(out: &mut [u8], at: usize, shape: Shape)
    requires { (shape_number shape ≡ 0) × (at + 8 ≤ length out.old) }
    ensures { out.new ≡ paste out.old at (shape_bytes shape) 8 }
{
    let bytes = shape_bytes(shape);
    copy(&bytes, 0, out, at, SHAPE_SIZE);
}

// The bytes of a shape: d, the widths, b, the marks and 0. A mark without an attribute is left out.
fn shape_bytes(shape: Shape) -> [u8; 8]
    requires { shape_number shape ≡ 0 }
    ensures { result ≡ shape_bytes shape }
{
    let widths = widths_of(shape);
    let marks = marks_below(shape.signs, shape.attributes);
    [
        shape.attributes as u8,
        widths.w0 as u8,
        widths.w1 as u8,
        widths.w2 as u8,
        widths.w3 as u8,
        shape.capacity as u8,
        marks as u8,
        0,
    ]
}

// Writes the trailer of a file with so many records at an offset.
fn put_trailer(out: &mut [u8], at: usize, count: u64)
    requires { (count < 2 ^ 32) × (at + 16 ≤ length out.old) }
    ensures { out.new ≡ paste out.old at (trailer_bytes count) 16 }
{
    let bytes = LETTERS;
    copy(&bytes, 0, out, at, 4);
    write32(out, at + (TRAILER - SHAPE_DISTANCE), END_SIZE as u64);
    write32(out, at + (TRAILER - FILE_DISTANCE), size_with(count));
    write32(out, at + (TRAILER - COUNT), count);
}
