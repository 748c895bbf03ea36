// Records: their key, what they hold besides it, and their bytes (document 01, "Lent memory"). The
// code hands a key on as one number, whose 16-bit parts are its encodings, or a record's fields: a
// packed key.
#![tactic(auto)]

pub mod numbers;

ghost use Rattle.std.specs.Prelude.{◌≡◌, ◌+◌, ◌<◌, ◌≤◌, length};
ghost use Rattle.std.proofs.Math.Seq.{paste};
ghost use Rattle.record.specs.Bytes.{record_size, number_of, field};
ghost use Rattle.record.specs.Packed.{SixteenBits, packed_key, packed_value, unpacked_key, content_in, packed_bytes};

use numbers::{read32, read64, write32, write64};
use shape::Key;

// The bytes of one record.
pub const RECORD_SIZE: usize = 12;

// What a record holds besides its key.
#[repr(C)]
#[derive(Clone, Copy)]
pub struct Content {
    pub payload: u32,
}

// The packed key of four values.
pub fn pack_key(key: Key) -> u64
    requires { SixteenBits key.values }
    ensures { result ≡ packed_key key.values }
{
    let values = key.values;
    let low = (values[0] as u64) | ((values[1] as u64) << 16);
    let high = (values[2] as u64) | ((values[3] as u64) << 16);
    low | (high << 32)
}

// The value of attribute j in a packed key.
pub fn value_at(key: u64, j: u64) -> u64
    requires { j < 4 }
    ensures { result ≡ packed_value key j }
{
    (key >> (16 * j)) & 0xffff
}

// The four values of a packed key.
pub fn unpack_key(key: u64) -> [u32; 4]
    ensures { result ≡ unpacked_key key }
{
    let v0 = value_at(key, 0) as u32;
    let v1 = value_at(key, 1) as u32;
    let v2 = value_at(key, 2) as u32;
    let v3 = value_at(key, 3) as u32;
    [v0, v1, v2, v3]
}

// The packed key of the record at an offset.
pub fn read_key(bytes: &[u8], at: usize) -> u64
    requires { at + 8 ≤ length bytes.now }
    ensures { result ≡ number_of (field bytes.now at 8) }
{
    read64(bytes, at)
}

// The content of the record at an offset.
pub fn read_content(bytes: &[u8], at: usize) -> Content
    requires { at + record_size ≤ length bytes.now }
    ensures { result ≡ content_in (field bytes.now at record_size) }
{
    Content {
        payload: read32(bytes, at + 8) as u32,
    }
}

// Writes a record at an offset.
pub fn write_record(bytes: &mut [u8], at: usize, key: u64, content: Content)
    requires { at + record_size ≤ length bytes.old }
    ensures { bytes.new ≡ paste bytes.old at (packed_bytes key content) record_size }
{
    write64(bytes, at, key);
    write32(bytes, at + 8, content.payload as u64);
}
