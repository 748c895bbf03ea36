// Little-endian numbers in a slice of bytes, each put together from two of half its size.
ghost use Rattle.std.specs.Prelude.{◌≡◌, ◌+◌, ◌^◌, ◌<◌, ◌≤◌, length};
ghost use Rattle.std.proofs.Math.Seq.{paste};
ghost use Rattle.record.specs.Bytes.{little_endian, number_of, field};

// The number in two bytes.
pub fn read16(bytes: &[u8], at: usize) -> u64
    requires { at + 2 ≤ length bytes.now }
    ensures { (result ≡ number_of (field bytes.now at 2)) × (result < 2 ^ 16) }
{
    wide(bytes[at]) | (wide(bytes[at + 1]) << 8)
}

// The number in four bytes.
pub fn read32(bytes: &[u8], at: usize) -> u64
    requires { at + 4 ≤ length bytes.now }
    ensures { (result ≡ number_of (field bytes.now at 4)) × (result < 2 ^ 32) }
{
    read16(bytes, at) | (read16(bytes, at + 2) << 16)
}

// The number in eight bytes.
pub fn read64(bytes: &[u8], at: usize) -> u64
    requires { at + 8 ≤ length bytes.now }
    ensures { result ≡ number_of (field bytes.now at 8) }
{
    read32(bytes, at) | (read32(bytes, at + 4) << 32)
}

// Writes the low 16 bits of a number.
pub fn write16(bytes: &mut [u8], at: usize, x: u64)
    requires { at + 2 ≤ length bytes.old }
    ensures { bytes.new ≡ paste bytes.old at (little_endian 2 x) 2 }
{
    bytes[at] = (x & 0xff) as u8;
    bytes[at + 1] = ((x >> 8) & 0xff) as u8;
}

// Writes the low 32 bits of a number.
pub fn write32(bytes: &mut [u8], at: usize, x: u64)
    requires { at + 4 ≤ length bytes.old }
    ensures { bytes.new ≡ paste bytes.old at (little_endian 4 x) 4 }
{
    write16(bytes, at, x);
    write16(bytes, at + 2, x >> 16);
}

// Writes a number of 64 bits.
pub fn write64(bytes: &mut [u8], at: usize, x: u64)
    requires { at + 8 ≤ length bytes.old }
    ensures { bytes.new ≡ paste bytes.old at (little_endian 8 x) 8 }
{
    write32(bytes, at, x);
    write32(bytes, at + 4, x >> 32);
}

// A byte as a number of 64 bits.
fn wide(byte: u8) -> u64
    ensures { (result ≡ byte) × (result < 256) }
{
    byte as u64
}
