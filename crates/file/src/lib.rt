// The file of a saved store (document 02, request 5): the encodings of its records. Crate `file_parts` has its shape and its trailer.
#![tactic(auto)]

ghost use Rattle.std.specs.Prelude.{◌≡◌, ◌+◌, ◌*◌, ◌≤◌, length};
ghost use Rattle.record.specs.Bytes.{record_size};
ghost use Rattle.file.specs.File.{encodings_at};

use key_encoding::to_encodings;
use record::{RECORD_SIZE, read_key};

// The bytes of the shape and of the trailer, with which a file ends.
pub const END_SIZE: usize = 24;

// The packed encodings of a file's record i, where a shape adds a bias to its values.
pub fn encodings_at(file: &[u8], i: usize, bias: u64) -> u64
    requires { record_size * i + record_size ≤ length file.now }
    ensures { result ≡ encodings_at bias file.now i }
{
    to_encodings(bias, read_key(file, RECORD_SIZE * i))
}
