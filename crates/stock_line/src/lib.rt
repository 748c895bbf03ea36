// Lines of commands, read byte by byte (document 01, "Proof table and the printed run"): a word, then
// decimal numbers or `*`, one space apart. A line may have any length.
#![tactic(auto)]

ghost use Rattle.std.specs.Prelude.{◌≡◌, ◌≤◌};
ghost use Rattle.stock_line.specs.Line.{is_digit};
ghost use Rattle.stock_line.specs.LineBytes.{start, fed, ended, opened, closed};
ghost use Rattle.stock_line.specs.LineBytes.{kept_word, star_with, word_with, field_with};
ghost use Rattle.stock_line.specs.LineBytes.{first_of, digit_with, kind_of};

use std::cmp::min;

// What was read of a field: nothing yet, a number, `*`, or bytes of another form. Numbers of 2^32 or
// more are of another form.
#[derive(Clone, Copy)]
pub enum Field {
    Empty,
    Number(u32),
    Any,
    Wrong,
}

// What was read of a line: its word as a number in base 256 behind a 1 (0 once a field is wrong),
// how many fields have begun behind it (7 for more), the last one, and of those before it whether one
// is `*`, and the first six: 0 where there are fewer.
#[derive(Clone, Copy)]
pub struct Reading {
    pub word: u64,
    pub fields: usize,
    pub field: Field,
    pub star: bool,
    pub kept: [Field; 6],
}

// Which command a line gives; Bad for a line of another form.
#[derive(Clone, Copy)]
pub enum Kind {
    Bad,
    Shape,
    Put,
    Cut,
    List,
}

// A command, how many fields it has (7 for more), whether one is `*`, and the first six: 0 where there
// are fewer.
#[derive(Clone, Copy)]
pub struct Line {
    pub kind: Kind,
    pub count: usize,
    pub star: bool,
    pub kept: [Field; 6],
}

// Nothing read yet.
#[tactic(auto, unfolding(crate::specs::LineBytes::start))]
pub fn begin() -> Reading
    ensures { result ≡ start }
{
    Reading {
        word: 1,
        fields: 0,
        field: Field::Empty,
        star: false,
        kept: [Field::Number(0); 6],
    }
}

// Reads one more byte of the line.
#[tactic(auto, unfolding(crate::specs::LineBytes::fed, crate::specs::LineBytes::added, crate::specs::LineBytes::closed))]
pub fn feed(reading: Reading, byte: u8) -> Reading
    requires { reading.fields ≤ 7 }
    ensures { result ≡ fed reading byte }
{
    if byte == b' ' {
        return open(close(reading));
    }
    if reading.fields == 0 {
        return Reading {
            word: word_with(reading.word, byte),
            ..reading
        };
    }
    Reading {
        field: field_with(reading.field, byte),
        ..reading
    }
}

// Ends the line: the command that it gives.
#[tactic(auto, unfolding(crate::specs::LineBytes::ended))]
pub fn end(reading: Reading) -> Line
    requires { reading.fields ≤ 7 }
    ensures { result ≡ ended reading }
{
    let last = close(reading);
    let kept = last.kept;
    Line {
        kind: kind_of(last.word),
        count: last.fields,
        star: last.star,
        kept,
    }
}

// Begins one more field, of at most seven.
#[tactic(auto, unfolding(crate::specs::LineBytes::opened))]
fn open(reading: Reading) -> Reading
    requires { reading.fields ≤ 7 }
    ensures { result ≡ opened reading }
{
    Reading {
        fields: min(7, reading.fields + 1),
        field: Field::Empty,
        ..reading
    }
}

// Keeps the last field; the line's word is 0 from then on where the field is wrong.
#[tactic(auto, unfolding(crate::specs::LineBytes::closed))]
fn close(reading: Reading) -> Reading
    requires { reading.fields ≤ 7 }
    ensures { result ≡ closed reading }
{
    if reading.fields == 0 {
        return reading;
    }
    let mut kept = reading.kept;
    if reading.fields < 7 {
        kept[reading.fields - 1] = reading.field;
    }
    Reading {
        word: kept_word(reading.word, reading.field),
        star: star_with(reading.star, reading.field),
        kept,
        ..reading
    }
}

// The word of a line behind one more field.
fn kept_word(word: u64, field: Field) -> u64
    ensures { result ≡ kept_word word field }
{
    match field {
        Field::Empty | Field::Wrong => 0,
        Field::Number(_) | Field::Any => word,
    }
}

// Whether one of some fields is `*`, with one more field.
fn star_with(star: bool, field: Field) -> bool
    ensures { result ≡ star_with star field }
{
    match field {
        Field::Any => true,
        _ => star,
    }
}

// The word with one more byte; one of more than five bytes is no command's.
#[tactic(auto, unfolding(crate::specs::LineBytes::word_with))]
fn word_with(word: u64, byte: u8) -> u64
    ensures { result ≡ word_with word byte }
{
    if word < 281474976710656 {
        return word * 256 + (byte as u64);
    }
    word
}

// A field with one more byte.
fn field_with(field: Field, byte: u8) -> Field
    ensures { result ≡ field_with field byte }
{
    match field {
        Field::Empty => first_of(byte),
        Field::Number(value) => digit_with(value, byte),
        Field::Any | Field::Wrong => Field::Wrong,
    }
}

// A field of one byte.
#[tactic(auto, unfolding(crate::specs::LineBytes::first_of, crate::specs::Line::is_digit))]
fn first_of(byte: u8) -> Field
    ensures { result ≡ first_of byte }
{
    if byte == b'*' {
        return Field::Any;
    }
    if is_digit(byte) {
        return Field::Number((byte - b'0') as u32);
    }
    Field::Wrong
}

// A number with one more byte.
#[tactic(auto, unfolding(crate::specs::LineBytes::digit_with, crate::specs::Line::is_digit))]
fn digit_with(value: u32, byte: u8) -> Field
    ensures { result ≡ digit_with value byte }
{
    if !is_digit(byte) {
        return Field::Wrong;
    }
    let number = (value as u64) * 10 + ((byte - b'0') as u64);
    match u32::try_from(number) {
        Ok(number) => Field::Number(number),
        Err(_) => Field::Wrong,
    }
}

#[tactic(auto, unfolding(crate::specs::Line::is_digit))]
fn is_digit(byte: u8) -> bool
    ensures { result ≡ is_digit byte }
{
    byte.is_ascii_digit()
}

// The command of a word.
#[tactic(auto, unfolding(crate::specs::LineBytes::kind_of))]
fn kind_of(word: u64) -> Kind
    ensures { result ≡ kind_of word }
{
    match word {
        1595184083045 => Kind::Shape,
        24147316 => Kind::Put,
        23295348 => Kind::Cut,
        6113817460 => Kind::List,
        _ => Kind::Bad,
    }
}
