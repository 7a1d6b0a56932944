// A line, made in a buffer that the caller lends. Each function that puts a piece of it answers the place behind that piece; what would fall past the
// buffer's end is left out.
ghost use Rattle.std.specs.Prelude.{◌≡◌, ◌≤◌, ◌<◌, length, unwrap_or};
ghost use Rattle.paper.specs.Layout.{Bytes};
ghost use Rattle.desk_text.specs.Put.{Put};
ghost use Rattle.stream.specs.Told.{told_of};
ghost use Rattle.stream.specs.Line.{PutsEach, pieces, spaced, numbers_text, hex_digit, hex_byte, hex_text, bytes_text, answer_line, hex_line, word_of, told_line};

use crate::tag::Tag;
use crate::told::Told;
use desk_text::numbers::put_number;
use desk_text::put::put;

fn put_spaced(line: &mut [u8], at: usize, x: usize) -> usize
    ensures { Put at (spaced x) result line.old line.new }
{
    let behind = put(line, at, b" ");
    put_number(line, behind, x)
}

// The piece of each item, one behind the other.
fn put_each<T: Copy, F: Fn(&mut [u8], usize, T) -> usize>(
    line: &mut [u8],
    at: usize,
    items: &[T],
    put_one: F,
) -> usize
    requires { (F.IsAlwaysCallable put_one) × (at ≤ length line.old) }
    ensures { (piece : T → Bytes) → PutsEach piece (F.post put_one) → Put at (pieces piece items.now) result line.old line.new }
{
    let mut place = at;
    for x in items {
        place = put_one(line, place, *x);
    }
    place
}

fn put_numbers(line: &mut [u8], at: usize, numbers: &[usize]) -> usize
    requires { at ≤ length line.old }
    ensures { Put at (numbers_text numbers.now) result line.old line.new }
{
    put_each(line, at, numbers, put_spaced)
}

// 0 to 9, then a to f.
fn hex_digit(x: u8) -> u8
    requires { x < 16 }
    ensures { result ≡ hex_digit x }
{
    if x < 10 { b'0' + x } else { b'a' + (x - 10) }
}

fn put_hex_byte(line: &mut [u8], at: usize, x: u8) -> usize
    ensures { Put at (hex_byte x) result line.old line.new }
{
    put(line, at, &[hex_digit(x / 16), hex_digit(x % 16)])
}

fn put_hex(line: &mut [u8], at: usize, s: &[u8]) -> usize
    requires { at ≤ length line.old }
    ensures { Put at (hex_text s.now) result line.old line.new }
{
    put_each(line, at, s, put_hex_byte)
}

// A space and the bytes; neither where there are none.
fn put_bytes(line: &mut [u8], at: usize, s: &[u8]) -> usize
    requires { at ≤ length line.old }
    ensures { Put at (bytes_text s.now) result line.old line.new }
{
    if s.is_empty() {
        return at;
    }
    let behind = put(line, at, b" ");
    put_hex(line, behind, s)
}

// The one form that every answer has.
fn put_answer(line: &mut [u8], word: &[u8], numbers: &[usize], bytes: &[u8]) -> usize
    ensures { Put 0 (answer_line word.now numbers.now bytes.now) result line.old line.new }
{
    let at = put(line, 0, word);
    let at = put_numbers(line, at, numbers);
    let at = put_bytes(line, at, bytes);
    put(line, at, b"\n")
}

// The word of its tag; a byte that is none has no word.
fn word_of(tag: u8) -> &'static [u8]
    ensures { result.now ≡ word_of tag }
{
    match Tag::try_from(tag) {
        Ok(tag) => tag.word(),
        Err(_) => b"",
    }
}

// Behind the word of its tag.
pub fn answer_with(line: &mut [u8], tag: u8, numbers: &[usize], bytes: &[u8]) -> usize
    ensures { Put 0 (answer_line (word_of tag) numbers.now bytes.now) result line.old line.new }
{
    put_answer(line, word_of(tag), numbers, bytes)
}

// Most answers show no bytes. A malformed record has no line.
pub fn answer(line: &mut [u8], tag: u8, told: Option<Told>) -> Option<usize>
    ensures { Put 0 (told_line tag (told_of told)) (unwrap_or result 0) line.old line.new }
{
    let told = told?;
    Some(answer_with(line, tag, told.numbers(), b""))
}

// A line of the book: bytes alone.
pub fn hex_line(line: &mut [u8], s: &[u8]) -> usize
    ensures { Put 0 (hex_line s.now) result line.old line.new }
{
    let at = put_hex(line, 0, s);
    put(line, at, b"\n")
}
