// The pieces that lines are made of: a word with its number or its field, a code.
ghost use Rattle.std.specs.Prelude.{◌++◌};
ghost use Rattle.desk_text.specs.Put.{Put};
ghost use Rattle.desk_text.specs.Pieces.{worded, named, code_text};

use super::numbers::{put_digits, put_number};
use super::put::put;

pub fn put_worded(line: &mut [u8], at: usize, word: &[u8], x: usize) -> usize
    ensures { Put at (worded word.now x) result line.old line.new }
{
    let behind = put(line, at, word);
    put_number(line, behind, x)
}

// Nothing where the number is 0.
pub fn put_named(line: &mut [u8], at: usize, word: &[u8], x: usize) -> usize
    ensures { Put at (named word.now x) result line.old line.new }
{
    if x == 0 {
        return put(line, at, b"");
    }
    put_worded(line, at, word, x)
}

// A04 keeps its zero.
pub fn put_code(line: &mut [u8], at: usize, code: u8) -> usize
    ensures { Put at (code_text code) result line.old line.new }
{
    if code == 0 {
        return put(line, at, b"");
    }
    let behind = put(line, at, b" A");
    put_digits(line, behind, 2, code as usize)
}

// A word, and a field as it stands.
pub fn put_field(line: &mut [u8], at: usize, word: &[u8], s: &[u8]) -> usize
    ensures { Put at (word.now ++ s.now) result line.old line.new }
{
    let behind = put(line, at, word);
    put(line, behind, s)
}
