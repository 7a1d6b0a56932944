// A text's lines, a line's word and value, and the numbers that they say.
#![tactic(auto)]

ghost use Rattle.std.specs.Prelude.{◌≡◌, ◌+◌, ◌-◌, ◌<◌, ◌≤◌, length, drop};
ghost use Rattle.message_words.specs.Words.{before, behind, word, value, skipped, number_of, first_of, last_of};

use block::numbers::byte_or_zero;
use field::{length_before, part_before};
use quantity::quantity_read;

// Where what is behind the first x begins: at most at the end, where there is no x or nothing behind it.
fn start_behind(s: &[u8], x: u8) -> usize
    ensures { (drop result s.now ≡ behind x s.now) × (result ≤ length s.now) × (length s.now ≤ result + (length s.now - 1)) }
{
    (length_before(s, x) + 1).min(s.len())
}

pub fn part_behind(s: &[u8], x: u8) -> &[u8]
    ensures { result.now ≡ behind x s.now }
{
    let n = start_behind(s, x);
    &s[n..]
}

pub fn line_at(text: &[u8], at: usize) -> &[u8]
    requires { at ≤ length text.now }
    ensures { result.now ≡ before 10 (drop at text.now) }
{
    part_before(&text[at..], b'\n')
}

// Where the line behind the one at `at` begins. It lies further on: the reading comes to an end.
pub fn next_line(text: &[u8], at: usize) -> usize
    requires { at < length text.now }
    ensures { (drop result text.now ≡ behind 10 (drop at text.now)) × (at < result) × (result ≤ length text.now) }
{
    at + start_behind(&text[at..], b'\n')
}

pub fn word(line: &[u8]) -> &[u8]
    ensures { result.now ≡ word line.now }
{
    part_before(line, b' ')
}

pub fn value(line: &[u8]) -> &[u8]
    ensures { result.now ≡ value line.now }
{
    part_behind(line, b' ')
}

pub fn skipped(line: &[u8]) -> bool
    ensures { result ≡ skipped line.now }
{
    line.is_empty() | (byte_or_zero(line, 0) == b'#')
}

// 10,000, which the definition gives where there is no number, is more than any version, n or position: whoever takes the number refuses it by its own bound.
pub fn number_of(s: &[u8]) -> u32
    ensures { result ≡ number_of s.now }
{
    let read = quantity_read(s);
    if (read.number == 0) & (length_before(s, b'.') == s.len()) {
        return read.kilowatts / 1000;
    }
    10000
}

pub fn first_of(w: &[u8]) -> u32
    ensures { result ≡ first_of w.now }
{
    number_of(part_before(w, b'-'))
}

pub fn last_of(w: &[u8]) -> u32
    ensures { result ≡ last_of w.now }
{
    if length_before(w, b'-') == w.len() {
        return first_of(w);
    }
    number_of(part_behind(w, b'-'))
}
