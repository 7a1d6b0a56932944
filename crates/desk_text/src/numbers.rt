// Numbers as decimal text, written and read.
// Buffers have a fixed length here, since the desk has no heap.
ghost use Rattle.std.specs.Prelude.{◌≡◌, ◌≤◌};
ghost use Rattle.paper.specs.QuantityText.{last_digits};
ghost use Rattle.desk_text.specs.Put.{Put};
ghost use Rattle.desk_text.specs.Numbers.{number_text, difference_text, minute_text, number_read, minute_after, minute_before, minute_read};

use crate::put::put;
use field::all_digits;
use paper::Minute;
use quantity::digits::{decimal_from, places, put_last_digits};

// The last k digits, of 20 at most.
pub fn put_digits(line: &mut [u8], at: usize, k: usize, x: usize) -> usize
    requires { k ≤ 20 }
    ensures { Put at (last_digits k x) result line.old line.new }
{
    let mut digits = [0u8; 20];
    put_last_digits(k, x, 0, &mut digits);
    put(line, at, &digits[..k])
}

// No number of eight bytes has more than 20 digits.
pub fn put_number(line: &mut [u8], at: usize, x: usize) -> usize
    ensures { Put at (number_text x) result line.old line.new }
{
    put_digits(line, at, places(19, x), x)
}

// One number less another, with a minus where that is below 0.
pub fn put_difference(line: &mut [u8], at: usize, a: usize, b: usize) -> usize
    ensures { Put at (difference_text a b) result line.old line.new }
{
    if a < b {
        let minus = put(line, at, b"-");
        return put_number(line, minus, b - a);
    }
    put_number(line, at, a - b)
}

// Minutes are told from the day's start, which the day block keeps as 10,080.
pub fn put_minute(line: &mut [u8], at: usize, minute: Minute) -> usize
    ensures { Put at (minute_text minute.0) result line.old line.new }
{
    put_difference(line, at, minute.0 as usize, 10080)
}

// One to five digits and nothing else.
pub fn number_read(s: &[u8]) -> Option<u32>
    ensures { result ≡ number_read s.now }
{
    if s.is_empty() || 5 < s.len() || !all_digits(s) {
        return None;
    }
    Some(decimal_from(s))
}

// A minute out of range is put as one that no clock keeps, so that the clock's call refuses it.
fn minute_after(x: u32) -> Minute
    ensures { result ≡ minute_after x }
{
    if 1500 < x {
        return Minute(65535);
    }
    Minute(10080 + x as u16)
}

fn minute_before(x: u32) -> Minute
    ensures { result ≡ minute_before x }
{
    if 10080 < x {
        return Minute(65535);
    }
    Minute(10080 - x as u16)
}

// Minutes from the day's start; a minus before those that lie before it.
pub fn minute_read(s: &[u8]) -> Option<Minute>
    ensures { result ≡ minute_read s.now }
{
    match s.strip_prefix(b"-") {
        Some(rest) => number_read(rest).map(minute_before),
        None => number_read(s).map(minute_after),
    }
}
