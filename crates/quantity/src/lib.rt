// Quantity text: 1 to 4 digits of megawatts, then optionally a point and 1 to 3 digits. Inside the desk quantities are kilowatts.
#![tactic(auto)]

ghost use Rattle.std.specs.Prelude.{◌≡◌, ◌<◌, ◌≤◌, length};
ghost use Rattle.laws.specs.Bytes.{written};
ghost use Rattle.paper.specs.QuantityText.{worth, past_point, past_whole, unsigned_read, quantity_read};
ghost use Rattle.quantity.specs.Told.{read_of, told};
ghost use Rattle.paper.specs.QuantityText.{width_of, decimal, quantity_text, quantity_printed, printed_into};

use digits::{decimal_from, leading_digits, places, put_byte, put_last_digits};
use paper::{QuantityPrinted, QuantityRead};

pub mod digits;

// Why a text says no quantity.
#[derive(Clone, Copy, PartialEq, Eq)]
pub enum NoQuantity {
    NotText,
    Negative,
}

// A kilowatt is the third digit after the point: nothing is rounded.
fn worth(m: usize) -> u32
    ensures { (result ≡ worth m) × (result ≤ 100) }
{
    if m == 1 {
        return 100;
    }
    if m == 2 {
        return 10;
    }
    1
}

// Nothing may follow the digits, and a fourth would be worth less than a kilowatt.
fn past_point(w: u32, s: &[u8]) -> Option<u32>
    requires { w < 100000 }
    ensures { read_of result ≡ past_point w s.now }
{
    let m = leading_digits(s);
    if m < 1 {
        return None;
    }
    if 3 < m {
        return None;
    }
    if m != s.len() {
        return None;
    }
    Some(1000 * w + decimal_from(s) * worth(m))
}

// Whole megawatts need no point; but a point must be followed by digits.
fn past_whole(w: u32, s: &[u8]) -> Option<u32>
    requires { w < 100000 }
    ensures { read_of result ≡ past_whole w s.now }
{
    if s.is_empty() {
        return Some(1000 * w);
    }
    match s.strip_prefix(b".") {
        Some(decimals) => past_point(w, decimals),
        None => None,
    }
}

// "1 to 4 digits": no text says more than 9,999,999 kilowatts.
fn unsigned_read(s: &[u8]) -> Option<u32>
    ensures { read_of result ≡ unsigned_read s.now }
{
    let m = leading_digits(s);
    if m < 1 {
        return None;
    }
    if 4 < m {
        return None;
    }
    let w = decimal_from(&s[..m]);
    past_whole(w, &s[m..])
}

// A minus is looked for first: it tells a negative quantity from text that is none. What is no quantity text without its minus is none with it.
pub fn kilowatts_of(s: &[u8]) -> Result<u32, NoQuantity>
    ensures { told result ≡ quantity_read s.now }
{
    match s.strip_prefix(b"-") {
        Some(rest) => match unsigned_read(rest) {
            Some(_) => Err(NoQuantity::Negative),
            None => Err(NoQuantity::NotText),
        },
        None => unsigned_read(s).ok_or(NoQuantity::NotText),
    }
}

// With the numbers of the desk's answers, as C takes it; a refusal says no quantity.
pub fn quantity_read(s: &[u8]) -> QuantityRead
    ensures { result ≡ quantity_read s.now }
{
    match kilowatts_of(s) {
        Ok(kilowatts) => QuantityRead {
            number: 0,
            kilowatts,
        },
        Err(NoQuantity::NotText) => QuantityRead {
            number: 30,
            kilowatts: 0,
        },
        Err(NoQuantity::Negative) => QuantityRead {
            number: 31,
            kilowatts: 0,
        },
    }
}

// No quantity has more than four digits before the point.
fn width_of(x: u32) -> usize
    ensures { (result ≡ width_of x) × (result ≤ 4) }
{
    places(3, x as usize)
}

// Used by the listing too. Answers how long the text is, which may be more than the buffer holds from there on.
pub fn decimal(x: u32, at: usize, buffer: &mut [u8]) -> usize
    ensures { (result ≡ length (decimal x)) × (result ≤ 4) × (buffer.new ≡ written at (decimal x) buffer.old) }
{
    let k = width_of(x);
    put_last_digits(k, x as usize, at, buffer);
    k
}

// The point stands where the whole megawatts end; three digits always follow it.
fn put_text(kilowatts: u32, buffer: &mut [u8])
    ensures { buffer.new ≡ written 0 (quantity_text kilowatts) buffer.old }
{
    let k = decimal(kilowatts / 1000, 0, buffer);
    put_byte(b'.', k, 0, buffer);
    put_last_digits(3, (kilowatts % 1000) as usize, k + 1, buffer);
}

// Both refusals are decided before the first byte is written.
pub fn quantity_print(kilowatts: u32, buffer: &mut [u8]) -> QuantityPrinted
    ensures { (result ≡ quantity_printed kilowatts (length buffer.old)) × (buffer.new ≡ printed_into kilowatts buffer.old) }
{
    if 9999999 < kilowatts {
        return QuantityPrinted {
            number: 30,
            length: 0,
        };
    }
    let length = width_of(kilowatts / 1000) + 4;
    if buffer.len() < length {
        return QuantityPrinted {
            number: 32,
            length: 0,
        };
    }
    put_text(kilowatts, buffer);
    QuantityPrinted { number: 0, length }
}
