// Digits, read from the first to the last and written from the last to the first: of quantity text, and of every number that the desk tells or is told.
ghost use Rattle.std.specs.Prelude.{◌≡◌, true, ◌+◌, ◌-◌, ◌<◌, ◌≤◌, length, take, set};
ghost use Rattle.laws.specs.Lists.{every};
ghost use Rattle.laws.specs.Bytes.{written};
ghost use Rattle.paper.specs.Ids.{digit};
ghost use Rattle.paper.specs.QuantityText.{leading_digits, decimal_from, last_digits};
ghost use Rattle.quantity.specs.Digits.{places_by};

use field::digit;

// Hands back with the count that these bytes are digits: no later function tests them again.
pub fn leading_digits(s: &[u8]) -> usize
    ensures { (result ≡ leading_digits s.now) × (result ≤ length s.now) × (every digit (take result s.now) ≡ true) }
{
    s.iter().position(|x| !digit(*x)).unwrap_or(s.len())
}

// Only of a byte known to be a digit: taking the digit 0 off it cannot wrap.
fn digit_value(x: u8) -> u32
    requires { digit x ≡ true }
    ensures { (result ≡ x - 48) × (result < 10) }
{
    (x - b'0') as u32
}

// At most five digits: no number that the desk reads has more.
pub fn decimal_from(s: &[u8]) -> u32
    requires { (length s.now ≤ 5) × (every digit s.now ≡ true) }
    ensures { (result ≡ decimal_from 0 s.now) × (result < 100000) }
{
    let mut a: u32 = 0;
    for x in s {
        a = 10 * a + digit_value(*x);
    }
    a
}

// A byte that would fall past the buffer's end is left out, so that printing has an answer for a buffer of any length.
pub fn put_byte(x: u8, at: usize, i: usize, buffer: &mut [u8])
    ensures { buffer.new ≡ set buffer.old (at + i) x }
{
    if buffer.len() <= at {
        return;
    }
    if buffer.len() - at <= i {
        return;
    }
    buffer[at + i] = x;
}

// From the last digit to the first: each is what is left of the number, modulo 10.
pub fn put_last_digits(k: usize, x: usize, at: usize, buffer: &mut [u8])
    ensures { buffer.new ≡ written at (last_digits k x) buffer.old }
{
    let mut rest = x;
    for i in (0..k).rev() {
        put_byte(b'0' + (rest % 10) as u8, at, i, buffer);
        rest /= 10;
    }
}

// How many digits a number has, with no needless leading zero; one more than `most` where it has as many or more.
pub fn places(most: usize, x: usize) -> usize
    requires { most < 20 }
    ensures { (result ≡ places_by most x) × (result ≤ most + 1) }
{
    let mut rest = x;
    for k in 0..most {
        if rest < 10 {
            return k + 1;
        }
        rest /= 10;
    }
    most + 1
}
