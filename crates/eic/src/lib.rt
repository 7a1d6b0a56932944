// The check of a party or area code.
#![tactic(auto)]

ghost use Rattle.std.specs.Prelude.{◌≡◌, map, ◌*◌, ◌≤◌, length};
ghost use Rattle.laws.specs.Lists.{every};
ghost use Rattle.paper.specs.Eic.{character_value, allowed_in_front, eic_number, eic_number_of_two, eic_valid};
ghost use Rattle.eic.specs.Values.{known, weighted_values};

use field::{digit, hyphen, letter, part_of};

// 255 is the mark of a byte that is no character of an EIC. With no return in between the compiler works all sixteen of a code out at once.
fn character_value(x: u8) -> u8
    ensures { result ≡ character_value x }
{
    let mut value = 255;
    if hyphen(x) {
        value = 36;
    }
    if letter(x) {
        value = x - b'A' + 10;
    }
    if digit(x) {
        value = x - b'0';
    }
    value
}

fn values_of(s: &[u8]) -> [u8; 16]
    requires { length s.now ≡ 16 }
    ensures { result ≡ map character_value s.now }
{
    let mut values = [0u8; 16];
    for i in 0..16 {
        values[i] = character_value(s[i]);
    }
    values
}

// At most 16 · 255, so that no sum of sixteen overflows.
fn term(weight: u16, value: u8) -> u16
    requires { weight ≤ 16 }
    ensures { (result ≡ weight * value) × (result ≤ 4080) }
{
    weight * (value as u16)
}

// The sum of all sixteen at weights 16 down to 1.
fn sum_of(values: &[u8]) -> u16
    requires { length values.now ≡ 16 }
    ensures { result ≡ weighted_values 16 values.now }
{
    let mut sum: u16 = 0;
    let mut weight: u16 = 16;
    for value in values {
        sum += term(weight, *value);
        weight -= 1;
    }
    sum
}

fn all_known(values: &[u8]) -> bool
    ensures { result ≡ every known values.now }
{
    let mut ok = true;
    for value in values {
        ok = ok & (*value != 255);
    }
    ok
}

// Any length is answered: what is not sixteen bytes is no EIC. The sixteenth character is the one due exactly where the sum of all sixteen is a multiple
// of 37. Fifteen zeros are refused: with a zero behind them the sum is 0, and with any other character it is no multiple of 37.
pub fn eic_valid(s: &[u8]) -> bool
    ensures { result ≡ eic_valid s.now }
{
    if s.len() != 16 {
        return false;
    }
    let values = values_of(s);
    let sum = sum_of(&values);
    all_known(&values) & (sum != 0) & !hyphen(s[15]) & (sum % 37 == 0)
}

// Up to the first of the first fifteen that has no value, or to the end.
fn allowed_in_front(s: &[u8]) -> usize
    ensures { result ≡ allowed_in_front s.now }
{
    let front = part_of(s, 0, 15);
    front
        .iter()
        .position(|x| character_value(*x) == 255)
        .unwrap_or(front.len())
}

// Of a good code no more is asked than whether it is valid.
pub fn eic_number(s: &[u8]) -> u8
    ensures { result ≡ eic_number s.now }
{
    if eic_valid(s) {
        return 0;
    }
    let k = allowed_in_front(s);
    if k < 15 { (k + 1) as u8 } else { 16 }
}

// The second is judged where the first is good.
pub fn number_of_two(first: &[u8], second: &[u8]) -> u8
    ensures { result ≡ eic_number_of_two first.now second.now }
{
    let n = eic_number(first);
    if n != 0 {
        return n;
    }
    eic_number(second)
}
