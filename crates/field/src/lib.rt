// Parts of blocks, and the fields that stand in them: sixteen bytes of an id or of a code, eight digits of a day.
#![tactic(auto)]

ghost use Rattle.std.specs.Prelude.{◌≡◌, ◌≤◌, min, length, take};
ghost use Rattle.laws.specs.Tests.{◌and◌, is};
ghost use Rattle.laws.specs.Lists.{same, every, until};
ghost use Rattle.laws.specs.Bytes.{part};
ghost use Rattle.paper.specs.Layout.{zeros};
ghost use Rattle.paper.specs.Ids.{digit, letter, hyphen, id_character, id_text, id_well_formed, day_well_formed};

// No offset is refused: where the slice ends, the part is shorter or empty, as an absent block's is.
pub fn part_of(s: &[u8], at: usize, n: usize) -> &[u8]
    ensures { result.now ≡ part at n s.now }
{
    if s.len() <= at {
        return &s[..0];
    }
    if s.len() - at <= n {
        return &s[at..];
    }
    &s[at..at + n]
}

// n, or where the buffer has fewer bytes as many as it has: `&buffer[..k]` takes such a k with no proof, by what is said last of it.
pub fn within(n: usize, buffer: &[u8]) -> usize
    ensures { (result ≡ min n (length buffer.now)) × (result ≤ length buffer.now) × (result ≡ length (take result buffer.now)) }
{
    n.min(buffer.len())
}

// Looks at every byte, whatever it finds: so several go in one step of the machine.
fn same_bytes(a: &[u8], b: &[u8]) -> bool
    requires { length a.now ≡ length b.now }
    ensures { result ≡ same a.now b.now }
{
    let mut ok = true;
    for i in 0..a.len() {
        ok = ok & (a[i] == b[i]);
    }
    ok
}

// The one comparison of fields: of ids, codes, pairs of parties, days, quantities. Sixteen bytes at a time, since ids and codes have
// as many; it stops at the first sixteen that differ. The library's comparison is never laid into a loop, which all searches feel.
#[inline(always)]
pub fn same(a: &[u8], b: &[u8]) -> bool
    ensures { result ≡ same a.now b.now }
{
    if a.len() != b.len() {
        return false;
    }
    let whole = a.len() / 16;
    for k in 0..whole {
        let at = 16 * k;
        if !same_bytes(&a[at..at + 16], &b[at..at + 16]) {
            return false;
        }
    }
    let end = 16 * whole;
    same_bytes(&a[end..], &b[end..])
}

// For the bytes that the layout shows as 0, and for free slots, up to hundreds of thousands at a time: it looks at every byte, whatever it finds, so
// that many go in one step of the machine, and keeps the largest.
pub fn all_zero(s: &[u8]) -> bool
    ensures { result ≡ zeros s.now }
{
    let mut most: u8 = 0;
    for x in s {
        most = most.max(*x);
    }
    most == 0
}

// 0–9, in ids, codes and days.
pub fn digit(x: u8) -> bool
    ensures { result ≡ digit x }
{
    x.is_ascii_digit()
}

// A–Z: no small letter stands in an id or a code.
pub fn letter(x: u8) -> bool
    ensures { result ≡ letter x }
{
    x.is_ascii_uppercase()
}

// Stands in ids and in codes, though never as a code's sixteenth character.
pub fn hyphen(x: u8) -> bool
    ensures { result ≡ hyphen x }
{
    x == b'-'
}

// An id is of "A–Z, 0–9 and hyphen".
fn id_character(x: u8) -> bool
    ensures { result ≡ id_character x }
{
    letter(x) | digit(x) | hyphen(x)
}

// Of an id's text, which ends before the zero bytes.
fn all_id_characters(s: &[u8]) -> bool
    ensures { result ≡ every id_character s.now }
{
    s.iter().all(|x| id_character(*x))
}

// Of a day, and of a number as text.
pub fn all_digits(s: &[u8]) -> bool
    ensures { result ≡ every digit s.now }
{
    s.iter().all(|x| digit(*x))
}

// How many bytes stand before the first x, all of them where there is none: an id goes up to its first zero byte, a line up to its end.
pub fn length_before(s: &[u8], x: u8) -> usize
    ensures { (result ≡ length (until (λ y. is y x) s.now)) × (result ≤ length s.now) }
{
    s.iter().position(|y| *y == x).unwrap_or(s.len())
}

pub fn part_before(s: &[u8], x: u8) -> &[u8]
    ensures { result.now ≡ until (λ y. is y x) s.now }
{
    part_of(s, 0, length_before(s, x))
}

// An id as it is shown, without its zero bytes.
pub fn id_text(s: &[u8]) -> &[u8]
    ensures { result.now ≡ id_text s.now }
{
    part_before(s, 0)
}

// An id is "1 to 16 of A–Z, 0–9 and hyphen, then zero bytes": nothing stands behind its first zero byte.
pub fn id_well_formed(s: &[u8]) -> bool
    ensures { result ≡ id_well_formed s.now }
{
    let n = length_before(s, 0);
    (s.len() == 16) & (1 <= n) & all_id_characters(&s[..n]) & all_zero(&s[n..])
}

// "Eight digits; the calendar isn't consulted."
pub fn day_well_formed(s: &[u8]) -> bool
    ensures { result ≡ day_well_formed s.now }
{
    (s.len() == 8) & all_digits(s)
}
