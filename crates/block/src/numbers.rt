// Little-endian numbers in bytes lent by the caller. A byte past the end counts as 0 when it is read and is passed over when it is written, as
// the definitions have it, so that no function here asks anything of lengths or offsets.
ghost use Rattle.std.specs.Prelude.{◌≡◌, ◌+◌, ◌*◌, ◌≤◌, min, length, slice_set};
ghost use Rattle.laws.specs.Bytes.{number, written, little};

pub fn byte_or_zero(s: &[u8], at: usize) -> u8
    ensures { result ≡ number 1 at s.now }
{
    s.get(at).copied().unwrap_or(0)
}

fn first_2(s: &[u8]) -> u16
    ensures { result ≡ number 2 0 s.now }
{
    if s.len() < 2 {
        return u16::from(byte_or_zero(s, 0));
    }
    u16::from_le_bytes([s[0], s[1]])
}

// Four bytes that are all there: no further test, and one load.
pub fn whole_4(s: &[u8], at: usize) -> u32
    requires { at + 4 ≤ length s.now }
    ensures { result ≡ number 4 at s.now }
{
    u32::from_le_bytes([s[at], s[at + 1], s[at + 2], s[at + 3]])
}

fn first_4(s: &[u8]) -> u32
    ensures { result ≡ number 4 0 s.now }
{
    if s.len() < 4 {
        return u32::from_le_bytes([
            byte_or_zero(s, 0),
            byte_or_zero(s, 1),
            byte_or_zero(s, 2),
            0,
        ]);
    }
    whole_4(s, 0)
}

// The rest of the slice is taken first: `at` plus a byte's place could pass the largest number.
pub fn number_2(s: &[u8], at: usize) -> u16
    ensures { result ≡ number 2 at s.now }
{
    if s.len() <= at {
        return 0;
    }
    first_2(&s[at..])
}

pub fn number_4(s: &[u8], at: usize) -> u32
    ensures { result ≡ number 4 at s.now }
{
    if s.len() <= at {
        return 0;
    }
    first_4(&s[at..])
}

pub fn put_byte(s: &mut [u8], at: usize, x: u8)
    ensures { s.new ≡ slice_set s.old at x }
{
    if at < s.len() {
        s[at] = x;
    }
}

fn write_first_2(s: &mut [u8], x: u16)
    ensures { s.new ≡ written 0 (little 2 x) s.old }
{
    let bytes = x.to_le_bytes();
    put_byte(s, 0, bytes[0]);
    put_byte(s, 1, bytes[1]);
}

fn write_first_4(s: &mut [u8], x: u32)
    ensures { s.new ≡ written 0 (little 4 x) s.old }
{
    let bytes = x.to_le_bytes();
    put_byte(s, 0, bytes[0]);
    put_byte(s, 1, bytes[1]);
    put_byte(s, 2, bytes[2]);
    put_byte(s, 3, bytes[3]);
}

pub fn write_2(s: &mut [u8], at: usize, x: u16)
    ensures { s.new ≡ written at (little 2 x) s.old }
{
    if at < s.len() {
        write_first_2(&mut s[at..], x);
    }
}

pub fn write_4(s: &mut [u8], at: usize, x: u32)
    ensures { s.new ≡ written at (little 4 x) s.old }
{
    if at < s.len() {
        write_first_4(&mut s[at..], x);
    }
}

// Over the first bytes, as far as both rows go. Byte by byte, since the library's copy takes the C library's `memmove`, which front ends need not have.
fn write_first(s: &mut [u8], v: &[u8])
    ensures { s.new ≡ written 0 v.now s.old }
{
    for i in 0..s.len().min(v.len()) {
        s[i] = v[i];
    }
}

pub fn write_bytes(s: &mut [u8], at: usize, v: &[u8])
    ensures { s.new ≡ written at v.now s.old }
{
    if at < s.len() {
        write_first(&mut s[at..], v);
    }
}
