// The check of a block: "take 32 times the check, less the check, plus the byte", by wrapping sums and one wrapping difference.
ghost use Rattle.std.specs.Prelude.{◌≡◌, ◌+◌, ◌*◌, ◌%◌, ◌≤◌, length};
ghost use Rattle.laws.specs.Tests.{◌and◌};
ghost use Rattle.laws.specs.Lists.{every};
ghost use Rattle.laws.specs.Bytes.{part};
ghost use Rattle.laws.specs.Cut.{cut};
ghost use Rattle.paper.specs.Check.{check_step, check_from, check_of, check_right, sealed};

use super::numbers::{number_4, whole_4, write_4};

// 32 times x, less x: five doublings and a difference.
fn thirty_one_times(x: u32) -> u32
    ensures { result ≡ (31 * x) % 4294967296 }
{
    let x2 = x.wrapping_add(x);
    let x4 = x2.wrapping_add(x2);
    let x8 = x4.wrapping_add(x4);
    let x16 = x8.wrapping_add(x8);
    let x32 = x16.wrapping_add(x16);
    x32.wrapping_sub(x)
}

pub fn check_step(c: u32, byte: u8) -> u32
    ensures { result ≡ check_step c byte }
{
    thirty_one_times(c).wrapping_add(byte as u32)
}

// Four steps. The check waits for none of the four bytes' own sums, and a compiler makes one multiplication of doublings of doublings: each byte
// costs less than a step by itself.
fn check_four_bytes(c: u32, w: u8, x: u8, y: u8, z: u8) -> u32
    ensures { result ≡ check_step (check_step (check_step (check_step c w) x) y) z }
{
    let four = thirty_one_times(thirty_one_times(thirty_one_times(thirty_one_times(c))));
    let three = thirty_one_times(thirty_one_times(thirty_one_times(w as u32)));
    let two = thirty_one_times(thirty_one_times(x as u32));
    let one = thirty_one_times(y as u32).wrapping_add(z as u32);
    four.wrapping_add(three.wrapping_add(two.wrapping_add(one)))
}

fn check_four_at(c: u32, s: &[u8], i: usize) -> u32
    requires { i + 4 ≤ length s.now }
    ensures { result ≡ check_from c (part i 4 s.now) }
{
    check_four_bytes(c, s[i], s[i + 1], s[i + 2], s[i + 3])
}

// The check after some bytes, taken singly.
fn check_from(check: u32, s: &[u8]) -> u32
    ensures { result ≡ check_from check s.now }
{
    let mut c = check;
    for x in s {
        c = check_step(c, *x);
    }
    c
}

pub fn check_bytes(s: &[u8]) -> u32
    ensures { result ≡ check_from 0 s.now }
{
    let mut c: u32 = 0;
    for four in s.chunks_exact(4) {
        c = check_four_at(c, four, 0);
    }
    check_from(c, s.chunks_exact(4).remainder())
}

// Bytes 0 to 507, or all there are of a shorter block.
pub fn check_of(block: &[u8]) -> u32
    ensures { result ≡ check_of block.now }
{
    if block.len() < 508 {
        return check_bytes(block);
    }
    check_bytes(&block[..508])
}

pub fn check_right(block: &[u8]) -> bool
    ensures { result ≡ check_right block.now }
{
    number_4(block, 508) == check_of(block)
}

pub fn seal(block: &mut [u8])
    ensures { block.new ≡ sealed block.old }
{
    let check = check_of(block);
    write_4(block, 508, check);
}

// Four blocks in a row, side by side: no lane waits for another, and one count serves all.
fn four_right(s: &[u8]) -> bool
    requires { length s.now ≡ 2048 }
    ensures { result ≡ (check_right (part 0 512 s.now) and (check_right (part 512 512 s.now) and (check_right (part 1024 512 s.now) and check_right (part 1536 512 s.now)))) }
{
    let mut a: u32 = 0;
    let mut b: u32 = 0;
    let mut c: u32 = 0;
    let mut d: u32 = 0;
    for k in 0..127 {
        let i = 4 * k;
        a = check_four_at(a, s, i);
        b = check_four_at(b, s, 512 + i);
        c = check_four_at(c, s, 1024 + i);
        d = check_four_at(d, s, 1536 + i);
    }
    (whole_4(s, 508) == a)
        & ((whole_4(s, 1020) == b) & ((whole_4(s, 1532) == c) & (whole_4(s, 2044) == d)))
}

// Bytes behind the last whole block are no block.
fn checks_right_singly(s: &[u8]) -> bool
    ensures { result ≡ every check_right (cut 512 s.now) }
{
    s.chunks_exact(512).all(|block| check_right(block))
}

// The check of every block, four side by side as long as there are four.
pub fn checks_right(s: &[u8]) -> bool
    ensures { result ≡ every check_right (cut 512 s.now) }
{
    let mut right = true;
    for four in s.chunks_exact(2048) {
        right = right & four_right(four);
    }
    right & checks_right_singly(s.chunks_exact(2048).remainder())
}
