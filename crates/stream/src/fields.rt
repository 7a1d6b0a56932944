// The fields of a body. A name is a byte with its length, at most 64, and that many bytes.
ghost use Rattle.std.specs.Prelude.{◌≡◌, unwrap_or};
ghost use Rattle.stream.specs.Fields.{rest_from, name_at, name_end, NameFrom};

use block::numbers::byte_or_zero;
use field::part_of;

// The place behind the name that starts at `at`.
pub fn name_end(body: &[u8], at: usize) -> Option<usize>
    ensures { unwrap_or result 18446744073709551615 ≡ name_end body.now at }
{
    let n = byte_or_zero(body, at) as usize;
    if (64 < n) | (body.len().checked_sub(at)? <= n) {
        return None;
    }
    Some(at + 1 + n)
}

// The name that starts at `at`, without its length.
pub fn name(body: &[u8], at: usize) -> &[u8]
    ensures { result.now ≡ name_at body.now at }
{
    let rest = rest_from(body, at);
    part_of(rest, 1, byte_or_zero(rest, 0) as usize)
}

// The name that starts at `at`, and the place behind it.
pub fn name_from(body: &[u8], at: usize) -> Option<(&[u8], usize)>
    ensures { NameFrom body.now at result }
{
    let end = name_end(body, at)?;
    Some((name(body, at), end))
}

pub fn rest_from(body: &[u8], at: usize) -> &[u8]
    ensures { result.now ≡ rest_from body.now at }
{
    part_of(body, at, body.len())
}
