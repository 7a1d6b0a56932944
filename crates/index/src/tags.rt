// Numbers made of fields: two fields are compared byte by byte only where their numbers agree.
ghost use Rattle.std.specs.Prelude.{◌≡◌};
ghost use Rattle.index.specs.Tags.{mixed, tag_of, pair_tag_of, key_tag_of};

use block::numbers::number_4;
use field::part_of;

// Two numbers in one: the second added to the first times a prime.
fn mixed(t: u32, w: u32) -> u32
    ensures { result ≡ mixed t w }
{
    t.wrapping_mul(1000003).wrapping_add(w)
}

// Of a field of sixteen bytes: their four numbers are read with no further test.
pub fn tag_of(s: &[u8]) -> u32
    ensures { result ≡ tag_of s.now }
{
    if s.len() < 16 {
        return 0;
    }
    mixed(
        mixed(mixed(number_4(s, 0), number_4(s, 4)), number_4(s, 8)),
        number_4(s, 12),
    )
}

// Of a pair of parties, or of a single field.
pub fn pair_tag_of(p: &[u8]) -> u32
    ensures { result ≡ pair_tag_of p.now }
{
    mixed(tag_of(part_of(p, 0, 16)), tag_of(part_of(p, 16, 16)))
}

// Of a pair and an agreement, or of fewer fields.
pub fn key_tag_of(k: &[u8]) -> u32
    ensures { result ≡ key_tag_of k.now }
{
    mixed(pair_tag_of(part_of(k, 0, 32)), tag_of(part_of(k, 32, 16)))
}
