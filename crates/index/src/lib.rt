// Series found by their id, by their key or by the parties of a trade. Blocks are linked in buckets by a number made of these bytes, so that a search
// looks at few blocks, however many there are.
// Rows have a fixed length here, since the desk has no heap; 0 stands for no place, as in the book's own fields.
#![tactic(auto)]

ghost use Rattle.std.specs.Prelude.{◌≡◌, Bool, List, ℕ, ◌/◌, ◌≤◌, ◌<◌, length, IfSome};
ghost use Rattle.std.specs.Fn.{FnReturnsAt};
ghost use Rattle.laws.specs.Lists.{place};
ghost use Rattle.laws.specs.Cut.{cut};
ghost use Rattle.paper.specs.Layout.{Block};
ghost use Rattle.index.specs.Ahead.{Ahead};
ghost use Rattle.index.specs.Linked.{bucket, hashed, alike, own_in, series_in, Links, Told, own_with, FoundBy, Found};

use field::same;
use layout::{id_of, pair, parties_and_agreement};
use paper::Slot;
use slots::{block_at, is_series, is_series_of, same_key, same_trade};

pub mod buckets;
pub mod rights;
pub mod tags;

use buckets::{Buckets, link};
use tags::key_tag_of;

// One of 1,024.
pub fn bucket(v: &[u8]) -> usize
    ensures { (result ≡ bucket v.now) × (result < 1024) }
{
    (key_tag_of(v) / 4194304) as usize
}

// What a series is sought by.
#[derive(Clone, Copy)]
pub enum By {
    Id,
    Key,
    Trade,
}

// The series of a message lie in no sender's slot.
pub const IN_MESSAGE: Slot = Slot(0);

// What its bucket is made of.
fn hashed(by: By, x: &[u8]) -> &[u8]
    ensures { result.now ≡ hashed by x.now }
{
    match by {
        By::Id => id_of(x),
        By::Key => parties_and_agreement(x),
        By::Trade => pair(x),
    }
}

// A bucket holds others too, which are told apart here.
fn alike(by: By, y: &[u8], x: &[u8]) -> bool
    ensures { result ≡ alike by y.now x.now }
{
    match by {
        By::Id => same(id_of(x), id_of(y)),
        By::Key => same_key(x, y),
        By::Trade => same_trade(y, x),
    }
}

// A place in the width of an index.
pub fn wide(place: u16) -> usize
    ensures { result ≡ place }
{
    place as usize
}

// The bucket of a series of the sender.
fn own_bucket(x: &[u8], slot: Slot, by: By) -> Option<usize>
    ensures { Told (own_in slot.0 by) x.now result × IfSome result (λ g. g < 1024) }
{
    is_series_of(x, slot).then(|| bucket(hashed(by, x)))
}

// The series of the sender in a slot.
pub fn link_own(us: &[u8], slot: Slot, by: By) -> Buckets
    requires { length us.now / 512 ≤ 1000 }
    ensures links { Links (own_in slot.0 by) (cut 512 us.now) 0 result.heads result.nexts }
    ensures ahead { Ahead result.heads result.nexts }
{
    link(us, |x| own_bucket(x, slot, by))
}

fn is_own_with(x: &[u8], slot: Slot, by: By, y: &[u8]) -> bool
    ensures { result ≡ own_with slot.0 by y.now x.now }
{
    is_series_of(x, slot) & alike(by, y, x)
}

// The place of the first of them that has what y is sought by; 0 where none has it.
pub fn own_with(us: &[u8], slot: Slot, by: By, y: &[u8], buckets: &Buckets) -> usize
    requires { Links (own_in slot.0 by) (cut 512 us.now) 0 buckets.now.heads buckets.now.nexts }
    ensures { (result ≡ place (own_with slot.0 by y.now) (cut 512 us.now)) × (result ≤ 1000) }
{
    buckets.find(
        bucket(hashed(by, y)),
        |i| is_own_with(block_at(us, i), slot, by, y),
    )
}

// Of each block of `of` the place that `find` gives, for as many turns as there are blocks.
fn find_each<F: Fn(&[u8]) -> u16>(of: &[u8], find: F, found: &mut [u16; 1000])
    requires { F.IsAlwaysCallable find × (length of.now / 512 ≤ 1000) × (length found.old ≡ 1000) }
    ensures { (sought : Block → Block → Bool) (l : List Block) → ((y : Block) (n : ℕ) → FnReturnsAt F.Fn find y n → n ≡ place (sought y) l) → FoundBy sought l (cut 512 of.now) found.new }
{
    for k in 0..of.len() / 512 {
        found[k] = find(block_at(of, k));
    }
}

// Of each block of `of` the place in `us` of the first series, of the sender in a slot, with the same id, the same key or the same parties of a
// trade; 0 where there is none.
pub fn look_up(us: &[u8], slot: Slot, by: By, of: &[u8], found: &mut [u16; 1000])
    requires { (length us.now / 512 ≤ 1000) × (length of.now / 512 ≤ 1000) × (length found.old ≡ 1000) }
    ensures { Found slot.0 by (cut 512 us.now) (cut 512 of.now) found.new }
{
    let buckets = link_own(us, slot, by);
    find_each(of, |y| own_with(us, slot, by, y, &buckets) as u16, found);
}

// The bucket of a series.
fn series_bucket(x: &[u8]) -> Option<usize>
    ensures { Told series_in x.now result × IfSome result (λ g. g < 1024) }
{
    is_series(x).then(|| bucket(pair(x)))
}

// All series, whosever they are, by their pair.
pub fn link_series(us: &[u8]) -> Buckets
    requires { length us.now / 512 ≤ 1000 }
    ensures links { Links series_in (cut 512 us.now) 0 result.heads result.nexts }
    ensures ahead { Ahead result.heads result.nexts }
{
    link(us, |x| series_bucket(x))
}

#[cfg(test)]
mod tests {
    use super::*;

    // The first and the third of three blocks are alike, and the second is of no bucket: nothing leads from a block on but from the first to the third.
    #[test]
    fn third_behind_first(rt: HostRuntime) {
        let mut us = [0; 1536];
        for i in [0, 1024] {
            us[i] = 2;
            us[i + 6] = 1;
        }
        let mut heads = [0; 1024];
        heads[bucket(pair(&us))] = 1;
        let mut nexts = [0; 1000];
        nexts[0] = 3;
        for links in [link_series(&us), link_own(&us, Slot(1), By::Trade)] {
            assert_eq!(rt; links.heads, heads);
            assert_eq!(rt; links.nexts, nexts);
        }
    }
}
