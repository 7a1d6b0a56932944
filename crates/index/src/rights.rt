// Of each series on a right that right: those that its sender holds are linked by their agreement, so that a series looks at few of them.
// Rows have a fixed length here, since the desk has no heap; 0 stands for no place, as in the book's own fields.
ghost use Rattle.std.specs.Prelude.{◌≡◌, ◌/◌, ◌≤◌, ◌<◌, length, IfSome};
ghost use Rattle.laws.specs.Lists.{place};
ghost use Rattle.laws.specs.Cut.{cut};
ghost use Rattle.paper.specs.Rules.{names};
ghost use Rattle.index.specs.Ahead.{Ahead};
ghost use Rattle.index.specs.Linked.{Links, Told};
ghost use Rattle.index.specs.Rights.{right_in, is_right_for, FoundRights};

use super::buckets::{Buckets, link};
use super::{bucket, find_each};
use field::same;
use layout::{agreement, contract_type, in_area, out_area};
use slots::{block_at, is_right, is_right_of, with_capacity};

// The bucket of a right that e holds. Most blocks are no rights: of those no party is compared.
fn right_bucket(x: &[u8], e: &[u8]) -> Option<usize>
    ensures { Told (right_in e.now) x.now result × IfSome result (λ g. g < 1024) }
{
    (is_right(x) && is_right_of(x, e)).then(|| bucket(agreement(x)))
}

// All rights that e holds.
fn link_rights(us: &[u8], e: &[u8]) -> Buckets
    requires { length us.now / 512 ≤ 1000 }
    ensures links { Links (right_in e.now) (cut 512 us.now) 0 result.heads result.nexts }
    ensures ahead { Ahead result.heads result.nexts }
{
    link(us, |x| right_bucket(x, e))
}

// The parties of a series do not matter: what it names is the direction, the contract type and the agreement.
fn names(y: &[u8], r: &[u8]) -> bool
    ensures { result ≡ names y.now r.now }
{
    same(in_area(y), in_area(r))
        & same(out_area(y), out_area(r))
        & (contract_type(y) == contract_type(r))
        & same(agreement(y), agreement(r))
}

fn is_right_for(r: &[u8], e: &[u8], y: &[u8]) -> bool
    ensures { result ≡ is_right_for e.now y.now r.now }
{
    is_right_of(r, e) & (with_capacity(y) & names(y, r))
}

// The place of the right that y names; 0 where e holds none of that name. A series that is on no right is not sought for.
fn right_of(us: &[u8], e: &[u8], y: &[u8], buckets: &Buckets) -> usize
    requires { Links (right_in e.now) (cut 512 us.now) 0 buckets.now.heads buckets.now.nexts }
    ensures { (result ≡ place (is_right_for e.now y.now) (cut 512 us.now)) × (result ≤ 1000) }
{
    if !with_capacity(y) {
        return 0;
    }
    buckets.find(
        bucket(agreement(y)),
        |i| is_right_for(block_at(us, i), e, y),
    )
}

// Of each series the place, among the used slots, of the right on which e sends it; 0 where there is none.
pub fn look_up_rights(us: &[u8], e: &[u8], series: &[u8], found: &mut [u16; 1000])
    requires { (length us.now / 512 ≤ 1000) × (length series.now / 512 ≤ 1000) × (length found.old ≡ 1000) }
    ensures { FoundRights e.now (cut 512 us.now) (cut 512 series.now) found.new }
{
    let buckets = link_rights(us, e);
    find_each(series, |y| right_of(us, e, y, &buckets) as u16, found);
}
