// The marks of "Marks and finals", worked out afresh: a series' counterpart among the used slots, at how many positions the two differ
// and the first of these, and the mark that this gives.
#![tactic(auto)]

ghost use Rattle.std.specs.Prelude.{◌≡◌, ◌≤◌};
ghost use Rattle.std.specs.Option.{unwrap_or};
ghost use Rattle.laws.specs.Cut.{cut};
ghost use Rattle.paper.specs.Layout.{quantities};
ghost use Rattle.paper.specs.Book.{trade};
ghost use Rattle.paper.specs.Marks.{is_counterpart, counterpart_slot, differences, first_difference, mark_in};
ghost use Rattle.paper.specs.PlainRun.{mark_true};
ghost use Rattle.index.specs.Linked.{series_in, Links};

use field::same;
use index::bucket;
use index::buckets::Buckets;
use layout::{mark, pair, quantities, quantity, senders_slot};
use paper::Slot;
use slots::{block_at, is_series, is_trade, numbered, same_trade};

// y is the other side of x, a series of the sender in a slot. An external schedule has no other side, and is none.
fn is_counterpart(y: &[u8], slot: Slot, x: &[u8]) -> bool
    ensures { result ≡ is_counterpart slot.0 (trade x.now) y.now }
{
    is_series(y) && senders_slot(y) != slot && same_trade(x, y)
}

// The slot of the other party's series; 0 where it has none, as an external schedule never has. It is sought among the series of the pair's bucket alone.
pub fn counterpart_slot(us: &[u8], x: &[u8], buckets: &Buckets) -> Slot
    requires { Links series_in (cut 512 us.now) 0 buckets.now.heads buckets.now.nexts }
    ensures { result.0 ≡ counterpart_slot (cut 512 us.now) x.now }
{
    if !is_trade(x) {
        return Slot(0);
    }
    let slot = senders_slot(x);
    Slot(buckets.find(
        bucket(pair(x)),
        |i| is_counterpart(block_at(us, i), slot, x),
    ))
}

// How two series of one trade differ: at how many positions, and the first of them.
#[derive(Clone, Copy)]
struct Difference {
    count: usize,
    first: Option<usize>,
}

// Of n positions, count and first in one pass. Two series that agree, as most do, are compared as bytes.
fn compare(n: usize, a: &[u8], b: &[u8]) -> Difference
    requires { n ≤ 100 }
    ensures { (result.count ≡ differences n (quantities a.now) (quantities b.now)) × (unwrap_or result.first 0 ≡ first_difference n (quantities a.now) (quantities b.now)) × (result.count ≤ n) × (unwrap_or result.first 0 ≤ n) }
{
    let mut count = 0;
    let mut first = None;
    if same(quantities(a), quantities(b)) {
        return Difference { count, first };
    }
    for k in 0..n {
        if quantity(a, k) != quantity(b, k) {
            first = first.or(Some(k + 1));
            count += 1;
        }
    }
    Difference { count, first }
}

// Count, first and partner as the block keeps them: zeros where the series stands alone. The partner is handed in, 0 where there is none.
pub fn mark_with(n: usize, us: &[u8], x: &[u8], partner: Slot) -> [u8; 4]
    requires { (n ≤ 100) × (partner.0 ≡ counterpart_slot (cut 512 us.now) x.now) }
    ensures { result ≡ mark_in n (cut 512 us.now) x.now }
{
    let slot = partner.0;
    if slot == 0 {
        return [0; 4];
    }
    let d = compare(n, x, numbered(us, partner));
    let bytes = slot.to_le_bytes();
    [
        d.count as u8,
        d.first.unwrap_or(0) as u8,
        bytes[0],
        bytes[1],
    ]
}

// The partner is sought.
pub fn mark_in(n: usize, us: &[u8], x: &[u8], buckets: &Buckets) -> [u8; 4]
    requires { (n ≤ 100) × Links series_in (cut 512 us.now) 0 buckets.now.heads buckets.now.nexts }
    ensures { result ≡ mark_in n (cut 512 us.now) x.now }
{
    let partner = counterpart_slot(us, x, buckets);
    mark_with(n, us, x, partner)
}

// A block that is no series has no mark to be wrong.
pub fn mark_true(n: usize, us: &[u8], x: &[u8], buckets: &Buckets) -> bool
    requires { (n ≤ 100) × Links series_in (cut 512 us.now) 0 buckets.now.heads buckets.now.nexts }
    ensures { result ≡ mark_true n (cut 512 us.now) x.now }
{
    if !is_series(x) {
        return true;
    }
    let due = mark_in(n, us, x, buckets);
    same(mark(x), &due)
}
