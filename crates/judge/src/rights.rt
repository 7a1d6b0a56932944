// Rules 18 and 19. The sums on one right are kept from one series of a message to the next, so that many series on it cost no more than each its
// own quantities; where a series on another right comes, the sums are made anew from the earlier ones.
// Rows have a fixed length here, since the desk has no heap; 0 stands for no place, as in the book's own fields.
ghost use Rattle.std.specs.Prelude.{◌≡◌, true, ◌+◌, ◌/◌, ◌≤◌, ◌<◌, length, get_or};
ghost use Rattle.laws.specs.Cut.{cut};
ghost use Rattle.paper.specs.Rules.{over_positions};
ghost use Rattle.judge.specs.Order.{Gives, limit_by, right_by};
ghost use Rattle.judge.specs.Sums.{SumsTo, Cleared, Added, AtMost, Kept};

use super::order::broken;
use index::wide;
use layout::quantity;
use paper::{Slot, Verdict};
use rules::rights::{rule_18, rule_19};
use slots::{block_at, numbered, with_capacity};

fn clear(sums: &mut [u64; 100])
    requires { length sums.old ≡ 100 }
    ensures { Cleared 100 sums.new }
{
    for k in 0..100 {
        sums[k] = 0;
    }
}

// Two hundred quantities of four bytes are far below what eight bytes hold.
fn add_quantities(sums: &mut [u64; 100], y: &[u8])
    requires { AtMost 199 sums.old }
    ensures { Added true 100 y.now sums.old sums.new }
{
    for k in 0..100 {
        sums[k] += quantity(y, k) as u64;
    }
}

fn add_if(sums: &mut [u64; 100], on: bool, y: &[u8])
    requires { AtMost 199 sums.old }
    ensures { Added on 100 y.now sums.old sums.new }
{
    if on {
        add_quantities(sums, y);
    }
}

// Of the first `count` series those on a right.
fn sum_again(series: &[u8], rights: &[u16; 1000], right: u16, count: usize, sums: &mut [u64; 100])
    requires { (count ≤ 200) × (length sums.old ≡ 100) }
    ensures { SumsTo rights.now (cut 512 series.now) right count sums.new × AtMost count sums.new }
{
    clear(sums);
    for j in 0..count {
        add_if(sums, rights[j] == right, block_at(series, j));
    }
}

// Series i + 1 comes to the sums on the right at the place `on`, if it is sent on a right: it is added to them, or they begin anew with its right. That right's
// place, or the old one, is given back.
pub fn sums_with(
    series: &[u8],
    rights: &[u16; 1000],
    i: usize,
    on: u16,
    sums: &mut [u64; 100],
) -> u16
    requires { (i < 200) × Kept rights.now (cut 512 series.now) on i sums.old }
    ensures { Kept rights.now (cut 512 series.now) result (i + 1) sums.new × ((get_or rights.now i 0 ≡ 0 → ⊥) → result ≡ get_or rights.now i 0) }
{
    let right = rights[i];
    if right == 0 {
        return on;
    }
    if right == on {
        add_quantities(sums, block_at(series, i));
        return right;
    }
    sum_again(series, rights, right, i + 1, sums);
    right
}

// Rule 19 by ascending position.
fn limit_verdict(n: usize, r: &[u8], sums: &[u64; 100], s: usize, y: &[u8]) -> Result<(), Verdict>
    ensures { Gives result (over_positions (limit_by n r.now sums.now s y.now)) }
{
    for k in 0..100 {
        broken(rule_19(n, r, sums[k], y, k), 19, s, k + 1)?;
    }
    Ok(())
}

// A series on no right, as every trade, is asked nothing more.
pub fn right_verdict(
    n: usize,
    us: &[u8],
    right: u16,
    sums: &[u64; 100],
    s: usize,
    y: &[u8],
) -> Result<(), Verdict>
    ensures { Gives result (right_by n (cut 512 us.now) right sums.now s y.now) }
{
    if !with_capacity(y) {
        return Ok(());
    }
    broken(rule_18(y, right), 18, s, 0)?;
    limit_verdict(n, numbered(us, Slot(wide(right))), sums, s, y)
}
