// "Of every series of the sender and of their counterparts" the marks are put right, and the checks with them.
ghost use Rattle.std.specs.Prelude.{◌≡◌, [], map, ◌+◌, ◌*◌, ◌/◌, ◌≤◌, ◌<◌, length, get_or, set};
ghost use Rattle.laws.specs.Cut.{cut};
ghost use Rattle.paper.specs.Layout.{with_mark};
ghost use Rattle.paper.specs.Marks.{counterpart_slot, mark_in};
ghost use Rattle.paper.specs.Acceptance.{remarked};
ghost use Rattle.paper.specs.Looks.{visited};
ghost use Rattle.accept.specs.Steps.{Housed, touched_by, partner_by, Sides};

use super::looking::{Looked, look_all};
use index::wide;
use layout::senders_slot;
use layout::write::write_mark;
use marks::mark_with;
use paper::Slot;
use slots::{block_at, is_series};

// `number` is that of the message's trade between the block's parties; every series of the sender is touched, with a number or without.
fn is_touched(y: &[u8], own: Slot, number: usize) -> bool
    ensures { result ≡ touched_by own.0 number y.now }
{
    is_series(y) & ((senders_slot(y) == own) | (number != 0))
}

// The counterpart found for a trade of the sender; for the other side of a trade the sender's own, which need not be sought. An external schedule has none.
fn partner_of(y: &[u8], own: Slot, number: usize, looked: &Looked) -> Slot
    requires { number ≤ 200 }
    ensures { result.0 ≡ partner_by own.0 number looked.now.partners looked.now.homes y.now }
{
    if number == 0 {
        return Slot(0);
    }
    if senders_slot(y) == own {
        return Slot(wide(looked.partners[number - 1]));
    }
    Slot(wide(looked.homes[number - 1]))
}

// Only a touched block is written: any other keeps its bytes, its check too.
fn remark(us: &mut [u8], i: usize, n: usize, partner: Slot)
    requires { (512 * i + 512 ≤ length us.old) × (n ≤ 100) × (partner.0 ≡ counterpart_slot (cut 512 us.old) (get_or (cut 512 us.old) i [])) }
    ensures { cut 512 us.new ≡ set (cut 512 us.old) i (with_mark (mark_in n (cut 512 us.old) (get_or (cut 512 us.old) i [])) (get_or (cut 512 us.old) i [])) }
{
    let m = mark_with(n, us, block_at(us, i), partner);
    let start = 512 * i;
    write_mark(&mut us[start..start + 512], &m);
}

// A mark is worked out from kind, sender's slot, trade and quantities, which no mark changes: so it does not matter which is put right first.
fn remark_each(us: &mut [u8], n: usize, slot: Slot, looked: &Looked)
    requires { (n ≤ 100) × (length us.old / 512 ≤ 1000) × Sides slot.0 (cut 512 us.old) looked.now.partners looked.now.homes looked.now.numbers }
    ensures { cut 512 us.new ≡ map (remarked n slot.0 (cut 512 us.old)) (cut 512 us.old) }
{
    for i in 0..us.len() / 512 {
        let number = wide(looked.numbers[i]);
        if is_touched(block_at(us, i), slot, number) {
            let partner = partner_of(block_at(us, i), slot, number, looked);
            remark(us, i, n, partner);
        }
    }
}

// The counterparts are sought once, in one pass; the number of looks is returned.
pub fn remark_all(us: &mut [u8], n: usize, series: &[u8], slot: Slot) -> usize
    requires { (n ≤ 100) × (length us.old / 512 ≤ 1000) × Housed slot.0 (cut 512 us.old) (cut 512 series.now) }
    ensures { (cut 512 us.new ≡ map (remarked n slot.0 (cut 512 us.old)) (cut 512 us.old)) × (result ≡ length (visited (cut 512 us.old))) }
{
    let looked = look_all(us, series, slot);
    remark_each(us, n, slot, &looked);
    looked.looks
}
