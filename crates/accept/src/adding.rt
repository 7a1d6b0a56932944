// "New blocks take the lowest free slots, sender first, then new series in message order".
// Rows have a fixed length here, since the desk has no heap; 0 stands for no place, as in the book's own fields.
ghost use Rattle.std.specs.Prelude.{◌≡◌, ◌+◌, ◌*◌, ◌/◌, ◌≤◌, length};
ghost use Rattle.laws.specs.Cut.{cut};
ghost use Rattle.accept.specs.Steps.{Laid, LaidInto, added_at, added_of, new_of, sender_if_new};

use super::renewal::write_series;
use block::numbers::write_bytes;
use index::wide;
use paper::Slot;
use slots::block_at;

// A series that is stored has a place among the used slots. One that has none, which 0 says, is new and goes behind the `next` blocks, to the lowest free slot.
fn add_if_new(slots: &mut [u8], next: usize, y: &[u8], place: usize, slot: Slot) -> usize
    requires { (length y.now ≡ 512) × (512 * (next + length (added_at slot.0 place y.now)) ≤ length slots.old) }
    ensures { Laid next (added_at slot.0 place y.now) (cut 512 slots.old) (cut 512 slots.new) result }
{
    if place == 0 {
        let start = 512 * next;
        write_series(&mut slots[start..start + 512], y, slot);
        return next + 1;
    }
    next
}

// From slot `start` on; the lowest slot that is free afterwards is returned. Where a series is stored, the judgement has found.
fn add_series(
    slots: &mut [u8],
    start: usize,
    series: &[u8],
    slot: Slot,
    places: &[u16; 1000],
) -> usize
    requires { (length series.now / 512 ≤ 1000) × (512 * (start + length (added_of slot.0 places.now series.now)) ≤ length slots.old) }
    ensures { Laid start (added_of slot.0 places.now series.now) (cut 512 slots.old) (cut 512 slots.new) result }
{
    let mut next = start;
    for k in 0..series.len() / 512 {
        next = add_if_new(slots, next, block_at(series, k), wide(places[k]), slot);
    }
    next
}

// "Sender first". The block of a known sender is renewed in its own slot instead.
fn add_sender(slots: &mut [u8], used: usize, kept: &[u8; 512], had: Slot) -> usize
    requires { 512 * (used + length (sender_if_new had.0 kept.now)) ≤ length slots.old }
    ensures { Laid used (sender_if_new had.0 kept.now) (cut 512 slots.old) (cut 512 slots.new) result }
{
    if had == Slot(0) {
        let start = 512 * used;
        write_bytes(&mut slots[start..start + 512], 0, kept);
        return used + 1;
    }
    used
}

// Behind the used slots. `kept` is the sender's block, `had` the slot that it has, 0 where it has none, and `slot` the one that it has from now on.
pub fn add_blocks(
    slots: &mut [u8],
    used: usize,
    kept: &[u8; 512],
    series: &[u8],
    had: Slot,
    slot: Slot,
    places: &[u16; 1000],
) -> usize
    requires { (512 * (used + length (new_of had.0 slot.0 places.now kept.now series.now)) ≤ length slots.old) × (length series.now / 512 ≤ 1000) }
    ensures { LaidInto used (new_of had.0 slot.0 places.now kept.now series.now) slots.old slots.new result }
{
    let start = add_sender(slots, used, kept, had);
    add_series(slots, start, series, slot, places)
}
