// "The sender block and changed series replace the stored ones".
// Rows and buffers have a fixed length here, since the desk has no heap; 0 stands for no place, as in the book's own fields.
ghost use Rattle.std.specs.Prelude.{◌≡◌, map, ◌/◌, ◌≤◌, length};
ghost use Rattle.laws.specs.Lists.{place};
ghost use Rattle.laws.specs.Cut.{cut};
ghost use Rattle.paper.specs.Layout.{key, with_senders_slot};
ghost use Rattle.paper.specs.Book.{key_is};
ghost use Rattle.paper.specs.Acceptance.{sender_kept};
ghost use Rattle.accept.specs.Steps.{renewed_with, Numbers};

use block::numbers::write_bytes;
use index::wide;
use layout::sender;
use layout::write::write_senders_slot;
use nets::write_nets;
use paper::Slot;
use slots::{block_at, is_sender_block_of, is_series_of};

// A message's series as it is kept: told its sender's slot.
pub fn write_series(block: &mut [u8], y: &[u8], slot: Slot)
    requires { length block.old ≡ length y.now }
    ensures { block.new ≡ with_senders_slot slot.0 y.now }
{
    write_bytes(block, 0, y);
    write_senders_slot(block, slot);
}

// A message's first block as it is kept: with the nets of its series. `ours` is the day block's area.
pub fn kept_sender(ours: &[u8], head: &[u8], series: &[u8]) -> [u8; 512]
    requires { (length head.now ≡ 512) × (length series.now ≤ 268435456) }
    ensures { result ≡ sender_kept ours.now head.now (cut 512 series.now) }
{
    let mut kept = [0u8; 512];
    write_bytes(&mut kept, 0, head);
    write_nets(&mut kept, ours, sender(head), series);
    kept
}

// One used block, of which most are another sender's and stay. `number` is that of the message's series with its key, 0 where there is none.
fn renew(block: &mut [u8], kept: &[u8; 512], series: &[u8], slot: Slot, number: usize)
    requires { (length block.old ≡ 512) × (number ≡ place (key_is (key block.old)) (cut 512 series.now)) }
    ensures { block.new ≡ renewed_with slot.0 kept.now (cut 512 series.now) block.old }
{
    if is_sender_block_of(block, sender(kept)) {
        write_bytes(block, 0, kept);
        return;
    }
    if is_series_of(block, slot) {
        if number == 0 {
            return;
        }
        write_series(block, block_at(series, number - 1), slot);
    }
}

// Block by block: what becomes of one is told by it and the message alone.
pub fn renew_all(us: &mut [u8], kept: &[u8; 512], series: &[u8], slot: Slot, numbers: &[u16; 1000])
    requires { (length us.old / 512 ≤ 1000) × Numbers (cut 512 us.old) (cut 512 series.now) numbers.now }
    ensures { cut 512 us.new ≡ map (renewed_with slot.0 kept.now (cut 512 series.now)) (cut 512 us.old) }
{
    for i in 0..us.len() / 512 {
        let number = wide(numbers[i]);
        let start = 512 * i;
        renew(&mut us[start..start + 512], kept, series, slot, number);
    }
}
