// An acceptance ("Accepted (0, A01)"): every byte that it writes into the book. New blocks are added first; then the sender's
// stored blocks are renewed; then the marks of both sides are put right. What the judgement has found is handed in: nothing is sought twice.
// Rows have a fixed length here, since the desk has no heap; 0 stands for no place, as in the book's own fields.
#![tactic(auto)]

ghost use Rattle.std.specs.Prelude.{◌≡◌, cond, ◌+◌, ◌≤◌, length};
ghost use Rattle.laws.specs.Tests.{is};
ghost use Rattle.laws.specs.Lists.{until};
ghost use Rattle.laws.specs.Cut.{cut};
ghost use Rattle.paper.specs.Layout.{area};
ghost use Rattle.paper.specs.Book.{is_free, day_block, used};
ghost use Rattle.paper.specs.Message.{head_of, series_of};
ghost use Rattle.paper.specs.Acceptance.{placed, accepted};
ghost use Rattle.paper.specs.Looks.{visited};
ghost use Rattle.index.specs.Handed.{Handed};
ghost use Rattle.accept.specs.Fits.{Placing, Fits};
ghost use Rattle.accept.specs.Steps.{accepted_over};

use adding::add_blocks;
use layout::n_of;
use paper::Slot;
use remarking::remark_all;
use renewal::{kept_sender, renew_all};
use slots::area_of;

pub mod adding;
pub mod looking;
pub mod remarking;
pub mod renewal;

// How a book stands to a sender before its message is written: n of its day, how many slots are used, and the sender's slot, 0 where it has none.
#[derive(Clone, Copy)]
pub struct Standing {
    pub n: usize,
    pub used: usize,
    pub slot: Slot,
}

// The slot that a sender has, or the lowest free behind the used.
fn slot_for(had: Slot, used: usize) -> Slot
    requires { used ≤ 1000 }
    ensures { result.0 ≡ cond (is had.0 0) (used + 1) had.0 }
{
    if had == Slot(0) { Slot(used + 1) } else { had }
}

// Over a book's slots; `ours` is the day block's area. `places` says where the series of the message stand among the used, `numbers` which series of the message
// has the key of each used block.
fn accept_into(
    slots: &mut [u8],
    ours: &[u8],
    head: &[u8],
    series: &[u8],
    standing: Standing,
    places: &[u16; 1000],
    numbers: &[u16; 1000],
) -> usize
    requires { Placing standing.n ours.now (length (cut 512 slots.old)) (until is_free (cut 512 slots.old)) head.now (cut 512 series.now) × Handed (until is_free (cut 512 slots.old)) head.now (cut 512 series.now) standing.used standing.slot.0 places.now numbers.now }
    ensures { (cut 512 slots.new ≡ accepted_over standing.n ours.now head.now (cut 512 series.now) (cut 512 slots.old)) × (result ≡ length (visited (placed ours.now (until is_free (cut 512 slots.old)) head.now (cut 512 series.now)))) }
{
    let had = standing.slot;
    let used = standing.used;
    let used_end = 512 * used;
    let slot = slot_for(had, used);
    let kept = kept_sender(ours, head, series);
    let next = add_blocks(slots, used, &kept, series, had, slot, places);
    renew_all(&mut slots[..used_end], &kept, series, slot, numbers);
    let end = 512 * next;
    remark_all(&mut slots[..end], standing.n, series, slot)
}

// Called where the verdict is 0, which gives `Fits`: so nothing is written before rules 16 and 17 are passed. What the judgement has found is handed
// on, and not sought again.
//
// It is never inlined: what it keeps on the stack does not stand beside what the judgement does, so that a submission needs no more stack than the C header says.
#[inline(never)]
pub fn accept(
    book: &mut [u8],
    message: &[u8],
    used_count: usize,
    slot: Slot,
    places: &[u16; 1000],
    numbers: &[u16; 1000],
) -> usize
    requires { Fits book.old message.now × Handed (used book.old) (head_of message.now) (series_of message.now) used_count slot.0 places.now numbers.now }
    ensures { (book.new ≡ accepted book.old message.now) × (result ≡ length (visited (placed (area (day_block book.old)) (used book.old) (head_of message.now) (series_of message.now)))) }
{
    let standing = Standing {
        n: n_of(book) as usize,
        used: used_count,
        slot,
    };
    let ours = area_of(book);
    accept_into(
        &mut book[512..],
        &ours,
        &message[..512],
        &message[512..],
        standing,
        places,
        numbers,
    )
}
