// Blocks in a row, as they stand in a book's slots and in a message: one by its number, those of a kind, the used ones, a sender's slot; the kinds of series,
// and two series compared.
// Buffers have a fixed length here, since the desk has no heap.
#![tactic(auto, using(layout::proofs::Tests::tests), unfolding(paper::specs::Book::is_sender, paper::specs::Book::is_series, paper::specs::Book::is_right, paper::specs::Book::is_trade, paper::specs::Book::with_capacity, paper::specs::Book::is_external, paper::specs::Book::is_series_of, paper::specs::Book::is_sender_block_of, paper::specs::Book::is_right_of, paper::specs::Sound::same_right))]

ghost use Rattle.std.specs.Prelude.{◌≡◌, [], ◌*◌, ◌-◌, ◌≤◌, length, get_or};
ghost use Rattle.laws.specs.Lists.{same, until};
ghost use Rattle.laws.specs.Cut.{cut};
ghost use Rattle.paper.specs.Layout.{area, key};
ghost use Rattle.paper.specs.Book.{day_block, is_free, used, is_sender, is_series, is_right, is_trade, with_capacity, is_external, trade, trade_is, numbered, is_sender_block_of, slot_of, is_series_of, is_right_of};
ghost use Rattle.paper.specs.Sound.{same_right};

use field::{all_zero, same};
use layout::{
    area, areas, business_type, but_limits, holder, kind, pair, parties_and_agreement, sender,
    senders_slot, types,
};
use paper::Slot;

// Block i, counted from 0; empty where there is none, as the definitions have it: each field of it reads as 0.
pub fn block_at(s: &[u8], i: usize) -> &[u8]
    ensures { result.now ≡ get_or (cut 512 s.now) i [] }
{
    if s.len() / 512 <= i {
        return &s[..0];
    }
    let start = 512 * i;
    &s[start..start + 512]
}

// The block in a slot, or the series with a number; empty where there is none.
pub fn numbered(s: &[u8], slot: Slot) -> &[u8]
    ensures { result.now ≡ numbered (cut 512 s.now) slot.0 }
{
    let k = slot.0;
    if k == 0 {
        return &s[..0];
    }
    block_at(s, k - 1)
}

pub fn is_sender(b: &[u8]) -> bool
    ensures { result ≡ is_sender b.now }
{
    kind(b) == 1
}

pub fn is_series(b: &[u8]) -> bool
    ensures { result ≡ is_series b.now }
{
    kind(b) == 2
}

pub fn is_right(b: &[u8]) -> bool
    ensures { result ≡ is_right b.now }
{
    kind(b) == 4
}

// A02: the only type that marks and finals pair.
pub fn is_trade(x: &[u8]) -> bool
    ensures { result ≡ is_trade x.now }
{
    business_type(x) == 2
}

// A03: the type of a right, and of the series that use it.
pub fn with_capacity(x: &[u8]) -> bool
    ensures { result ≡ with_capacity x.now }
{
    business_type(x) == 3
}

// A03 or A06.
pub fn is_external(x: &[u8]) -> bool
    ensures { result ≡ is_external x.now }
{
    with_capacity(x) | (business_type(x) == 6)
}

// The parties first, since they tell most series apart; the areas are nearly always the same.
pub fn same_key(a: &[u8], b: &[u8]) -> bool
    ensures { result ≡ same (key a.now) (key b.now) }
{
    if !same(parties_and_agreement(a), parties_and_agreement(b)) {
        return false;
    }
    same(types(a), types(b)) & same(areas(a), areas(b))
}

// Two trades between the same parties, in the same direction.
pub fn same_trade(a: &[u8], b: &[u8]) -> bool
    ensures { result ≡ trade_is (trade a.now) b.now }
{
    is_trade(a) & is_trade(b) & same(pair(b), pair(a))
}

// Two rights alike in all but limits: a second right of the same name would leave open which limit holds.
pub fn same_right(a: &[u8], b: &[u8]) -> bool
    ensures { result ≡ same_right a.now b.now }
{
    is_right(a) & is_right(b) & same(but_limits(a), but_limits(b))
}

pub fn is_series_of(b: &[u8], slot: Slot) -> bool
    ensures { result ≡ is_series_of slot.0 b.now }
{
    is_series(b) & (senders_slot(b) == slot)
}

#[inline(always)]
pub fn is_sender_block_of(b: &[u8], e: &[u8]) -> bool
    ensures { result ≡ is_sender_block_of e.now b.now }
{
    is_sender(b) & same(sender(b), e)
}

pub fn is_right_of(b: &[u8], e: &[u8]) -> bool
    ensures { result ≡ is_right_of e.now b.now }
{
    is_right(b) & same(holder(b), e)
}

// A used slot is told by its first byte.
fn is_free(b: &[u8]) -> bool
    ensures { result ≡ is_free b.now }
{
    if kind(b) != 0 {
        return false;
    }
    all_zero(b)
}

// How many slots stand before the first free one.
pub fn used_count(slots: &[u8]) -> usize
    ensures { (result ≡ length (until is_free (cut 512 slots.now))) × (512 * result ≤ length slots.now) }
{
    slots
        .chunks_exact(512)
        .position(|b| is_free(b))
        .unwrap_or(slots.len() / 512)
}

// The used slots, a part of the lent book; none where it has no day block.
pub fn used_part(book: &[u8]) -> &[u8]
    ensures { (cut 512 result.now ≡ used book.now) × (length result.now ≤ length book.now - 512) }
{
    if book.len() < 512 {
        return &book[..0];
    }
    let slots = &book[512..];
    &slots[..512 * used_count(slots)]
}

// The slot of the sender with this EIC; 0 where it has none, as the definition and the blocks that keep a slot have it.
pub fn slot_of(us: &[u8], e: &[u8]) -> Slot
    ensures { result.0 ≡ slot_of (cut 512 us.now) e.now }
{
    match us.chunks_exact(512).position(|b| is_sender_block_of(b, e)) {
        Some(i) => Slot(i + 1),
        None => Slot(0),
    }
}

// The area out of the day block, which cannot be read while the slots behind it are lent to be written.
pub fn area_of(book: &[u8]) -> [u8; 16]
    requires { 512 ≤ length book.now }
    ensures { result ≡ area (day_block book.now) }
{
    let mut ours = [0u8; 16];
    ours.copy_from_slice(area(book));
    ours
}
