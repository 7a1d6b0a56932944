// "The search for counterparts", slot by slot: one look at each used slot, in ascending order.
// Rows have a fixed length here, since the desk has no heap; 0 stands for no place, as in the book's own fields.
ghost use Rattle.std.specs.Prelude.{◌≡◌, true, ◌-◌, ◌/◌, ◌≤◌, ◌<◌, length, take};
ghost use Rattle.laws.specs.Lists.{place};
ghost use Rattle.laws.specs.Cut.{cut};
ghost use Rattle.paper.specs.Book.{trade, trade_is};
ghost use Rattle.paper.specs.Looks.{visited, look, found};
ghost use Rattle.facts.specs.Partners.{Homes};
ghost use Rattle.index.specs.declared.By.TheVariants.{Trade};
ghost use Rattle.index.specs.Linked.{own_in, Links};
ghost use Rattle.accept.specs.Steps.{Sent, TradeNumbers, first_kept, home_noted};

use index::buckets::Buckets;
use index::{By, IN_MESSAGE, link_own, own_with};
use layout::senders_slot;
use paper::Slot;
use slots::{block_at, is_series, is_series_of, is_trade};

// For series `number` of the message: a slot that was found before stays.
fn keep_first(row: &mut [u16; 200], number: usize, slot: Slot)
    requires { (0 < number) × (number ≤ 200) × (slot.0 ≤ 1000) }
    ensures { row.new ≡ first_kept slot.0 (number - 1) row.old }
{
    if row[number - 1] == 0 {
        row[number - 1] = slot.0 as u16;
    }
}

// The number of the message's trade between the block's parties; 0 where there is none, and for an external schedule, which is not sought for. `buckets` link
// the message's own series by their pairs.
fn trade_number(block: &[u8], series: &[u8], buckets: &Buckets) -> usize
    requires { Sent (cut 512 series.now) × Links (own_in 0 Trade) (cut 512 series.now) 0 buckets.now.heads buckets.now.nexts }
    ensures { (result ≡ place (trade_is (trade block.now)) (cut 512 series.now)) × (result ≤ 200) }
{
    if !is_trade(block) {
        return 0;
    }
    own_with(series, IN_MESSAGE, By::Trade, block, buckets)
}

// "Each look is one step": of the book it is lent one slot's number and block. Told is the number of the message's trade between the block's parties.
fn look(
    slot: Slot,
    block: &[u8],
    series: &[u8],
    buckets: &Buckets,
    own: Slot,
    partners: &mut [u16; 200],
) -> usize
    requires { (slot.0 ≤ 1000) × Sent (cut 512 series.now) × Links (own_in 0 Trade) (cut 512 series.now) 0 buckets.now.heads buckets.now.nexts × (length partners.old ≡ 200) }
    ensures { (take (length (cut 512 series.now)) partners.new ≡ look slot.0 block.now (cut 512 series.now) own.0 (take (length (cut 512 series.now)) partners.old)) × (result ≡ place (trade_is (trade block.now)) (cut 512 series.now)) × (result ≤ 200) × (length partners.new ≡ 200) }
{
    let number = trade_number(block, series, buckets);
    if number == 0 {
        return number;
    }
    if !is_series(block) {
        return number;
    }
    if senders_slot(block) == own {
        return number;
    }
    keep_first(partners, number, slot);
    number
}

// The slot of a series of the sender itself, for the series of the message that it holds.
fn note_home(slot: Slot, block: &[u8], own: Slot, number: usize, homes: &mut [u16; 200])
    requires { (slot.0 ≤ 1000) × (number ≤ 200) }
    ensures { homes.new ≡ home_noted slot.0 block.now own.0 number homes.old }
{
    if number == 0 {
        return;
    }
    if is_series_of(block, own) {
        keep_first(homes, number, slot);
    }
}

// What the looks have found: of each series of the message the slot of its counterpart and its own, and of each used block the number of the message's trade
// with its parties. 0 says that there is none.
#[derive(Clone, Copy)]
pub struct Looked {
    pub partners: [u16; 200],
    pub homes: [u16; 200],
    pub numbers: [u16; 1000],
    pub looks: usize,
}

// One pass over the used slots. Which trade of the message has a block's parties, and where the message's trades are placed, need not be sought again.
pub fn look_all(us: &[u8], series: &[u8], slot: Slot) -> Looked
    requires { (length us.now / 512 ≤ 1000) × Sent (cut 512 series.now) }
    ensures { (take (length (cut 512 series.now)) result.partners ≡ found (cut 512 us.now) (cut 512 series.now) slot.0) × Homes slot.0 (cut 512 us.now) (cut 512 series.now) (length (cut 512 us.now)) result.homes × TradeNumbers (cut 512 us.now) (cut 512 series.now) result.numbers × (result.looks ≡ length (visited (cut 512 us.now))) }
{
    let buckets = link_own(series, IN_MESSAGE, By::Trade);
    let mut partners = [0u16; 200];
    let mut homes = [0u16; 200];
    let mut numbers = [0u16; 1000];
    let looks = us.len() / 512;
    for i in 0..looks {
        let block = block_at(us, i);
        let number = look(Slot(i + 1), block, series, &buckets, slot, &mut partners);
        note_home(Slot(i + 1), block, slot, number, &mut homes);
        numbers[i] = number as u16;
    }
    Looked {
        partners,
        homes,
        numbers,
        looks,
    }
}
