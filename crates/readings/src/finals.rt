// The final value of (out party, in party, position), from the day block and the used slots of a sound book.
ghost use Rattle.std.specs.Prelude.{◌≡◌, ◌++◌, ◌<◌, IfOk};
ghost use Rattle.std.proofs.Math.Option.{some};
ghost use Rattle.laws.specs.Lists.{same, place};
ghost use Rattle.laws.specs.Cut.{cut};
ghost use Rattle.paper.specs.Layout.{quantities, entry};
ghost use Rattle.paper.specs.Book.{numbered, slot_of, is_trade_of};
ghost use Rattle.paper.specs.Finals.{final_of, final_refused, final_in};
ghost use Rattle.readings.specs.Held.{final_held};
ghost use Rattle.readings.specs.Closed.{number_of, closed_index};

use block::numbers::number_4;
use field::same;
use layout::{n_of, pair, quantities, rule_of};
use paper::{FinalAnswer, LESSER, Position, Rule, Slot};
use slots::{is_series_of, is_trade, numbered, slot_of};
use sound_blocks::day::closed;

// The field against two lists joined, of whatever lengths.
fn same_joined(s: &[u8], a: &[u8], b: &[u8]) -> bool
    ensures { result ≡ same s.now (a.now ++ b.now) }
{
    if s.len() < a.len() {
        return false;
    }
    same(&s[..a.len()], a) & same(&s[a.len()..], b)
}

// A pair has the in party first, the buyer. It is compared only where the sender's slot agrees. External schedules have no finals.
fn is_trade_between(b: &[u8], slot: Slot, seller: &[u8], buyer: &[u8]) -> bool
    ensures { result ≡ is_trade_of slot.0 (some (buyer.now ++ seller.now)) b.now }
{
    if !is_series_of(b, slot) {
        return false;
    }
    is_trade(b) & same_joined(pair(b), buyer, seller)
}

// The slot of the party's trade under the pair; 0 where it has none.
fn held(us: &[u8], party: &[u8], seller: &[u8], buyer: &[u8]) -> Slot
    ensures { result.0 ≡ place (is_trade_of (slot_of (cut 512 us.now) party.now) (some (buyer.now ++ seller.now))) (cut 512 us.now) }
{
    let slot = slot_of(us, party);
    match us
        .chunks_exact(512)
        .position(|b| is_trade_between(b, slot, seller, buyer))
    {
        Some(i) => Slot(i + 1),
        None => Slot(0),
    }
}

// A missing series counts 0.
pub fn held_at(us: &[u8], slot: Slot, k: usize) -> u32
    requires { k < 255 }
    ensures { result ≡ entry (quantities (numbered (cut 512 us.now) slot.0)) k }
{
    number_4(quantities(numbered(us, slot)), 4 * k)
}

// The one place that chooses. A series that is missing comes as 0: so a lone side settles at 0 by the lesser rule, and a counterpart that comes late,
// which rule 14 holds to 0 at closed positions, changes nothing.
pub fn final_of(rule: Rule, sellers: u32, buyers: u32) -> u32
    ensures { result ≡ final_of rule sellers buyers }
{
    if rule == LESSER {
        return sellers.min(buyers);
    }
    sellers
}

pub fn final_refused(number: u32) -> FinalAnswer
    ensures { result ≡ final_refused number }
{
    FinalAnswer {
        number,
        kilowatts: 0,
    }
}

// At a closed position k + 1.
fn final_held(rule: Rule, us: &[u8], seller: &[u8], buyer: &[u8], k: usize) -> FinalAnswer
    requires { k < 255 }
    ensures { result ≡ final_held rule (cut 512 us.now) seller.now buyer.now k }
{
    let sellers = held(us, seller, seller, buyer);
    let buyers = held(us, buyer, seller, buyer);
    if (sellers == Slot(0)) & (buyers == Slot(0)) {
        return final_refused(26);
    }
    FinalAnswer {
        number: 0,
        kilowatts: final_of(rule, held_at(us, sellers, k), held_at(us, buyers, k)),
    }
}

// Why there are no finals at a position: the day has no such one, or it is not closed.
#[derive(Clone, Copy, PartialEq, Eq)]
pub enum NoFinals {
    NoPosition,
    StillOpen,
}

impl NoFinals {
    // "24 position 0 or above n, 25 not closed".
    pub fn number(self) -> u32
        ensures { result ≡ number_of self }
    {
        match self {
            NoFinals::NoPosition => 24,
            NoFinals::StillOpen => 25,
        }
    }
}

// Position k + 1 is given as k.
pub fn closed_index(d: &[u8], position: Position) -> Result<usize, NoFinals>
    ensures { (result ≡ closed_index d.now position.0) × IfOk result (λ k. k < 255) }
{
    let p = position.0;
    if p == 0 {
        return Err(NoFinals::NoPosition);
    }
    if (n_of(d) as usize) < p {
        return Err(NoFinals::NoPosition);
    }
    if !closed(d, position) {
        return Err(NoFinals::StillOpen);
    }
    Ok(p - 1)
}

pub fn final_in(d: &[u8], us: &[u8], seller: &[u8], buyer: &[u8], position: Position) -> FinalAnswer
    ensures { result ≡ final_in d.now (cut 512 us.now) seller.now buyer.now position.0 }
{
    match closed_index(d, position) {
        Ok(k) => final_held(rule_of(d), us, seller, buyer, k),
        Err(why) => final_refused(why.number()),
    }
}
