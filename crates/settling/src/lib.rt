// C-20: a party's settled position. The finals of all pairs are worked out once, in a row: each stands at the first slot that has its pair, with 0 at every other slot,
// so that no pair is counted twice. A party's two sums are taken from there.
// Rows have a fixed length here, since the desk has no heap; 0 stands for no place, as in the book's own fields.
#![tactic(auto)]

ghost use Rattle.std.specs.Prelude.{◌≡◌, cond, ◌/◌, ◌<◌, ◌≤◌, length};
ghost use Rattle.laws.specs.Lists.{same};
ghost use Rattle.laws.specs.Cut.{cut};
ghost use Rattle.paper.specs.Layout.{n_of, sender, senders_slot, in_party, out_party};
ghost use Rattle.paper.specs.Book.{numbered};
ghost use Rattle.paper.specs.Settled.{is_trade_series, settled_refused, settled_in, settled};
ghost use Rattle.facts.specs.Settled.{Trading, counted_at};
ghost use Rattle.index.specs.Linked.{series_in, Links};
ghost use Rattle.settling.specs.Values.{value_of, Valued, side_sum, position_number};

use field::{part_of, same};
use index::buckets::Buckets;
use index::link_series;
use layout::{in_party, out_party, rule_of, sender, senders_slot};
use marks::counterpart_slot;
use paper::{Position, Rule, SettledAnswer, Slot};
use readings::finals::{closed_index, final_of, held_at};
use slots::{block_at, is_series, is_trade, numbered, used_part};
use sound::sound;

pub fn is_trade_series(b: &[u8]) -> bool
    ensures { result ≡ is_trade_series b.now }
{
    is_series(b) & is_trade(b)
}

// Whether the series x is its buyer's.
fn is_buyers(us: &[u8], x: &[u8]) -> bool
    ensures { result ≡ same (in_party x.now) (sender (numbered (cut 512 us.now) (senders_slot x.now))) }
{
    same(in_party(x), sender(numbered(us, senders_slot(x))))
}

// The final at position k + 1 of the pair of block i, if that is the first slot that has it. The other slot that may have it is the counterpart's, and a missing one
// counts 0.
fn value_at(rule: Rule, us: &[u8], i: usize, k: usize, buckets: &Buckets) -> u32
    requires { (length us.now / 512 ≤ 1000) × Trading (cut 512 us.now) × Links series_in (cut 512 us.now) 0 buckets.now.heads buckets.now.nexts × (i < length us.now / 512) × (k < 255) }
    ensures { result ≡ counted_at (cut 512 us.now) (value_of rule (cut 512 us.now) k) i }
{
    let x = block_at(us, i);
    if !is_trade_series(x) {
        return 0;
    }
    let partner = counterpart_slot(us, x, buckets);
    if (partner != Slot(0)) & (partner.0 <= i) {
        return 0;
    }
    let own = held_at(us, Slot(i + 1), k);
    let others = held_at(us, partner, k);
    if is_buyers(us, x) {
        return final_of(rule, others, own);
    }
    final_of(rule, own, others)
}

// The series are linked once, for all searches.
pub fn values_at(rule: Rule, us: &[u8], k: usize) -> [u32; 1000]
    requires { (length us.now / 512 ≤ 1000) × Trading (cut 512 us.now) × (k < 255) }
    ensures { Valued rule (cut 512 us.now) k (length us.now / 512) result }
{
    let buckets = link_series(us);
    let mut values = [0u32; 1000];
    for i in 0..us.len() / 512 {
        values[i] = value_at(rule, us, i, k, &buckets);
    }
    values
}

// What a pair's value adds to a party's sum.
fn share(side: &[u8], party: &[u8], value: u32) -> u64
    ensures { (result ≡ cond (same side.now party.now) value 0) × (result ≤ 4294967295) }
{
    if same(side, party) {
        return value as u64;
    }
    0
}

// Both sides in one pass. A slot without a trade has the value 0, whatever stands there.
pub fn sums_of(us: &[u8], values: &[u32; 1000], party: &[u8]) -> SettledAnswer
    requires { length us.now / 512 ≤ 1000 }
    ensures { (result.number ≡ 0) × (result.bought ≡ side_sum in_party party.now (cut 512 us.now) values.now (length us.now / 512)) × (result.sold ≡ side_sum out_party party.now (cut 512 us.now) values.now (length us.now / 512)) × (result.bought ≤ 4294967295000) × (result.sold ≤ 4294967295000) }
{
    let mut bought = 0;
    let mut sold = 0;
    for i in 0..us.len() / 512 {
        let x = block_at(us, i);
        bought += share(in_party(x), party, values[i]);
        sold += share(out_party(x), party, values[i]);
    }
    SettledAnswer {
        number: 0,
        bought,
        sold,
    }
}

fn settled_refused(number: u32) -> SettledAnswer
    ensures { result ≡ settled_refused number }
{
    SettledAnswer {
        number,
        bought: 0,
        sold: 0,
    }
}

// Why a position is refused: 24, 25, else 0. `d` is the day block.
pub fn position_number(d: &[u8], position: Position) -> u32
    ensures { result ≡ position_number d.now position.0 }
{
    match closed_index(d, position) {
        Ok(_) => 0,
        Err(why) => why.number(),
    }
}

// From the day block and the used slots of a sound book.
fn settled_in(d: &[u8], us: &[u8], party: &[u8], position: Position) -> SettledAnswer
    requires { (n_of d.now ≤ 100) × (length us.now / 512 ≤ 1000) × Trading (cut 512 us.now) }
    ensures { result ≡ settled_in d.now (cut 512 us.now) party.now position.0 }
{
    match closed_index(d, position) {
        Ok(k) => sums_of(us, &values_at(rule_of(d), us, k), party),
        Err(why) => settled_refused(why.number()),
    }
}

pub fn settled(book: &[u8], party: &[u8], position: Position) -> SettledAnswer
    ensures { result ≡ settled book.now party.now position.0 }
{
    if !sound(book) {
        return settled_refused(1);
    }
    settled_in(part_of(book, 0, 512), used_part(book), party, position)
}
