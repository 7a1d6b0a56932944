// Settled positions as text (C-20): a line for each party and one for all of them. The finals of the pairs are worked out once, for all parties.
// The row of values has a fixed length, since the desk has no heap.
#![tactic(auto)]

ghost use Rattle.std.specs.Prelude.{◌≡◌, cond, List, [], ◌∷◌, ◌++◌, ℕ, ◌+◌, ◌/◌, ◌<◌, ◌≤◌, length, take};
ghost use Rattle.laws.specs.Tests.{◌and◌, ◌or◌};
ghost use Rattle.laws.specs.Lists.{same, has, once};
ghost use Rattle.laws.specs.Cut.{cut};
ghost use Rattle.paper.specs.Layout.{Bytes, in_party, out_party};
ghost use Rattle.paper.specs.Settled.{is_trade_series, appearing, parties, settled};
ghost use Rattle.desk_text.specs.Put.{Put};
ghost use Rattle.settlement_text.specs.Settlement.{sums_line, sums_text, settlement_text, bought_from, sold_from, Filled};

use desk_lines::put_telling;
use desk_text::numbers::put_difference;
use desk_text::pieces::put_worded;
use desk_text::put::put;
use field::{part_of, same};
use layout::{in_party, out_party, rule_of};
use paper::Position;
use settling::{is_trade_series, position_number, sums_of, values_at};
use slots::{block_at, used_part};
use sound::sound;

// The place behind the lines so far, and the sums over their parties.
#[derive(Clone, Copy)]
pub struct Sheet {
    pub at: usize,
    pub bought: u64,
    pub sold: u64,
}

fn put_sums(line: &mut [u8], at: usize, name: &[u8], bought: u64, sold: u64) -> usize
    ensures { Put at (sums_line name.now bought sold) result line.old line.new }
{
    let a = put(line, at, name);
    let b = put_worded(line, a, b" bought ", bought as usize);
    let c = put_worded(line, b, b" sold ", sold as usize);
    let d = put(line, c, b" settled ");
    let e = put_difference(line, d, bought as usize, sold as usize);
    put(line, e, b"\n")
}

// A trade between this party and another.
fn names_party(b: &[u8], party: &[u8]) -> bool
    ensures { result ≡ (is_trade_series b.now and (same party.now (in_party b.now) or same party.now (out_party b.now))) }
{
    is_trade_series(b) & (same(party, in_party(b)) | same(party, out_party(b)))
}

// Whether one of the first i blocks names it.
fn appears(us: &[u8], i: usize, party: &[u8]) -> bool
    ensures { result ≡ has (same party.now) (appearing (take i (cut 512 us.now))) }
{
    us.chunks_exact(512).take(i).any(|b| names_party(b, party))
}

// The line of a party, unless it has one already.
fn put_unless(
    line: &mut [u8],
    sheet: Sheet,
    us: &[u8],
    values: &[u32; 1000],
    again: bool,
    party: &[u8],
) -> Sheet
    requires { (length us.now / 512 ≤ 1000) × (sheet.bought ≤ 9000000000000000000) × (sheet.sold ≤ 9000000000000000000) }
    ensures { ((names : List Bytes) (begun : ℕ) (x : Bytes) → Filled (cut 512 us.now) values.now (length us.now / 512) names begun sheet x line.old → Filled (cut 512 us.now) values.now (length us.now / 512) (names ++ cond again [] (party.now ∷ [])) begun result x line.new) × (result.bought ≤ sheet.bought + 4294967295000) × (result.sold ≤ sheet.sold + 4294967295000) }
{
    if again {
        return sheet;
    }
    let sums = sums_of(us, values, party);
    Sheet {
        at: put_sums(line, sheet.at, party, sums.bought, sums.sold),
        bought: sheet.bought + sums.bought,
        sold: sheet.sold + sums.sold,
    }
}

// The lines of the parties that block i is the first to name.
fn put_parties(line: &mut [u8], sheet: Sheet, us: &[u8], values: &[u32; 1000], i: usize) -> Sheet
    requires { (length us.now / 512 ≤ 1000) × (i < length us.now / 512) × (sheet.bought ≤ 8900000000000000000) × (sheet.sold ≤ 8900000000000000000) }
    ensures { ((begun : ℕ) (x : Bytes) → Filled (cut 512 us.now) values.now (length us.now / 512) (once (appearing (take i (cut 512 us.now)))) begun sheet x line.old → Filled (cut 512 us.now) values.now (length us.now / 512) (once (appearing (take (i + 1) (cut 512 us.now)))) begun result x line.new) × (result.bought ≤ sheet.bought + 8589934590000) × (result.sold ≤ sheet.sold + 8589934590000) }
{
    let x = block_at(us, i);
    if !is_trade_series(x) {
        return sheet;
    }
    let buyer = in_party(x);
    let seller = out_party(x);
    let sheet = put_unless(line, sheet, us, values, appears(us, i, buyer), buyer);
    let again = appears(us, i, seller) | same(seller, buyer);
    put_unless(line, sheet, us, values, again, seller)
}

fn put_all_parties(line: &mut [u8], at: usize, us: &[u8], values: &[u32; 1000]) -> Sheet
    requires { (length us.now / 512 ≤ 1000) × (at ≤ length line.old) }
    ensures { Filled (cut 512 us.now) values.now (length us.now / 512) (parties (cut 512 us.now)) at result line.old line.new }
{
    let mut sheet = Sheet {
        at,
        bought: 0,
        sold: 0,
    };
    for i in 0..us.len() / 512 {
        sheet = put_parties(line, sheet, us, values, i);
    }
    sheet
}

fn put_sheet(line: &mut [u8], at: usize, us: &[u8], values: &[u32; 1000]) -> usize
    requires { (length us.now / 512 ≤ 1000) × (at ≤ length line.old) }
    ensures { Put at (sums_text (bought_from (cut 512 us.now) values.now (length us.now / 512)) (sold_from (cut 512 us.now) values.now (length us.now / 512)) (parties (cut 512 us.now))) result line.old line.new }
{
    let sheet = put_all_parties(line, at, us, values);
    put_sums(line, sheet.at, b"all", sheet.bought, sheet.sold)
}

// 1, 24 or 25, else 0.
fn refusal(book: &[u8], position: Position) -> u32
    ensures { result ≡ (settled book.now [] position.0).number }
{
    if !sound(book) {
        return 1;
    }
    position_number(part_of(book, 0, 512), position)
}

// How long the text is; what does not fit into the buffer is left out.
pub fn settlement(book: &[u8], position: Position, line: &mut [u8]) -> usize
    ensures { Put 0 (settlement_text book.now position.0) result line.old line.new }
{
    let p = position.0;
    let number = refusal(book, Position(p));
    let a = put_telling(line, number);
    if number != 0 {
        return a;
    }
    let b = put_worded(line, a, b": position ", p);
    let c = put(line, b, b", in kW\n");
    let us = used_part(book);
    let values = values_at(rule_of(part_of(book, 0, 512)), us, p - 1);
    put_sheet(line, c, us, &values)
}
