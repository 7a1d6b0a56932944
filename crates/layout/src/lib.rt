// The fields of a block by name, read here and written in `write`: with `check` of the crate block and the tables of message_text, the only code that names an offset. A field of a block that is too short is
// shorter too, and a number read of it counts the missing bytes as 0, as the definitions have it.
#![tactic(auto, using(crate::proofs::Tests::tests), unfolding(paper::specs::Layout::kind, paper::specs::Layout::n_of, paper::specs::Layout::lead, paper::specs::Layout::clock_plus_10080, paper::specs::Layout::rule_of, paper::specs::Layout::day_of_book, paper::specs::Layout::area, paper::specs::Layout::receiver, paper::specs::Layout::version, paper::specs::Layout::id_of, paper::specs::Layout::series_count, paper::specs::Layout::sender, paper::specs::Layout::day_of_message, paper::specs::Layout::nets, paper::specs::Layout::business_type, paper::specs::Layout::contract_type, paper::specs::Layout::senders_slot, paper::specs::Layout::in_area, paper::specs::Layout::out_area, paper::specs::Layout::in_party, paper::specs::Layout::out_party, paper::specs::Layout::pair, paper::specs::Layout::agreement, paper::specs::Layout::mark, paper::specs::Layout::differing, paper::specs::Layout::first, paper::specs::Layout::partner, paper::specs::Layout::quantities, paper::specs::Layout::quantity, paper::specs::Layout::above_n, paper::specs::Layout::holder, paper::specs::Layout::limit, paper::specs::Layout::right_zeros, paper::specs::Layout::but_limits, paper::specs::Layout::day_zeros, paper::specs::Layout::sender_zeros, paper::specs::Layout::sender_zeros_in_message, paper::specs::Layout::series_zeros_in_message))]

ghost use Rattle.std.specs.Prelude.{◌≡◌, ◌<◌, ◌≤◌, length};
ghost use Rattle.laws.specs.Bytes.{part};
ghost use Rattle.paper.specs.Layout.{kind, n_of, lead, clock_plus_10080, rule_of, day_of_book, area, receiver, version, id_of, series_count, sender, day_of_message, nets, business_type, contract_type, senders_slot, in_area, out_area, in_party, out_party, pair, agreement, mark, differing, first, partner, quantities, quantity, above_n, holder, limit, right_zeros, but_limits, day_zeros, sender_zeros, sender_zeros_in_message, series_zeros_in_message};

use block::numbers::{byte_or_zero, number_2, number_4, whole_4};
use field::{all_zero, part_of};
use paper::{Minute, Position, Rule, Slot};

pub mod write;

pub fn kind(b: &[u8]) -> u8
    ensures { result ≡ kind b.now }
{
    byte_or_zero(b, 0)
}

pub fn n_of(b: &[u8]) -> u8
    ensures { result ≡ n_of b.now }
{
    byte_or_zero(b, 1)
}

pub fn lead(b: &[u8]) -> u16
    ensures { result ≡ lead b.now }
{
    number_2(b, 2)
}

// The clock as it is kept, 10,080 above the clock.
pub fn clock(b: &[u8]) -> Minute
    ensures { result.0 ≡ clock_plus_10080 b.now }
{
    Minute(number_2(b, 4))
}

pub fn rule_of(d: &[u8]) -> Rule
    ensures { result ≡ rule_of d.now }
{
    Rule(byte_or_zero(d, 6))
}

pub fn day_of_book(b: &[u8]) -> &[u8]
    ensures { result.now ≡ day_of_book b.now }
{
    part_of(b, 8, 8)
}

pub fn area(b: &[u8]) -> &[u8]
    ensures { result.now ≡ area b.now }
{
    part_of(b, 24, 16)
}

// Of a day block and of a sender block.
pub fn receiver(b: &[u8]) -> &[u8]
    ensures { result.now ≡ receiver b.now }
{
    part_of(b, 40, 16)
}

// The message version of a sender block, the series version of a series block.
pub fn version(b: &[u8]) -> u16
    ensures { result ≡ version b.now }
{
    number_2(b, 2)
}

pub fn id_of(b: &[u8]) -> &[u8]
    ensures { result.now ≡ id_of b.now }
{
    part_of(b, 8, 16)
}

pub fn series_count(b: &[u8]) -> u16
    ensures { result ≡ series_count b.now }
{
    number_2(b, 4)
}

pub fn sender(b: &[u8]) -> &[u8]
    ensures { result.now ≡ sender b.now }
{
    part_of(b, 24, 16)
}

pub fn day_of_message(b: &[u8]) -> &[u8]
    ensures { result.now ≡ day_of_message b.now }
{
    part_of(b, 56, 8)
}

pub fn nets(b: &[u8]) -> &[u8]
    ensures { result.now ≡ nets b.now }
{
    part_of(b, 108, 400)
}

pub fn business_type(b: &[u8]) -> u8
    ensures { result ≡ business_type b.now }
{
    byte_or_zero(b, 4)
}

pub fn contract_type(b: &[u8]) -> u8
    ensures { result ≡ contract_type b.now }
{
    byte_or_zero(b, 5)
}

pub fn senders_slot(b: &[u8]) -> Slot
    ensures { result.0 ≡ senders_slot b.now }
{
    Slot(number_2(b, 6) as usize)
}

pub fn in_area(b: &[u8]) -> &[u8]
    ensures { result.now ≡ in_area b.now }
{
    part_of(b, 24, 16)
}

pub fn out_area(b: &[u8]) -> &[u8]
    ensures { result.now ≡ out_area b.now }
{
    part_of(b, 40, 16)
}

pub fn in_party(b: &[u8]) -> &[u8]
    ensures { result.now ≡ in_party b.now }
{
    part_of(b, 56, 16)
}

pub fn out_party(b: &[u8]) -> &[u8]
    ensures { result.now ≡ out_party b.now }
{
    part_of(b, 72, 16)
}

// In party and out party together.
pub fn pair(b: &[u8]) -> &[u8]
    ensures { result.now ≡ pair b.now }
{
    part_of(b, 56, 32)
}

pub fn agreement(b: &[u8]) -> &[u8]
    ensures { result.now ≡ agreement b.now }
{
    part_of(b, 88, 16)
}

// Business type and contract type. The key is these, the areas, and parties and agreement.
pub fn types(x: &[u8]) -> &[u8]
    ensures { result.now ≡ part 4 2 x.now }
{
    part_of(x, 4, 2)
}

// In area and out area together.
pub fn areas(x: &[u8]) -> &[u8]
    ensures { result.now ≡ part 24 32 x.now }
{
    part_of(x, 24, 32)
}

// What tells the series of one sender apart nearly always: two of them differ in little else.
pub fn parties_and_agreement(x: &[u8]) -> &[u8]
    ensures { result.now ≡ part 56 48 x.now }
{
    part_of(x, 56, 48)
}

pub fn mark(b: &[u8]) -> &[u8]
    ensures { result.now ≡ mark b.now }
{
    part_of(b, 104, 4)
}

pub fn differing(b: &[u8]) -> u8
    ensures { result ≡ differing b.now }
{
    byte_or_zero(b, 104)
}

pub fn first(b: &[u8]) -> Position
    ensures { result.0 ≡ first b.now }
{
    Position(byte_or_zero(b, 105) as usize)
}

pub fn partner(b: &[u8]) -> Slot
    ensures { result.0 ≡ partner b.now }
{
    Slot(number_2(b, 106) as usize)
}

pub fn quantities(b: &[u8]) -> &[u8]
    ensures { result.now ≡ quantities b.now }
{
    part_of(b, 108, 400)
}

// The quantity or the net at position k + 1, one of the hundred.
pub fn quantity(b: &[u8], k: usize) -> u32
    requires { k < 100 }
    ensures { result ≡ quantity b.now k }
{
    number_4(b, 108 + 4 * k)
}

// The same of a block with all its entries: no entry asks for the block's length, and so several go in one step of the machine.
pub fn whole_quantity(b: &[u8], k: usize) -> u32
    requires { (k < 100) × (508 ≤ length b.now) }
    ensures { result ≡ quantity b.now k }
{
    whole_4(b, 108 + 4 * k)
}

// The bytes of the positions above n.
pub fn above_n(n: usize, b: &[u8]) -> &[u8]
    requires { n ≤ 100 }
    ensures { result.now ≡ above_n n b.now }
{
    part_of(b, 108 + 4 * n, 400 - 4 * n)
}

// A right has the layout of a series: its holder stands as either party, its limits as quantities.
pub fn holder(b: &[u8]) -> &[u8]
    ensures { result.now ≡ holder b.now }
{
    in_party(b)
}

pub fn limit(b: &[u8], k: usize) -> u32
    requires { k < 100 }
    ensures { result ≡ limit b.now k }
{
    quantity(b, k)
}

// All that tells two rights apart.
pub fn but_limits(b: &[u8]) -> &[u8]
    ensures { result.now ≡ but_limits b.now }
{
    part_of(b, 0, 108)
}

// The bytes that the layout shows as 0.
pub fn day_zeros(d: &[u8]) -> bool
    ensures { result ≡ day_zeros d.now }
{
    all_zero(part_of(d, 7, 1)) & all_zero(part_of(d, 16, 8)) & all_zero(part_of(d, 56, 452))
}

pub fn sender_zeros(s: &[u8]) -> bool
    ensures { result ≡ sender_zeros s.now }
{
    all_zero(part_of(s, 6, 2)) & all_zero(part_of(s, 64, 44))
}

// In a message the nets are 0 too.
pub fn sender_zeros_in_message(s: &[u8]) -> bool
    ensures { result ≡ sender_zeros_in_message s.now }
{
    all_zero(part_of(s, 6, 2)) & all_zero(part_of(s, 64, 444))
}

// The sender's slot and the mark, which the desk fills in.
pub fn series_zeros_in_message(x: &[u8]) -> bool
    ensures { result ≡ series_zeros_in_message x.now }
{
    all_zero(part_of(x, 6, 2)) & all_zero(part_of(x, 104, 4))
}

// A right has no version, sender's slot, id or mark.
pub fn right_zeros(b: &[u8]) -> bool
    ensures { result ≡ right_zeros b.now }
{
    all_zero(part_of(b, 2, 2)) & all_zero(part_of(b, 6, 18)) & all_zero(part_of(b, 104, 4))
}
