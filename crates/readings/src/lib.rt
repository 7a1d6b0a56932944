// Readings of a day book ("Other calls"): the mark and the accepted block of (sender, series id), and the final value.
#![tactic(auto)]

ghost use Rattle.std.specs.Prelude.{◌≡◌};
ghost use Rattle.laws.specs.Tests.{◌and◌};
ghost use Rattle.laws.specs.Lists.{place};
ghost use Rattle.laws.specs.Cut.{cut};
ghost use Rattle.paper.specs.Layout.{differing, first, partner};
ghost use Rattle.paper.specs.Book.{is_series_of, id_is};
ghost use Rattle.paper.specs.Readings.{is_stored_as, stored_as, mark_given, mark_refused, mark_found, mark_answer, accepted_block};
ghost use Rattle.paper.specs.Finals.{final};

pub mod finals;

use codes::mark_code;
use field::{part_of, same};
use finals::{final_in, final_refused};
use layout::{differing, first, id_of, partner};
use paper::{FinalAnswer, MarkAnswer, Position, Slot};
use slots::{is_series_of, numbered, slot_of, used_part};
use sound::sound;

// The id is compared only where the sender's slot agrees.
fn is_series_with_id(b: &[u8], slot: Slot, id: &[u8]) -> bool
    ensures { result ≡ (is_series_of slot.0 b.now and id_is id.now b.now) }
{
    if !is_series_of(b, slot) {
        return false;
    }
    same(id_of(b), id)
}

// The slot of the stored series of a sender with this id; 0 where there is none.
pub fn stored_as(us: &[u8], sender: &[u8], id: &[u8]) -> Slot
    ensures { result.0 ≡ place (is_stored_as (cut 512 us.now) sender.now id.now) (cut 512 us.now) }
{
    let slot = slot_of(us, sender);
    match us
        .chunks_exact(512)
        .position(|b| is_series_with_id(b, slot, id))
    {
        Some(i) => Slot(i + 1),
        None => Slot(0),
    }
}

fn mark_refused(number: u32) -> MarkAnswer
    ensures { result ≡ mark_refused number }
{
    MarkAnswer {
        number,
        differ: 0,
        code: 0,
        first: Position(0),
        partner: Slot(0),
    }
}

fn mark_of(x: &[u8]) -> MarkAnswer
    ensures { result ≡ mark_given (differing x.now) (first x.now) (partner x.now) }
{
    let differing = differing(x);
    let partner = partner(x);
    MarkAnswer {
        number: 0,
        differ: differing,
        code: mark_code(differing, partner),
        first: first(x),
        partner,
    }
}

fn mark_in(us: &[u8], sender: &[u8], id: &[u8]) -> MarkAnswer
    ensures { result ≡ mark_found (stored_as (cut 512 us.now) sender.now id.now) }
{
    let slot = stored_as(us, sender, id);
    if slot == Slot(0) {
        return mark_refused(23);
    }
    mark_of(numbered(us, slot))
}

pub fn mark(book: &[u8], sender: &[u8], id: &[u8]) -> MarkAnswer
    ensures { result ≡ mark_answer book.now sender.now id.now }
{
    if !sound(book) {
        return mark_refused(1);
    }
    mark_in(used_part(book), sender, id)
}

// The block where it stands in the lent book; a refusal is an empty part.
pub fn accepted_block<'a>(book: &'a [u8], sender: &[u8], id: &[u8]) -> &'a [u8]
    ensures { result.now ≡ accepted_block book.now sender.now id.now }
{
    if !sound(book) {
        return &book[..0];
    }
    let us = used_part(book);
    numbered(us, stored_as(us, sender, id))
}

// The seller is the out party, the buyer the in party.
pub fn final_value(book: &[u8], seller: &[u8], buyer: &[u8], position: Position) -> FinalAnswer
    ensures { result ≡ final book.now seller.now buyer.now position.0 }
{
    if !sound(book) {
        return final_refused(1);
    }
    final_in(
        part_of(book, 0, 512),
        used_part(book),
        seller,
        buyer,
        position,
    )
}
