// Rules 3 to 6: the message's first block beside the day block, and beside the sender's stored block.
#![tactic(auto, using(layout::proofs::Tests::tests), unfolding(paper::specs::Rules::rule3, paper::specs::Rules::rule4, paper::specs::Rules::rule5, paper::specs::Rules::rule6, paper::specs::Rules::id_or_version_broken))]

ghost use Rattle.std.specs.Prelude.{◌≡◌};
ghost use Rattle.paper.specs.Rules.{rule3, rule4, rule5, rule6, id_or_version_broken};

use eic::eic_valid;
use field::{id_well_formed, same};
use layout::{day_of_book, day_of_message, id_of, n_of, receiver, sender, version};
use slots::is_sender;
use sound_blocks::ranges::version_allowed;

// "Receiver is not the book's": the message was meant for another desk.
pub fn rule_3(d: &[u8], h: &[u8]) -> bool
    ensures { result ≡ rule3 d.now h.now }
{
    !same(receiver(h), receiver(d))
}

// The sender's code is checked before the sender is looked up: a code that is not valid has no slot.
pub fn rule_4(h: &[u8]) -> bool
    ensures { result ≡ rule4 h.now }
{
    !eic_valid(sender(h))
}

// Day and n are the book's, so that position k of the message is position k of the book.
pub fn rule_5(d: &[u8], h: &[u8]) -> bool
    ensures { result ≡ rule5 d.now h.now }
{
    !same(day_of_message(h), day_of_book(d)) | (n_of(h) != n_of(d))
}

// One more than the largest version of two bytes fits in four.
fn id_or_version_broken(known: &[u8], h: &[u8]) -> bool
    ensures { result ≡ id_or_version_broken known.now h.now }
{
    if is_sender(known) {
        return !same(id_of(h), id_of(known)) | (version(h) <= version(known)) | (999 < version(h));
    }
    !version_allowed(version(h))
}

// The one rule of the first block that asks what is stored of the sender.
pub fn rule_6(known: &[u8], h: &[u8]) -> bool
    ensures { result ≡ rule6 known.now h.now }
{
    !id_well_formed(id_of(h)) | id_or_version_broken(known, h)
}
