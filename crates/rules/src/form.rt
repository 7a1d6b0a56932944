// Rules 7 to 10: a series by itself, and beside the message's and the sender's stored series with its id or its key.
#![tactic(auto, using(layout::proofs::Tests::tests), unfolding(crate::specs::ByPlaces::known_otherwise, crate::specs::ByPlaces::rule7_by, paper::specs::Rules::rule8, paper::specs::Rules::wrong_character, paper::specs::Rules::rule9, paper::specs::Rules::rule10))]

ghost use Rattle.std.specs.Prelude.{◌≡◌};
ghost use Rattle.paper.specs.Rules.{rule8, wrong_character, rule9, rule10};
ghost use Rattle.rules.specs.ByPlaces.{known_otherwise, rule7_by};

use eic::{eic_valid, number_of_two};
use field::id_well_formed;
use layout::{area, id_of, in_party, out_party, pair, sender};
use slots::is_external;
use sound_blocks::areas::areas_allowed;
use sound_blocks::capacity::{capacity_allowed, type_allowed};
use sound_blocks::series::parties_of;

// Of series number `number`: the message's first series with its id, or with its key, is another, which comes earlier; or the sender's stored
// series with its id is not the one with its key.
pub fn known_otherwise(
    number: usize,
    first_with_id: u16,
    first_with_key: u16,
    stored_with_id: u16,
    stored_with_key: u16,
) -> bool
    ensures { result ≡ known_otherwise number first_with_id first_with_key stored_with_id stored_with_key }
{
    (first_with_id as usize != number)
        | (first_with_key as usize != number)
        | (stored_with_id != stored_with_key)
}

// Rules 14 to 17 know a series again by its key alone, which rule 7 makes safe.
pub fn rule_7(y: &[u8], otherwise: bool) -> bool
    ensures { result ≡ rule7_by otherwise y.now }
{
    !id_well_formed(id_of(y)) | otherwise
}

// Both codes are valid and one is the sender's. They differ, but for an external schedule.
pub fn rule_8(h: &[u8], y: &[u8]) -> bool
    ensures { result ≡ rule8 h.now y.now }
{
    !eic_valid(in_party(y))
        | !eic_valid(out_party(y))
        | !parties_of(is_external(y), sender(h), pair(y))
}

// What the EIC check says of a series that breaks rule 8. Where both codes are valid that is 0: the parties are equal, or neither is the sender.
pub fn wrong_character(y: &[u8]) -> u8
    ensures { result ≡ wrong_character y.now }
{
    number_of_two(in_party(y), out_party(y))
}

// Both areas are the book's one area; of an external schedule one is.
pub fn rule_9(d: &[u8], y: &[u8]) -> bool
    ensures { result ≡ rule9 d.now y.now }
{
    !areas_allowed(area(d), y)
}

// The capacity fields name a right: only a schedule on one has them.
pub fn rule_10(y: &[u8]) -> bool
    ensures { result ≡ rule10 y.now }
{
    !type_allowed(y) | !capacity_allowed(y)
}
