// The day block: "as above with valid EICs".
#![tactic(auto, using(layout::proofs::Tests::tests), unfolding(paper::specs::Sound::day_fields, paper::specs::Sound::day_sound, paper::specs::Rules::closed))]

ghost use Rattle.std.specs.Prelude.{◌≡◌, ◌≤◌};
ghost use Rattle.paper.specs.Sound.{day_fields, day_sound};
ghost use Rattle.paper.specs.Rules.{closed};

use super::ranges::{clock_allowed, lead_allowed, n_allowed, rule_allowed};
use eic::eic_valid;
use field::day_well_formed;
use layout::{area, clock, day_of_book, day_zeros, kind, lead, n_of, receiver, rule_of};
use paper::Position;

fn day_fields(d: &[u8]) -> bool
    ensures { result ≡ day_fields d.now }
{
    (kind(d) == 3)
        & n_allowed(n_of(d))
        & lead_allowed(lead(d))
        & clock_allowed(clock(d))
        & day_well_formed(day_of_book(d))
}

// An opening asks the same of the block that it is about to write.
pub fn day_sound(d: &[u8]) -> bool
    ensures { result ≡ day_sound d.now }
{
    day_fields(d)
        & rule_allowed(rule_of(d))
        & eic_valid(area(d))
        & eic_valid(receiver(d))
        & day_zeros(d)
}

// "Position p is open exactly when clock + lead ≤ 15 × (p − 1)." Clock and lead together need more than the two bytes that each has.
pub fn closed(d: &[u8], position: Position) -> bool
    requires { (1 ≤ position.0) × (position.0 ≤ 255) }
    ensures { result ≡ closed d.now position.0 }
{
    !(clock(d).0 as usize + lead(d) as usize <= 15 * (position.0 - 1) + 10080)
}
