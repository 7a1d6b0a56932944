// A sender block, but for its count, which is judged for all senders at once.
#![tactic(auto, using(layout::proofs::Tests::tests), unfolding(paper::specs::Sound::sender_fields, paper::specs::Sound::sender_day_and_nets))]

ghost use Rattle.std.specs.Prelude.{◌≡◌, ◌≤◌};
ghost use Rattle.paper.specs.Layout.{n_of};
ghost use Rattle.paper.specs.Sound.{sender_fields, sender_day_and_nets};

use super::entries::nets_allowed;
use super::ranges::version_allowed;
use eic::eic_valid;
use field::{id_well_formed, same};
use layout::{day_of_book, day_of_message, id_of, n_of, receiver, sender, sender_zeros, version};

pub fn sender_fields(d: &[u8], s: &[u8]) -> bool
    ensures { result ≡ sender_fields d.now s.now }
{
    (n_of(s) == n_of(d))
        & version_allowed(version(s))
        & id_well_formed(id_of(s))
        & eic_valid(sender(s))
        & sender_zeros(s)
}

pub fn sender_day(d: &[u8], s: &[u8]) -> bool
    requires { n_of d.now ≤ 100 }
    ensures { result ≡ sender_day_and_nets d.now s.now }
{
    same(receiver(s), receiver(d))
        & same(day_of_message(s), day_of_book(d))
        & nets_allowed(n_of(d) as usize, s)
}
