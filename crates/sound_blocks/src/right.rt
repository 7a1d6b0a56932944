// A rights block. Entering asks the same of a block that is to become one.
#![tactic(auto, using(layout::proofs::Tests::tests), unfolding(paper::specs::Sound::right_fields, paper::specs::Sound::right_sound))]

ghost use Rattle.std.specs.Prelude.{◌≡◌, ◌≤◌};
ghost use Rattle.paper.specs.Layout.{n_of};
ghost use Rattle.paper.specs.Sound.{right_fields, right_sound};

use super::areas::one_area_ours;
use super::capacity::capacity_named;
use super::entries::quantities_allowed;
use eic::eic_valid;
use field::same;
use layout::{area, holder, n_of, out_party, right_zeros};
use slots::with_capacity;

fn right_fields(d: &[u8], r: &[u8]) -> bool
    ensures { result ≡ right_fields d.now r.now }
{
    (n_of(r) == n_of(d)) & with_capacity(r) & capacity_named(r) & right_zeros(r)
}

pub fn right_sound(d: &[u8], r: &[u8]) -> bool
    requires { n_of d.now ≤ 100 }
    ensures { result ≡ right_sound d.now r.now }
{
    right_fields(d, r)
        & one_area_ours(area(d), r)
        & eic_valid(holder(r))
        & same(out_party(r), holder(r))
        & quantities_allowed(n_of(d) as usize, r)
}
