// The areas of a series and of a right: which of them is ours.
#![tactic(auto, using(layout::proofs::Tests::tests), unfolding(paper::specs::Sound::one_area_ours, paper::specs::Sound::areas_allowed))]

ghost use Rattle.std.specs.Prelude.{◌≡◌};
ghost use Rattle.paper.specs.Sound.{one_area_ours, areas_allowed};

use eic::eic_valid;
use field::same;
use layout::{in_area, out_area};
use slots::is_external;

// The order of the two is the direction, so either may be ours.
pub fn one_area_ours(ours: &[u8], x: &[u8]) -> bool
    ensures { result ≡ one_area_ours ours.now x.now }
{
    if same(in_area(x), ours) {
        return !same(out_area(x), ours) & eic_valid(out_area(x));
    }
    same(out_area(x), ours) & eic_valid(in_area(x))
}

// A submission asks the same of a message's series. A trade's areas are ours, and so valid: no code is judged.
pub fn areas_allowed(ours: &[u8], x: &[u8]) -> bool
    ensures { result ≡ areas_allowed ours.now x.now }
{
    if is_external(x) {
        return one_area_ours(ours, x);
    }
    same(in_area(x), ours) & same(out_area(x), ours)
}
