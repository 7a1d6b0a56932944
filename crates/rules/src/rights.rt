// Rules 18 and 19: a series on a right, the place of which was found before, and the sums on it.
#![tactic(auto, using(layout::proofs::Tests::tests), unfolding(crate::specs::ByPlaces::rule18_by, crate::specs::ByPlaces::rule19_by))]

ghost use Rattle.std.specs.Prelude.{◌≡◌, ◌<◌};
ghost use Rattle.rules.specs.ByPlaces.{rule18_by, rule19_by};

use layout::limit;
use slots::with_capacity;

// Where the sender holds no right that the series names, its place is 0.
pub fn rule_18(y: &[u8], right: u16) -> bool
    ensures { result ≡ rule18_by y.now right }
{
    with_capacity(y) & (right == 0)
}

// The sum is that of this series and the earlier ones on the right r, which may come up to its limit.
pub fn rule_19(n: usize, r: &[u8], sum: u64, y: &[u8], k: usize) -> bool
    requires { k < 100 }
    ensures { result ≡ rule19_by n r.now sum y.now k }
{
    with_capacity(y) & (k < n) & ((limit(r, k) as u64) < sum)
}
