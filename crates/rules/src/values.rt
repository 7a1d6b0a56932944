// Rules 11 to 15: the hundred positions of a series, each counted from 0 as k, and its version. n is the day's.
#![tactic(auto, using(layout::proofs::Tests::tests), unfolding(paper::specs::Rules::rule11, paper::specs::Rules::rule12, paper::specs::Rules::rule13, paper::specs::Rules::rule14, paper::specs::Rules::series_version, paper::specs::Rules::rule15))]

ghost use Rattle.std.specs.Prelude.{◌≡◌, ◌<◌};
ghost use Rattle.paper.specs.Rules.{rule11, rule12, rule13, rule14, series_version, rule15};

use field::same;
use layout::{quantities, quantity, version};
use paper::Position;
use slots::is_series;
use sound_blocks::day::closed;

// The top bit is the sign: a quantity below 0.
pub fn rule_11(n: usize, y: &[u8], k: usize) -> bool
    requires { k < 100 }
    ensures { result ≡ rule11 n y.now k }
{
    (k < n) & (2147483648 <= quantity(y, k))
}

// Judged behind rule 11, so that a quantity with the top bit set never comes to it.
pub fn rule_12(n: usize, y: &[u8], k: usize) -> bool
    requires { k < 100 }
    ensures { result ≡ rule12 n y.now k }
{
    (k < n) & (9999999 < quantity(y, k))
}

// Above the day's n there is no quarter-hour.
pub fn rule_13(n: usize, y: &[u8], k: usize) -> bool
    requires { k < 100 }
    ensures { result ≡ rule13 n y.now k }
{
    (n <= k) & (quantity(y, k) != 0)
}

// Of a new series nothing is stored, and each of its stored quantities counts as 0.
pub fn rule_14(d: &[u8], x: &[u8], y: &[u8], k: usize) -> bool
    requires { k < 100 }
    ensures { result ≡ rule14 d.now x.now y.now k }
{
    closed(d, Position(k + 1)) & (quantity(y, k) != quantity(x, k))
}

// A series keeps its version until one of its quantities changes.
fn series_version(x: &[u8], h: &[u8], y: &[u8]) -> u16
    ensures { result ≡ series_version x.now h.now y.now }
{
    if !is_series(x) | !same(quantities(x), quantities(y)) {
        return version(h);
    }
    version(x)
}

// The sender says itself which of its series have changed; the desk finds out for itself.
pub fn rule_15(x: &[u8], h: &[u8], y: &[u8]) -> bool
    ensures { result ≡ rule15 x.now h.now y.now }
{
    version(y) != series_version(x, h, y)
}
