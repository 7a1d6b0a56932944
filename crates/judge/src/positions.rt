// Rules 11 to 14 by ascending position over all hundred.
ghost use Rattle.std.specs.Prelude.{◌≡◌, ◌<◌};
ghost use Rattle.paper.specs.Rules.{over_positions, quantity_verdict, closed_verdict};
ghost use Rattle.judge.specs.Order.{Gives};

use super::order::broken;
use paper::{Position, Verdict};
use rules::values::{rule_11, rule_12, rule_13, rule_14};
use sound_blocks::day::closed;
use sound_blocks::entries::quantities_allowed;

// Position k + 1: of rules 11 and 12 the first that is broken, above n rule 13.
fn quantity_at(n: usize, s: usize, y: &[u8], k: usize) -> Result<(), Verdict>
    requires { k < 100 }
    ensures { Gives result (quantity_verdict n s y.now k) }
{
    broken(rule_11(n, y, k), 11, s, k + 1)?;
    broken(rule_12(n, y, k), 12, s, k + 1)?;
    broken(rule_13(n, y, k), 13, s, k + 1)
}

// All hundred, since rule 13 is about the positions above n.
fn first_refused(n: usize, s: usize, y: &[u8]) -> Result<(), Verdict>
    ensures { Gives result (over_positions (quantity_verdict n s y.now)) }
{
    for k in 0..100 {
        quantity_at(n, s, y, k)?;
    }
    Ok(())
}

// The quantities are judged position by position only where some quantity is not allowed.
pub fn quantity_verdict(n: usize, s: usize, y: &[u8]) -> Result<(), Verdict>
    ensures { Gives result (over_positions (quantity_verdict n s y.now)) }
{
    if 100 < n {
        return first_refused(n, s, y);
    }
    if quantities_allowed(n, y) {
        return Ok(());
    }
    first_refused(n, s, y)
}

// Positions close in their order: past the first open one rule 14 asks nothing.
pub fn closed_verdict(d: &[u8], x: &[u8], s: usize, y: &[u8]) -> Result<(), Verdict>
    ensures { Gives result (over_positions (closed_verdict d.now x.now s y.now)) }
{
    for k in 0..100 {
        if !closed(d, Position(k + 1)) {
            return Ok(());
        }
        broken(rule_14(d, x, y, k), 14, s, k + 1)?;
    }
    Ok(())
}
