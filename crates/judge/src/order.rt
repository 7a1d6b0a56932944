// Verdicts in order: a check gives Err with its verdict where a rule is broken, and by `?` the first refusal wins.
ghost use Rattle.std.specs.Prelude.{◌≡◌};
ghost use Rattle.paper.specs.Rules.{verdict_of, fine, broken};
ghost use Rattle.judge.specs.Order.{verdict_in, Gives};

use codes::reason_code;
use paper::{Position, Verdict};

// With the code of the one fixed table. Series, position and character are 0 for a rule that has none.
pub fn verdict_of(number: u32, series: usize, position: usize, character: u8) -> Verdict
    ensures { result ≡ verdict_of number series position character }
{
    Verdict {
        number,
        code: reason_code(number),
        series,
        position: Position(position),
        character,
    }
}

// No rule is broken: all numbers are 0, and the code is A01.
pub fn fine() -> Verdict
    ensures { result ≡ fine }
{
    verdict_of(0, 0, 0, 0)
}

// Only rules 4 and 8 name a character.
pub fn broken(test: bool, number: u32, series: usize, position: usize) -> Result<(), Verdict>
    ensures verdict { verdict_in result ≡ broken test number series position }
    ensures gives { (number ≡ 0 → ⊥) → Gives result (broken test number series position) }
{
    if test {
        return Err(verdict_of(number, series, position, 0));
    }
    Ok(())
}
