// The names that a body holds.
ghost use Rattle.replay_answers.specs.Answers.{TwoNames};

use stream::fields::name_from;

// Those of a sender and of a series id, and nothing behind them.
pub fn two_names(body: &[u8]) -> Option<(&[u8], &[u8])>
    ensures { TwoNames body.now result }
{
    let (sender, behind) = name_from(body, 0)?;
    let (id, end) = name_from(body, behind)?;
    if end != body.len() {
        return None;
    }
    Some((sender, id))
}
