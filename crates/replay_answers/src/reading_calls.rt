// The calls that read the book.
ghost use Rattle.std.specs.Prelude.{◌≡◌, [], ◌∷◌};
ghost use Rattle.paper.specs.PlainRun.{plain_run};
ghost use Rattle.paper.specs.Sound.{sound};
ghost use Rattle.stream.specs.Told.{numbers_of, told_of};
ghost use Rattle.replay_answers.specs.Answers.{mark_numbers, final_numbers, settled_numbers, plain_told, yes_or_no};

use crate::names::two_names;
use block::numbers::number_2;
use paper::Position;
use stream::fields::{name_from, rest_from};
use stream::told::Told;

pub fn mark(book: &[u8], body: &[u8]) -> Option<Told>
    ensures { told_of result ≡ mark_numbers book.now body.now }
{
    let (sender, id) = two_names(body)?;
    let m = readings::mark(book, sender, id);
    Some(Told::of([m.number as usize, m.differ as usize, m.first.0, m.partner.0]))
}

// The names of the out party and of the in party, then two bytes of position.
pub fn final_value(book: &[u8], body: &[u8]) -> Option<Told>
    ensures { told_of result ≡ final_numbers book.now body.now }
{
    let (out_party, behind) = name_from(body, 0)?;
    let (in_party, at) = name_from(body, behind)?;
    if rest_from(body, at).len() != 2 {
        return None;
    }
    let position = Position(number_2(body, at) as usize);
    let f = readings::final_value(book, out_party, in_party, position);
    Some(Told::of([f.number as usize, f.kilowatts as usize]))
}

// The name of the party, then two bytes of position.
pub fn settled(book: &[u8], body: &[u8]) -> Option<Told>
    ensures { told_of result ≡ settled_numbers book.now body.now }
{
    let (party, at) = name_from(body, 0)?;
    if rest_from(body, at).len() != 2 {
        return None;
    }
    let position = Position(number_2(body, at) as usize);
    let s = settling::settled(book, party, position);
    Some(Told::of([s.number as usize, s.bought as usize, s.sold as usize]))
}

pub fn plain_run(book: &[u8]) -> Told
    ensures { numbers_of result ≡ plain_told (plain_run book.now) }
{
    let p = plain_run::plain_run(book);
    Told::of([p.number as usize, usize::from(p.holds)])
}

pub fn sound(book: &[u8]) -> Told
    ensures { numbers_of result ≡ yes_or_no (sound book.now) ∷ [] }
{
    Told::of([usize::from(sound::sound(book))])
}
