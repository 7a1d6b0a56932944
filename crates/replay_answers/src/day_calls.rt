// The calls that may change the book: open, clock, submit, open_by, convert, right; and judge, which tells what submit would, but for the looks.
ghost use Rattle.std.specs.Prelude.{◌≡◌, [], ◌∷◌};
ghost use Rattle.paper.specs.Rules.{verdict};
ghost use Rattle.paper.specs.Acceptance.{submitted};
ghost use Rattle.paper.specs.Looks.{submit_answer};
ghost use Rattle.paper.specs.Clock.{clock_answer, clock_moved};
ghost use Rattle.paper.specs.Conversion.{conversion_number, converted};
ghost use Rattle.paper.specs.Rights.{enter_number, entered};
ghost use Rattle.stream.specs.Told.{numbers_of, told_of};
ghost use Rattle.replay_answers.specs.Answers.{clock_told, verdict_told, submit_told, open_numbers, open_after};

use block::numbers::{byte_or_zero, number_2};
use paper::{Minute, Rule};
use stream::fields::name_from;
use stream::told::Told;

// One byte of n, two of lead and, of a record that names its rule, one of that; then, from a place on, the names of day, area and receiver.
pub fn open(book: &mut [u8], body: &[u8], rule: Rule, names: usize) -> Option<Told>
    ensures { (told_of result ≡ open_numbers rule names book.old body.now) × (book.new ≡ open_after rule names book.old body.now) }
{
    let (day, behind) = name_from(body, names)?;
    let (area, behind) = name_from(body, behind)?;
    let (receiver, end) = name_from(body, behind)?;
    if end != body.len() {
        return None;
    }
    let n = byte_or_zero(body, 0);
    let lead = number_2(body, 1);
    let a = opening::open_by(book, n, lead, rule, day, area, receiver);
    Some(Told::of([a.number as usize, a.character as usize]))
}

pub fn clock(book: &mut [u8], minute: Minute) -> Told
    ensures { (numbers_of result ≡ clock_told (clock_answer book.old minute.0)) × (book.new ≡ clock_moved book.old minute.0) }
{
    let answer = clock::clock(book, minute);
    let s = answer.state;
    Told::of([
        answer.number as usize,
        s.n as usize,
        s.lead as usize,
        s.clock.0 as usize,
    ])
}

pub fn submit(book: &mut [u8], message: &[u8]) -> Told
    ensures { (numbers_of result ≡ submit_told (submit_answer book.old message.now)) × (book.new ≡ submitted book.old message.now) }
{
    let answer = submit::submit(book, message);
    let verdict = answer.verdict;
    Told::of([
        verdict.number as usize,
        verdict.code as usize,
        verdict.series,
        verdict.position.0,
        verdict.character as usize,
        answer.looked,
    ])
}

pub fn judge(book: &[u8], message: &[u8]) -> Told
    ensures { numbers_of result ≡ verdict_told (verdict book.now message.now) }
{
    let v = judge::verdict(book, message);
    Told::of([
        v.number as usize,
        v.code as usize,
        v.series,
        v.position.0,
        v.character as usize,
    ])
}

pub fn convert(book: &mut [u8]) -> Told
    ensures { (numbers_of result ≡ conversion_number book.old ∷ []) × (book.new ≡ converted book.old) }
{
    Told::of([conversion::convert(book) as usize])
}

pub fn right(book: &mut [u8], block: &[u8]) -> Told
    ensures { (numbers_of result ≡ enter_number book.old block.now ∷ []) × (book.new ≡ entered book.old block.now) }
{
    Told::of([entering::enter_right(book, block) as usize])
}
