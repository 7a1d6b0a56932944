// The calls that need neither a book nor a message.
ghost use Rattle.std.specs.Prelude.{◌≡◌};
ghost use Rattle.stream.specs.Told.{numbers_of};
ghost use Rattle.replay_answers.specs.Answers.{leaf_numbers};

use block::check::{check_of, check_right};
use block::numbers::byte_or_zero;
use codes::reason_code;
use eic::eic_number;
use field::id_well_formed;
use quantity::quantity_read;
use stream::told::Told;

pub fn eic(body: &[u8]) -> Told
    ensures { numbers_of result ≡ leaf_numbers 16 body.now }
{
    Told::of([eic_number(body) as usize])
}

pub fn id(body: &[u8]) -> Told
    ensures { numbers_of result ≡ leaf_numbers 17 body.now }
{
    Told::of([usize::from(id_well_formed(body))])
}

pub fn read(body: &[u8]) -> Told
    ensures { numbers_of result ≡ leaf_numbers 18 body.now }
{
    let r = quantity_read(body);
    Told::of([r.number as usize, r.kilowatts as usize])
}

pub fn check(body: &[u8]) -> Told
    ensures { numbers_of result ≡ leaf_numbers 20 body.now }
{
    Told::of([check_of(body) as usize, usize::from(check_right(body))])
}

pub fn code(body: &[u8]) -> Told
    ensures { numbers_of result ≡ leaf_numbers 22 body.now }
{
    Told::of([reason_code(byte_or_zero(body, 0) as u32) as usize])
}
