// The line that answers each record of a stream (docs/REPLAY.md). Where the fields of a record do not fill its body nothing is called and nothing told: the
// record is malformed.
#![tactic(auto)]

pub mod day_calls;
pub mod leaf_calls;
pub mod message_calls;
mod names;
pub mod reading_calls;
pub mod shown;

ghost use Rattle.std.specs.Prelude.{◌≡◌, false, unwrap_or};
ghost use Rattle.paper.specs.Layout.{Bytes};
ghost use Rattle.stream.specs.Told.{numbers_of, told_of};
ghost use Rattle.stream.specs.Tags.{number_of};
ghost use Rattle.stream.specs.Records.{known};
ghost use Rattle.desk_text.specs.Put.{Put};
ghost use Rattle.replay_answers.specs.Answers.{numbers_told, line_of, book_after};

use block::numbers::{byte_or_zero, number_2};
use paper::{LESSER, Minute, Rule};
use stream::tag::Tag;
use stream::told::Told;
use stream::{buffer, line};

// The numbers that a call tells, of the calls that show no bytes. `length` and `bytes` are not asked of it, nor those whose lines show bytes.
fn numbers(tag: Tag, book: &mut [u8], body: &[u8]) -> Option<Told>
    ensures { (told_of result ≡ numbers_told (number_of tag) book.old body.now) × (book.new ≡ book_after (number_of tag) book.old body.now) }
{
    match tag {
        Tag::Book => Some(buffer::length_told(book)),
        Tag::Length | Tag::Bytes | Tag::Sum => Some(buffer::sum_told(book)),
        Tag::Open => day_calls::open(book, body, LESSER, 3),
        Tag::OpenBy => day_calls::open(book, body, Rule(byte_or_zero(body, 3)), 4),
        Tag::Clock => Some(day_calls::clock(book, Minute(number_2(body, 0)))),
        Tag::Submit => Some(day_calls::submit(book, body)),
        Tag::Judge => Some(day_calls::judge(book, body)),
        Tag::Convert => Some(day_calls::convert(book)),
        Tag::Right => Some(day_calls::right(book, body)),
        Tag::Mark => reading_calls::mark(book, body),
        Tag::Final => reading_calls::final_value(book, body),
        Tag::Settled => reading_calls::settled(book, body),
        Tag::Plain => Some(reading_calls::plain_run(book)),
        Tag::Walk => Some(message_calls::walk_told(body)),
        Tag::Sound | Tag::Block | Tag::Reader | Tag::Listing => Some(reading_calls::sound(book)),
        Tag::Eic => Some(leaf_calls::eic(body)),
        Tag::Id => Some(leaf_calls::id(body)),
        Tag::Read => Some(leaf_calls::read(body)),
        Tag::Check => Some(leaf_calls::check(body)),
        Tag::Code | Tag::Print | Tag::Seal => Some(leaf_calls::code(body)),
    }
}

// What is told of a byte that is no tag: of 0 what `sum` tells, of any other what `sound` does.
fn told_of_none(tag: u8, book: &[u8]) -> Told
    requires { known tag ≡ false }
    ensures { (body : Bytes) → numbers_of result ≡ numbers_told tag book.now body }
{
    if tag == 0 {
        buffer::sum_told(book)
    } else {
        reading_calls::sound(book)
    }
}

// How many bytes of the buffer the line has; a malformed record has none. The line of a byte that is no tag, which `next_head` refuses, has no word.
pub fn answer(tag: u8, book: &mut [u8], body: &mut [u8], line: &mut [u8]) -> Option<usize>
    ensures { Put 0 (line_of tag book.old body.old) (unwrap_or result 0) line.old line.new × (book.new ≡ book_after tag book.old body.old) }
{
    let Ok(call) = Tag::try_from(tag) else {
        return line::answer(line, tag, Some(told_of_none(tag, book)));
    };
    match call {
        Tag::Block => shown::accepted_block(book, body, line),
        Tag::Reader => Some(shown::reader(body, line)),
        Tag::Listing => Some(shown::listing(book, line)),
        Tag::Print => shown::print(body, line),
        Tag::Seal => Some(shown::seal(body, line)),
        _ => line::answer(line, tag, numbers(call, book, body)),
    }
}
