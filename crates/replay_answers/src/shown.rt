// The calls whose lines show bytes.
// Buffers have a fixed length here, since the desk has no heap.
ghost use Rattle.std.specs.Prelude.{unwrap_or};
ghost use Rattle.desk_text.specs.Put.{Put};
ghost use Rattle.replay_answers.specs.Answers.{block_line, reader_line, listing_line, print_line, seal_line};

use crate::names::two_names;
use block::numbers::{number_2, number_4};
use field::part_of;
use reader::series_numbered;
use stream::fields::rest_from;
use stream::line::answer_with;
use stream::tag::Tag;

pub fn accepted_block(book: &[u8], body: &[u8], line: &mut [u8]) -> Option<usize>
    ensures { Put 0 (block_line book.now body.now) (unwrap_or result 0) line.old line.new }
{
    let (sender, id) = two_names(body)?;
    let block = readings::accepted_block(book, sender, id);
    Some(answer_with(line, Tag::Block as u8, &[block.len()], block))
}

// Two bytes of the series' number, then the message.
pub fn reader(body: &[u8], line: &mut [u8]) -> usize
    ensures { Put 0 (reader_line body.now) result line.old line.new }
{
    let series = series_numbered(rest_from(body, 2), number_2(body, 0) as usize);
    answer_with(line, Tag::Reader as u8, &[series.len()], series)
}

// The buffer is never too short (listing_text, specs/Bound).
pub fn listing(book: &[u8], line: &mut [u8]) -> usize
    ensures { Put 0 (listing_line book.now) result line.old line.new }
{
    let mut text = [0u8; 5591];
    let n = listing_text::listing(book, &mut text);
    answer_with(line, Tag::Listing as u8, &[], part_of(&text, 0, n))
}

// Four bytes of quantity, then the buffer to print into.
pub fn print(body: &mut [u8], line: &mut [u8]) -> Option<usize>
    ensures { Put 0 (print_line body.old) (unwrap_or result 0) line.old line.new }
{
    if body.len() < 4 {
        return None;
    }
    let kilowatts = number_4(body, 0);
    let buffer = &mut body[4..];
    let p = quantity::quantity_print(kilowatts, buffer);
    Some(answer_with(
        line,
        Tag::Print as u8,
        &[p.number as usize, p.length],
        buffer,
    ))
}

pub fn seal(block: &mut [u8], line: &mut [u8]) -> usize
    ensures { Put 0 (seal_line block.old) result line.old line.new }
{
    block::check::seal(block);
    answer_with(line, Tag::Seal as u8, &[], block)
}
