// Replays a stream of calls on one book and answers each with a line; docs/REPLAY.md fixes both.
// Buffers have a fixed length here, since the desk has no heap.
#![tactic(auto)]

mod buffer;

use block::numbers::number_4;
use field::within;
use std::io::Read;
use stream::input::{Head, fill, next_head};
use stream::line;
use stream::tag::{Malformed, Tag};

// Shows the line, which has k bytes; a record is malformed if it has none, or a line of none.
fn shown(rt: &impl Print, line: &[u8], k: Option<usize>) -> Result<(), Malformed> {
    buffer::show(rt, line, k.filter(|k| *k != 0).ok_or(Malformed)?);
    Ok(())
}

// What is given is the length of the buffer from now on. The body of `bytes` goes straight into the book: no other buffer is as long. The line of `book` is
// followed by the book itself.
fn take(
    rt: &impl Print,
    input: &mut impl Read,
    head: Head,
    length: usize,
    book: &mut [u8],
    message: &mut [u8],
    line: &mut [u8],
) -> Result<usize, Malformed> {
    let used = within(length, book);
    if head.tag == Tag::Bytes {
        let told = buffer::set_bytes(input, &mut book[..used], head.length)?;
        let k = line::answer(line, head.tag as u8, Some(told));
        shown(rt, line, k)?;
        return Ok(length);
    }
    let body = fill(input, message, head.length)?;
    if head.tag == Tag::Length {
        let new = number_4(body, 0) as usize;
        let k = line::answer(
            line,
            head.tag as u8,
            stream::buffer::set_length(book, length, new),
        );
        shown(rt, line, k)?;
        return Ok(new);
    }
    let book = &mut book[..used];
    let k = replay_answers::answer(head.tag as u8, book, body, line);
    shown(rt, line, k)?;
    if head.tag == Tag::Book {
        buffer::show_rows(rt, book, line);
    }
    Ok(length)
}

// No line is longer than the listing's: its word, a space, 5,591 bytes (listing_text, specs/Bound) in hex and the newline. The number of turns bounds the
// loop, since nothing says that the input ever ends.
fn replay(rt: &impl Print, input: &mut impl Read) -> Result<(), Malformed> {
    let mut book = [0u8; 512512];
    let mut message = [0u8; 131074];
    let mut line = [0u8; 11191];
    let mut length = 0;
    for _ in 0..u64::MAX {
        let Some(head) = next_head(input)? else {
            return Ok(());
        };
        length = take(rt, input, head, length, &mut book, &mut message, &mut line)?;
    }
    Ok(())
}

fn main(rt: HostRuntime) {
    if replay(&rt, &mut rt.reader()).is_err() {
        let _ = rt.write_all(b"malformed\n");
    }
}
