// Messages and rights in files: handed in, and made from their text form.
// Buffers have a fixed length here, since the desk has no heap.
ghost use Rattle.std.specs.Prelude.{◌≡◌};

use crate::{Failed, Fault, begin, change, replace, with_beside, with_file};
use desk_answers::Change;
use desk_text::words::word;
use std::rt::Files;

// The message is loaded before the book is touched.
pub fn submit<R: Files + Print>(rt: &R, words: &[u8]) {
    with_file::<102912, _, _>(rt, word(words, 3), Fault::NoMessage, |message| {
        change(rt, Change::Submit, word(words, 2), message)
    });
}

fn wrong_line(rt: &impl Print, number: usize) {
    let _ = println!(rt; "refused: line {number} of the text is wrong");
}

fn made(rt: &impl Print, length: usize) {
    let _ = println!(rt; "accepted: a message of {length} bytes");
}

fn write_message<R: Files + Print>(
    rt: &R,
    path: &[u8],
    name: &[u8],
    message: &[u8],
    line: usize,
) -> Result<(), Failed>
    requires { line ≡ 0 }
{
    let file = begin(rt, name)?;
    replace(rt, file, name, path, message, line)?;
    made(rt, message.len());
    Ok(())
}

// Nothing is written of a wrong text.
fn message_in<R: Files + Print>(rt: &R, path: &[u8], text: &[u8], room: &mut [u8]) {
    let read = message_text::message_from_text(text, room);
    if read.line != 0 {
        wrong_line(rt, read.line);
        return;
    }
    let k = read.length.min(room.len());
    let message = &room[..k];
    with_beside(path, |name| {
        let _ = write_message(rt, path, name, message, read.line);
    });
}

// The text of the longest message has fewer bytes than the room.
pub fn message<R: Files + Print>(rt: &R, words: &[u8]) {
    with_file::<524288, _, _>(rt, word(words, 2), Fault::NoText, |text| {
        let mut room = [0u8; 102912];
        message_in(rt, word(words, 3), text, &mut room)
    });
}

// Nothing is entered of a wrong text.
fn right_in<R: Files + Print>(rt: &R, path: &[u8], text: &[u8]) {
    let mut block = [0u8; 512];
    let line = message_text::right_from_text(text, &mut block).line;
    if line != 0 {
        wrong_line(rt, line);
        return;
    }
    change(rt, Change::Enter, path, &block);
}

// The text is loaded before the book is touched.
pub fn right<R: Files + Print>(rt: &R, words: &[u8]) {
    with_file::<524288, _, _>(rt, word(words, 3), Fault::NoText, |text| {
        right_in(rt, word(words, 2), text)
    });
}
