// Lists the book that it reads from standard input. What it writes is the text of the definition `listing`: that of a sound book of at most 64 blocks, or
// why there is none. It has no exit status of its own, unless its input cannot be read or its text not be written: the text tells.
// Buffers have a fixed length here, since the desk has no heap.
#![tactic(auto)]

use field::part_of;
use std::io;

// No listing has more than 5,591 bytes (listing_text, specs/Bound), so the buffer is never too short.
fn list(rt: &impl Print, book: &[u8]) -> io::Result<()> {
    let mut text = [0u8; 5591];
    let n = listing_text::listing(book, &mut text);
    rt.write_all(part_of(&text, 0, n))
}

// One byte more than 64 blocks is read: that byte tells a book that is too long.
fn main(rt: HostRuntime) -> io::Result<()> {
    let mut book = [0u8; 32769];
    let n = reads::read_full(&mut rt.reader(), &mut book)?;
    list(&rt, &book[..n])
}
