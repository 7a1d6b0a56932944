// The records that set or show the buffer: here bytes are moved; what is told of them stream::buffer decides.
// Buffers have a fixed length here, since the desk has no heap.
use block::numbers::number_4;
use field::{part_of, within};
use std::io::Read;
use stream::buffer::{book_row, bytes_told};
use stream::input::fill;
use stream::tag::Malformed;
use stream::told::Told;

// What cannot be written is not shown.
pub fn show(rt: &impl Print, line: &[u8], k: usize) {
    let _ = rt.write_all(part_of(line, 0, k));
}

// Line by line, up to the one of what is left behind the last 512 bytes, which may be none.
pub fn show_rows(rt: &impl Print, book: &[u8], line: &mut [u8]) {
    for i in 0..=book.len() / 512 {
        let k = book_row(book, i, line);
        show(rt, line, k);
    }
}

// The n bytes of a body: four of offset, then those that go straight into the buffer. Nothing is read where nothing is told.
pub fn set_bytes(input: &mut impl Read, buffer: &mut [u8], n: usize) -> Result<Told, Malformed> {
    let count = n.checked_sub(4).ok_or(Malformed)?;
    let mut offset = [0u8; 4];
    input.read_exact(&mut offset)?;
    let offset = number_4(&offset, 0) as usize;
    let told = bytes_told(buffer.len(), offset, count).ok_or(Malformed)?;
    let at = within(offset, buffer);
    let _ = fill(input, &mut buffer[at..], count)?;
    Ok(told)
}
