// Records from an input. Nothing is read behind a record, and a body only once its length is known to be lawful.
// Buffers have a fixed length here, since the desk has no heap.
use crate::tag::{Malformed, Tag};
use block::numbers::number_4;
use std::io;
use std::io::Read;

// A record up to its body, which has this length.
#[derive(Clone, Copy)]
pub struct Head {
    pub tag: Tag,
    pub length: usize,
}

// An input that ends in a record, or that cannot be read.
impl From<io::Error> for Malformed {
    fn from(_e: io::Error) -> Malformed {
        Malformed
    }
}

// None at the end of the input: one read of one byte tells it from a read that failed. An unknown tag is found before a length is read.
pub fn next_head(input: &mut impl Read) -> Result<Option<Head>, Malformed> {
    let mut number = [0u8; 1];
    if input.read(&mut number)? == 0 {
        return Ok(None);
    }
    let tag = Tag::try_from(number[0])?;
    let mut length = [0u8; 4];
    input.read_exact(&mut length)?;
    let length = number_4(&length, 0) as usize;
    if !tag.lawful(length) {
        return Err(Malformed);
    }
    Ok(Some(Head { tag, length }))
}

// The first n bytes, filled; a buffer with fewer has none.
pub fn fill<'a>(
    input: &mut impl Read,
    buffer: &'a mut [u8],
    n: usize,
) -> Result<&'a mut [u8], Malformed> {
    let room = buffer.get_mut(..n).ok_or(Malformed)?;
    input.read_exact(room)?;
    Ok(room)
}
