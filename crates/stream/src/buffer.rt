// The records that set or show the buffer.
ghost use Rattle.std.specs.Prelude.{◌≡◌, ◌-◌, ◌≤◌, length, replicate};
ghost use Rattle.laws.specs.Bytes.{written};
ghost use Rattle.stream.specs.Told.{numbers_of, told_of};
ghost use Rattle.desk_text.specs.Put.{Put};
ghost use Rattle.stream.specs.Buffer.{length_numbers, length_after, bytes_numbers, buffer_numbers, book_row};

use crate::line::hex_line;
use crate::told::Told;
use block::check::check_bytes;
use field::part_of;

// From one place up to another; nothing where that lies before.
fn clear(buffer: &mut [u8], from: usize, end: usize)
    requires { end ≤ length buffer.old }
    ensures { buffer.new ≡ written from (replicate (end - from) 0) buffer.old }
{
    if from < end {
        buffer[from..end].fill(0);
    }
}

// The buffer is all there is room for, of which `old` bytes were in use.
pub fn set_length(buffer: &mut [u8], old: usize, new: usize) -> Option<Told>
    ensures { (told_of result ≡ length_numbers buffer.old new) × (buffer.new ≡ length_after buffer.old old new) }
{
    if buffer.len() < new {
        return None;
    }
    clear(buffer, old, new);
    Some(Told::of([new]))
}

// The sum of offset and count could pass the largest number.
pub fn bytes_told(size: usize, offset: usize, count: usize) -> Option<Told>
    ensures { told_of result ≡ bytes_numbers size offset count }
{
    if size.checked_sub(offset)? < count {
        return None;
    }
    Some(Told::of([offset, count]))
}

pub fn length_told(book: &[u8]) -> Told
    ensures { numbers_of result ≡ buffer_numbers 3 book.now }
{
    Told::of([book.len()])
}

pub fn sum_told(book: &[u8]) -> Told
    ensures { numbers_of result ≡ buffer_numbers 4 book.now }
{
    Told::of([book.len(), check_bytes(book) as usize])
}

// How many bytes of the buffer the line has; 0 behind the last.
pub fn book_row(book: &[u8], i: usize, line: &mut [u8]) -> usize
    ensures { Put 0 (book_row book.now i) result line.old line.new }
{
    if book.len() / 512 < i {
        return 0;
    }
    let row = part_of(book, 512 * i, 512);
    if row.is_empty() {
        return 0;
    }
    hex_line(line, row)
}
