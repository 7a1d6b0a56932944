// A text form of a message and of a right, a line for each field, so that a person can write one.
// Buffers have a fixed length here, since the desk has no heap.
#![tactic(auto)]

ghost use Rattle.std.specs.Prelude.{◌≡◌, ◌+◌, ◌*◌, ◌≤◌, true, length, replicate};
ghost use Rattle.paper.specs.Check.{sealed};
ghost use Rattle.layout.specs.Written.{with_series_count};
ghost use Rattle.message_text.specs.MessageText.{Gives, Lays, Reads, Tells, in_block, laid, field_laid, new_block, begun, with_line, with_lines};
ghost use Rattle.message_text.specs.MessageText.{text_laid, copied, zeros_for, message_text, right_text};
ghost use Rattle.message_words.specs.Words.{lines};

use block::check::seal;
use block::numbers::write_bytes;
use field::{same, within};
use fill::in_block;
use layout::write::{ID, write_business_type, write_field, write_front, write_series_count};
use layout::{kind, n_of, version};
use lines::first_line;
use message_words::{skipped, value, word};

pub mod fill;
mod lines;

// The number of a wrong line, counted from 1.
#[derive(Clone, Copy)]
struct WrongLine(usize);

// The first wrong line, counted from 1, and 0; or 0, and how many bytes are laid.
#[repr(C)]
#[derive(Clone, Copy)]
pub struct TextRead {
    pub line: usize,
    pub length: usize,
}

impl From<Result<usize, WrongLine>> for TextRead {
    ghost from_gives = { Tells };

    fn from(laid: Result<usize, WrongLine>) -> TextRead {
        match laid {
            Ok(length) => TextRead { line: 0, length },
            Err(wrong) => TextRead {
                line: wrong.0,
                length: 0,
            },
        }
    }
}

// ---- a line

// The check is put right with each line, so that a block is whole after every one of them.
fn fill_block(x: &mut [u8], w: &[u8], v: &[u8]) -> bool
    requires { length x.old ≡ 512 }
    ensures { (result ≡ (in_block w.now v.now x.old).0) × (x.new ≡ sealed (in_block w.now v.now x.old).1) }
{
    let fine = in_block(x, w, v);
    seal(x);
    fine
}

// A line gives how many series there are now; none where it is wrong.
fn lay_field(room: &mut [u8], series: usize, w: &[u8], v: &[u8]) -> Option<usize>
    requires { 512 * (series + 1) ≤ length room.old }
    ensures { Lays (field_laid series w.now v.now room.old) result room.new }
{
    let start = 512 * series;
    if !fill_block(&mut room[start..start + 512], w, v) {
        return None;
    }
    Some(series)
}

// Over zeros: what is not said stays zero.
fn write_block(block: &mut [u8], kind: u8, business: u8, n: u8, version: u16, id: &[u8])
    requires { length block.old ≡ 512 }
    ensures { block.new ≡ new_block kind business n version id.now block.old }
{
    write_front(block, kind, n, version);
    write_business_type(block, business);
    write_field(block, ID, id);
    seal(block);
}

fn count_series(block: &mut [u8], series: usize)
    ensures { block.new ≡ sealed (with_series_count series block.old) }
{
    write_series_count(block, (series % 65536) as u16);
    seal(block);
}

// A right has no series. n and version are the sender block's until a line says otherwise.
fn begin_series(room: &mut [u8], series: usize, id: &[u8]) -> Option<usize>
    requires { 512 * (series + 1) ≤ length room.old }
    ensures { Lays (begun series id.now room.old) result room.new }
{
    let start = 512 * (series + 1);
    if !((kind(room) == 1) & (start + 512 <= room.len())) {
        return None;
    }
    let n = n_of(room);
    let v = version(room);
    count_series(&mut room[..512], series + 1);
    write_block(&mut room[start..start + 512], 2, 2, n, v, id);
    if 16 < id.len() {
        return None;
    }
    Some(series + 1)
}

fn lay_line(room: &mut [u8], series: usize, line: &[u8]) -> Option<usize>
    requires { 512 * (series + 1) ≤ length room.old }
    ensures { Lays (with_line series line.now room.old) result room.new }
{
    if skipped(line) {
        return Some(series);
    }
    let w = word(line);
    let v = value(line);
    if same(w, b"series") {
        return begin_series(room, series, v);
    }
    lay_field(room, series, w, v)
}

// ---- the whole text

// The first wrong line ends the reading.
fn lay_lines(room: &mut [u8], text: &[u8]) -> Result<usize, WrongLine>
    requires { 512 ≤ length room.old }
    ensures { Reads (with_lines 0 (laid true 0, room.old) (lines text.now)) result room.new }
{
    let mut series = 0;
    let mut number = 0;
    let mut rest = text;
    while let Some((line, behind)) = first_line(rest) {
        number += 1;
        series = lay_line(room, series, line).ok_or(WrongLine(number))?;
        rest = behind;
    }
    Ok(512 * (series + 1))
}

// With no room for the first block it is line 1 that is refused.
fn lay_text(room: &mut [u8], kind: u8, business: u8, text: &[u8]) -> Result<usize, WrongLine>
    ensures { Reads (text_laid kind business text.now room.old) result room.new }
{
    if room.len() < 512 {
        return Err(WrongLine(1));
    }
    write_block(&mut room[..512], kind, business, 0, 0, b"");
    lay_lines(room, text)
}

// The text is laid into a room of zeros, and copied when all of it is read: a wrong line leaves the buffer as it was.
fn blocks_from_text(
    text: &[u8],
    buffer: &mut [u8],
    room: &mut [u8],
    kind: u8,
    business: u8,
) -> TextRead
    requires { room.old ≡ replicate (length room.old) 0 }
    ensures { Gives (copied buffer.old (text_laid kind business text.now (zeros_for (length room.old) buffer.old))) result buffer.new }
{
    let n = within(buffer.len(), room);
    let read = TextRead::from(lay_text(&mut room[..n], kind, business, text));
    let k = read.length;
    write_bytes(buffer, 0, &room[..k]);
    read
}

// A message's blocks, from a text. The longest message has 201.
pub fn message_from_text(text: &[u8], buffer: &mut [u8]) -> TextRead
    ensures { Gives (message_text text.now buffer.old) result buffer.new }
{
    let mut room = [0u8; 102912];
    blocks_from_text(text, buffer, &mut room, 1, 0)
}

// A right's one block (C-14), from a text.
pub fn right_from_text(text: &[u8], buffer: &mut [u8]) -> TextRead
    ensures { Gives (right_text text.now buffer.old) result buffer.new }
{
    let mut room = [0u8; 512];
    blocks_from_text(text, buffer, &mut room, 4, 3)
}
