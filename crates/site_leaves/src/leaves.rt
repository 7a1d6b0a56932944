// What needs no book.
// Buffers have a fixed length here, since the desk has no heap.
ghost use Rattle.std.specs.Prelude.{◌≡◌, true, [], ◌∷◌};
ghost use Rattle.laws.specs.Bytes.{written};
ghost use Rattle.paper.specs.Check.{check_of};
ghost use Rattle.site_leaves.specs.Leaves.{reads_as, block_with};

use crate::line;
use desk_text::arguments::byte_value;
use desk_text::numbers::number_read;
use field::part_of;

fn read_as(rt: &impl Print, text: &[u8], kilowatts: u32) -> bool
    ensures { result ≡ reads_as text.now kilowatts }
{
    let read = quantity::quantity_read(text);
    line::say(rt, b"number of quantity text ");
    let a = line::number(rt, text, 0, read.number);
    line::say(rt, b"kilowatts of quantity text ");
    line::both(a, line::number(rt, text, kilowatts, read.kilowatts))
}

pub fn quantities(rt: &impl Print) -> bool
    ensures { result ≡ true }
{
    let a = read_as(rt, b"0.194", 194);
    let b = read_as(rt, b"9999.999", 9999999);
    line::all(&[a, b, read_as(rt, b"60.0", 60000)])
}

pub fn printed(rt: &impl Print) -> bool
    ensures { result ≡ true }
{
    let mut room = [0u8; 8];
    let k = quantity::quantity_print(60000, &mut room).length;
    line::text(rt, b"quantity printed", b"60.000", part_of(&room, 0, k))
}

fn put_byte(block: &mut [u8], at: usize, byte: u8)
    ensures { block.new ≡ written at (byte ∷ []) block.old }
{
    if at < block.len() {
        block[at] = byte;
    }
}

// Of a block that is zero but for one byte.
pub fn check(at: &[u8], byte: &[u8]) -> u32
    ensures { result ≡ check_of (block_with at.now byte.now) }
{
    let mut block = [0u8; 512];
    put_byte(
        &mut block,
        number_read(at).unwrap_or(0) as usize,
        byte_value(number_read(byte).unwrap_or(0)),
    );
    block::check::check_of(&block)
}
