// What the desk makes of its arguments.
// Buffers have a fixed length here, since the desk has no heap.
ghost use Rattle.std.specs.Prelude.{◌≡◌, ◌≤◌, cond, length};
ghost use Rattle.laws.specs.Tests.{is};
ghost use Rattle.desk_text.specs.Put.{Put};
ghost use Rattle.desk_text.specs.Arguments.{id_field, byte_value, word_value, book_length, beside, folder_length};

use crate::put::put;

// Zero bytes stand behind an id shorter than sixteen. A longer one is no series', as zero bytes alone are none's.
pub fn id_field(id: &[u8]) -> [u8; 16]
    ensures { result ≡ id_field id.now }
{
    let mut room = [0u8; 16];
    if id.len() <= 16 {
        put(&mut room, 0, id);
    }
    room
}

// No sound day block holds 255 as n.
pub fn byte_value(x: u32) -> u8
    ensures { result ≡ byte_value x }
{
    x.min(255) as u8
}

// No sound day block holds 65,535 as lead.
pub fn word_value(x: u32) -> u16
    ensures { result ≡ word_value x }
{
    x.min(65535) as u16
}

// The longest book fills a room of 512,512 bytes; a longer one is none, as no block at all is.
pub fn book_length(blocks: u32) -> usize
    ensures { (result ≡ book_length blocks) × (result ≤ 512512) }
{
    if 1001 < blocks {
        return 0;
    }
    512 * blocks as usize
}

// The name of the file beside a book that the new book is written to.
pub fn put_beside(name: &mut [u8], path: &[u8]) -> usize
    ensures { Put 0 (beside path.now) result name.old name.new }
{
    let behind = put(name, 0, path);
    put(name, behind, b".new")
}

// How many bytes of a path, up to its last slash, name the folder that the file stands in; 0 where it stands in the folder that the program is started in.
pub fn folder_length(path: &[u8]) -> usize
    ensures { (result ≡ folder_length path.now) × (result ≤ length path.now) }
{
    let mut at = 0;
    for (k, byte) in path.iter().enumerate() {
        if *byte == b'/' {
            at = k + 1;
        }
    }
    at
}
