// The pieces of a text, and the words that stand in them.
ghost use Rattle.std.specs.Prelude.{◌≡◌};
ghost use Rattle.desk_text.specs.Put.{Put};
ghost use Rattle.desk_text.specs.Words.{past_piece, past_pieces, piece_numbered, line_numbered, word_numbered, meaning, state_meaning};

use crate::put::put;
use field::{length_before, part_before};

fn past_piece(s: &[u8], end: u8) -> &[u8]
    ensures { result.now ≡ past_piece end s.now }
{
    let behind = length_before(s, end) + 1;
    &s[behind.min(s.len())..]
}

// What is still to be passed is counted down: by it the loop is proved to end.
fn past_pieces(s: &[u8], end: u8, k: usize) -> &[u8]
    ensures { result.now ≡ past_pieces end k s.now }
{
    let mut rest = s;
    let mut left = k;
    while 0 < left {
        rest = past_piece(rest, end);
        left -= 1;
    }
    rest
}

// A piece by its number; empty past the last.
pub fn piece_numbered(s: &[u8], end: u8, k: usize) -> &[u8]
    ensures { result.now ≡ piece_numbered end k s.now }
{
    part_before(past_pieces(s, end, k), end)
}

// A row of a table in one text.
pub fn line_numbered(s: &[u8], k: usize) -> &[u8]
    ensures { result.now ≡ line_numbered k s.now }
{
    piece_numbered(s, b'\n', k)
}

// The arguments of a command stand one behind the other, a zero byte after each: no argument holds one.
pub fn word(words: &[u8], k: usize) -> &[u8]
    ensures { result.now ≡ word_numbered k words.now }
{
    piece_numbered(words, b'\0', k)
}

// Line k has the words of number k.
pub fn put_meaning(line: &mut [u8], at: usize, number: u32) -> usize
    ensures { Put at (meaning number) result line.old line.new }
{
    let words =
        b"\nthe book is not sound\nthe message is not 2 to 201 whole blocks with the right kinds, count, checks and zero bytes\nthe receiver is not the book's\nthe sender is not a valid EIC\nthe day or the number of quarter-hours is not the book's\nthe message id or the message version is wrong\nthe series id is malformed, or the id or the key of type, areas, parties and capacity is repeated or stored otherwise\nthe parties are not valid EICs with the sender among them, or a trade has one party twice\nan area of a trade is not the book's, or an external schedule has not the book's area and another valid EIC\nthe business type is not A02, A03 or A06, or the capacity fields do not fit it\na quantity is negative\na quantity is above 9999.999 MW\na quantity stands behind the day's last quarter-hour\na closed quarter-hour was changed\nthe series version is wrong\na stored series of the sender is absent\nthe new blocks outnumber the free slots\nthe sender holds no right of these areas, contract type and agreement\nthe series on the right are together above its limit\na book has 2 to 1001 blocks\nno day block holds such a parameter\nthe minute is lower than the kept clock or out of range\nthis sender has no series of that id\nthe day has no such position\nthe position is not closed yet\nneither party has a trade of this pair\n\n\n\nnot a quantity of 0 to 9999.999 MW\na negative quantity\nthe buffer is too short for the text\n\n\n\n\n\n\n\nthe right is malformed or is entered already\n";
    put(line, at, line_numbered(words, number as usize))
}

// Line k has the words of state k.
pub fn put_state_meaning(line: &mut [u8], at: usize, state: usize) -> usize
    ensures { Put at (state_meaning state) result line.old line.new }
{
    let words =
        b"\nthe other party has no such series\nevery quarter-hour agrees\nthe two sides differ\n";
    put(line, at, line_numbered(words, state))
}
