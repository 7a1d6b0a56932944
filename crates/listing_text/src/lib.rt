// The listing's text, in a buffer that the caller lends: a header, then one line per series by ascending slot, with the kept marks. Every function that
// puts a text takes the place where it starts and answers the place behind it; what would fall past the buffer's end is left out. The bounds on
// places are wide: they only keep sums from wrapping.
// Buffers have a fixed length here, since the desk has no heap.
#![tactic(auto)]

ghost use Rattle.std.specs.Prelude.{◌≡◌, cond, [], ◌∷◌, ◌++◌, ◌+◌, ◌/◌, ◌<◌, ◌≤◌, length, get_or, set};
ghost use Rattle.laws.specs.Cut.{cut};
ghost use Rattle.paper.specs.Layout.{first, partner};
ghost use Rattle.paper.specs.Book.{is_series};
ghost use Rattle.paper.specs.QuantityText.{decimal};
ghost use Rattle.paper.specs.Listing.{series_line, series_lines, listing};
ghost use Rattle.listing_text.specs.Text.{Appended, names, parties, marks, listing_of, text_length, text_into};

use field::id_text;
use layout::{differing, first, id_of, in_party, out_party, partner, sender, senders_slot};
use paper::Slot;
use quantity::decimal;
use slots::{block_at, is_series, numbered, used_part};
use sound::sound;

fn put_byte(x: u8, at: usize, out: &mut [u8])
    ensures { out.new ≡ set out.old at x }
{
    if at < out.len() {
        out[at] = x;
    }
}

// The longest text is the header.
fn put_text(s: &[u8], at: usize, out: &mut [u8]) -> usize
    requires { (at < 60000) × (length s.now ≤ 47) }
    ensures { Appended at s.now out.old result out.new }
{
    for (i, x) in s.iter().enumerate() {
        put_byte(*x, at + i, out);
    }
    at + s.len()
}

// A word of a line, with the space or the newline behind it.
fn put_word(s: &[u8], end: u8, at: usize, out: &mut [u8]) -> usize
    requires { (at < 60000) × (length s.now ≤ 16) }
    ensures { Appended at (s.now ++ end ∷ []) out.old result out.new × (result ≤ at + 17) }
{
    let behind = put_text(s, at, out);
    put_byte(end, behind, out);
    behind + 1
}

fn put_number(x: u32, end: u8, at: usize, out: &mut [u8]) -> usize
    requires { at < 60000 }
    ensures { Appended at (decimal x ++ end ∷ []) out.old result out.new × (result ≤ at + 5) }
{
    let behind = at + decimal(x, at, out);
    put_byte(end, behind, out);
    behind + 1
}

// Slot, sender and id.
fn put_names(us: &[u8], slot: Slot, x: &[u8], at: usize, out: &mut [u8]) -> usize
    requires { (at < 50000) × (slot.0 ≤ 63) }
    ensures { Appended at (names (cut 512 us.now) slot.0 x.now) out.old result out.new × (result ≤ at + 39) }
{
    let at = put_number(slot.0 as u32, b' ', at, out);
    let at = put_word(sender(numbered(us, senders_slot(x))), b' ', at, out);
    put_word(id_text(id_of(x)), b' ', at, out)
}

fn put_parties(x: &[u8], at: usize, out: &mut [u8]) -> usize
    requires { at < 50000 }
    ensures { Appended at (parties x.now) out.old result out.new × (result ≤ at + 34) }
{
    let at = put_word(in_party(x), b' ', at, out);
    put_word(out_party(x), b' ', at, out)
}

// A position and a slot as the numbers that a line shows.
fn first_number(x: &[u8]) -> u32
    ensures { result ≡ first x.now }
{
    first(x).0 as u32
}

fn partner_number(x: &[u8]) -> u32
    ensures { result ≡ partner x.now }
{
    partner(x).0 as u32
}

// Count, first and partner, which end the line.
fn put_mark(x: &[u8], at: usize, out: &mut [u8]) -> usize
    requires { at < 50000 }
    ensures { Appended at (marks x.now) out.old result out.new × (result ≤ at + 15) }
{
    let differing = differing(x) as u32;
    let first = first_number(x);
    let partner = partner_number(x);
    let at = put_number(differing, b' ', at, out);
    let at = put_number(first, b' ', at, out);
    put_number(partner, b'\n', at, out)
}

// No line is longer than 88 bytes: four numbers of at most four digits, four words of at most sixteen bytes, and what ends each.
fn put_line(us: &[u8], slot: Slot, x: &[u8], at: usize, out: &mut [u8]) -> usize
    requires { (at < 40000) × (slot.0 ≤ 63) }
    ensures { Appended at (series_line (cut 512 us.now) slot.0 x.now) out.old result out.new × (result ≤ at + 88) }
{
    let at = put_names(us, slot, x, at, out);
    let at = put_parties(x, at, out);
    put_mark(x, at, out)
}

// The line of block i, which stands in slot i + 1; none if it is no series.
fn put_slot(us: &[u8], i: usize, at: usize, out: &mut [u8]) -> usize
    requires { (at < 40000) × (i < 63) }
    ensures { Appended at (cond (is_series (get_or (cut 512 us.now) i [])) (series_line (cut 512 us.now) (i + 1) (get_or (cut 512 us.now) i [])) []) out.old result out.new × (result ≤ at + 88) }
{
    let x = block_at(us, i);
    if !is_series(x) {
        return at;
    }
    put_line(us, Slot(i + 1), x, at, out)
}

fn put_lines(us: &[u8], at: usize, out: &mut [u8]) -> usize
    requires { (at ≤ 47) × (length us.now / 512 ≤ 63) }
    ensures { Appended at (series_lines (cut 512 us.now) 1 (cut 512 us.now)) out.old result out.new }
{
    let mut place = at;
    for i in 0..us.len() / 512 {
        place = put_slot(us, i, place, out);
    }
    place
}

// The text for a sound book with these used slots.
fn put_listing(us: &[u8], out: &mut [u8]) -> usize
    requires { length us.now / 512 ≤ 63 }
    ensures { Appended 0 (listing_of (cut 512 us.now)) out.old result out.new }
{
    let at = put_text(b"slot sender series in out differ first partner\n", 0, out);
    put_lines(us, at, out)
}

// Nothing is put into a buffer that is too short for all of it.
fn put_if_room(s: &[u8], out: &mut [u8]) -> usize
    requires { length s.now ≤ 47 }
    ensures { (result ≡ text_length s.now (length out.old)) × (out.new ≡ text_into s.now out.old) }
{
    if out.len() < s.len() {
        return 0;
    }
    put_text(s, 0, out)
}

// First into a buffer of one byte, for the text's length alone.
fn put_listing_if_room(us: &[u8], out: &mut [u8]) -> usize
    requires { length us.now / 512 ≤ 63 }
    ensures { (result ≡ text_length (listing_of (cut 512 us.now)) (length out.old)) × (out.new ≡ text_into (listing_of (cut 512 us.now)) out.old) }
{
    let mut nothing = [0u8; 1];
    if out.len() < put_listing(us, &mut nothing) {
        return 0;
    }
    put_listing(us, out)
}

// Answers the text's length; 0, which is no text's, where the buffer is too short for it, and then nothing is written.
pub fn listing(book: &[u8], out: &mut [u8]) -> usize
    ensures { (result ≡ text_length (listing book.now) (length out.old)) × (out.new ≡ text_into (listing book.now) out.old) }
{
    if 32768 < book.len() {
        return put_if_room(b"too long\n", out);
    }
    if !sound(book) {
        return put_if_room(b"not sound\n", out);
    }
    put_listing_if_room(used_part(book), out)
}
