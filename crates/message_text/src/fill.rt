// The fields of a block, each as a line says it. The answer is whether the value is fine; what is written is written all the same.
ghost use Rattle.std.specs.Prelude.{◌≡◌, ◌+◌, ◌-◌, ◌≤◌, length};
ghost use Rattle.laws.specs.Tests.{◌and◌, neg, is, less, upto};
ghost use Rattle.message_text.specs.MessageText.{Gives, between, field_of, most, with_number, with_text};
ghost use Rattle.message_text.specs.Rows.{field_by};
ghost use Rattle.message_text.specs.MessageText.{spread, with_positions, in_field, in_block};

use field::same;
use layout::kind;
use layout::write::{Field, write_field, write_quantity};
use message_words::{first_of, last_of, number_of, value, word};
use quantity::quantity_read;

// ---- where a value stands

fn between(first: u32, last: u32) -> Field
    ensures { (result ≡ between first last) × (result.at + result.width ≤ 512) }
{
    if (first <= last) & (last < 512) {
        return Field {
            at: first as usize,
            width: (last + 1 - first) as usize,
        };
    }
    Field { at: 0, width: 0 }
}

// A row of a table: a word, and where its value stands.
#[derive(Clone, Copy)]
struct Row {
    word: &'static [u8],
    field: Field,
}

// By the value's first byte and its last.
fn stands(word: &'static [u8], first: u32, last: u32) -> Row
    ensures { (result.word.now ≡ word.now) × (result.field ≡ between first last) }
{
    Row {
        word,
        field: between(first, last),
    }
}

fn field_in(rows: &[Row], w: &[u8]) -> Field
    ensures { result ≡ field_by rows.now w.now }
{
    for row in rows {
        if same(row.word, w) {
            return row.field;
        }
    }
    Field { at: 0, width: 0 }
}

// One table for each kind of block: a message's first, a series, a right.
fn field_of(kind: u8, w: &[u8]) -> Field
    ensures { (result ≡ field_of kind w.now) × (result.at + result.width ≤ 512) }
{
    match kind {
        1 => field_in(
            &[
                stands(b"n", 1, 1),
                stands(b"version", 2, 3),
                stands(b"message", 8, 23),
                stands(b"sender", 24, 39),
                stands(b"receiver", 40, 55),
                stands(b"day", 56, 63),
            ],
            w,
        ),
        2 => field_in(
            &[
                stands(b"version", 2, 3),
                stands(b"type", 4, 4),
                stands(b"contract", 5, 5),
                stands(b"area", 24, 55),
                stands(b"in-area", 24, 39), // C-14: the order of the areas is the direction
                stands(b"out-area", 40, 55), // of a series
                stands(b"in", 56, 71),
                stands(b"out", 72, 87),
                stands(b"agreement", 88, 103),
            ],
            w,
        ),
        _ => field_in(
            &[
                stands(b"n", 1, 1),
                stands(b"contract", 5, 5),
                stands(b"in-area", 24, 39),
                stands(b"out-area", 40, 55),
                stands(b"holder", 56, 87),
                stands(b"agreement", 88, 103),
            ],
            w,
        ),
    }
}

// ---- a value written

// Of the number's two bytes as many are written as the field has.
fn put_number(block: &mut [u8], field: Field, v: &[u8]) -> bool
    requires { field.at + field.width ≤ length block.old }
    ensures { Gives (with_number field v.now block.old) result block.new }
{
    let x = number_of(v);
    let bytes = [(x % 256) as u8, (x / 256 % 256) as u8];
    write_field(block, field, &bytes);
    (x < 10000) & ((field.width == 2) | (x < 256))
}

// A code or an id has at most 16 bytes, whatever the field has.
fn most(field: Field) -> usize
    ensures { (result ≡ most field) × (result ≤ field.width) }
{
    field.width.min(16)
}

// At the field's start and at its end: so both areas of an internal trade, and both parties of a right, come of one line.
fn put_text(block: &mut [u8], field: Field, v: &[u8]) -> bool
    requires { field.at + field.width ≤ length block.old }
    ensures { Gives (with_text field v.now block.old) result block.new }
{
    let width = most(field);
    write_field(
        block,
        Field {
            at: field.at,
            width,
        },
        v,
    );
    let last = field.at + (field.width - width);
    write_field(block, Field { at: last, width }, v);
    v.len() <= width
}

// The positions behind the first `start`, up to `last`.
fn put_quantities(block: &mut [u8], start: usize, last: usize, kilowatts: u32)
    requires { last ≤ 100 }
    ensures { block.new ≡ spread (last - start) start kilowatts block.old }
{
    for k in start..last {
        write_quantity(block, k, kilowatts);
    }
}

// Positions 1 to 100, whatever n is, and no range turned round; a sender's block has none.
fn positions_fine(kind: u8, first: u32, last: u32) -> bool
    ensures { result ≡ (neg (is kind 1) and less 0 first and upto first last and upto last 100) }
{
    !(kind == 1) & (0 < first) & (first <= last) & (last <= 100)
}

fn put_positions(block: &mut [u8], w: &[u8], v: &[u8]) -> bool
    ensures { Gives (with_positions w.now v.now block.old) result block.new }
{
    let first = first_of(w);
    let last = last_of(w);
    let read = quantity_read(v);
    if !positions_fine(kind(block), first, last) {
        return false;
    }
    if read.number != 0 {
        return false;
    }
    put_quantities(block, (first - 1) as usize, last as usize, read.kilowatts);
    true
}

// A word that names no field is taken for positions, which refuse it if it is none. Numbers stand before byte 8, texts behind them.
fn put_value(block: &mut [u8], field: Field, w: &[u8], v: &[u8]) -> bool
    requires { field.at + field.width ≤ length block.old }
    ensures { Gives (in_field field w.now v.now block.old) result block.new }
{
    if field.width == 0 {
        return put_positions(block, w, v);
    }
    if field.at < 8 {
        return put_number(block, field, v);
    }
    put_text(block, field, v)
}

pub fn in_block(block: &mut [u8], w: &[u8], v: &[u8]) -> bool
    requires { length block.old ≡ 512 }
    ensures { Gives (in_block w.now v.now block.old) result block.new }
{
    let field = field_of(kind(block), w);
    put_value(block, field, w, v)
}
