// The fields of a block written by name, beside their readers. Bytes past a block's end are passed over, as the definitions have it. Only the
// fields that go alone into a block that is kept (clock, mark) put its check right with them.
#![tactic(auto, unfolding(paper::specs::Layout::with_clock, paper::specs::Layout::with_mark, crate::specs::Written::with_front, crate::specs::Written::with_day_fields, crate::specs::Written::with_series_count, crate::specs::Written::with_business_type, crate::specs::Written::with_quantity))]

ghost use Rattle.std.specs.Prelude.{◌≡◌, ◌+◌, ◌<◌, ◌≤◌, length};
ghost use Rattle.paper.specs.Layout.{with_clock, with_senders_slot, with_mark};
ghost use Rattle.layout.specs.Written.{with_front, opening_by, with_day_fields, with_series_count, with_business_type, with_field, with_quantity, with_entries};

use block::check::seal;
use block::numbers::{byte_or_zero, put_byte, write_2, write_4, write_bytes};
use paper::{Minute, Rule, Slot};

// ---- the day block

// Kind, n, and the number behind them: the lead of a day block, the version of a sender or a series block.
pub fn write_front(b: &mut [u8], kind: u8, n: u8, number: u16)
    ensures { b.new ≡ with_front kind n number b.old }
{
    put_byte(b, 0, kind);
    put_byte(b, 1, n);
    write_2(b, 2, number);
}

// What an opening gives, in this order.
#[derive(Clone, Copy)]
pub struct Parameters<'a> {
    pub n: u8,
    pub lead: u16,
    pub rule: Rule,
    pub day: &'a [u8],
    pub area: &'a [u8],
    pub receiver: &'a [u8],
}

// All that an opening gives; the clock and the bytes shown as 0 stay.
pub fn write_day_fields(d: &mut [u8], given: &Parameters)
    ensures { d.new ≡ with_day_fields (opening_by given.now) d.old }
{
    write_front(d, 3, given.n, given.lead);
    put_byte(d, 6, given.rule.0);
    write_bytes(d, 8, given.day);
    write_bytes(d, 24, given.area);
    write_bytes(d, 40, given.receiver);
}

// The check is put right with the clock.
pub fn write_clock(d: &mut [u8], minute: Minute)
    ensures { d.new ≡ with_clock minute.0 d.old }
{
    write_2(d, 4, minute.0);
    seal(d);
}

// ---- what the desk fills in

// A message leaves it 0; the check is put right with the mark.
pub fn write_senders_slot(x: &mut [u8], slot: Slot)
    ensures { x.new ≡ with_senders_slot slot.0 x.old }
{
    write_2(x, 6, (slot.0 % 65536) as u16);
}

// With the check put right.
pub fn write_mark(x: &mut [u8], m: &[u8])
    ensures { x.new ≡ with_mark m.now x.old }
{
    write_bytes(x, 104, m);
    seal(x);
}

// ---- a message's blocks

pub fn write_series_count(s: &mut [u8], count: u16)
    ensures { s.new ≡ with_series_count count s.old }
{
    write_2(s, 4, count);
}

pub fn write_business_type(x: &mut [u8], business: u8)
    ensures { x.new ≡ with_business_type business x.old }
{
    put_byte(x, 4, business);
}

// Where a field of bytes stands in its block, and how many it has.
#[derive(Clone, Copy)]
pub struct Field {
    pub at: usize,
    pub width: usize,
}

pub const ID: Field = Field { at: 8, width: 16 };

// The bytes v, then zero bytes up to the field's end; of a v that is longer what the field takes.
pub fn write_field(b: &mut [u8], field: Field, v: &[u8])
    requires { field.at + field.width ≤ length b.old }
    ensures { b.new ≡ with_field field v.now b.old }
{
    let at = field.at;
    for i in 0..field.width {
        b[at + i] = byte_or_zero(v, i);
    }
}

// ---- quantities and nets

// The quantity or the net at position k + 1, one of the hundred.
pub fn write_quantity(x: &mut [u8], k: usize, kilowatts: u32)
    requires { k < 100 }
    ensures { x.new ≡ with_quantity k kilowatts x.old }
{
    write_4(x, 108 + 4 * k, kilowatts);
}

// All hundred.
pub fn write_entries(b: &mut [u8], v: &[u32])
    requires { length v.now ≡ 100 }
    ensures { b.new ≡ with_entries v.now b.old }
{
    for (k, kilowatts) in v.iter().enumerate() {
        write_quantity(b, k, *kilowatts);
    }
}
