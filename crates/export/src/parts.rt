// Blocks handed out as parts of the caller's buffer: the accepted block, and the series of a message.
ghost use Rattle.std.specs.Prelude.{◌≡◌};
ghost use Rattle.paper.specs.Message.{series_numbered};
ghost use Rattle.paper.specs.Readings.{accepted_block};
ghost use Rattle.export.specs.Demand3.{BlockByMessages};
ghost use Rattle.export.specs.Parts.{bytes_of, part_numbered, accepted_part, series_part};

// Where a part of a lent buffer begins, and how long it is; both are 0 where there is none, since C has no Option.
#[repr(C)]
#[derive(Clone, Copy)]
pub struct Part {
    pub offset: usize,
    pub length: usize,
}

const NOTHING: Part = Part {
    offset: 0,
    length: 0,
};

// The block with this number behind the first one of the buffer.
fn part_numbered(buffer: &[u8], number: usize) -> Part
    ensures { result ≡ part_numbered buffer.now number }
{
    if number == 0 {
        return NOTHING;
    }
    if buffer.len() / 512 <= number {
        return NOTHING;
    }
    Part {
        offset: 512 * number,
        length: 512,
    }
}

#[unsafe(no_mangle)]
pub extern "C" fn tetherbay_accepted_block(book: &[u8], sender: &[u8], id: &[u8]) -> Part
    ensures value { (result ≡ accepted_part book.now sender.now id.now) × (bytes_of result book.now ≡ accepted_block book.now sender.now id.now) }
    ensures block_by_messages { BlockByMessages book.now sender.now id.now (bytes_of result book.now) }
{
    if !sound::sound(book) {
        return NOTHING;
    }
    part_numbered(
        book,
        readings::stored_as(slots::used_part(book), sender, id).0,
    )
}

#[unsafe(no_mangle)]
pub extern "C" fn tetherbay_series(message: &[u8], number: usize) -> Part
    ensures { (result ≡ series_part message.now number) × (bytes_of result message.now ≡ series_numbered message.now number) }
{
    if message::rule_2(message) {
        return NOTHING;
    }
    part_numbered(message, number)
}
