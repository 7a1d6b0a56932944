// The desk's calls for C. Every one answers for all contents and lengths of what it is lent; include/tetherbay.h declares them.
#![tactic(auto)]

ghost use Rattle.std.specs.Prelude.{◌≡◌, length};
ghost use Rattle.laws.specs.Lists.{every};
ghost use Rattle.laws.specs.Cut.{cut};
ghost use Rattle.paper.specs.Check.{check_of, check_right};
ghost use Rattle.paper.specs.Ids.{id_well_formed};
ghost use Rattle.paper.specs.Eic.{eic_number, eic_valid};
ghost use Rattle.paper.specs.QuantityText.{quantity_read, quantity_printed, printed_into};
ghost use Rattle.paper.specs.Codes.{reason_code, reply_to};
ghost use Rattle.export.specs.Seal.{is_one_block, sealed_block};

pub mod book;
pub mod parts;

use paper::{QuantityPrinted, QuantityRead, Reply};

#[unsafe(no_mangle)]
pub extern "C" fn tetherbay_check(block: &[u8]) -> u32
    ensures { result ≡ check_of block.now }
{
    block::check::check_of(block)
}

#[unsafe(no_mangle)]
pub extern "C" fn tetherbay_checks_right(blocks: &[u8]) -> bool
    ensures { result ≡ every check_right (cut 512 blocks.now) }
{
    block::check::checks_right(blocks)
}

// Whether it sealed: a buffer of another length than a block's is refused, and stays.
#[unsafe(no_mangle)]
pub extern "C" fn tetherbay_seal(block: &mut [u8]) -> bool
    ensures { (result ≡ is_one_block block.old) × (block.new ≡ sealed_block block.old) }
{
    if block.len() != 512 {
        return false;
    }
    block::check::seal(block);
    true
}

#[unsafe(no_mangle)]
pub extern "C" fn tetherbay_id_well_formed(id: &[u8]) -> bool
    ensures { result ≡ id_well_formed id.now }
{
    field::id_well_formed(id)
}

// Which character of a code is wrong.
#[unsafe(no_mangle)]
pub extern "C" fn tetherbay_eic(code: &[u8]) -> u8
    ensures { result ≡ eic_number code.now }
{
    eic::eic_number(code)
}

#[unsafe(no_mangle)]
pub extern "C" fn tetherbay_eic_valid(code: &[u8]) -> bool
    ensures { result ≡ eic_valid code.now }
{
    eic::eic_valid(code)
}

#[unsafe(no_mangle)]
pub extern "C" fn tetherbay_quantity_read(text: &[u8]) -> QuantityRead
    ensures { result ≡ quantity_read text.now }
{
    quantity::quantity_read(text)
}

#[unsafe(no_mangle)]
pub extern "C" fn tetherbay_quantity_print(kilowatts: u32, buffer: &mut [u8]) -> QuantityPrinted
    ensures { (result ≡ quantity_printed kilowatts (length buffer.old)) × (buffer.new ≡ printed_into kilowatts buffer.old) }
{
    quantity::quantity_print(kilowatts, buffer)
}

#[unsafe(no_mangle)]
pub extern "C" fn tetherbay_reason_code(number: u32) -> u8
    ensures { result ≡ reason_code number }
{
    codes::reason_code(number)
}

// How the sender of a message is answered, for whoever writes to it.
#[unsafe(no_mangle)]
pub extern "C" fn tetherbay_reply(number: u32) -> Reply
    ensures { result ≡ reply_to number }
{
    codes::reply(number)
}
