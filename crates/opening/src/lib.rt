// Opening a day book in a lent buffer ("Other calls").
#![tactic(auto)]

ghost use Rattle.std.specs.Prelude.{◌≡◌, ◌++◌, ◌-◌, ◌≤◌, length, replicate};
ghost use Rattle.paper.specs.Opening.{naming_none, day_block_of, opening_allowed, open_answer, opened};
ghost use Rattle.layout.specs.Written.{opening_by};
ghost use Rattle.opening.specs.Sized.{Sized};

use block::check::seal;
use eic::{eic_valid, number_of_two};
use field::day_well_formed;
use layout::write::{Parameters, write_day_fields};
use paper::{LESSER, OpenAnswer, Rule};
use sound_blocks::ranges::{lead_allowed, n_allowed, rule_allowed, whole_blocks};

// The parameters are judged themselves, before any block is made of them: a refusal writes nothing.
fn opening_allowed(given: &Parameters) -> bool
    ensures { result ≡ opening_allowed (opening_by given.now) }
{
    n_allowed(given.n)
        & lead_allowed(given.lead)
        & day_well_formed(given.day)
        & rule_allowed(given.rule)
        & eic_valid(given.area)
        & eic_valid(given.receiver)
}

// The day block of the layout's table. Clock −10,080 is kept as 0, as every byte is that no parameter gives.
fn write_day_block(block: &mut [u8], given: &Parameters)
    requires { (length block.old ≡ 512) × (block.old ≡ replicate 512 0) × Sized (opening_by given.now) }
    ensures { block.new ≡ day_block_of (opening_by given.now) }
{
    write_day_fields(block, given);
    seal(block);
}

// Success: the day block, and all slots zero.
fn write_opened(book: &mut [u8], given: &Parameters)
    requires { (512 ≤ length book.old) × Sized (opening_by given.now) }
    ensures { book.new ≡ day_block_of (opening_by given.now) ++ replicate (length book.old - 512) 0 }
{
    book.fill(0);
    write_day_block(&mut book[..512], given);
}

// OpenAnswer is the C interface's, and a refusal its number. 20 is judged before 21, and both before the first byte is written. On 21 the codes are judged once more, for the character that is wrong.
pub fn open_by(
    book: &mut [u8],
    n: u8,
    lead: u16,
    rule: Rule,
    day: &[u8],
    area: &[u8],
    receiver: &[u8],
) -> OpenAnswer
    ensures { (result ≡ open_answer book.old (record { n = n; lead = lead; rule = rule; day = day.now; area = area.now; receiver = receiver.now })) × (book.new ≡ opened book.old (record { n = n; lead = lead; rule = rule; day = day.now; area = area.now; receiver = receiver.now })) }
{
    if !whole_blocks(2, 1001, book) {
        return OpenAnswer {
            number: 20,
            character: 0,
        };
    }
    let given = Parameters {
        n,
        lead,
        rule,
        day,
        area,
        receiver,
    };
    if !opening_allowed(&given) {
        return OpenAnswer {
            number: 21,
            character: number_of_two(area, receiver),
        };
    }
    write_opened(book, &given);
    OpenAnswer {
        number: 0,
        character: 0,
    }
}

// "An open call that names none writes 1."
pub fn open(
    book: &mut [u8],
    n: u8,
    lead: u16,
    day: &[u8],
    area: &[u8],
    receiver: &[u8],
) -> OpenAnswer
    ensures { (result ≡ open_answer book.old (naming_none n lead day.now area.now receiver.now)) × (book.new ≡ opened book.old (naming_none n lead day.now area.now receiver.now)) }
{
    open_by(book, n, lead, LESSER, day, area, receiver)
}
