// The calls on a day book.
ghost use Rattle.std.specs.Prelude.{◌≡◌, length};
ghost use Rattle.paper.specs.Sound.{sound};
ghost use Rattle.paper.specs.Opening.{naming_none, open_answer, opened};
ghost use Rattle.paper.specs.Clock.{clock_answer, clock_moved};
ghost use Rattle.paper.specs.Conversion.{conversion_number, converted};
ghost use Rattle.paper.specs.Rights.{enter_number, entered};
ghost use Rattle.paper.specs.Readings.{mark_answer};
ghost use Rattle.paper.specs.Finals.{final};
ghost use Rattle.paper.specs.Settled.{settled};
ghost use Rattle.paper.specs.PlainRun.{plain_run};
ghost use Rattle.paper.specs.Listing.{listing};
ghost use Rattle.listing_text.specs.Text.{text_length, text_into};
ghost use Rattle.paper.specs.Rules.{verdict};
ghost use Rattle.paper.specs.Acceptance.{submitted};
ghost use Rattle.paper.specs.Looks.{submit_answer};
ghost use Rattle.export.specs.Demand3.{OpeningKeeps, ConversionKeeps, ClockKeeps, EnteringKeeps, SubmissionKeeps, MarkByMessages, FinalByMessages, PlainRunSaysYes};

use paper::{
    ClockAnswer, FinalAnswer, MarkAnswer, Minute, OpenAnswer, PlainRunAnswer, Position, Rule,
    SettledAnswer, SubmitAnswer, Verdict,
};

#[unsafe(no_mangle)]
pub extern "C" fn tetherbay_sound(book: &[u8]) -> bool
    ensures { result ≡ sound book.now }
{
    sound::sound(book)
}

#[unsafe(no_mangle)]
pub extern "C" fn tetherbay_open(
    book: &mut [u8],
    n: u8,
    lead: u16,
    day: &[u8],
    area: &[u8],
    receiver: &[u8],
) -> OpenAnswer
    ensures value { (result ≡ open_answer book.old (naming_none n lead day.now area.now receiver.now)) × (book.new ≡ opened book.old (naming_none n lead day.now area.now receiver.now)) }
    ensures opening_keeps { OpeningKeeps book.old result.number book.new }
{
    opening::open(book, n, lead, day, area, receiver)
}

// The rule is the byte that names it in the day block: 0 seller's, 1 lesser.
#[unsafe(no_mangle)]
pub extern "C" fn tetherbay_open_by(
    book: &mut [u8],
    n: u8,
    lead: u16,
    rule: u8,
    day: &[u8],
    area: &[u8],
    receiver: &[u8],
) -> OpenAnswer
    ensures value { (result ≡ open_answer book.old (record { n = n; lead = lead; rule = record { 0 = rule }; day = day.now; area = area.now; receiver = receiver.now })) × (book.new ≡ opened book.old (record { n = n; lead = lead; rule = record { 0 = rule }; day = day.now; area = area.now; receiver = receiver.now })) }
    ensures opening_keeps { OpeningKeeps book.old result.number book.new }
{
    opening::open_by(book, n, lead, Rule(rule), day, area, receiver)
}

// From the old layout, whose byte 104 is a state.
#[unsafe(no_mangle)]
pub extern "C" fn tetherbay_convert(book: &mut [u8]) -> u32
    ensures value { (result ≡ conversion_number book.old) × (book.new ≡ converted book.old) }
    ensures conversion_keeps { ConversionKeeps book.old result book.new }
{
    conversion::convert(book)
}

#[unsafe(no_mangle)]
pub extern "C" fn tetherbay_clock(book: &mut [u8], minute: u16) -> ClockAnswer
    ensures value { (result ≡ clock_answer book.old minute) × (book.new ≡ clock_moved book.old minute) }
    ensures clock_keeps { ClockKeeps book.old book.new }
{
    clock::clock(book, Minute(minute))
}

// A rights block, which no later call alters.
#[unsafe(no_mangle)]
pub extern "C" fn tetherbay_enter_right(book: &mut [u8], right: &[u8]) -> u32
    ensures value { (result ≡ enter_number book.old right.now) × (book.new ≡ entered book.old right.now) }
    ensures entering_keeps { EnteringKeeps book.old book.new }
{
    entering::enter_right(book, right)
}

// Isolation (promise 5) is said of the verdict alone: the number of looks counts other senders' slots too, and stands outside it (C-23).
#[unsafe(no_mangle)]
pub extern "C" fn tetherbay_submit(book: &mut [u8], message: &[u8]) -> SubmitAnswer
    ensures value { (result ≡ submit_answer book.old message.now) × (book.new ≡ submitted book.old message.now) }
    ensures submission_keeps { SubmissionKeeps book.old message.now result.verdict.number book.new }
{
    submit::submit(book, message)
}

// The verdict alone, for whoever asks before submitting.
#[unsafe(no_mangle)]
pub extern "C" fn tetherbay_judge(book: &[u8], message: &[u8]) -> Verdict
    ensures { result ≡ verdict book.now message.now }
{
    judge::verdict(book, message)
}

#[unsafe(no_mangle)]
pub extern "C" fn tetherbay_mark(book: &[u8], sender: &[u8], id: &[u8]) -> MarkAnswer
    ensures value { result ≡ mark_answer book.now sender.now id.now }
    ensures mark_by_messages { MarkByMessages book.now sender.now id.now result }
{
    readings::mark(book, sender, id)
}

#[unsafe(no_mangle)]
pub extern "C" fn tetherbay_final(
    book: &[u8],
    seller: &[u8],
    buyer: &[u8],
    position: usize,
) -> FinalAnswer
    ensures value { result ≡ final book.now seller.now buyer.now position }
    ensures final_by_messages { FinalByMessages book.now seller.now buyer.now position result }
{
    readings::final_value(book, seller, buyer, Position(position))
}

// The two sums of a party's settled position.
#[unsafe(no_mangle)]
pub extern "C" fn tetherbay_settled(book: &[u8], party: &[u8], position: usize) -> SettledAnswer
    ensures { result ≡ settled book.now party.now position }
{
    settling::settled(book, party, Position(position))
}

#[unsafe(no_mangle)]
pub extern "C" fn tetherbay_plain_run(book: &[u8]) -> PlainRunAnswer
    ensures value { result ≡ plain_run book.now }
    ensures plain_run_says_yes { PlainRunSaysYes book.now result }
{
    plain_run::plain_run(book)
}

#[unsafe(no_mangle)]
pub extern "C" fn tetherbay_listing(book: &[u8], buffer: &mut [u8]) -> usize
    ensures { (result ≡ text_length (listing book.now) (length buffer.old)) × (buffer.new ≡ text_into (listing book.now) buffer.old) }
{
    listing_text::listing(book, buffer)
}
