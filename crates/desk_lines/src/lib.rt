// The desk's answers as lines: accepted or refused, document 01's number and reason code, where a rule is broken, what that means, and what was asked for.
// Each function puts its piece at a place of the line and answers the place behind it.
// Buffers have a fixed length here, since the desk has no heap.
#![tactic(auto)]

ghost use Rattle.std.specs.Prelude.{cond, [], ◌++◌, ◌≤◌};
ghost use Rattle.paper.specs.Listing.{text};
ghost use Rattle.desk_text.specs.Put.{Put};
ghost use Rattle.desk_lines.specs.Lines.{answer_text, answer_of, telling, megawatts, mark_text, day_text, name_text, capacity_text, external_text, series_text, quantities_text};
ghost use Rattle.desk_lines.specs.Lines.{verdict_line, open_line, clock_line, conversion_line, enter_line, mark_line, final_line, plain_line, quantity_line, eic_line, block_line};

use block::numbers::number_4;
use desk_faults::{Code, put_fault, put_opening_fault, put_verdict_fault};
use desk_text::numbers::{put_minute, put_number};
use desk_text::pieces::{put_code, put_field, put_named, put_worded};
use desk_text::put::put;
use desk_text::replies::put_reply;
use desk_text::words::{put_meaning, put_state_meaning};
use field::id_text;
use paper::{
    ClockAnswer, DayState, FinalAnswer, LESSER, MarkAnswer, OpenAnswer, PlainRunAnswer, Position,
    QuantityRead, Rule, Slot, Verdict,
};

// One of two texts.
fn put_either(line: &mut [u8], at: usize, test: bool, yes: &[u8], no: &[u8]) -> usize
    ensures { Put at (cond test yes.now no.now) result line.old line.new }
{
    if test {
        return put(line, at, yes);
    }
    put(line, at, no)
}

fn put_end(line: &mut [u8], at: usize) -> usize
    ensures { Put at (text "\n") result line.old line.new }
{
    put(line, at, b"\n")
}

// A whole answer but for what was asked for and the newline. Nothing needs to be explained of an acceptance: the words of 0 are empty.
fn put_answer(line: &mut [u8], number: u32, code: u8, series: usize, position: usize) -> usize
    ensures { Put 0 (answer_text number code series position) result line.old line.new }
{
    let a = put_either(line, 0, number == 0, b"accepted ", b"refused ");
    let b = put_number(line, a, number as usize);
    let c = put_code(line, b, code);
    let d = put_named(line, c, b" series ", series);
    let e = put_named(line, d, b" position ", position);
    let f = put_either(line, e, number == 0, b"", b": ");
    put_meaning(line, f, number)
}

// A word, and a quantity.
fn put_megawatts(line: &mut [u8], at: usize, word: &[u8], kilowatts: u32) -> usize
    ensures { Put at (word.now ++ megawatts kilowatts) result line.old line.new }
{
    let mut room = [0u8; 8];
    let printed = quantity::quantity_print(kilowatts, &mut room);
    let k = printed.length;
    put_field(line, at, word, field::part_of(&room, 0, k))
}

// Of a call that has no series and no position to tell.
fn put_answer_of(line: &mut [u8], number: u32) -> usize
    ensures { Put 0 (answer_of number) result line.old line.new }
{
    put_answer(line, number, codes::reason_code(number), 0, 0)
}

// Of a call that tells more only where it is accepted: the line of a refusal ends here. Each caller asks for the refusal itself: as closures, what they tell
// behind it would each need a clause of its own, which is no plainer.
pub fn put_telling(line: &mut [u8], number: u32) -> usize
    ensures { Put 0 (telling number []) result line.old line.new }
{
    let behind = put_answer_of(line, number);
    put_either(line, behind, number == 0, b"", b"\n")
}

// Where a rule is broken is told with it, on 4 and 8 what is wrong with the code, and how the sender is answered. The block is the one of the message at which the
// rule is broken.
pub fn verdict_line(line: &mut [u8], verdict: Verdict, x: &[u8]) -> usize
    ensures { Put 0 (verdict_line verdict x.now) result line.old line.new }
{
    let a = put_answer(
        line,
        verdict.number,
        verdict.code,
        verdict.series,
        verdict.position.0,
    );
    let b = put_verdict_fault(line, a, verdict, x);
    let c = put_reply(line, b, codes::reply(verdict.number));
    put_end(line, c)
}

// By which rule the new book settles; on 21 what is wrong with the code of the area or the receiver.
pub fn open_line(
    line: &mut [u8],
    answer: OpenAnswer,
    rule: Rule,
    area: &[u8],
    receiver: &[u8],
) -> usize
    ensures { Put 0 (open_line answer rule area.now receiver.now) result line.old line.new }
{
    let a = put_answer_of(line, answer.number);
    if answer.number == 0 {
        return put_either(
            line,
            a,
            rule == LESSER,
            b": settles at the lesser of the two quantities\n",
            b": settles at the seller's quantity\n",
        );
    }
    let b = put_opening_fault(line, a, area, receiver, answer.character);
    put_end(line, b)
}

fn put_day(line: &mut [u8], at: usize, day: DayState) -> usize
    ensures { Put at (day_text day) result line.old line.new }
{
    let a = put_worded(line, at, b": n ", day.n as usize);
    let b = put_worded(line, a, b" lead ", day.lead as usize);
    let c = put(line, b, b" clock ");
    let d = put_minute(line, c, day.clock);
    put_end(line, d)
}

// A refused clock tells the day's state too, but on 1 there is none.
pub fn clock_line(line: &mut [u8], answer: ClockAnswer) -> usize
    ensures { Put 0 (clock_line answer) result line.old line.new }
{
    let a = put_answer_of(line, answer.number);
    if answer.number == 1 {
        return put_end(line, a);
    }
    put_day(line, a, answer.state)
}

// What was done, or in which layout the book is judged.
pub fn conversion_line(line: &mut [u8], number: u32) -> usize
    ensures { Put 0 (conversion_line number) result line.old line.new }
{
    let a = put_answer_of(line, number);
    put_either(
        line,
        a,
        number == 0,
        b": every mark and net is written by the plain rule\n",
        b" in the old layout; where plain says yes it needs no conversion\n",
    )
}

pub fn enter_line(line: &mut [u8], number: u32) -> usize
    ensures { Put 0 (enter_line number) result line.old line.new }
{
    let a = put_answer_of(line, number);
    put_either(
        line,
        a,
        number == 0,
        b": the right is kept; its holder may send A03 series on it\n",
        b"\n",
    )
}

fn put_mark(
    line: &mut [u8],
    at: usize,
    word: &[u8],
    differing: u8,
    first: Position,
    partner: Slot,
) -> usize
    ensures { Put at (mark_text word.now differing first.0 partner.0) result line.old line.new }
{
    let a = put_worded(line, at, word, differing as usize);
    let b = put_worded(line, a, b" first ", first.0);
    let c = put_worded(line, b, b" partner ", partner.0);
    let state = codes::state_of_mark(differing, partner);
    let d = put_code(line, c, codes::state_code(state));
    let e = put(line, d, b", ");
    put_state_meaning(line, e, state as usize)
}

pub fn mark_line(line: &mut [u8], answer: MarkAnswer) -> usize
    ensures { Put 0 (mark_line answer) result line.old line.new }
{
    let a = put_telling(line, answer.number);
    if answer.number != 0 {
        return a;
    }
    let b = put_mark(
        line,
        a,
        b": differ ",
        answer.differ,
        answer.first,
        answer.partner,
    );
    put_end(line, b)
}

// The rule is the book's own.
pub fn final_line(line: &mut [u8], answer: FinalAnswer, rule: Rule) -> usize
    ensures { Put 0 (final_line answer rule) result line.old line.new }
{
    let a = put_telling(line, answer.number);
    if answer.number != 0 {
        return a;
    }
    let b = put_megawatts(line, a, b": ", answer.kilowatts);
    put_either(
        line,
        b,
        rule == LESSER,
        b" MW, the lesser of the two\n",
        b" MW, the seller's\n",
    )
}

pub fn plain_line(line: &mut [u8], answer: PlainRunAnswer) -> usize
    ensures { Put 0 (plain_line answer) result line.old line.new }
{
    let a = put_telling(line, answer.number);
    if answer.number != 0 {
        return a;
    }
    put_either(
        line,
        a,
        answer.holds,
        b": yes, every kept mark and net is true\n",
        b": no, a kept mark or net is not true\n",
    )
}

pub fn quantity_line(line: &mut [u8], answer: QuantityRead) -> usize
    ensures { Put 0 (quantity_line answer) result line.old line.new }
{
    let a = put_telling(line, answer.number);
    if answer.number != 0 {
        return a;
    }
    let b = put_worded(line, a, b": ", answer.kilowatts as usize);
    let c = put_megawatts(line, b, b" kW, printed ", answer.kilowatts);
    put_end(line, c)
}

// The character is the check's number of the code.
pub fn eic_line(line: &mut [u8], code: &[u8], character: u8) -> usize
    ensures { Put 0 (eic_line code.now character) result line.old line.new }
{
    let a = put_either(line, 0, character == 0, b"yes, a valid EIC\n", b"no, ");
    if character == 0 {
        return a;
    }
    let whose = b"the code";
    let b = put_fault(line, a, Code { whose, code }, character);
    put_end(line, b)
}

// ---- an accepted block

fn put_name(line: &mut [u8], at: usize, x: &[u8]) -> usize
    ensures { Put at (name_text x.now) result line.old line.new }
{
    let a = put_field(line, at, b": series ", id_text(layout::id_of(x)));
    let b = put_worded(line, a, b" version ", layout::version(x) as usize);
    let c = put_field(line, b, b" in ", layout::in_party(x));
    put_field(line, c, b" out ", layout::out_party(x))
}

fn put_capacity(line: &mut [u8], at: usize, x: &[u8]) -> usize
    ensures { Put at (capacity_text x.now) result line.old line.new }
{
    if slots::with_capacity(x) {
        let a = put_worded(line, at, b" contract ", layout::contract_type(x) as usize);
        return put_field(line, a, b" agreement ", id_text(layout::agreement(x)));
    }
    put(line, at, b"")
}

fn put_external(line: &mut [u8], at: usize, x: &[u8]) -> usize
    ensures { Put at (external_text x.now) result line.old line.new }
{
    if slots::is_external(x) {
        let a = put_worded(line, at, b" type ", layout::business_type(x) as usize);
        let b = put_field(line, a, b" in-area ", layout::in_area(x));
        let c = put_field(line, b, b" out-area ", layout::out_area(x));
        return put_capacity(line, c, x);
    }
    put(line, at, b"")
}

fn put_series(line: &mut [u8], at: usize, x: &[u8]) -> usize
    ensures { Put at (series_text x.now) result line.old line.new }
{
    let a = put_name(line, at, x);
    let b = put_external(line, a, x);
    put_mark(
        line,
        b,
        b" differ ",
        layout::differing(x),
        layout::first(x),
        layout::partner(x),
    )
}

// The unit, and the first n quantities of a block.
fn put_quantities(line: &mut [u8], at: usize, q: &[u8], n: usize) -> usize
    requires { n ≤ 255 }
    ensures { Put at (text "; MW" ++ quantities_text q.now n) result line.old line.new }
{
    let mut place = put(line, at, b"; MW");
    for k in 0..n {
        place = put_megawatts(line, place, b" ", number_4(q, 4 * k));
    }
    place
}

// The number is that of the mark's call, which tells an unsound book from an unknown series.
pub fn block_line(line: &mut [u8], number: u32, x: &[u8]) -> usize
    ensures { Put 0 (block_line number x.now) result line.old line.new }
{
    let a = put_telling(line, number);
    if number != 0 {
        return a;
    }
    let b = put_series(line, a, x);
    let c = put_quantities(line, b, layout::quantities(x), layout::n_of(x) as usize);
    put_end(line, c)
}
