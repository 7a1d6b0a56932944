// What the EIC check finds wrong with a code, in words. The answers name the character; whose code it is follows from the order in which codes are judged.
#![tactic(auto)]

ghost use Rattle.std.specs.Prelude.{cond};
ghost use Rattle.paper.specs.Eic.{eic_valid};
ghost use Rattle.desk_text.specs.Put.{Put};
ghost use Rattle.desk_faults.specs.Faults.{place, fault, fault_behind, opening_fault, party_fault, verdict_fault};

use desk_text::pieces::{put_field, put_worded};
use desk_text::put::put;
use eic::eic_valid;
use field::id_text;
use layout::{in_party, out_party, sender};
use paper::Verdict;

fn put_place(line: &mut [u8], at: usize, whose: &[u8], character: u8) -> usize
    ensures { Put at (place whose.now character) result line.old line.new }
{
    let a = put_worded(line, at, b"character ", character as usize);
    let b = put(line, a, b" of ");
    put(line, b, whose)
}

// A code, and whose it is.
#[derive(Clone, Copy)]
pub struct Code<'a> {
    pub whose: &'a [u8],
    pub code: &'a [u8],
}

// By the check's number, which is not 0. A code ends before the zero bytes that fill up its field.
pub fn put_fault(line: &mut [u8], at: usize, wrong: Code, character: u8) -> usize
    ensures { Put at (fault wrong.entry.whose.now wrong.entry.code.now character) result line.old line.new }
{
    let size = id_text(wrong.code).len();
    if size < character as usize {
        let a = put_place(line, at, wrong.whose, character);
        return put(line, a, b" is missing");
    }
    if character < 16 {
        let a = put_place(line, at, wrong.whose, character);
        return put(line, a, b" is not allowed");
    }
    if 16 < size {
        return put_field(line, at, wrong.whose, b" has more than 16 characters");
    }
    let a = put_field(line, at, b"the last character of ", wrong.whose);
    put(line, a, b" does not fit the others")
}

// Behind a refusal; nothing where it names no character.
fn put_fault_behind(line: &mut [u8], at: usize, wrong: Code, character: u8) -> usize
    ensures { Put at (fault_behind wrong.entry.whose.now wrong.entry.code.now character) result line.old line.new }
{
    if character == 0 {
        return put(line, at, b"");
    }
    let behind = put(line, at, b"; ");
    put_fault(line, behind, wrong, character)
}

// Of two codes of which one is wrong: the first is judged first.
fn put_fault_of(line: &mut [u8], at: usize, first: Code, second: Code, character: u8) -> usize
    ensures { Put at (cond (eic_valid first.entry.code.now) (fault_behind second.entry.whose.now second.entry.code.now character) (fault_behind first.entry.whose.now first.entry.code.now character)) result line.old line.new }
{
    if eic_valid(first.code) {
        return put_fault_behind(line, at, second, character);
    }
    put_fault_behind(line, at, first, character)
}

pub fn put_opening_fault(
    line: &mut [u8],
    at: usize,
    area: &[u8],
    receiver: &[u8],
    character: u8,
) -> usize
    ensures { Put at (opening_fault area.now receiver.now character) result line.old line.new }
{
    let area = Code {
        whose: b"the area's code",
        code: area,
    };
    let receiver = Code {
        whose: b"the receiver's code",
        code: receiver,
    };
    put_fault_of(line, at, area, receiver, character)
}

fn put_party_fault(line: &mut [u8], at: usize, series: &[u8], character: u8) -> usize
    ensures { Put at (party_fault series.now character) result line.old line.new }
{
    let buyer = Code {
        whose: b"the in party's code",
        code: in_party(series),
    };
    let seller = Code {
        whose: b"the out party's code",
        code: out_party(series),
    };
    put_fault_of(line, at, buyer, seller, character)
}

// The block is the one of the message at which the rule is broken: on 4 the sender's, on 8 the series. Elsewhere the verdict names no character.
pub fn put_verdict_fault(line: &mut [u8], at: usize, verdict: Verdict, x: &[u8]) -> usize
    ensures { Put at (verdict_fault verdict x.now) result line.old line.new }
{
    if verdict.number == 4 {
        let sender = Code {
            whose: b"the sender's code",
            code: sender(x),
        };
        return put_fault_behind(line, at, sender, verdict.character);
    }
    put_party_fault(line, at, x, verdict.character)
}
