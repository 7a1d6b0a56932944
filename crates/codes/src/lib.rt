// The reason code of each number that a call can answer, the reply to a submission, and the state and the code of a mark.
#![tactic(auto)]

ghost use Rattle.std.specs.Prelude.{◌≡◌};
ghost use Rattle.laws.specs.Table.{Table};
ghost use Rattle.paper.specs.Codes.{reason_code, status_code, reply_kind, reply_to};
ghost use Rattle.paper.specs.Marks.{state_of_mark, state_code, mark_code};

use paper::{Reply, Slot};

// The one fixed table: at a number its code, 53 for A53, 0 where it has none. 0 is the acceptance; 1, 2, 17 and the numbers of the
// other calls have none; 18 and 19 are the refusals of a series on a right, 30 and 31 those of quantity text.
const CODES: [u8; 33] = [
    1, 0, 0, 53, 78, 4, 51, 55, 22, 23, 62, 46, 42, 49, 57, 50, 52, 0, 59, 59, 0, 0, 0, 0, 0, 0, 0,
    0, 0, 0, 42, 46, 0,
];

fn code_in(codes: &[u8; 33], number: u32) -> u8
    requires { Table reason_code 33 codes.now }
    ensures { result ≡ reason_code number }
{
    // No number past the table's end has a code.
    if 32 < number {
        return 0;
    }
    codes[number as usize]
}

// Read by whoever acknowledges a message or explains a refusal.
pub fn reason_code(number: u32) -> u8
    ensures { result ≡ reason_code number }
{
    let codes = CODES;
    code_in(&codes, number)
}

// A01 beside an acceptance, A02 beside a refusal with a code.
fn status_code(number: u32, code: u8) -> u8
    requires { code ≡ reason_code number }
    ensures { result ≡ status_code number }
{
    if number == 0 {
        return 1;
    }
    if code == 0 {
        return 0;
    }
    2
}

// 40 is a refused right, of which no sender knows: the desk has it to itself, as 1 and 17.
fn reply_kind(number: u32, code: u8) -> u8
    requires { code ≡ reason_code number }
    ensures { result ≡ reply_kind number }
{
    if (number == 1) | (number == 17) | (number == 40) {
        return 2;
    }
    if code == 0 {
        return 1;
    }
    0
}

// How the sender of a message is answered.
pub fn reply(number: u32) -> Reply
    ensures { result ≡ reply_to number }
{
    let code = reason_code(number);
    Reply {
        kind: reply_kind(number, code),
        status: status_code(number, code),
        code: code,
    }
}

// No byte of the book holds the state: 1 where the series stands alone, 2 where its counterpart agrees, 3 where it differs.
pub fn state_of_mark(differing: u8, partner: Slot) -> u8
    ensures { result ≡ state_of_mark differing partner.0 }
{
    if differing != 0 {
        return 3;
    }
    if partner.0 == 0 {
        return 1;
    }
    2
}

// A28 for a series that stands alone, A09 for one whose counterpart differs.
pub fn state_code(state: u8) -> u8
    ensures { result ≡ state_code state }
{
    if state == 1 {
        return 28;
    }
    if state == 3 {
        return 9;
    }
    0
}

pub fn mark_code(differing: u8, partner: Slot) -> u8
    ensures { result ≡ mark_code differing partner.0 }
{
    state_code(state_of_mark(differing, partner))
}
