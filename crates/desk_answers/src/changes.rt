// The calls that change a book.
ghost use Rattle.std.specs.Prelude.{◌≡◌};
ghost use Rattle.paper.specs.Rules.{verdict};
ghost use Rattle.paper.specs.Acceptance.{submitted};
ghost use Rattle.paper.specs.Opening.{open_answer, opened};
ghost use Rattle.paper.specs.Clock.{clock_answer, clock_moved};
ghost use Rattle.paper.specs.Conversion.{conversion_number, converted};
ghost use Rattle.paper.specs.Rights.{enter_number, entered};
ghost use Rattle.desk_lines.specs.Lines.{verdict_line, open_line, clock_line, conversion_line, enter_line};
ghost use Rattle.desk_text.specs.Words.{word_numbered};
ghost use Rattle.desk_answers.specs.Answers.{Tells, rule_named, opening, block_named, change_number, change_line, changed};

use crate::words::rule_named;
use crate::{Change, Numbers, Told};
use desk_lines::{clock_line, conversion_line, enter_line, open_line, verdict_line};
use desk_text::arguments::{byte_value, word_value};
use desk_text::words::word;
use paper::Minute;
use slots::block_at;

// The line tells the rule of a new book, else of the area's code first, then of the receiver's.
fn open_told(book: &mut [u8], numbers: Numbers, words: &[u8], line: &mut [u8]) -> Told
    ensures { Tells (open_answer book.old (opening numbers words.now)).number (open_line (open_answer book.old (opening numbers words.now)) (rule_named words.now) (word_numbered 7 words.now) (word_numbered 8 words.now)) result line.old line.new × (book.new ≡ opened book.old (opening numbers words.now)) }
{
    let area = word(words, 7);
    let receiver = word(words, 8);
    let rule = rule_named(words);
    let opened = opening::open_by(
        book,
        byte_value(numbers.n),
        word_value(numbers.lead),
        rule,
        word(words, 6),
        area,
        receiver,
    );
    let length = open_line(line, opened, rule, area, receiver);
    Told {
        number: opened.number,
        length,
    }
}

fn clock_told(book: &mut [u8], minute: Minute, line: &mut [u8]) -> Told
    ensures { Tells (clock_answer book.old minute.0).number (clock_line (clock_answer book.old minute.0)) result line.old line.new × (book.new ≡ clock_moved book.old minute.0) }
{
    let answer = clock::clock(book, minute);
    let length = clock_line(line, answer);
    Told {
        number: answer.number,
        length,
    }
}

// Block 0 of a message is the sender's, block k series k. The number of looks is no answer to a sender: the line tells the verdict alone.
fn submit_told(book: &mut [u8], message: &[u8], line: &mut [u8]) -> Told
    ensures { Tells (verdict book.old message.now).number (verdict_line (verdict book.old message.now) (block_named message.now (verdict book.old message.now))) result line.old line.new × (book.new ≡ submitted book.old message.now) }
{
    let answer = submit::submit(book, message);
    let verdict = answer.verdict;
    let length = verdict_line(line, verdict, block_at(message, verdict.series));
    Told {
        number: verdict.number,
        length,
    }
}

fn convert_told(book: &mut [u8], line: &mut [u8]) -> Told
    ensures { Tells (conversion_number book.old) (conversion_line (conversion_number book.old)) result line.old line.new × (book.new ≡ converted book.old) }
{
    let number = conversion::convert(book);
    let length = conversion_line(line, number);
    Told { number, length }
}

fn enter_told(book: &mut [u8], right: &[u8], line: &mut [u8]) -> Told
    ensures { Tells (enter_number book.old right.now) (enter_line (enter_number book.old right.now)) result line.old line.new × (book.new ≡ entered book.old right.now) }
{
    let number = entering::enter_right(book, right);
    let length = enter_line(line, number);
    Told { number, length }
}

// What is given is the words of an opening, the message of a submission, the block of a right, and nothing to the clock and to a conversion.
pub fn change(what: Change, book: &mut [u8], given: &[u8], line: &mut [u8]) -> Told
    ensures { Tells (change_number what book.old given.now) (change_line what book.old given.now) result line.old line.new × (book.new ≡ changed what book.old given.now) }
{
    match what {
        Change::Open(numbers) => open_told(book, numbers, given, line),
        Change::Clock(minute) => clock_told(book, minute, line),
        Change::Submit => submit_told(book, given, line),
        Change::Convert => convert_told(book, line),
        Change::Enter => enter_told(book, given, line),
    }
}
