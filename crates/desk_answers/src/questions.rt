// The calls that read a book, and those that need none.
ghost use Rattle.paper.specs.Eic.{eic_number};
ghost use Rattle.paper.specs.QuantityText.{quantity_read};
ghost use Rattle.paper.specs.Layout.{rule_of};
ghost use Rattle.paper.specs.Book.{day_block};
ghost use Rattle.paper.specs.Readings.{mark_answer, accepted_block};
ghost use Rattle.paper.specs.Finals.{final};
ghost use Rattle.paper.specs.PlainRun.{plain_run};
ghost use Rattle.desk_text.specs.Put.{Put};
ghost use Rattle.desk_text.specs.Words.{word_numbered};
ghost use Rattle.desk_text.specs.Arguments.{id_field};
ghost use Rattle.desk_lines.specs.Lines.{mark_line, block_line, final_line, plain_line, eic_line, quantity_line};
ghost use Rattle.desk_answers.specs.Answers.{Answered};

use crate::Question;
use desk_text::arguments::id_field;
use desk_text::words::word;
use field::part_of;
use layout::rule_of;
use paper::Position;

fn mark_told(book: &[u8], words: &[u8], line: &mut [u8]) -> usize
    ensures { Put 0 (mark_line (mark_answer book.now (word_numbered 3 words.now) (id_field (word_numbered 4 words.now)))) result line.old line.new }
{
    let id = id_field(word(words, 4));
    let answer = readings::mark(book, word(words, 3), &id);
    desk_lines::mark_line(line, answer)
}

// The mark's call tells an unsound book from an unknown series, the other gives the block; each judges the book.
fn block_told(book: &[u8], words: &[u8], line: &mut [u8]) -> usize
    ensures { Put 0 (block_line (mark_answer book.now (word_numbered 3 words.now) (id_field (word_numbered 4 words.now))).number (accepted_block book.now (word_numbered 3 words.now) (id_field (word_numbered 4 words.now)))) result line.old line.new }
{
    let id = id_field(word(words, 4));
    let sender = word(words, 3);
    let number = readings::mark(book, sender, &id).number;
    desk_lines::block_line(line, number, readings::accepted_block(book, sender, &id))
}

// The rule is that of the book's day block.
fn final_told(book: &[u8], words: &[u8], position: usize, line: &mut [u8]) -> usize
    ensures { Put 0 (final_line (final book.now (word_numbered 3 words.now) (word_numbered 4 words.now) position) (rule_of (day_block book.now))) result line.old line.new }
{
    let answer = readings::final_value(book, word(words, 3), word(words, 4), Position(position));
    desk_lines::final_line(line, answer, rule_of(part_of(book, 0, 512)))
}

fn plain_told(book: &[u8], line: &mut [u8]) -> usize
    ensures { Put 0 (plain_line (plain_run book.now)) result line.old line.new }
{
    let answer = plain_run::plain_run(book);
    desk_lines::plain_line(line, answer)
}

fn eic_told(words: &[u8], line: &mut [u8]) -> usize
    ensures { Put 0 (eic_line (word_numbered 2 words.now) (eic_number (word_numbered 2 words.now))) result line.old line.new }
{
    let code = word(words, 2);
    desk_lines::eic_line(line, code, eic::eic_number(code))
}

fn kw_told(words: &[u8], line: &mut [u8]) -> usize
    ensures { Put 0 (quantity_line (quantity_read (word_numbered 2 words.now))) result line.old line.new }
{
    let read = quantity::quantity_read(word(words, 2));
    desk_lines::quantity_line(line, read)
}

// How long the line is, or the listing's text.
pub fn answer(question: Question, book: &[u8], words: &[u8], line: &mut [u8]) -> usize
    ensures { Answered question book.now words.now result line.old line.new }
{
    match question {
        Question::Mark => mark_told(book, words, line),
        Question::Block => block_told(book, words, line),
        Question::Final(position) => final_told(book, words, position, line),
        Question::Settle(position) => settlement_text::settlement(book, Position(position), line),
        Question::Plain => plain_told(book, line),
        Question::List => listing_text::listing(book, line),
        Question::Eic => eic_told(words, line),
        Question::Kw => kw_told(words, line),
    }
}
