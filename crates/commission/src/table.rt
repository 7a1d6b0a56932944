// Cases in a table of one text: a semicolon behind each row; in a row, between bars, a word of the desk or `check`, two arguments, the number expected, of five
// digits at most, and what is told.
ghost use Rattle.std.specs.Prelude.{◌≡◌};
ghost use Rattle.desk_text.specs.Commands.{number_of};
ghost use Rattle.cases_site.specs.Site.{came, book_after, stated, row_right, row_book, table_run};

use crate::book;
use desk_text::commands::Command;
use desk_text::numbers::number_read;
use desk_text::words::piece_numbered;
use site_leaves::{leaves, line};

// What is no command of the desk's that a row may name is a check.
fn came(book: &mut [u8], command: Option<Command>, argument: &[u8], more: &[u8]) -> u32
    ensures { (result ≡ came book.old (number_of command) argument.now more.now) × (book.new ≡ book_after book.old (number_of command) argument.now more.now) }
{
    let Some(command) = command else {
        return leaves::check(argument, more);
    };
    match command {
        Command::Open => book::opened(book, argument),
        Command::Clock => book::clock(book, argument),
        Command::Submit => book::sold(book, argument, more),
        Command::Block => book::kept_version(book),
        Command::Final => book::final_number(book, argument),
        Command::Message => book::submitted(book, argument),
        Command::Eic => eic::eic_number(argument) as u32,
        Command::Kw => quantity::quantity_read(argument).number,
        Command::Convert => conversion::convert(book),
        Command::Right => book::entered(book, argument),
        Command::Mark | Command::Plain | Command::List | Command::Commission | Command::Settle =>
            leaves::check(argument, more),
    }
}

// A row that says no call, or no number, is wrong whatever comes.
fn stated(word: &[u8], command: Option<Command>, read: bool) -> bool
    ensures { result ≡ stated word.now (number_of command) read }
{
    read & (command.is_some() | field::same(word, b"check"))
}

fn case(rt: &impl Print, book: &mut [u8], row: &[u8]) -> bool
    ensures { (result ≡ row_right book.old row.now) × (book.new ≡ row_book book.old row.now) }
{
    let word = piece_numbered(row, b'|', 0);
    let command = Command::named(word);
    let came = came(
        book,
        command,
        piece_numbered(row, b'|', 1),
        piece_numbered(row, b'|', 2),
    );
    let expected = number_read(piece_numbered(row, b'|', 3));
    let right = line::number(
        rt,
        piece_numbered(row, b'|', 4),
        expected.unwrap_or(0),
        came,
    );
    line::both(right, stated(word, command, expected.is_some()))
}

// Up to the first row that is empty, as every one past the last is.
pub fn cases(rt: &impl Print, book: &mut [u8], table: &[u8]) -> bool
    ensures { (result ≡ (table_run book.old table.now).0) × (book.new ≡ (table_run book.old table.now).1) }
{
    let mut right = true;
    for k in 0..table.len() {
        let row = piece_numbered(table, b';', k);
        if row.is_empty() {
            return right;
        }
        right = line::both(case(rt, book, row), right);
    }
    right
}
