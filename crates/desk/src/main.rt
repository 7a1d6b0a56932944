// The technician's program for a day book in a file. Every answer is one line, but for a listing and the settled positions (docs/DESK.md).
// Buffers have a fixed length here, since the desk has no heap.
#![tactic(auto)]

mod arguments;

use desk_answers::words::opening_words;
use desk_answers::{Change, Numbers, Question};
use desk_files::{ask, ask_alone, change, say};
use desk_text::commands::Command;
use desk_text::numbers::{minute_read, number_read};
use desk_text::words::word;
use std::rt::{Env, Files};

fn usage(rt: &impl Print) {
    say(
        rt,
        b"wrong use: desk COMMAND ...\n  desk open BOOK BLOCKS N LEAD DAY AREA RECEIVER   a new book; BLOCKS 2 to 1001, N 92, 96 or 100, LEAD in minutes, DAY as 20190131; the word seller behind it has the book settle at the seller's quantity, lesser or none at the lesser of the two; the word replace at the end replaces a file that is there\n  desk clock BOOK MINUTE                           minutes from the day's start, -10080 to 1500\n  desk submit BOOK MESSAGE                         a message in a file\n  desk convert BOOK                                every mark and net of a book of the old layout written by the plain rule\n  desk right BOOK TEXT                             a right to capacity entered from its text form\n  desk mark BOOK SENDER ID                         the mark of a series\n  desk block BOOK SENDER ID                        the accepted block of a series\n  desk final BOOK SELLER BUYER POSITION            the final value at a closed position\n  desk settle BOOK POSITION                        what each party buys, sells and settles at a closed position, and the sums, which cancel\n  desk plain BOOK                                  whether every kept mark and net is true\n  desk list BOOK                                   the listing of a book of at most 64 blocks\n  desk message TEXT MESSAGE                        a message made from its text form\n  desk eic CODE                                    whether a code is a valid EIC, or which character is wrong\n  desk kw TEXT                                     a quantity text in MW, read and printed\n  desk commission                                  whether this desk may be put into service\n",
    );
}

fn numbers_of(words: &[u8]) -> Option<Numbers> {
    Some(Numbers {
        blocks: number_read(word(words, 3))?,
        n: number_read(word(words, 4))?,
        lead: number_read(word(words, 5))?,
    })
}

fn open<R: Files + Print>(rt: &R, words: &[u8]) {
    match numbers_of(words) {
        Some(numbers) => change(rt, Change::Open(numbers), word(words, 2), words),
        None => say(
            rt,
            b"wrong use: BLOCKS, N and LEAD are numbers of one to five digits\n",
        ),
    }
}

fn clock<R: Files + Print>(rt: &R, words: &[u8]) {
    match minute_read(word(words, 3)) {
        Some(minute) => change(rt, Change::Clock(minute), word(words, 2), b""),
        None => say(
            rt,
            b"wrong use: MINUTE is a number of one to five digits, with a minus before the day's start\n",
        ),
    }
}

// What is asked of a position, which is word k of the command.
fn ask_at<R: Files + Print, F: FnOnce(usize) -> Question + Drop>(
    rt: &R,
    k: usize,
    words: &[u8],
    question: F,
)
    requires { F.IsAlwaysCallable question }
{
    match number_read(word(words, k)) {
        Some(position) => ask(rt, question(position as usize), words),
        None => say(
            rt,
            b"wrong use: POSITION is a number of one to five digits\n",
        ),
    }
}

// How many arguments the program is started with for a command, its own name among them.
fn arguments_of(command: Command, words: &[u8]) -> usize {
    match command {
        Command::Open => opening_words(words),
        Command::Commission => 2,
        Command::Plain | Command::List | Command::Eic | Command::Kw | Command::Convert => 3,
        Command::Clock | Command::Submit | Command::Message | Command::Right | Command::Settle => 4,
        Command::Mark | Command::Block => 5,
        Command::Final => 6,
    }
}

fn run<R: Files + Print>(rt: &R, command: Command, words: &[u8]) {
    match command {
        Command::Open => open(rt, words),
        Command::Clock => clock(rt, words),
        Command::Submit => desk_files::messages::submit(rt, words),
        Command::Mark => ask(rt, Question::Mark, words),
        Command::Block => ask(rt, Question::Block, words),
        Command::Final => ask_at(rt, 5, words, Question::Final),
        Command::Plain => ask(rt, Question::Plain, words),
        Command::List => ask(rt, Question::List, words),
        Command::Message => desk_files::messages::message(rt, words),
        Command::Eic => ask_alone(rt, Question::Eic, words),
        Command::Kw => ask_alone(rt, Question::Kw, words),
        Command::Commission => commission::run(rt),
        Command::Convert => change(rt, Change::Convert, word(words, 2), b""),
        Command::Right => desk_files::messages::right(rt, words),
        Command::Settle => ask_at(rt, 3, words, Question::Settle),
    }
}

fn command<R: Files + Env + Print>(rt: &R, words: &[u8]) {
    match Command::named(word(words, 1)) {
        Some(command) if arguments::count(rt) == arguments_of(command, words) => {
            run(rt, command, words)
        }
        _ => usage(rt),
    }
}

// Room for eleven arguments of 4,096 bytes, with the zero byte behind each.
fn main(rt: HostRuntime) {
    let mut words = [0u8; 45067];
    arguments::take_all(&rt, &mut words);
    command(&rt, &words);
}
