// Files read whole, and replaced whole or not at all: the one way of every change and of every reading.
// Buffers have a fixed length here, since the desk has no heap.
#![tactic(auto)]

ghost use Rattle.std.specs.Prelude.{◌≡◌, ◌<◌, ◌^◌};

use desk_answers::words::replaces;
use desk_answers::{Change, Question, Told};
use desk_text::arguments::{book_length, folder_length, put_beside};
use desk_text::words::word;
use field::part_of;
use reads::read_full;
use std::fs::{OpenFile, OpenOptions};
use std::io::{Error, ErrorKind, Read, Write};
use std::rt::Files;
use std::{fs, io};

pub mod messages;

// What stands in the way.
#[derive(Clone, Copy)]
pub enum Fault {
    Missing,
    NotOpened,
    NotRead,
    NoBook,
    NoMessage,
    NoText,
    AnotherDesk,
    NotMade,
    NotWritten,
    NotNamed,
    NotKept,
    IsThere,
}

impl Fault {
    fn text(self) -> &'static [u8] {
        match self {
            Fault::Missing => b": there is no such file\n",
            Fault::NotOpened => b": the file cannot be opened\n",
            Fault::NotRead => b": the file cannot be read\n",
            Fault::NoBook => b": the file is longer than a book of 1001 blocks\n",
            Fault::NoMessage => b": the file is longer than a message of 201 blocks\n",
            Fault::NoText => b": the file is longer than the text of any message\n",
            Fault::AnotherDesk => {
                b": the file is there; another desk changes the book, or one was cut off and the file is to be removed\n"
            }
            Fault::NotMade => b": the file cannot be made\n",
            Fault::NotWritten => b": the new book cannot be written\n",
            Fault::NotNamed => b": the new book cannot take this name\n",
            Fault::NotKept => {
                b": the new book has this name, but a power cut may bring back what stood here before\n"
            }
            Fault::IsThere => {
                b": the file is there; the word replace at the end of the command replaces it\n"
            }
        }
    }
}

// A line has said what stands in the way, where it was met and before any file is removed for it.
#[derive(Clone, Copy)]
struct Failed;

// What cannot be written is not said.
pub fn say(rt: &impl Print, text: &[u8]) {
    let _ = rt.write_all(text);
}

// A line on what stands in the way, which is no answer of document 01's.
fn say_fault(rt: &impl Print, path: &[u8], fault: Fault) -> Failed {
    say(rt, b"failed: ");
    say(rt, path);
    say(rt, fault.text());
    Failed
}

// The system's files have their paths as text: bytes that are no UTF-8 name no file that can be opened or made.
fn path_text(path: &[u8]) -> io::Result<&str> {
    str::from_utf8(path).map_err(|_| Error::from(ErrorKind::InvalidInput))
}

fn open<R: Files>(rt: &R, path: &[u8]) -> io::Result<R::File> {
    fs::open(rt, path_text(path)?)
}

// Only where the file is not there yet.
fn create<R: Files>(rt: &R, path: &[u8]) -> io::Result<R::File> {
    OpenOptions::new()
        .write(true)
        .create_new(true)
        .open(rt, path_text(path)?)
}

// What cannot be removed stays, and the next change says so.
fn remove(rt: &impl Files, path: &[u8]) {
    if let Ok(text) = path_text(path) {
        let _ = fs::remove_file(rt, text);
    }
}

fn rename(rt: &impl Files, from: &[u8], to: &[u8]) -> io::Result<()> {
    fs::rename(rt, path_text(from)?, path_text(to)?)
}

fn not_opened(error: Error) -> Fault {
    match error.kind() {
        ErrorKind::NotFound => Fault::Missing,
        _ => Fault::NotOpened,
    }
}

// The whole file into the room, and its length. One byte more is asked for: it tells a file that is too long.
fn load_from(file: &mut impl Read, room: &mut [u8], too_long: Fault) -> Result<usize, Fault> {
    let length = read_full(file, room).map_err(|_| Fault::NotRead)?;
    let mut byte = [0u8; 1];
    match file.read(&mut byte) {
        Ok(0) => Ok(length),
        Ok(_) => Err(too_long),
        Err(_) => Err(Fault::NotRead),
    }
}

fn load<R: Files + Print>(
    rt: &R,
    path: &[u8],
    room: &mut [u8],
    too_long: Fault,
) -> Result<usize, Failed> {
    let mut file = open(rt, path).map_err(|e| say_fault(rt, path, not_opened(e)))?;
    load_from(&mut file, room, too_long).map_err(|fault| say_fault(rt, path, fault))
}

// A file read into room of N bytes and handed on, or a line that says why not.
pub fn with_file<const N: usize, R: Files + Print, F: FnOnce(&[u8]) + Drop>(
    rt: &R,
    path: &[u8],
    too_long: Fault,
    then: F,
)
    requires fits { N < 2 ^ 63 }
    requires callable { F.IsAlwaysCallable then }
{
    let mut room = [0u8; N];
    if let Ok(k) = load(rt, path, &mut room, too_long) {
        then(part_of(&room, 0, k));
    }
}

// ---- a change

// The name of the file beside another, handed on. A name that the buffer has no room for fills it, and is too long for the system.
fn with_beside<F: FnOnce(&[u8])>(path: &[u8], then: F)
    requires { F.IsAlwaysCallable then }
{
    let mut name = [0u8; 4096];
    let end = put_beside(&mut name, path);
    then(part_of(&name, 0, end));
}

fn not_begun(error: Error) -> Fault {
    match error.kind() {
        ErrorKind::AlreadyExists => Fault::AnotherDesk,
        _ => Fault::NotMade,
    }
}

// Made before the book is read, and only where it is not there yet: so no two desks change one book at a time.
fn begin<R: Files + Print>(rt: &R, name: &[u8]) -> Result<R::File, Failed> {
    create(rt, name).map_err(|e| say_fault(rt, name, not_begun(e)))
}

// Nothing is changed.
fn abandon<R: Files>(rt: &R, file: R::File, name: &[u8]) {
    drop(file);
    remove(rt, name);
}

// All of the book reaches the disk, or as much of it as could be written. What is closed behind that has nothing left to lose.
fn write_whole<F: Write + OpenFile + Drop>(file: F, book: &[u8]) -> io::Result<()> {
    let mut file = file;
    let all = file.write_all(book);
    let synced = file.sync_all();
    all.and(synced)
}

fn open_folder<R: Files>(rt: &R, path: &[u8]) -> io::Result<R::File> {
    match folder_length(path) {
        0 => open(rt, b"."),
        k => open(rt, &path[..k]),
    }
}

// A name outlasts a power cut only once its folder has reached the disk.
fn sync_name<R: Files>(rt: &R, path: &[u8]) -> io::Result<()> {
    open_folder(rt, path)?.sync_all()
}

fn write_and_name<R: Files + Print>(
    rt: &R,
    file: R::File,
    name: &[u8],
    path: &[u8],
    book: &[u8],
) -> Result<(), Failed> {
    write_whole(file, book).map_err(|_| say_fault(rt, name, Fault::NotWritten))?;
    rename(rt, name, path).map_err(|_| say_fault(rt, path, Fault::NotNamed))
}

// The new book takes the old one's name in one step; where it can't, the old book stays. No call but one whose number is 0 has a book to keep.
fn replace<R: Files + Print>(
    rt: &R,
    file: R::File,
    name: &[u8],
    path: &[u8],
    book: &[u8],
    number: usize,
) -> Result<(), Failed>
    requires { number ≡ 0 }
{
    write_and_name(rt, file, name, path, book).inspect_err(|_| remove(rt, name))?;
    sync_name(rt, path).map_err(|_| say_fault(rt, path, Fault::NotKept))
}

// An acceptance is told once the new book has its name, a refusal once the old one is left.
fn settle<R: Files + Print>(
    rt: &R,
    file: R::File,
    name: &[u8],
    path: &[u8],
    told: Told,
    book: &[u8],
    line: &[u8],
) -> Result<(), Failed> {
    let number = told.number as usize;
    if number != 0 {
        abandon(rt, file, name);
    } else {
        replace(rt, file, name, path, book, number)?;
    }
    say(rt, part_of(line, 0, told.length));
    Ok(())
}

// The call runs on the book in its room, and what it says decides whether the book is kept.
fn run<R: Files + Print>(
    rt: &R,
    what: Change,
    file: R::File,
    name: &[u8],
    path: &[u8],
    book: &mut [u8],
    given: &[u8],
) -> Result<(), Failed> {
    let mut line = [0u8; 256];
    let told = desk_answers::changes::change(what, book, given, &mut line);
    settle(rt, file, name, path, told, book, &line)
}

fn room_of_new<R: Files + Print>(
    rt: &R,
    blocks: u32,
    path: &[u8],
    words: &[u8],
) -> Result<usize, Failed> {
    if replaces(words) {
        return Ok(book_length(blocks));
    }
    match open(rt, path).map_err(not_opened) {
        Ok(_) => Err(say_fault(rt, path, Fault::IsThere)),
        Err(Fault::Missing) => Ok(book_length(blocks)),
        Err(fault) => Err(say_fault(rt, path, fault)),
    }
}

// An opening does not look at what stood in the file before.
fn room_for<R: Files + Print>(
    rt: &R,
    what: &Change,
    path: &[u8],
    room: &mut [u8],
    given: &[u8],
) -> Result<usize, Failed> {
    match what {
        Change::Open(numbers) => room_of_new(rt, numbers.blocks, path, given),
        _ => load(rt, path, room, Fault::NoBook),
    }
}

fn change_in<R: Files + Print>(
    rt: &R,
    what: Change,
    file: R::File,
    name: &[u8],
    path: &[u8],
    room: &mut [u8],
    given: &[u8],
) -> Result<(), Failed> {
    match room_for(rt, &what, path, room, given) {
        Ok(length) => {
            let k = length.min(room.len());
            run(rt, what, file, name, path, &mut room[..k], given)
        }
        Err(Failed) => {
            abandon(rt, file, name);
            Err(Failed)
        }
    }
}

fn change_beside<R: Files + Print>(
    rt: &R,
    what: Change,
    name: &[u8],
    path: &[u8],
    given: &[u8],
) -> Result<(), Failed> {
    let file = begin(rt, name)?;
    let mut room = [0u8; 512512];
    change_in(rt, what, file, name, path, &mut room, given)
}

// The one way of every change: a file is made beside the book, the book loaded, the call run, the new book kept or not, and the answer told.
pub fn change<R: Files + Print>(rt: &R, what: Change, path: &[u8], given: &[u8]) {
    with_beside(path, |name| {
        let _ = change_beside(rt, what, name, path, given);
    });
}

// ---- a reading

// The longest answer is that of the settled positions: at most 1,000 parties, none with a line of more than 80 bytes.
fn answer_on(rt: &impl Print, question: Question, book: &[u8], words: &[u8]) {
    let mut line = [0u8; 81920];
    let k = desk_answers::questions::answer(question, book, words, &mut line);
    say(rt, part_of(&line, 0, k));
}

// The one way of every reading: the book loaded, the answer said.
pub fn ask<R: Files + Print>(rt: &R, question: Question, words: &[u8]) {
    with_file::<512512, _, _>(rt, word(words, 2), Fault::NoBook, |book| {
        answer_on(rt, question, book, words)
    });
}

// What is asked of no book.
pub fn ask_alone(rt: &impl Print, question: Question, words: &[u8]) {
    answer_on(rt, question, b"", words);
}
