// Each command's answer: the call, and the line that tells it. What is left to the program is the moving of bytes.
#![tactic(auto)]

pub mod changes;
pub mod questions;
pub mod words;

use paper::Minute;

// The number of an answer, and how long its line is.
#[derive(Clone, Copy)]
pub struct Told {
    pub number: u32,
    pub length: usize,
}

// The numbers of an opening, as they were given.
#[derive(Clone, Copy)]
pub struct Numbers {
    pub blocks: u32,
    pub n: u32,
    pub lead: u32,
}

// What changes a book: an opening, whose day, area, receiver and rule are words of the command; a minute; a message; the conversion of a book of the old layout; a right.
#[derive(Clone, Copy)]
pub enum Change {
    Open(Numbers),
    Clock(Minute),
    Submit,
    Convert,
    Enter,
}

// What is asked: of a book, the mark or the block of a series by its sender and id, a final value by seller, buyer and position, the settled
// positions at a position, or all of it; of no book, a code or a quantity.
#[derive(Clone, Copy)]
pub enum Question {
    Mark,
    Block,
    Final(usize),
    Settle(usize),
    Plain,
    List,
    Eic,
    Kw,
}
