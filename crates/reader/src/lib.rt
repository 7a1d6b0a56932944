// "Series of a message are walked by a reader laid over the message buffer." `new` and `next` are that form. What they do stands in `readable` and
// `series_at`, on the message and the number, and by these every caller walks: replay, and `series_numbered` for one series alone.
#![tactic(auto)]

ghost use Rattle.std.specs.Prelude.{◌≡◌};
ghost use Rattle.paper.specs.Message.{series_numbered};
ghost use Rattle.reader.specs.Walk.{readable, series_at, following};

use field::part_of;
use message::{rule_2, series_of};
use paper::Slot;
use slots::numbered;

// The message that is read, and the number of the series that is next.
#[derive(Clone, Copy)]
pub struct Reader<'a> {
    pub message: &'a [u8],
    pub next: usize,
}

// What a reader reads: the message, or nothing where it breaks rule 2. Rule 2 is judged here, once for a walk.
pub fn readable(message: &[u8]) -> &[u8]
    ensures { result.now ≡ readable message.now }
{
    if rule_2(message) {
        return part_of(message, 0, 0);
    }
    message
}

// A series by its number; empty past the last one.
pub fn series_at(message: &[u8], number: usize) -> &[u8]
    ensures { result.now ≡ series_at message.now number }
{
    numbered(series_of(message), Slot(number))
}

// No message has more than 200 series: past them a reader stays where it is.
fn following(number: usize) -> usize
    ensures { result ≡ following number }
{
    if number < 201 {
        return number + 1;
    }
    number
}

impl<'a> Reader<'a> {
    // A reader that stands before the series with that number.
    pub fn at(message: &'a [u8], number: usize) -> Reader<'a>
        ensures { (result.message.now ≡ readable message.now) × (result.next ≡ number) }
    {
        Reader {
            message: readable(message),
            next: number,
        }
    }

    pub fn new(message: &'a [u8]) -> Reader<'a>
        ensures { (result.message.now ≡ readable message.now) × (result.next ≡ 1) }
    {
        Reader::at(message, 1)
    }

    // The series that is next, and the reader stays before it.
    fn current(&self) -> &'a [u8]
        ensures { result.now ≡ series_at self.now.message.now self.now.next }
    {
        series_at(self.message, self.next)
    }

    // The series that is next, and the reader moves on.
    pub fn next(&mut self) -> &'a [u8]
        ensures { (result.now ≡ series_at self.old.message.now self.old.next) × (self.new.message ≡ self.old.message) × (self.new.next ≡ following self.old.next) }
    {
        let series = self.current();
        self.next = following(self.next);
        series
    }
}

// A series of a message by its number, by way of a reader.
pub fn series_numbered(message: &[u8], number: usize) -> &[u8]
    ensures { result.now ≡ series_numbered message.now number }
{
    Reader::at(message, number).current()
}
