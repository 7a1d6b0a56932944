// What the desk answers on a book of the check on site: area 10YAT-APG------L, receiver 14XAT-APCS-----Q, day 20190131, n 96.
// Buffers have a fixed length here, since the desk has no heap.
ghost use Rattle.std.specs.Prelude.{◌≡◌, ◌++◌};
ghost use Rattle.laws.specs.Lists.{same};
ghost use Rattle.paper.specs.Layout.{version};
ghost use Rattle.paper.specs.Opening.{open_number, opened};
ghost use Rattle.paper.specs.Clock.{clock_answer, clock_moved};
ghost use Rattle.paper.specs.Finals.{final};
ghost use Rattle.paper.specs.Readings.{accepted_block};
ghost use Rattle.paper.specs.Rules.{verdict};
ghost use Rattle.paper.specs.Acceptance.{submitted};
ghost use Rattle.paper.specs.Rights.{enter_number, entered};
ghost use Rattle.desk_text.specs.Put.{Put};
ghost use Rattle.cases.specs.Examples.{seller, buyer, id};
ghost use Rattle.cases_site.specs.Site.{opening, minute_in, message_of, right_of, sellers_lines, sellers_text, shown};
ghost use Rattle.cases_site.specs.Tables.{page};
ghost use Rattle.site_leaves.specs.Leaves.{number_in};

use desk_text::arguments::word_value;
use desk_text::numbers::{minute_read, number_read};
use desk_text::put::put;
use field::part_of;
use paper::{Minute, Position};
use site_leaves::line;

pub fn opened(book: &mut [u8], lead: &[u8]) -> u32
    ensures { (result ≡ open_number book.old (opening lead.now)) × (book.new ≡ opened book.old (opening lead.now)) }
{
    opening::open(
        book,
        96,
        word_value(number_read(lead).unwrap_or(0)),
        b"20190131",
        b"10YAT-APG------L",
        b"14XAT-APCS-----Q",
    )
    .number
}

pub fn clock(book: &mut [u8], minute: &[u8]) -> u32
    ensures { (result ≡ (clock_answer book.old (minute_in minute.now)).number) × (book.new ≡ clock_moved book.old (minute_in minute.now)) }
{
    clock::clock(book, minute_read(minute).unwrap_or(Minute(10080))).number
}

// 25 where the position is open, 26 where it is closed, as long as the book has no series.
pub fn final_number(book: &[u8], position: &[u8]) -> u32
    ensures { result ≡ (final book.now seller buyer (number_in position.now)).number }
{
    readings::final_value(
        book,
        b"14XBILANZGR-1--F",
        b"14XBG-EMPFANG--0",
        Position(number_read(position).unwrap_or(0) as usize),
    )
    .number
}

// A message comes from its text, as the program makes one.
pub fn submitted(book: &mut [u8], text: &[u8]) -> u32
    ensures { (result ≡ (verdict book.old (message_of text.now)).number) × (book.new ≡ submitted book.old (message_of text.now)) }
{
    let mut room = [0u8; 1536];
    let k = message_text::message_from_text(text, &mut room).length;
    let answer = submit::submit(book, part_of(&room, 0, k));
    let verdict = answer.verdict;
    verdict.number
}

// A right comes from its text too.
pub fn entered(book: &mut [u8], text: &[u8]) -> u32
    ensures { (result ≡ enter_number book.old (right_of text.now)) × (book.new ≡ entered book.old (right_of text.now)) }
{
    let mut room = [0u8; 512];
    let k = message_text::right_from_text(text, &mut room).length;
    entering::enter_right(book, part_of(&room, 0, k))
}

fn sellers_text(text: &mut [u8], head: &[u8], more: &[u8]) -> usize
    ensures { Put 0 ((head.now ++ sellers_lines) ++ more.now) result text.old text.new }
{
    let a = put(text, 0, head);
    let b = put(
        text,
        a,
        b"\nsender 14XBILANZGR-1--F\nreceiver 14XAT-APCS-----Q\nday 20190131\nn 96\nseries TS0001\nversion 1\narea 10YAT-APG------L\nin 14XBG-EMPFANG--0\nout 14XBILANZGR-1--F\n1-96 45\n",
    );
    put(text, b, more)
}

// The seller's message under a head: its first series at 45,000 kW throughout and of version 1, then what else there is.
pub fn sold(book: &mut [u8], head: &[u8], more: &[u8]) -> u32
    ensures { (result ≡ (verdict book.old (message_of (sellers_text head.now more.now))).number) × (book.new ≡ submitted book.old (message_of (sellers_text head.now more.now))) }
{
    let mut text = [0u8; 512];
    let k = sellers_text(&mut text, head, more);
    submitted(book, part_of(&text, 0, k))
}

pub fn kept_version(book: &[u8]) -> u32
    ensures { result ≡ version (accepted_block book.now seller (id "TS0001")) }
{
    let block = readings::accepted_block(book, b"14XBILANZGR-1--F", b"TS0001\0\0\0\0\0\0\0\0\0\0");
    layout::version(block) as u32
}

pub fn listed(rt: &impl Print, book: &[u8]) -> bool
    ensures { result ≡ same page (shown book.now) }
{
    let mut room = [0u8; 5591];
    let n = listing_text::listing(book, &mut room);
    line::page(
        rt,
        b"the listing's example, byte for byte",
        b"slot sender series in out differ first partner\n2 14XBILANZGR-1--F TS0001 14XBG-EMPFANG--0 14XBILANZGR-1--F 1 2 4\n4 14XBG-EMPFANG--0 FPL01 14XBG-EMPFANG--0 14XBILANZGR-1--F 1 2 2\n",
        part_of(&room, 0, n),
    )
}
