// The order of checks: the first broken rule, with its series and its position.
// Rows have a fixed length here, since the desk has no heap; 0 stands for no place, as in the book's own fields.
#![tactic(auto)]

ghost use Rattle.std.specs.Prelude.{◌≡◌, length, OnOk};
ghost use Rattle.laws.specs.Cut.{cut};
ghost use Rattle.paper.specs.Layout.{sender};
ghost use Rattle.paper.specs.Eic.{eic_number};
ghost use Rattle.paper.specs.Book.{slot_of};
ghost use Rattle.paper.specs.Message.{head_of, series_of};
ghost use Rattle.paper.specs.Rules.{broken_by, rule4, head_verdict, verdict};
ghost use Rattle.index.specs.declared.By.TheVariants.{Key};
ghost use Rattle.index.specs.Linked.{Found};
ghost use Rattle.judge.specs.Order.{Gives, last_verdict_of, judged_by};
ghost use Rattle.judge.specs.Looked.{Taken, JudgedBook};

pub mod order;
pub mod positions;
pub mod rights;
pub mod series;

use eic::eic_number;
use field::part_of;
use index::{By, IN_MESSAGE, look_up};
use layout::sender;
use message::{head_of, rule_2, series_of};
use order::{broken, fine, verdict_of};
use paper::{Slot, Verdict};
use rules::head::{rule_3, rule_4, rule_5, rule_6};
use rules::whole::{rule_16, rule_17};
use series::walk;
use slots::{numbered, slot_of, used_part};
use sound::sound;

// Rule 4. Which character is wrong is worked out only where one is.
fn sender_verdict(h: &[u8]) -> Result<(), Verdict>
    ensures { Gives result (broken_by (rule4 h.now) 4 0 (eic_number (sender h.now))) }
{
    if rule_4(h) {
        return Err(verdict_of(4, 0, 0, eic_number(sender(h))));
    }
    Ok(())
}

// Rules 3 to 6, of the message's first block.
fn head_verdict(d: &[u8], known: &[u8], h: &[u8]) -> Result<(), Verdict>
    ensures { Gives result (head_verdict d.now known.now h.now) }
{
    broken(rule_3(d, h), 3, 0, 0)?;
    sender_verdict(h)?;
    broken(rule_5(d, h), 5, 0, 0)?;
    broken(rule_6(known, h), 6, 0, 0)
}

// What is judged against of a sound book: its day block and its used slots.
#[derive(Clone, Copy)]
pub struct Book<'a> {
    pub day: &'a [u8],
    pub us: &'a [u8],
}

// How a book stands to a sender: the sender's slot, 0 where it has none, and how many slots are free.
#[derive(Clone, Copy)]
pub struct Standing {
    pub slot: Slot,
    pub free: usize,
}

// New blocks are counted only where no stored series is absent.
fn last_verdict(
    us: &[u8],
    series: &[u8],
    standing: Standing,
    places: &[u16; 1000],
    numbers: &[u16; 1000],
) -> Result<(), Verdict>
    requires { Taken (cut 512 us.now) (cut 512 series.now) × Found standing.slot.0 Key (cut 512 us.now) (cut 512 series.now) places.now × Found 0 Key (cut 512 series.now) (cut 512 us.now) numbers.now }
    ensures { Gives result (last_verdict_of (cut 512 us.now) standing.slot.0 standing.free (cut 512 series.now)) }
{
    let slot = standing.slot;
    broken(rule_16(us, slot, numbers), 16, 0, 0)?;
    let known = numbered(us, slot);
    let r17 = rule_17(known, standing.free, places, series.len() / 512);
    broken(r17, 17, 0, 0)
}

// "Past rule 1, a submission's answer depends only on" what is handed in here: of the used slots, the sender's own. Where each series of the message is
// stored, and which of them each used slot has, is handed on to the acceptance.
fn judge_from(
    book: &Book,
    standing: Standing,
    message: &[u8],
    places: &mut [u16; 1000],
    numbers: &mut [u16; 1000],
) -> Result<(), Verdict>
    requires { (standing.slot.0 ≡ slot_of (cut 512 book.now.us.now) (sender (head_of message.now))) × Taken (cut 512 book.now.us.now) (series_of message.now) × (length places.old ≡ 1000) × (length numbers.old ≡ 1000) }
    ensures { Gives result (judged_by book.now.day.now (cut 512 book.now.us.now) standing.free message.now) × OnOk result (Found standing.slot.0 Key (cut 512 book.now.us.now) (series_of message.now) places.new × Found 0 Key (series_of message.now) (cut 512 book.now.us.now) numbers.new) }
{
    let slot = standing.slot;
    head_verdict(book.day, numbered(book.us, slot), head_of(message))?;
    walk(book, slot, message, places)?;
    let series = series_of(message);
    look_up(series, IN_MESSAGE, By::Key, book.us, numbers);
    last_verdict(book.us, series, standing, places, numbers)
}

// What the acceptance goes on from: how many slots are used, and the sender's, 0 where it has none.
#[derive(Clone, Copy)]
pub struct Judged {
    pub used: usize,
    pub slot: Slot,
}

// Nothing of a book that is not sound is believed, and nothing of a message that breaks rule 2. In a sound book all slots behind the used ones are free.
pub fn judge_book(
    book: &[u8],
    message: &[u8],
    places: &mut [u16; 1000],
    numbers: &mut [u16; 1000],
) -> Result<Judged, Verdict>
    requires { (length places.old ≡ 1000) × (length numbers.old ≡ 1000) }
    ensures { JudgedBook result book.now message.now places.new numbers.new }
{
    broken(!sound(book), 1, 0, 0)?;
    broken(rule_2(message), 2, 0, 0)?;
    let us = used_part(book);
    let used = us.len() / 512;
    let slot = slot_of(us, sender(head_of(message)));
    let standing = Standing {
        slot,
        free: book.len() / 512 - 1 - used,
    };
    let day = part_of(book, 0, 512);
    judge_from(&Book { day, us }, standing, message, places, numbers)?;
    Ok(Judged { used, slot })
}

// The verdict alone: nothing is written.
pub fn verdict(book: &[u8], message: &[u8]) -> Verdict
    ensures { result ≡ verdict book.now message.now }
{
    let mut places = [0u16; 1000];
    let mut numbers = [0u16; 1000];
    match judge_book(book, message, &mut places, &mut numbers) {
        Ok(_) => fine(),
        Err(verdict) => verdict,
    }
}
