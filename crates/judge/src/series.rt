// Rules 7 to 15, 18 and 19: one series passes all of them before the next begins.
// Rows have a fixed length here, since the desk has no heap; 0 stands for no place, as in the book's own fields.
ghost use Rattle.std.specs.Prelude.{◌≡◌, length};
ghost use Rattle.laws.specs.Cut.{cut};
ghost use Rattle.paper.specs.Message.{series_of};
ghost use Rattle.paper.specs.Rules.{broken_by, rule8, wrong_character, late_verdict};
ghost use Rattle.index.specs.declared.By.TheVariants.{Key};
ghost use Rattle.index.specs.Linked.{Found};
ghost use Rattle.judge.specs.Order.{Gives, form_by, values_by, series_by, each_series_of};
ghost use Rattle.judge.specs.Looked.{Taken, LookedIn};

use super::Book;
use super::order::{broken, verdict_of};
use super::positions::{closed_verdict, quantity_verdict};
use super::rights::{right_verdict, sums_with};
use index::rights::look_up_rights;
use index::{By, IN_MESSAGE, look_up, wide};
use layout::{n_of, sender};
use message::{head_of, series_of};
use paper::{Slot, Verdict};
use rules::form::{known_otherwise, rule_7, rule_8, rule_9, rule_10, wrong_character};
use rules::values::rule_15;
use slots::{block_at, numbered};

// Rule 8. Which character is wrong is worked out only where the rule is broken.
fn parties_verdict(h: &[u8], s: usize, y: &[u8]) -> Result<(), Verdict>
    ensures { Gives result (broken_by (rule8 h.now y.now) 8 s (wrong_character y.now)) }
{
    if rule_8(h, y) {
        return Err(verdict_of(8, s, 0, wrong_character(y)));
    }
    Ok(())
}

// Rules 7 to 10: s is the number of y, and `otherwise` says that another series has its id or its key.
fn form_verdict(d: &[u8], h: &[u8], otherwise: bool, s: usize, y: &[u8]) -> Result<(), Verdict>
    ensures { Gives result (form_by d.now h.now otherwise s y.now) }
{
    broken(rule_7(y, otherwise), 7, s, 0)?;
    parties_verdict(h, s, y)?;
    broken(rule_9(d, y), 9, s, 0)?;
    broken(rule_10(y), 10, s, 0)
}

// Rules 14 and 15: x is what is stored of the series.
fn late_verdict(d: &[u8], h: &[u8], x: &[u8], s: usize, y: &[u8]) -> Result<(), Verdict>
    ensures { Gives result (late_verdict d.now x.now h.now s y.now) }
{
    closed_verdict(d, x, s, y)?;
    broken(rule_15(x, h, y), 15, s, 0)
}

// What was found of one series of a message: its number there, whether another has its id or its key, the place of the stored one, and that of the right on
// which it is sent.
#[derive(Clone, Copy)]
pub struct Told {
    pub number: usize,
    pub otherwise: bool,
    pub place: u16,
    pub right: u16,
}

// 11 to 13 over all positions, then 18 and 19, then 14 over all, then 15. The sums are those on the series' right.
fn values_verdict(
    book: &Book,
    h: &[u8],
    told: Told,
    sums: &[u64; 100],
    y: &[u8],
) -> Result<(), Verdict>
    ensures { Gives result (values_by book.now.day.now h.now (cut 512 book.now.us.now) told sums.now y.now) }
{
    let n = n_of(book.day) as usize;
    let s = told.number;
    let x = numbered(book.us, Slot(wide(told.place)));
    quantity_verdict(n, s, y)?;
    right_verdict(n, book.us, told.right, sums, s, y)?;
    late_verdict(book.day, h, x, s, y)
}

fn series_verdict(
    book: &Book,
    h: &[u8],
    told: Told,
    sums: &[u64; 100],
    y: &[u8],
) -> Result<(), Verdict>
    ensures { Gives result (series_by book.now.day.now h.now (cut 512 book.now.us.now) told sums.now y.now) }
{
    form_verdict(book.day, h, told.otherwise, told.number, y)?;
    values_verdict(book, h, told, sums, y)
}

// What was found of each series of a message: the number of its first series with the same id, and with the same key; the place of the stored one, of the
// sender in a slot, with the same id; and that of the right on which it is sent.
#[derive(Clone, Copy)]
pub struct Searched {
    pub slot: usize,
    pub first_ids: [u16; 1000],
    pub first_keys: [u16; 1000],
    pub stored_ids: [u16; 1000],
    pub rights: [u16; 1000],
}

// In the order of the message, and no further than the first refusal. `places` has of each series the place of the stored one with its key.
fn each_series(
    book: &Book,
    message: &[u8],
    found: Searched,
    places: &[u16; 1000],
) -> Result<(), Verdict>
    requires { Taken (cut 512 book.now.us.now) (series_of message.now) × LookedIn (cut 512 book.now.us.now) message.now found places.now }
    ensures { Gives result (each_series_of book.now.day.now (cut 512 book.now.us.now) found.slot message.now) }
{
    let h = head_of(message);
    let series = series_of(message);
    let count = series.len() / 512;
    let mut sums = [0u64; 100];
    let mut on: u16 = 0;
    for i in 0..count {
        on = sums_with(series, &found.rights, i, on, &mut sums);
        let place = places[i];
        let otherwise = known_otherwise(
            i + 1,
            found.first_ids[i],
            found.first_keys[i],
            found.stored_ids[i],
            place,
        );
        let told = Told {
            number: i + 1,
            otherwise,
            place,
            right: found.rights[i],
        };
        series_verdict(book, h, told, &sums, block_at(series, i))?;
    }
    Ok(())
}

// The series with the same id or the same key, and the rights, are found here, once, before the rules are judged.
pub fn walk(
    book: &Book,
    slot: Slot,
    message: &[u8],
    places: &mut [u16; 1000],
) -> Result<(), Verdict>
    requires { Taken (cut 512 book.now.us.now) (series_of message.now) × (length places.old ≡ 1000) }
    ensures { Gives result (each_series_of book.now.day.now (cut 512 book.now.us.now) slot.0 message.now) × Found slot.0 Key (cut 512 book.now.us.now) (series_of message.now) places.new }
{
    let series = series_of(message);
    let mut first_ids = [0u16; 1000];
    let mut first_keys = [0u16; 1000];
    let mut stored_ids = [0u16; 1000];
    let mut rights = [0u16; 1000];
    look_up(series, IN_MESSAGE, By::Id, series, &mut first_ids);
    look_up(series, IN_MESSAGE, By::Key, series, &mut first_keys);
    look_up(book.us, slot, By::Id, series, &mut stored_ids);
    look_up(book.us, slot, By::Key, series, places);
    look_up_rights(book.us, sender(head_of(message)), series, &mut rights);
    let found = Searched {
        slot: slot.0,
        first_ids,
        first_keys,
        stored_ids,
        rights,
    };
    each_series(book, message, found, places)
}
