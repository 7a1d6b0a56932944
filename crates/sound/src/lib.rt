// A sound book: document 01's paragraph, clause by clause. The old layout is that of the books before C-16, whose byte 104 holds a state: everything
// else is asked of both alike, and once.
#![tactic(auto)]

ghost use Rattle.std.specs.Prelude.{◌≡◌, ◌/◌, ◌≤◌, length};
ghost use Rattle.laws.specs.Lists.{every};
ghost use Rattle.laws.specs.Cut.{cut};
ghost use Rattle.paper.specs.Layout.{n_of};
ghost use Rattle.paper.specs.Sound.{sound_over, sound};
ghost use Rattle.paper.specs.Conversion.{old_sound};
ghost use Rattle.sound_blocks.specs.Layouts.{allowed_in};
ghost use Rattle.sound.specs.Used.{used_fields, linked_sound, each_used, filled_sound};
ghost use Rattle.sound.specs.Links.{Grouped};

mod apart;
mod counts;
mod links;

use apart::blocks_apart;
use block::check::checks_right;
use counts::counts_right;
use field::{all_zero, part_of};
use layout::{differing, n_of};
use links::{link_groups, tags_of};
use slots::{is_right, is_sender, is_series, used_count};
use sound_blocks::day::day_sound;
use sound_blocks::ranges::{differing_allowed, whole_blocks};
use sound_blocks::right::right_sound;
use sound_blocks::sender::{sender_day, sender_fields};
use sound_blocks::series::series_sound;

fn used_fields(old: bool, d: &[u8], us: &[u8], b: &[u8]) -> bool
    requires { n_of d.now ≤ 100 }
    ensures { result ≡ used_fields (allowed_in old) d.now (cut 512 us.now) b.now }
{
    if is_sender(b) {
        return sender_fields(d, b) & sender_day(d, b);
    }
    if is_right(b) {
        return right_sound(d, b);
    }
    is_series(b) & series_sound(d, us, b) & differing_allowed(old, n_of(d), differing(b))
}

fn all_fields(old: bool, d: &[u8], us: &[u8]) -> bool
    requires { n_of d.now ≤ 100 }
    ensures { result ≡ every (used_fields (allowed_in old) d.now (cut 512 us.now)) (cut 512 us.now) }
{
    us.chunks_exact(512).all(|b| used_fields(old, d, us, b))
}

// What the used slots are to each other. The counts come last: where no two senders share an EIC, a sender's slot is known without a search.
fn linked_sound(us: &[u8]) -> bool
    requires { (length us.now / 512 ≤ 1000) × Grouped (cut 512 us.now) }
    ensures { result ≡ linked_sound (cut 512 us.now) }
{
    let buckets = link_groups(us);
    let tags = tags_of(us);
    blocks_apart(us, &buckets, &tags) && counts_right(us, &buckets)
}

fn each_used(old: bool, d: &[u8], us: &[u8]) -> bool
    requires { (n_of d.now ≤ 100) × (length us.now / 512 ≤ 1000) }
    ensures { result ≡ each_used (allowed_in old) d.now (cut 512 us.now) }
{
    all_fields(old, d, us) && linked_sound(us)
}

// The day block and the used slots behind it.
fn filled_sound(old: bool, filled: &[u8]) -> bool
    requires { (512 ≤ length filled.now) × (length filled.now / 512 ≤ 1001) }
    ensures { result ≡ filled_sound (allowed_in old) filled.now }
{
    if !checks_right(filled) {
        return false;
    }
    let d = part_of(filled, 0, 512);
    if !day_sound(d) {
        return false;
    }
    each_used(old, d, &filled[512..])
}

// "Used slots first, free ones after": behind the used slots all bytes are 0, and the check of a free slot is right.
fn sound_over(old: bool, book: &[u8]) -> bool
    ensures { result ≡ sound_over (allowed_in old) book.now }
{
    if !whole_blocks(2, 1001, book) {
        return false;
    }
    let end = 512 + 512 * used_count(&book[512..]);
    if !all_zero(&book[end..]) {
        return false;
    }
    filled_sound(old, &book[..end])
}

pub fn sound(book: &[u8]) -> bool
    ensures { result ≡ sound book.now }
{
    sound_over(false, book)
}

pub fn old_sound(book: &[u8]) -> bool
    ensures { result ≡ old_sound book.now }
{
    sound_over(true, book)
}
