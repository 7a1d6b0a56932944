// Rule 2, and the parts of a message.
#![tactic(auto, using(layout::proofs::Tests::tests), unfolding(paper::specs::Message::head_right, paper::specs::Message::series_right, paper::specs::Message::rule2))]

ghost use Rattle.std.specs.Prelude.{◌≡◌};
ghost use Rattle.laws.specs.Lists.{every};
ghost use Rattle.laws.specs.Cut.{cut};
ghost use Rattle.paper.specs.Message.{head_of, series_of, head_right, series_right, message_right, rule2};

use block::check::checks_right;
use field::part_of;
use layout::{n_of, sender_zeros_in_message, series_count, series_zeros_in_message};
use slots::{is_sender, is_series};
use sound_blocks::ranges::whole_blocks;

// The sender's block; of a message that is too short, what there is.
pub fn head_of(message: &[u8]) -> &[u8]
    ensures { result.now ≡ head_of message.now }
{
    part_of(message, 0, 512)
}

// The bytes behind the sender's block: their whole blocks are the series.
pub fn series_of(message: &[u8]) -> &[u8]
    ensures { cut 512 result.now ≡ series_of message.now }
{
    part_of(message, 512, message.len())
}

// "Kind 1; the count right": the count is of the series that follow.
fn head_right(h: &[u8], many: usize) -> bool
    ensures { result ≡ head_right h.now many }
{
    is_sender(h) & (series_count(h) as usize == many) & sender_zeros_in_message(h)
}

// Kind 2, and the first block's n.
fn series_right(h: &[u8], y: &[u8]) -> bool
    ensures { result ≡ series_right h.now y.now }
{
    is_series(y) & series_zeros_in_message(y) & (n_of(y) == n_of(h))
}

// Each series beside the same first block.
fn all_series_right(h: &[u8], series: &[u8]) -> bool
    ensures { result ≡ every (series_right h.now) (cut 512 series.now) }
{
    series.chunks_exact(512).all(|y| series_right(h, y))
}

// The length is looked at before the bytes: a slice of any size costs no more than the largest message.
fn message_right(message: &[u8]) -> bool
    ensures { result ≡ message_right message.now }
{
    if !whole_blocks(2, 201, message) {
        return false;
    }
    if !checks_right(message) {
        return false;
    }
    let h = head_of(message);
    let series = series_of(message);
    head_right(h, series.len() / 512) & all_series_right(h, series)
}

// A rule is the test that it is broken.
pub fn rule_2(message: &[u8]) -> bool
    ensures { result ≡ rule2 message.now }
{
    !message_right(message)
}
