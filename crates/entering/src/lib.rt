// C-14, entering a right: it "takes the lowest free slot and is entered once, never altered". A block that is refused leaves the book as it was.
#![tactic(auto)]

ghost use Rattle.std.specs.Prelude.{◌≡◌, ◌+◌, ◌*◌, ◌≤◌, IfOk, length};
ghost use Rattle.laws.specs.Lists.{has};
ghost use Rattle.laws.specs.Cut.{cut};
ghost use Rattle.paper.specs.Layout.{n_of};
ghost use Rattle.paper.specs.Book.{used};
ghost use Rattle.paper.specs.Sound.{same_right};
ghost use Rattle.paper.specs.Rights.{right_allowed, enter_number, entered};
ghost use Rattle.entering.specs.Numbers.{refusal_number, answer_number};

use block::check::check_right;
use block::numbers::write_bytes;
use field::part_of;
use slots::{is_right, same_right, used_count, used_part};
use sound::sound;
use sound_blocks::right::right_sound;

// What soundness asks of a stored right, asked of a block that is to become one.
fn right_allowed(day: &[u8], block: &[u8]) -> bool
    requires { n_of day.now ≤ 100 }
    ensures { result ≡ right_allowed day.now block.now }
{
    if block.len() != 512 {
        return false;
    }
    check_right(block) & is_right(block) & right_sound(day, block)
}

// Rights may stand in any used slot.
fn is_stored(us: &[u8], block: &[u8]) -> bool
    ensures { result ≡ has (same_right block.now) (cut 512 us.now) }
{
    us.chunks_exact(512).any(|b| same_right(block, b))
}

// Where the lowest free slot begins; where there is none, the book's end.
fn first_free(book: &[u8]) -> usize
    requires { 512 ≤ length book.now }
    ensures { result ≡ 512 + 512 * length (used book.now) }
{
    512 + 512 * used_count(&book[512..])
}

// "Entering: 1, 40 malformed or equal to a stored right in all but limits, 17".
#[derive(Clone, Copy)]
enum Refusal {
    NotSound,
    Unfit,
    Full,
}

impl Refusal {
    // By which the desk and its C interface answer.
    fn number(self) -> u32
        ensures { result ≡ refusal_number self }
    {
        match self {
            Refusal::NotSound => 1,
            Refusal::Unfit => 40,
            Refusal::Full => 17,
        }
    }
}

// Where the block is to stand, or why it is not entered.
fn place_for(book: &[u8], block: &[u8]) -> Result<usize, Refusal>
    ensures number { answer_number result ≡ enter_number book.now block.now }
    ensures place { IfOk result (λ at. at ≡ 512 + 512 * length (used book.now)) }
{
    if !sound(book) {
        return Err(Refusal::NotSound);
    }
    if !right_allowed(part_of(book, 0, 512), block) | is_stored(used_part(book), block) {
        return Err(Refusal::Unfit);
    }
    let at = first_free(book);
    if at == book.len() {
        return Err(Refusal::Full);
    }
    Ok(at)
}

// On 0 the block stands in the book as it was given, its check too.
pub fn enter_right(book: &mut [u8], block: &[u8]) -> u32
    ensures { (result ≡ enter_number book.old block.now) × (book.new ≡ entered book.old block.now) }
{
    match place_for(book, block) {
        Ok(at) => {
            write_bytes(book, at, block);
            0
        }
        Err(refusal) => refusal.number(),
    }
}
