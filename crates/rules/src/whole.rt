// Rules 16 and 17: the message's series, all of them, beside the sender's stored ones and the free slots. What is stored where was found before:
// `numbers` has for each used slot the number of the message's series with its key, `places` for each series of the message its slot; 0 where there is none.
// Rows have a fixed length here, since the desk has no heap; 0 stands for no place, as in the book's own fields.
ghost use Rattle.std.specs.Prelude.{◌≡◌, ◌/◌, ◌≤◌, length, take};
ghost use Rattle.laws.specs.Tests.{is};
ghost use Rattle.laws.specs.Lists.{count};
ghost use Rattle.laws.specs.Cut.{cut};
ghost use Rattle.rules.specs.ByPlaces.{rule16_by, rule17_by};

use paper::Slot;
use slots::{is_sender, is_series_of};

// A message carries all series of its sender: none that is stored may be left out. A series that the message leaves out is no withdrawal.
pub fn rule_16(us: &[u8], slot: Slot, numbers: &[u16; 1000]) -> bool
    requires { length us.now / 512 ≤ 1000 }
    ensures { result ≡ rule16_by slot.0 (cut 512 us.now) numbers.now }
{
    us.chunks_exact(512)
        .zip(numbers.iter())
        .any(|(x, number)| is_series_of(x, slot) & (*number == 0))
}

// Those that will need a slot.
fn new_series(places: &[u16; 1000], series: usize) -> usize
    requires { (series ≤ 1000) × (length places.now ≡ 1000) }
    ensures { (result ≡ count (λ place. is place 0) (take series places.now)) × (result ≤ 1000) }
{
    places[..series].iter().filter(|place| **place == 0).count()
}

// A new sender needs a slot too. `series` is how many the message has.
pub fn rule_17(known: &[u8], free: usize, places: &[u16; 1000], series: usize) -> bool
    requires { (series ≤ 1000) × (length places.now ≡ 1000) }
    ensures { result ≡ rule17_by known.now free (take series places.now) }
{
    free < usize::from(!is_sender(known)) + new_series(places, series)
}
