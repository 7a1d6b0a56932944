// "Every sender's net is the sum of its quantities as in party less those as out party", where an external schedule counts by its areas: all hundred at
// once, so that a series' parties are compared once and not once for each position.
// Buffers have a fixed length here, since the desk has no heap.
#![tactic(auto, unfolding(paper::specs::Nets::comes_in, paper::specs::Nets::goes_out))]

ghost use Rattle.std.specs.Prelude.{◌≡◌, Bool, cond, ℕ, ◌+◌, ◌-◌, ◌%◌, ◌^◌, ◌<◌, ◌≤◌, length};
ghost use Rattle.std.specs.Fn.{FnReturnsAt};
ghost use Rattle.laws.specs.Lists.{same};
ghost use Rattle.laws.specs.Cut.{cut};
ghost use Rattle.paper.specs.Layout.{Block, sender, quantity, with_nets};
ghost use Rattle.paper.specs.Book.{is_external, own_series};
ghost use Rattle.paper.specs.Nets.{comes_in, goes_out, nets_of};
ghost use Rattle.paper.specs.PlainRun.{nets_true};
ghost use Rattle.layout.specs.Written.{entries};
ghost use Rattle.nets.specs.Sums.{Raised, bought_share, sold_share, share, share_if, shares};

use block::check::seal;
use field::same;
use layout::write::write_entries;
use layout::{in_area, in_party, nets, out_area, out_party, quantity, sender};
use slots::{is_external, is_sender, is_series_of, slot_of};

// The sums, each changed by the quantity at its position, which is read by its number too. A net is kept by its remainder by 2 to the 32, so sums may wrap round.
// Laid into the loop over blocks, as the three functions below are: there it is known how long sums and block are, and several positions go in one step.
#[inline(always)]
fn change_sums<F: Fn(u32, u32) -> u32>(sums: &mut [u32], x: &[u8], change: F)
    requires hundred { length sums.old ≡ 100 }
    requires callable { F.IsAlwaysCallable change }
    ensures { (g : ℕ → ℕ) → ((a q r : ℕ) → a < 2 ^ 32 → q < 2 ^ 32 → r < 2 ^ 32 → F.post change a q r → r ≡ (a + g q) % 2 ^ 32) → Raised 100 (λ k. g (quantity x.now k)) sums.old sums.new }
{
    for k in 0..100 {
        sums[k] = change(sums[k], quantity(x, k));
    }
}

// An external schedule counts by the border that it crosses, a trade by the sender's side of it: `area` and `party` are those of x on one side.
fn counts(ours: &[u8], e: &[u8], x: &[u8], area: &[u8], party: &[u8]) -> bool
    ensures { result ≡ cond (is_external x.now) (same area.now ours.now) (same party.now e.now) }
{
    if is_external(x) {
        same(area, ours)
    } else {
        same(party, e)
    }
}

fn comes_in(ours: &[u8], e: &[u8], x: &[u8]) -> bool
    ensures { result ≡ comes_in ours.now e.now x.now }
{
    counts(ours, e, x, in_area(x), in_party(x))
}

fn goes_out(ours: &[u8], e: &[u8], x: &[u8]) -> bool
    ensures { result ≡ goes_out ours.now e.now x.now }
{
    counts(ours, e, x, out_area(x), out_party(x))
}

// What a series counts as is asked here, before the positions are gone through.
#[inline(always)]
fn add_bought(sums: &mut [u32], ours: &[u8], e: &[u8], x: &[u8])
    requires { length sums.old ≡ 100 }
    ensures { Raised 100 (bought_share ours.now e.now x.now) sums.old sums.new }
{
    if comes_in(ours, e, x) {
        change_sums(sums, x, |sum, quantity| sum.wrapping_add(quantity));
    }
}

// The other side: what is sold, or leaves the area, lowers the net.
#[inline(always)]
fn subtract_sold(sums: &mut [u32], ours: &[u8], e: &[u8], x: &[u8])
    requires { length sums.old ≡ 100 }
    ensures { Raised 100 (sold_share ours.now e.now x.now) sums.old sums.new }
{
    if goes_out(ours, e, x) {
        change_sums(sums, x, |sum, quantity| sum.wrapping_sub(quantity));
    }
}

// No series of an accepted message counts on both sides; one that did would add as much as it takes away.
#[inline(always)]
fn add_series(sums: &mut [u32], ours: &[u8], e: &[u8], x: &[u8])
    requires { length sums.old ≡ 100 }
    ensures { Raised 100 (share ours.now e.now x.now) sums.old sums.new }
{
    add_bought(sums, ours, e, x);
    subtract_sold(sums, ours, e, x);
}

// Of some blocks the series that count. Most used slots are other senders': of those no quantity is read.
fn add_those<F: Fn(&[u8]) -> bool>(
    sums: &mut [u32],
    ours: &[u8],
    e: &[u8],
    blocks: &[u8],
    counts: F,
)
    requires hundred { length sums.old ≡ 100 }
    requires callable { F.IsAlwaysCallable counts }
    ensures { (p : Block → Bool) → ((x : Block) (r : Bool) → FnReturnsAt F.Fn counts x r → r ≡ p x) → Raised 100 (shares (share_if p ours.now e.now) (cut 512 blocks.now)) sums.old sums.new }
{
    for x in blocks.chunks_exact(512) {
        if counts(x) {
            add_series(sums, ours, e, x);
        }
    }
}

// The sums into a block as its nets, with the check put right.
pub fn put_nets(s: &mut [u8], sums: &[u32; 100])
    ensures { s.new ≡ with_nets (entries sums.now 100) s.old }
{
    write_entries(s, sums);
    seal(s);
}

// The nets of the sender e, from its message's series, into its block s; ours is the day block's area. Below 2 to the 19 series no sum is as great as
// the 2 to the 52 that the definition adds.
pub fn write_nets(s: &mut [u8], ours: &[u8], e: &[u8], series: &[u8])
    requires { length series.now ≤ 268435456 }
    ensures { s.new ≡ with_nets (nets_of ours.now e.now (cut 512 series.now)) s.old }
{
    let mut sums = [0u32; 100];
    add_those(&mut sums, ours, e, series, |_| true);
    put_nets(s, &sums);
}

// The nets of the sender whose block is s, from its series among the used slots.
pub fn own_nets(ours: &[u8], us: &[u8], s: &[u8]) -> [u32; 100]
    requires { length us.now ≤ 268435456 }
    ensures { entries result 100 ≡ nets_of ours.now (sender s.now) (own_series (cut 512 us.now) (sender s.now)) }
{
    let e = sender(s);
    let slot = slot_of(us, e);
    let mut sums = [0u32; 100];
    add_those(&mut sums, ours, e, us, |x| is_series_of(x, slot));
    sums
}

// A block that is no sender has no nets to be wrong.
pub fn nets_true(ours: &[u8], us: &[u8], s: &[u8]) -> bool
    requires { length us.now ≤ 268435456 }
    ensures { result ≡ nets_true ours.now (cut 512 us.now) s.now }
{
    if !is_sender(s) {
        return true;
    }
    let mut due = [0u8; 512];
    write_entries(&mut due, &own_nets(ours, us, s));
    same(nets(s), nets(&due))
}
