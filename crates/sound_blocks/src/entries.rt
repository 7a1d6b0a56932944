// The quantities of a series block and the nets of a sender block: a hundred entries of four bytes.
#![tactic(auto, using(layout::proofs::Tests::tests), unfolding(paper::specs::Ranges::quantities_allowed, paper::specs::Ranges::nets_allowed, paper::specs::Layout::net))]

ghost use Rattle.std.specs.Prelude.{◌≡◌, Bool, ℕ, ◌<◌, ◌≤◌, ◌^◌, length};
ghost use Rattle.laws.specs.Tests.{below};
ghost use Rattle.paper.specs.Layout.{quantity};
ghost use Rattle.paper.specs.Ranges.{quantities_allowed, nets_allowed};

use super::ranges::{net_allowed, quantity_allowed};
use field::all_zero;
use layout::{above_n, quantity, whole_quantity};

// Asks of every entry, whatever it finds, so that several go in one step of the machine.
fn all_pass<F: Fn(usize) -> bool>(n: usize, passes: F) -> bool
    requires { (k : ℕ) → k < n → F.pre passes k }
    ensures { (p : ℕ → Bool) → ((k : ℕ) (r : Bool) → k < n → F.post passes k r → r ≡ p k) → result ≡ below p n }
{
    let mut ok = true;
    for k in 0..n {
        ok = ok & passes(k);
    }
    ok
}

// The n entries. A block may end before its last one, and what is missing counts as 0; of a block with all its entries none asks for the block's length.
fn entries_allowed<F: Fn(u32) -> bool>(n: usize, b: &[u8], allowed: F) -> bool
    requires upto { n ≤ 100 }
    requires callable { F.IsAlwaysCallable allowed }
    ensures { (p : ℕ → Bool) → ((q : ℕ) (r : Bool) → q < 2 ^ 32 → F.post allowed q r → r ≡ p q) → result ≡ below (λ k. p (quantity b.now k)) n }
{
    if b.len() < 508 {
        return all_pass(
            n,
            |k|
                requires { (k < 100) × F.IsAlwaysCallable allowed }
            { allowed(quantity(b, k)) },
        );
    }
    all_pass(
        n,
        |k|
            requires { (k < 100) × (508 ≤ length b.now) × F.IsAlwaysCallable allowed }
        { allowed(whole_quantity(b, k)) },
    )
}

pub fn quantities_allowed(n: usize, b: &[u8]) -> bool
    requires { n ≤ 100 }
    ensures { result ≡ quantities_allowed n b.now }
{
    entries_allowed(n, b, quantity_allowed) & all_zero(above_n(n, b))
}

pub fn nets_allowed(n: usize, b: &[u8]) -> bool
    requires { n ≤ 100 }
    ensures { result ≡ nets_allowed n b.now }
{
    entries_allowed(n, b, net_allowed) & all_zero(above_n(n, b))
}
