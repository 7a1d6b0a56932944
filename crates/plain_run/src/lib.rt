// "The plain run works marks and nets out afresh for any sound book and says yes exactly when all kept ones are true." Each series' counterpart is
// sought among the few series of its pair's bucket, each sender's series among all used slots: of these only the kind and the sender's slot are looked
// at where they are another's.
#![tactic(auto)]

ghost use Rattle.std.specs.Prelude.{◌≡◌, ◌/◌, ◌≤◌, length};
ghost use Rattle.laws.specs.Lists.{every};
ghost use Rattle.laws.specs.Cut.{cut};
ghost use Rattle.paper.specs.PlainRun.{mark_true, nets_true, plain_run};

use field::part_of;
use index::link_series;
use layout::{area, n_of};
use marks::mark_true;
use nets::nets_true;
use paper::PlainRunAnswer;
use slots::used_part;
use sound::sound;

// The series are linked once, for all searches.
fn marks_true(n: usize, us: &[u8]) -> bool
    requires { (n ≤ 100) × (length us.now / 512 ≤ 1000) }
    ensures { result ≡ every (mark_true n (cut 512 us.now)) (cut 512 us.now) }
{
    let buckets = link_series(us);
    us.chunks_exact(512).all(|x| mark_true(n, us, x, &buckets))
}

// `ours` is the day block's area.
fn every_net_true(ours: &[u8], us: &[u8]) -> bool
    requires { length us.now ≤ 268435456 }
    ensures { result ≡ every (nets_true ours.now (cut 512 us.now)) (cut 512 us.now) }
{
    us.chunks_exact(512).all(|s| nets_true(ours, us, s))
}

// Soundness is asked once, first: what it says of the book's length and of n bounds the rest.
pub fn plain_run(book: &[u8]) -> PlainRunAnswer
    ensures { result ≡ plain_run book.now }
{
    if !sound(book) {
        return PlainRunAnswer {
            number: 1,
            holds: false,
        };
    }
    let day = part_of(book, 0, 512);
    let n = n_of(day) as usize;
    let us = used_part(book);
    PlainRunAnswer {
        number: 0,
        holds: marks_true(n, us) & every_net_true(area(day), us),
    }
}
