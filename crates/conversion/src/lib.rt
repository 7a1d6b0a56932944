// C-16: "One call converts old books, writing all marks and nets by the plain rule; 1 if the old layout isn't sound."
#![tactic(auto)]

ghost use Rattle.std.specs.Prelude.{◌≡◌, [], ◌+◌, ◌*◌, ◌/◌, ◌≤◌, length, get_or, set};
ghost use Rattle.laws.specs.Cut.{cut};
ghost use Rattle.paper.specs.Layout.{area};
ghost use Rattle.paper.specs.Conversion.{conversion_number, converted_block, used_converted, converted};
ghost use Rattle.index.specs.Linked.{series_in, Links};

use index::buckets::Buckets;
use index::link_series;
use layout::n_of;
use layout::write::write_mark;
use marks::mark_in;
use nets::{own_nets, put_nets};
use slots::{area_of, block_at, is_sender, is_series, used_count};
use sound::old_sound;

// A sender's nets or a series' mark, as the plain run would work them out; `ours` is the day block's area. A right has neither.
fn convert_block(us: &mut [u8], i: usize, n: usize, ours: &[u8], buckets: &Buckets)
    requires { (512 * i + 512 ≤ length us.old) × (n ≤ 100) × (length us.old / 512 ≤ 1000) × Links series_in (cut 512 us.old) 0 buckets.now.heads buckets.now.nexts }
    ensures { cut 512 us.new ≡ set (cut 512 us.old) i (converted_block n ours.now (cut 512 us.old) (get_or (cut 512 us.old) i [])) }
{
    let start = 512 * i;
    if is_sender(block_at(us, i)) {
        let sums = own_nets(ours, us, block_at(us, i));
        put_nets(&mut us[start..start + 512], &sums);
        return;
    }
    if is_series(block_at(us, i)) {
        let m = mark_in(n, us, block_at(us, i), buckets);
        write_mark(&mut us[start..start + 512], &m);
    }
}

// The series are linked once, for all searches of counterparts. Marks and nets are worked out from kinds, senders, sender's slots, pairs and the series'
// quantities, which none of them changes: so it does not matter which is written first, and the links stay true.
fn convert_used(us: &mut [u8], n: usize, ours: &[u8])
    requires { (n ≤ 100) × (length us.old / 512 ≤ 1000) }
    ensures { cut 512 us.new ≡ used_converted n ours.now (cut 512 us.old) }
{
    let buckets = link_series(us);
    for i in 0..us.len() / 512 {
        convert_block(us, i, n, ours, &buckets);
    }
}

// Nothing is written before the old layout is found sound; the day block and the free slots are not written at all.
pub fn convert(book: &mut [u8]) -> u32
    ensures { (result ≡ conversion_number book.old) × (book.new ≡ converted book.old) }
{
    if !old_sound(book) {
        return 1;
    }
    let n = n_of(book) as usize;
    let ours = area_of(book);
    let end = 512 + 512 * used_count(&book[512..]);
    convert_used(&mut book[512..end], n, &ours);
    0
}
