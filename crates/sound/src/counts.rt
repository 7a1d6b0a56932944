// "Each sender's count equals its series".
ghost use Rattle.std.specs.Prelude.{◌≡◌, true, [], ◌/◌, ◌<◌, ◌≤◌, length, get_or};
ghost use Rattle.laws.specs.Lists.{every, apart};
ghost use Rattle.laws.specs.Cut.{cut};
ghost use Rattle.index.specs.Linked.{Links};
ghost use Rattle.sound.specs.Used.{clashes, count_right};
ghost use Rattle.sound.specs.Links.{in_group};

use index::buckets::Buckets;
use layout::series_count;
use slots::{block_at, is_sender};
use sound_blocks::ranges::count_allowed;

// Of the block at i, whose slot is i + 1.
fn count_right(us: &[u8], buckets: &Buckets, i: usize) -> bool
    requires { (length us.now / 512 ≤ 1000) × Links in_group (cut 512 us.now) 0 buckets.now.heads buckets.now.nexts × (i < length us.now / 512) × (apart clashes (cut 512 us.now) ≡ true) }
    ensures { result ≡ count_right (cut 512 us.now) (get_or (cut 512 us.now) i []) }
{
    let b = block_at(us, i);
    if !is_sender(b) {
        return true;
    }
    count_allowed(series_count(b)) & (series_count(b) as usize == buckets.count(i + 1))
}

pub fn counts_right(us: &[u8], buckets: &Buckets) -> bool
    requires { (length us.now / 512 ≤ 1000) × Links in_group (cut 512 us.now) 0 buckets.now.heads buckets.now.nexts × (apart clashes (cut 512 us.now) ≡ true) }
    ensures { result ≡ every (count_right (cut 512 us.now)) (cut 512 us.now) }
{
    let mut ok = true;
    for i in 0..us.len() / 512 {
        ok = ok & count_right(us, buckets, i);
    }
    ok
}
