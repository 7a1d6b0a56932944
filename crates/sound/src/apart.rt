// "Sender EICs distinct", within a sender no series id twice and no key twice, and no right twice.
ghost use Rattle.std.specs.Prelude.{◌≡◌, [], ◌+◌, ◌/◌, ◌<◌, ◌≤◌, length, drop, get_or};
ghost use Rattle.laws.specs.Tests.{neg};
ghost use Rattle.laws.specs.Lists.{every, apart};
ghost use Rattle.laws.specs.Cut.{cut};
ghost use Rattle.paper.specs.Sound.{same_sender, same_series};
ghost use Rattle.index.specs.Linked.{Nexts};
ghost use Rattle.sound.specs.Used.{clashes};
ghost use Rattle.sound.specs.Links.{id_tag, key_tag, in_group, Tagged};

use super::links::Tag;
use field::same;
use index::buckets::Buckets;
use layout::{id_of, sender, senders_slot};
use slots::{block_at, is_sender, is_series, same_key, same_right};

fn same_sender(a: &[u8], b: &[u8]) -> bool
    ensures { result ≡ same_sender a.now b.now }
{
    is_sender(a) & is_sender(b) & same(sender(a), sender(b))
}

fn same_series(a: &[u8], b: &[u8]) -> bool
    ensures { result ≡ same_series a.now b.now }
{
    is_series(a)
        & is_series(b)
        & (senders_slot(a) == senders_slot(b))
        & (same(id_of(a), id_of(b)) | same_key(a, b))
}

fn clashes(a: &[u8], b: &[u8]) -> bool
    ensures { result ≡ clashes a.now b.now }
{
    same_sender(a, b) | same_series(a, b) | same_right(a, b)
}

// Block j clashes with block i, whose tag is handed in: only one that is alike by its tag could. Tags tell nearly all blocks apart, so that a walk over all pairs
// of a group does little but compare them.
fn clashes_at(us: &[u8], tags: &[Tag; 1000], tag: Tag, i: usize, j: usize) -> bool
    requires { Tagged (cut 512 us.now) (length us.now / 512) tags.now × (tag.id ≡ id_tag (get_or (cut 512 us.now) i [])) × (tag.key ≡ key_tag (get_or (cut 512 us.now) i [])) × (j < 1000) }
    ensures { j < length us.now / 512 → result ≡ clashes (get_or (cut 512 us.now) i []) (get_or (cut 512 us.now) j []) }
{
    tag.alike(tags[j]) && clashes(block_at(us, i), block_at(us, j))
}

// Block i clashes with none behind it: only those of its own group could.
fn clear_of_later(us: &[u8], buckets: &Buckets, tags: &[Tag; 1000], i: usize) -> bool
    requires { Nexts in_group (cut 512 us.now) 0 buckets.now.nexts × Tagged (cut 512 us.now) (length us.now / 512) tags.now × (length us.now / 512 ≤ 1000) × (i < length us.now / 512) }
    ensures { result ≡ every (λ y. neg (clashes (get_or (cut 512 us.now) i []) y)) (drop (i + 1) (cut 512 us.now)) }
{
    let tag = tags[i];
    let next = buckets.next(i + 1);
    buckets.find_from(next, |j| clashes_at(us, tags, tag, i, j)) == 0
}

pub fn blocks_apart(us: &[u8], buckets: &Buckets, tags: &[Tag; 1000]) -> bool
    requires { Nexts in_group (cut 512 us.now) 0 buckets.now.nexts × Tagged (cut 512 us.now) (length us.now / 512) tags.now × (length us.now / 512 ≤ 1000) }
    ensures { result ≡ apart clashes (cut 512 us.now) }
{
    let mut ok = true;
    for i in 0..us.len() / 512 {
        ok = ok & clear_of_later(us, buckets, tags, i);
    }
    ok
}
