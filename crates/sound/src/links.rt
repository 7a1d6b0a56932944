// The used slots in groups: the series of each sender, the senders, and the rights. Each block is linked to the next of its group, so that what is asked
// of any two of a group, or of a group's number, is found without a look at any other block.
ghost use Rattle.std.specs.Prelude.{◌≡◌, ◌==◌, ◌||◌, ◌/◌, ◌≤◌, length};
ghost use Rattle.laws.specs.Cut.{cut};
ghost use Rattle.index.specs.Ahead.{Ahead};
ghost use Rattle.index.specs.Linked.{Links};
ghost use Rattle.sound.specs.Links.{wide_tag, key_tag, id_tag, Tagged, group, in_group, Grouped};

use index::buckets::{Buckets, link};
use index::tags::{key_tag_of, pair_tag_of, tag_of};
use layout::{areas, id_of, pair, parties_and_agreement, sender, senders_slot};
use slots::{block_at, is_right, is_sender, is_series, is_trade};

fn wide_tag(b: &[u8]) -> u32
    ensures { result ≡ wide_tag b.now }
{
    pair_tag_of(areas(b)).wrapping_add(key_tag_of(parties_and_agreement(b)))
}

// A trade's is made of fewer bytes: most series are trades.
fn key_tag(b: &[u8]) -> u32
    ensures { result ≡ key_tag b.now }
{
    if is_sender(b) {
        return tag_of(sender(b));
    }
    if is_trade(b) {
        return pair_tag_of(pair(b));
    }
    wide_tag(b)
}

// The tag of its key is handed in: only a series has an id beside it.
fn id_tag(b: &[u8], key: u32) -> u32
    requires { key ≡ key_tag b.now }
    ensures { result ≡ id_tag b.now }
{
    if is_series(b) {
        return tag_of(id_of(b));
    }
    key
}

// The group of a block.
fn group_of(b: &[u8]) -> usize
    ensures { result ≡ group b.now }
{
    if is_series(b) {
        return senders_slot(b).0;
    }
    if is_right(b) {
        return 1001 + (wide_tag(b) % 23) as usize;
    }
    0
}

// Each block in the bucket of its group.
pub fn link_groups(us: &[u8]) -> Buckets
    requires { (length us.now / 512 ≤ 1000) × Grouped (cut 512 us.now) }
    ensures links { Links in_group (cut 512 us.now) 0 result.heads result.nexts }
    ensures ahead { Ahead result.heads result.nexts }
{
    link(us, |b| Some(group_of(b)))
}

// The number that a block's id makes, and the one that its key makes.
#[derive(Clone, Copy)]
pub struct Tag {
    pub id: u32,
    pub key: u32,
}

impl Tag {
    fn of(b: &[u8]) -> Tag
        ensures { (result.id ≡ id_tag b.now) × (result.key ≡ key_tag b.now) }
    {
        let key = key_tag(b);
        Tag {
            id: id_tag(b, key),
            key,
        }
    }

    // Two blocks of which neither number agrees have neither id nor key in common.
    pub fn alike(self, other: Tag) -> bool
        ensures { result ≡ ((self.id == other.id) || (self.key == other.key)) }
    {
        (self.id == other.id) | (self.key == other.key)
    }
}

// Two blocks are compared byte by byte only where their tags agree.
pub fn tags_of(us: &[u8]) -> [Tag; 1000]
    requires { length us.now / 512 ≤ 1000 }
    ensures { Tagged (cut 512 us.now) (length us.now / 512) result }
{
    let mut tags = [Tag { id: 0, key: 0 }; 1000];
    for i in 0..us.len() / 512 {
        tags[i] = Tag::of(block_at(us, i));
    }
    tags
}
