// Blocks in a row, linked in buckets: a search looks at the blocks of one bucket alone, however many there are.
ghost use Rattle.std.specs.Prelude.{◌≡◌, Bool, List, ℕ, ◌-◌, ◌/◌, ◌≤◌, ◌<◌, length, get_or};
ghost use Rattle.std.specs.Fn.{FnReturnsAt};
ghost use Rattle.laws.specs.Lists.{count};
ghost use Rattle.paper.specs.Layout.{Block};
ghost use Rattle.index.specs.Ahead.{Ahead, Ends, AllEnd};
ghost use Rattle.index.specs.Linked.{Links, Named, LinkedAs, Finds, FindsIn};

use slots::block_at;

// Of each bucket the place of the first block, and of each block the place of the next of its bucket. Places are counted from 1, and 0 says that there is none, as
// what is found is kept and promised. Of a bucket the next stands always further on, so that every walk along one ends:
// so it is in all rows that link at most 1,000 blocks (`links_end`).
#[derive(Clone, Copy)]
pub struct Buckets {
    pub heads: [u16; 1024],
    pub nexts: [u16; 1000],
    pub ghost ends: { AllEnd heads nexts },
}

impl Buckets {
    // The place of the first block of a bucket.
    pub fn first(&self, bucket: usize) -> usize
        requires { bucket < 1024 }
        ensures { (result ≡ get_or self.now.heads bucket 0) × (result ≤ 1000) × Ends self.now.nexts result }
    {
        self.heads[bucket] as usize
    }

    // The place of the next block of its bucket. On a walk that ends, what is left of it does.
    pub fn next(&self, at: usize) -> usize
        requires { (0 < at) × (at ≤ 1000) }
        ensures { (result ≡ get_or self.now.nexts (at - 1) 0) × (Ends self.now.nexts at → Ends self.now.nexts result × (result ≤ 1000)) }
    {
        self.nexts[at - 1] as usize
    }

    // How many blocks a bucket holds.
    pub fn count(&self, bucket: usize) -> usize
        requires { bucket < 1024 }
        ensures { (l : List Block) (p : ℕ → Block → Bool) → Links p l 0 self.now.heads self.now.nexts → result ≡ count (p bucket) l }
    {
        let mut n = 0;
        let mut at = self.first(bucket);
        while at != 0 {
            n += 1;
            at = self.next(at);
        }
        n
    }

    // The place of the first block that passes a test, of a bucket that holds all that pass; 0 where none does. The test is told a block's number, counted from 0.
    pub fn find<F: Fn(usize) -> bool>(&self, bucket: usize, test: F) -> usize
        requires { (bucket < 1024) × ((i : ℕ) → i < 1000 → F.pre test i) }
        ensures { FindsIn self.now.heads self.now.nexts (F.post test) bucket result × (result ≤ 1000) }
    {
        self.find_from(self.first(bucket), test)
    }

    // The same, from a place on along its bucket.
    pub fn find_from<F: Fn(usize) -> bool>(&self, from: usize, test: F) -> usize
        requires { Ends self.now.nexts from × ((i : ℕ) → i < 1000 → F.pre test i) }
        ensures { Finds self.now.nexts (F.post test) from result × (result ≤ 1000) }
    {
        let mut at = from;
        while at != 0 {
            if test(at - 1) {
                return at;
            }
            at = self.next(at);
        }
        at
    }
}

// From the last block back: what was its bucket's first block is now the second. `bucket_of` names the bucket of a block, if it is to be linked.
// Of what it gives a walk ends from whatever place of at most 1,000 it begins (`behind_ends`).
pub fn link<F: Fn(&[u8]) -> Option<usize>>(us: &[u8], bucket_of: F) -> Buckets
    requires { (length us.now / 512 ≤ 1000) × F.IsAlwaysCallable bucket_of × Named (FnReturnsAt F.Fn bucket_of) us.now }
    ensures links { LinkedAs (FnReturnsAt F.Fn bucket_of) us.now 0 result.heads result.nexts }
    ensures ahead { Ahead result.heads result.nexts }
{
    let mut heads = [0; 1024];
    let mut nexts = [0; 1000];
    for i in (0..us.len() / 512).rev() {
        if let Some(g) = bucket_of(block_at(us, i)) {
            nexts[i] = heads[g];
            heads[g] = (i + 1) as u16;
        }
    }
    Buckets { heads, nexts }
}
