// The tree of the open serial's loads (document 01, "Tree"), with no bytes. Loads and ranges are kept raised, so that no fitted value
// falls below zero and halves round down by plain division.
ghost use Rattle.std.specs.Prelude.{◌≡◌, ◌<◌};

use plain_rules::Sums;

// "numbers run 0–35"
pub const BUCKETS: usize = 36;
// "a bucket with 13 is full"
const FULL: u8 = 13;

const RAISE: u32 = 1000000;
// "The root range is (−50,001, 100,000]", raised.
const ROOT_LOWER: u32 = 1000000;

const ROOT_UPPER: u32 = 1150001;

pub fn raised(code: u32) -> u32 {
    code.saturating_add(RAISE)
}

// A bucket's number.
#[derive(Clone, Copy)]
struct Number {
    place: usize,
    ghost in_range: { place < 36 },
}

impl Number {
    fn new(place: usize) -> Option<Number> {
        if place < BUCKETS {
            Some(Number { place })
        } else {
            None
        }
    }
}

#[derive(Clone, Copy)]
struct Bucket {
    lower: u32,
    upper: u32,
    // None before it is split.
    mid: Option<u32>,
    left: Option<Number>,
    right: Option<Number>,
    held: u8,
}

impl Bucket {
    // A new bucket holds the lift that it was made for.
    fn new(lower: u32, upper: u32) -> Bucket {
        Bucket {
            lower,
            upper,
            mid: None,
            left: None,
            right: None,
            held: 1,
        }
    }

    fn takes_entry(&self) -> bool {
        self.mid.is_none() && self.held < FULL
    }

    // The child on a load's way: "go left if load ≤ mid, else right".
    fn child(&self, load: u32) -> Option<Number> {
        match self.mid {
            Some(mid) if load <= mid => self.left,
            Some(_) => self.right,
            None => None,
        }
    }

    // The end of the range on the side where there is no child, as stored: its upper end before it is split. None where both children
    // stand, or the range is a single load.
    fn end_without_child(&self) -> Option<u32> {
        let first = self.lower.saturating_add(1);
        if self.upper <= first {
            None
        } else if self.right.is_none() {
            Some(self.upper.saturating_sub(RAISE))
        } else if self.left.is_none() {
            Some(first.saturating_sub(RAISE))
        } else {
            None
        }
    }
}

// The buckets that it has are the first `len`, and a child is named by its number: document 01 numbers the buckets in the order in which
// they come, and the test programs have no heap.
#[derive(Clone, Copy)]
pub struct Tree {
    buckets: [Bucket; BUCKETS],
    len: usize,
}

impl Tree {
    pub(crate) fn new() -> Tree {
        Tree {
            buckets: [Bucket::new(ROOT_LOWER, ROOT_UPPER); BUCKETS],
            len: 0,
        }
    }

    pub fn len(&self) -> usize
        ensures { result ≡ self.now.len }
    {
        self.len
    }

    // The last bucket on a load's way: it is not split, or has no child on the load's side.
    fn end_of_way(&self, load: u32) -> Number {
        let mut at = Number { place: 0 };
        for _ in 0..BUCKETS {
            match self.buckets[at.place].child(load) {
                Some(next) => at = next,
                None => return at,
            }
        }
        at
    }

    // The load needs bucket 36.
    pub(crate) fn needs_more(&self, code: u32) -> bool {
        let at = self.end_of_way(raised(code));
        self.len == BUCKETS && !self.buckets[at.place].takes_entry()
    }

    // A stored load by which buckets come soonest: it goes to the first bucket that lacks a child.
    pub fn splitting_code(&self) -> u32 {
        self.buckets
            .iter()
            .take(self.len)
            .find_map(|bucket| bucket.end_without_child())
            .unwrap_or(1)
    }

    // The load goes into the tree; `last` is of the loads before it.
    pub(crate) fn insert(&mut self, code: u32, last: Sums) {
        if self.len == 0 {
            self.len = 1;
            return;
        }
        let load = raised(code);
        let at = self.end_of_way(load);
        let mut bucket = self.buckets[at.place];
        if bucket.takes_entry() {
            bucket.held = bucket.held.saturating_add(1);
            self.buckets[at.place] = bucket;
        } else {
            self.put_child(at, load, last);
        }
    }

    // "A missing child is allocated with the next number." A parent that is not split yet gets its mid.
    fn put_child(&mut self, parent: Number, load: u32, last: Sums) {
        let Some(next) = Number::new(self.len) else {
            return;
        };
        let mut bucket = self.buckets[parent.place];
        let mid = match bucket.mid {
            Some(mid) => mid,
            None => last.fitted().mid(bucket.lower, bucket.upper),
        };
        bucket.mid = Some(mid);
        if load <= mid {
            bucket.left = Some(next);
            self.buckets[next.place] = Bucket::new(bucket.lower, mid);
        } else {
            bucket.right = Some(next);
            self.buckets[next.place] = Bucket::new(mid, bucket.upper);
        }
        self.buckets[parent.place] = bucket;
        self.len = next.place + 1;
    }
}
