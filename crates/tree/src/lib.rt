// The tree of a segment's loads (document 01, "Tree"): where a bucket stands, and what is read of it. The tree's area is 4,608
// bytes, in NOR from 0 and in pages 20 to 28 of a slot. The rules and their laws are in specs/ and proofs/.
#![tactic(auto)]

ghost use Rattle.std.specs.Prelude.{◌≡◌, ◌-◌, ◌+◌, ◌*◌, ◌≤◌, ◌<◌, length};
ghost use Rattle.tree.specs.Rules.{entries_most};
ghost use Rattle.tree.specs.Reading.{bucket_at, entry_in, entries_from, child_at, kids_of, child_good, kids_good};
ghost use Rattle.tree.specs.Place.{bucket_page, place_of, tree_start, bucket_start};
ghost use Rattle.tree.specs.Inner.Seen.{head_of, counted_on, seen_node};

use flash::Page;

// "numbers run 0–35"
pub const BUCKETS_MOST: u8 = 36;

// "a bucket with 13 is full"
pub const ENTRIES_PER_BUCKET: usize = 13;

pub const BUCKET_BYTES: usize = 128;

// "Mid and entries stay 255 until used", "255 none", "entries end at the first with position 65,535".
pub const NO_MID: u32 = 4294967295;

pub const NO_CHILD: u8 = 255;

const NO_POSITION: u16 = 65535;

// "The root range is (−50,001, 100,000]": the upper end, as stored.
pub const TOP: u32 = lift::CODE_MAX;

const BUCKETS_PER_PAGE: usize = 4;

// Where the fields of a bucket and of an entry stand.
pub const Y_AT: usize = 4;

pub const MID_AT: usize = 8;

pub const LEFT_AT: usize = 12;

pub const RIGHT_AT: usize = 13;

pub const ENTRIES_AT: usize = 24;

pub const ENTRY_BYTES: usize = 8;

// A bucket's number.
#[derive(Clone, Copy)]
pub struct Bucket(pub u8);

// A page of the slot, and an offset in it.
#[derive(Clone, Copy)]
pub struct Place {
    pub page: Page,
    pub offset: usize,
}

// A bucket as it is read: its range (x, y], its mid and children, how many entries it has.
#[derive(Clone, Copy)]
pub struct Node {
    // the range (x, y]
    pub x: u32,
    pub y: u32,
    // the mid, all ones until it is split, and both children, 255 none, as the bytes have them: a bucket is read as numbers first and
    // judged after
    pub mid: u32,
    pub left: u8,
    pub right: u8,
    // how many entries it has
    pub used: usize,
}

// The one rule from a bucket's number to its page and offset.
pub fn place_of(b: Bucket) -> Place
    ensures { result ≡ place_of b }
{
    let n = b.0 as usize;
    Place {
        page: Page(flash::TREE_FIRST + n / BUCKETS_PER_PAGE),
        offset: BUCKET_BYTES * (n % BUCKETS_PER_PAGE),
    }
}

// The page that holds a bucket.
pub fn page_of(b: Bucket) -> usize
    ensures { result ≡ bucket_page b.0 }
{
    place_of(b).page.0
}

// Where a page starts in the tree's area, whose first page is 20.
pub fn page_start(p: Page) -> usize
    requires { (20 ≤ p.0) × (p.0 < 256) }
    ensures { result ≡ tree_start p.0 }
{
    flash::PAGE_BYTES * (p.0 - flash::TREE_FIRST)
}

// Where a bucket starts in it.
pub fn start_of(b: Bucket) -> usize
    ensures { result ≡ bucket_start b.0 }
{
    let p = place_of(b);
    page_start(p.page) + p.offset
}

// The 128 bytes of a bucket.
pub fn bucket_of(tree: &[u8], b: Bucket) -> &[u8]
    requires { bucket_start b.0 + 128 ≤ length tree.now }
    ensures { result.now ≡ bucket_at tree.now b.0 }
{
    let a = start_of(b);
    let e = a + BUCKET_BYTES;
    &tree[a..e]
}

// Entry i of a bucket's bytes: its load as stored, and its position.
pub fn entry_code(s: &[u8], i: usize) -> u32
    requires { (i < entries_most) × (128 ≤ length s.now) }
    ensures { result ≡ (entry_in s.now i).load }
{
    codec::get_u32(s, ENTRIES_AT + ENTRY_BYTES * i)
}

pub fn entry_position(s: &[u8], i: usize) -> u16
    requires { (i < entries_most) × (128 ≤ length s.now) }
    ensures { result ≡ (entry_in s.now i).position }
{
    codec::get_u16(s, ENTRIES_AT + 4 + ENTRY_BYTES * i)
}

// How many entries stand before the first with position 65,535; none where a position is not below the count. One test for each: that
// number is not below the count either.
fn entries_in(s: &[u8], count: u16) -> Option<usize>
    requires { 128 ≤ length s.now }
    ensures { result ≡ counted_on count (entries_from s.now 13 0) }
{
    for i in 0..ENTRIES_PER_BUCKET {
        let p = entry_position(s, i);
        if count <= p {
            return if p == NO_POSITION { Some(i) } else { None };
        }
    }
    Some(ENTRIES_PER_BUCKET)
}

// A child's number is above its parent's and below the bucket count, or 255 for none.
fn child_ok(c: u8, b: Bucket, buckets: u8) -> bool
    ensures { result ≡ child_good b.0 buckets (child_at c) }
{
    (c == NO_CHILD) | ((b.0 < c) & (c < buckets))
}

// The mid and the children, where the bucket is split.
fn kids_ok(x: u32, y: u32, mid: u32, left: u8, right: u8, b: Bucket, buckets: u8) -> bool
    ensures { result ≡ kids_good b.0 buckets x y (kids_of (head_of x y mid left right)) }
{
    if mid == NO_MID {
        true
    } else {
        (x < mid) & (mid <= y) & (child_ok(left, b, buckets) & child_ok(right, b, buckets))
    }
}

// Bucket b, of these bytes, is checked whole; none where it is damaged.
pub fn node_in(s: &[u8], b: Bucket, buckets: u8, count: u16) -> Option<Node>
    requires { 128 ≤ length s.now }
    ensures { result ≡ seen_node s.now b.0 buckets count }
{
    let x = codec::get_u32(s, 0);
    let y = codec::get_u32(s, Y_AT);
    let mid = codec::get_u32(s, MID_AT);
    let left = codec::get_u8(s, LEFT_AT);
    let right = codec::get_u8(s, RIGHT_AT);
    let is_whole = (x < y) & (y <= TOP) & kids_ok(x, y, mid, left, right, b, buckets);
    if !is_whole {
        return None;
    }
    let used = entries_in(s, count)?;
    Some(Node {
        x,
        y,
        mid,
        left,
        right,
        used,
    })
}
