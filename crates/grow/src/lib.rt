// An insertion into the tree's bytes (document 01, "Tree"): its plan from reads alone, then its writes.
#![tactic(auto)]

ghost use Rattle.std.specs.Prelude.{◌≡◌, cond, ℕ, ◌+◌, ◌*◌, ◌≤◌, ◌<◌, length, get_or};
ghost use Rattle.flash.specs.Chip.{tree_width};
ghost use Rattle.lift.specs.Limits.{code_most, loads_kept};
ghost use Rattle.tree.specs.Rules.{next, buckets_most, entries_most};
ghost use Rattle.tree.specs.Reading as Reading;
ghost use Rattle.tree.specs.Reading.{child_at, kids_of};
ghost use Rattle.tree.specs.Plan.{damaged, into_bucket, plan_here, plan_from, or_no_room, plan_on};
ghost use Rattle.tree.specs.Place.{bucket_start};
ghost use Rattle.tree.specs.Writes as Tree;
ghost use Rattle.grow.specs.Inner.Meaning.{byte_of, meaning, Fitting};
ghost use Rattle.grow.specs.Inner.Written.{put_in, write_of, all_of, growth, Inside, InTree};
ghost use Rattle.grow.specs.Inner.Sight.{Sees, is_child};

use lift::LOADS_KEPT;
use tree::{Bucket, Node};

// The side of a split bucket that a load goes to.
#[derive(Clone, Copy)]
pub enum Side {
    Left,
    Right,
}

impl Side {
    // The byte of the child's number.
    fn byte(self) -> usize
        ensures { result ≡ byte_of self }
    {
        match self {
            Side::Left => tree::LEFT_AT,
            Side::Right => tree::RIGHT_AT,
        }
    }
}

// Where an entry goes.
#[derive(Clone, Copy)]
pub enum Plan {
    // Damage on the path.
    Damage,
    // No room in this segment, which closes first.
    Full,
    // The first entry, in a new root.
    Root,
    // Into a bucket, as its entry i.
    Entry(Bucket, usize),
    // Below a split bucket, into a new child: its side, and its range (x, y].
    Child(Bucket, Side, u32, u32),
    // A full bucket is split at a mid, and a new child takes the entry: its side, and its range.
    Split(Bucket, u32, Side, u32, u32),
}

// `len` bytes from `at` on get a number.
#[derive(Clone, Copy)]
pub struct Write {
    pub at: usize,
    pub len: usize,
    pub value: u64,
}

// All that an insertion writes, in this order.
#[derive(Clone, Copy)]
pub struct Writes {
    pub mid: Option<Write>,
    pub child: Option<Write>,
    pub range: Option<Write>,
    pub entry: Option<Write>,
}

// "at a split bucket go left if load ≤ mid, else right": the child there.
fn child_for(n: Node, code: u32) -> Option<u8>
    ensures { (m : Reading.Node) → Sees n m → is_child result (next (kids_of m) code) }
{
    let mid = n.mid;
    if mid == tree::NO_MID {
        return None;
    }
    let child = if code <= mid { n.left } else { n.right };
    if child == tree::NO_CHILD {
        None
    } else {
        Some(child)
    }
}

// The load stays at bucket b: it has no child there.
fn plan_here(n: Node, b: u8, buckets: u8, loads: [u32; LOADS_KEPT], code: u32) -> Plan
    requires x_lt_y { (n.x < n.y) × (n.y ≤ code_most) }
    requires by_index { (k : ℕ) → k < loads_kept → get_or loads k 0 ≤ code_most }
    ensures { (m : Reading.Node) → Sees n m → meaning result ≡ or_no_room buckets (plan_here m b loads code (kids_of m)) }
{
    let whole = n.mid == tree::NO_MID;
    if whole & (n.used < tree::ENTRIES_PER_BUCKET) {
        return Plan::Entry(Bucket(b), n.used);
    }
    if tree::BUCKETS_MOST <= buckets {
        return Plan::Full;
    }
    let mid = if whole {
        split::mid_of(n.x, n.y, loads)
    } else {
        n.mid
    };
    let (side, x, y) = if code <= mid {
        (Side::Left, n.x, mid)
    } else {
        (Side::Right, mid, n.y)
    };
    if whole {
        Plan::Split(Bucket(b), mid, side, x, y)
    } else {
        Plan::Child(Bucket(b), side, x, y)
    }
}

// Down from the root; each bucket on the path is checked whole.
fn descend(tree: &[u8], buckets: u8, count: u16, loads: [u32; LOADS_KEPT], code: u32) -> Plan
    requires tree_width_in_bounds { (tree_width ≤ length tree.now) × (buckets ≤ buckets_most) }
    requires by_index { (k : ℕ) → k < loads_kept → get_or loads k 0 ≤ code_most }
    ensures { meaning result ≡ or_no_room buckets (plan_from tree.now buckets count loads code buckets 0) }
{
    let mut b: u8 = 0;
    for _step in 0..buckets {
        let bucket = tree::bucket_of(tree, Bucket(b));
        let Some(n) = tree::node_in(bucket, Bucket(b), buckets, count) else {
            return Plan::Damage;
        };
        let Some(c) = child_for(n, code) else {
            return plan_here(n, b, buckets, loads, code);
        };
        b = c;
    }
    Plan::Damage
}

// Where a load goes, in a tree of so many buckets and lifts, after these last loads.
pub fn plan_for(tree: &[u8], buckets: u8, count: u16, loads: [u32; LOADS_KEPT], code: u32) -> Plan
    requires tree_width_in_bounds { (tree_width ≤ length tree.now) × (buckets ≤ buckets_most) }
    requires by_index { (k : ℕ) → k < loads_kept → get_or loads k 0 ≤ code_most }
    ensures is { meaning result ≡ plan_on tree.now buckets count loads code }
    ensures fits { Fitting buckets result }
{
    if count == 0 {
        return Plan::Root;
    }
    if count == lift::LIFTS_MOST {
        return Plan::Full;
    }
    descend(tree, buckets, count, loads, code)
}

// The bucket count after the insertion.
pub fn buckets_after(p: Plan, buckets: u8) -> u8
    requires { Fitting buckets p }
    ensures { result ≡ Tree.buckets_after (meaning p) buckets }
{
    match p {
        Plan::Damage | Plan::Entry(..) => buckets,
        Plan::Full | Plan::Root => 1,
        Plan::Child(..) | Plan::Split(..) => buckets + 1,
    }
}

// Two numbers of 4 bytes side by side, as one.
fn pair(a: u32, b: u32) -> u64
    ensures { result ≡ Tree.pair a b }
{
    (a as u64) + 4294967296 * (b as u64)
}

// A write within a bucket.
fn write_in(b: Bucket, offset: usize, len: usize, value: u64) -> Write
    requires { offset ≤ 128 }
    ensures { put_in result ≡ record { to = bucket_start b.0 + offset; len = len; value = value } }
{
    let at = tree::start_of(b) + offset;
    Write { at, len, value }
}

fn mid_write(b: Bucket, mid: u32) -> Write
    ensures { put_in result ≡ Tree.mid_write b.0 mid }
{
    write_in(b, tree::MID_AT, 4, mid as u64)
}

fn child_write(b: Bucket, side: Side, child: u8) -> Write
    ensures { put_in result ≡ Tree.child_write b.0 (byte_of side) child }
{
    write_in(b, side.byte(), 1, child as u64)
}

fn range_write(b: Bucket, x: u32, y: u32) -> Write
    ensures { put_in result ≡ Tree.range_write b.0 x y }
{
    write_in(b, 0, 8, pair(x, y))
}

fn entry_write(b: Bucket, i: usize, code: u32, position: u16) -> Write
    requires { i < entries_most }
    ensures { put_in result ≡ Tree.entry_write b.0 i code position }
{
    let offset = tree::ENTRIES_AT + tree::ENTRY_BYTES * i;
    write_in(b, offset, 6, pair(code, position as u32))
}

// A new bucket with its range and its first entry, after a mid and a child's number.
fn grown(
    mid: Option<Write>,
    child: Option<Write>,
    n: u8,
    x: u32,
    y: u32,
    code: u32,
    position: u16,
) -> Writes
    ensures { all_of result ≡ growth (write_of mid) (write_of child) n x y code position }
{
    Writes {
        mid,
        child,
        range: Some(range_write(Bucket(n), x, y)),
        entry: Some(entry_write(Bucket(n), 0, code, position)),
    }
}

// What the insertion of a load with this position writes; a new bucket gets the next number.
pub fn writes_of(p: Plan, buckets: u8, code: u32, position: u16) -> Writes
    requires fitting { Fitting buckets p }
    requires buckets_le_buckets_most { buckets ≤ buckets_most }
    ensures is { all_of result ≡ Tree.writes_of (meaning p) buckets code position }
    ensures inside { InTree result }
{
    match p {
        Plan::Damage => Writes {
            mid: None,
            child: None,
            range: None,
            entry: None,
        },
        Plan::Full | Plan::Root => grown(None, None, 0, 0, tree::TOP, code, position),
        Plan::Entry(b, i) => Writes {
            mid: None,
            child: None,
            range: None,
            entry: Some(entry_write(b, i, code, position)),
        },
        Plan::Child(b, side, x, y) => {
            let child = child_write(b, side, buckets);
            grown(None, Some(child), buckets, x, y, code, position)
        }
        Plan::Split(b, m, side, x, y) => {
            let mid = mid_write(b, m);
            let child = child_write(b, side, buckets);
            grown(Some(mid), Some(child), buckets, x, y, code, position)
        }
    }
}

fn is_clear(nor: &[u8], write: Option<Write>) -> bool
    requires { Inside (write_of write) (length nor.now) }
    ensures { result ≡ Tree.is_clear nor.now (write_of write) }
{
    match write {
        Some(w) => codec::all_ones(nor, w.at, w.len),
        None => true,
    }
}

// Whether all bytes due for writing are 255.
pub fn clear(nor: &[u8], w: Writes) -> bool
    requires { (tree_width ≤ length nor.now) × InTree w }
    ensures { result ≡ Tree.all_clear nor.now (all_of w) }
{
    is_clear(nor, w.mid) & is_clear(nor, w.child) & is_clear(nor, w.range) & is_clear(nor, w.entry)
}

fn put_write(nor: &mut [u8], write: Option<Write>)
    requires { Inside (write_of write) (length nor.old) }
    ensures { nor.new ≡ Tree.written nor.old (write_of write) }
{
    if let Some(w) = write {
        flash::write_nor(nor, w.at, w.len, w.value);
    }
}

// The writes are carried out.
pub fn carry(nor: &mut [u8], w: Writes)
    requires { (tree_width ≤ length nor.old) × InTree w }
    ensures { nor.new ≡ Tree.all_written nor.old (all_of w) }
{
    put_write(nor, w.mid);
    put_write(nor, w.child);
    put_write(nor, w.range);
    put_write(nor, w.entry);
}
