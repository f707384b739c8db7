// A search of one tree (document 01, "Search"): its buckets in rising order of their numbers, with a mask of those due.
#![tactic(auto)]

ghost use Rattle.std.specs.Prelude.{◌≡◌, true, map, ℕ, ◌+◌, ◌≤◌, ◌<◌, length, IfSome};
ghost use Rattle.std.specs.Int.Count.{count_trailing_zeros, ones};
ghost use Rattle.lift.specs.Record.{record_width, time_at, code_at};
ghost use Rattle.tree.specs.Rules.{entries_most};
ghost use Rattle.bitset.specs.Set.{distinct};
ghost use Rattle.tree.specs.Bytes.{no_mid};
ghost use Rattle.tree.specs.Place.{bucket_page};
ghost use Rattle.tree.specs.Reading.{entry_in, entries_from, child_at, kids_of, positions_good};
ghost use Rattle.tree.specs.Search.{within, reached_with, reached};
ghost use Rattle.tree.specs.Sweep.{visited_on};
ghost use Rattle.tree.specs.Inner.Seen.{head_of};
ghost use Rattle.sweep.specs.Inner.Swept.{as_sweep, found_of, swept_of, Recorded, Held};
ghost use Rattle.sweep.specs.Inner.Turns.{spoilt_empty, is_due, HasBit, DueBelow, DueAbove, codes_of, times_of, with_record, with_entry, with_entries, onward, onward_of};
ghost use Rattle.sweep.specs.Inner.Turns.{read_onward};

use bitset::Bits;
use tree::Bucket;

// Times from t1 to t2, stored loads from k1 to k2.
#[derive(Clone, Copy)]
pub struct Range {
    pub t1: u64,
    pub t2: u64,
    pub k1: u32,
    pub k2: u32,
}

// The segment's lifts and buckets, and the place of the first lift whose record is not in the pages of lifts but in the tail.
#[derive(Clone, Copy)]
pub struct Records {
    pub count: u16,
    pub buckets: u8,
    pub first: usize,
}

// The positions found in a bucket so far, and whether no damage was met. A flag beside the set: the bucket's loop goes on to its end,
// since leaving it earlier would cost each entry a branch, and its end makes an Option of the two. Public for the proofs of the crates
// above, which speak of what a sweep comes to by this type; no function hands it out.
#[derive(Clone, Copy)]
pub struct Sweep {
    pub good: bool,
    pub set: Bits,
}

// What a sweep found, and the mask of the pages that hold a bucket visited: bit p for page p.
#[derive(Clone, Copy)]
pub struct Swept {
    pub set: Bits,
    pub read: u64,
}

// A sweep on its way: the mask of the buckets that are reached and not yet visited, the positions found and the pages read so far.
#[derive(Clone, Copy)]
struct Turn {
    due: u64,
    set: Bits,
    read: u64,
}

// The mask with a child, where it is taken and there is one.
fn with_child(due: u64, c: u8, taken: bool) -> u64
    requires { HasBit c }
    ensures { (j : ℕ) → is_due result j ≡ reached_with taken (child_at c) (is_due due) j }
{
    if c == tree::NO_CHILD {
        return due;
    }
    if taken {
        return due | bitset::power(c as usize);
    }
    due
}

// "left is taken if mid ≥ k1, right if mid < k2"
fn with_kids(due: u64, mid: u32, left: u8, right: u8, r: Range) -> u64
    requires { (mid ≡ no_mid → ⊥) → HasBit left × HasBit right }
    ensures { (j : ℕ) → is_due result j ≡ reached r.k1 r.k2 (kids_of (head_of 0 0 mid left right)) (is_due due) j }
{
    if mid == tree::NO_MID {
        return due;
    }
    let one = with_child(due, left, r.k1 <= mid);
    with_child(one, right, mid < r.k2)
}

fn in_range(code: u32, r: Range) -> bool
    ensures { result ≡ within r.k1 r.k2 code }
{
    (r.k1 <= code) & (code <= r.k2)
}

// An entry with the record from `at` on: its load must be the record's, and its position is taken if the record's time is in the range.
fn compared(area: &[u8], at: usize, p: usize, code: u32, r: Range, s: Sweep) -> Sweep
    requires { (at + record_width ≤ length area.now) × (p < 320) }
    ensures { result ≡ with_record (code_at area.now at) (time_at area.now at) r p code s }
{
    let recorded = lift::record_code(area, at);
    let t = lift::record_time(area, at);
    let good = s.good & (code == recorded);
    let set = s.set;
    let inside = (r.t1 <= t) & (t <= r.t2);
    if !inside {
        return Sweep { good, set };
    }
    Sweep {
        good,
        set: set.insert(p),
    }
}

// Entry i of a bucket's bytes.
fn entry_at(
    bucket: &[u8],
    lifts: &[u8],
    tail: &[u8],
    g: Records,
    i: usize,
    r: Range,
    s: Sweep,
) -> Sweep
    requires i_lt_entries_most { (i < entries_most) × (128 ≤ length bucket.now) × ((entry_in bucket.now i).position < g.count) }
    requires recorded { Recorded lifts.now tail.now g }
    ensures { result ≡ with_entry (codes_of lifts.now tail.now g)
        (times_of lifts.now tail.now g) r (entry_in bucket.now i) s }
{
    let code = tree::entry_code(bucket, i);
    if !in_range(code, r) {
        return s;
    }
    let p = tree::entry_position(bucket, i) as usize;
    if p < g.first {
        return compared(lifts, p * lift::RECORD_BYTES, p, code, r, s);
    }
    compared(tail, (p - g.first) * lift::RECORD_BYTES, p, code, r, s)
}

// The set with those of a bucket's entries, `used` in number; none where damage was met. A split bucket has entries too.
fn entries(
    bucket: &[u8],
    lifts: &[u8],
    tail: &[u8],
    g: Records,
    used: usize,
    r: Range,
    set: Bits,
) -> Option<Bits>
    requires in_bounds { (128 ≤ length bucket.now) × (used ≡ length (entries_from bucket.now 13 0)) }
    requires bucket_value { positions_good g.count (entries_from bucket.now 13 0) ≡ true }
    requires recorded { Recorded lifts.now tail.now g }
    ensures { as_sweep result ≡ spoilt_empty (with_entries (codes_of lifts.now tail.now g)
        (times_of lifts.now tail.now g) r (entries_from bucket.now 13 0) (record { good = true; set = set })) }
{
    let mut s = Sweep { good: true, set };
    for i in 0..used {
        s = entry_at(bucket, lifts, tail, g, i, r, s);
    }
    if s.good { Some(s.set) } else { None }
}

// The lowest bucket that is due, and no longer is then; none where it has damage. The others and those that they lead to are left; what is
// found in all is the same.
fn visit(tree: &[u8], lifts: &[u8], tail: &[u8], g: Records, r: Range, t: Turn) -> Option<Turn>
    requires held { Held tree.now lifts.now tail.now g }
    requires due { (0 < t.due) × DueBelow g.buckets t.due }
    ensures leads { onward_of tree.now lifts.now tail.now g r result
        ≡ onward tree.now lifts.now tail.now g r t }
    ensures left { IfSome result (λ n. DueBelow g.buckets n.due × DueAbove (count_trailing_zeros 64 t.due) n.due) }
    ensures pages { IfSome result (λ n. (j : ℕ) → read_onward tree.now g r n j ≡ read_onward tree.now g r t j) }
{
    let b = bitset::lowest(t.due) as u8;
    let rest = bitset::without_lowest(t.due);
    let bucket = tree::bucket_of(tree, Bucket(b));
    let n = tree::node_in(bucket, Bucket(b), g.buckets, g.count)?;
    let read = t.read | bitset::power(tree::page_of(Bucket(b)));
    let due = with_kids(rest, n.mid, n.left, n.right, r);
    let set = entries(bucket, lifts, tail, g, n.used, r, t.set)?;
    Some(Turn { due, set, read })
}

// The positions of the segment's lifts whose loads and times are in the range, by its tree, each load compared with its record's; none where
// damage is met.
pub fn sweep_tree(tree: &[u8], lifts: &[u8], tail: &[u8], g: Records, r: Range) -> Option<Swept>
    requires { Held tree.now lifts.now tail.now g }
    ensures found { found_of result ≡ swept_of tree.now lifts.now tail.now g r }
    ensures pages { IfSome result (λ m. ones m.read
        ≡ distinct (map bucket_page (visited_on tree.now g.buckets r.k1 r.k2))) }
{
    let none = Bits::empty();
    if g.buckets == 0 {
        return Some(Swept { set: none, read: 0 });
    }
    let mut t = Turn {
        due: 1,
        set: none,
        read: 0,
    };
    while 0 < t.due {
        t = visit(tree, lifts, tail, g, r, t)?;
    }
    Some(Swept {
        set: t.set,
        read: t.read,
    })
}
