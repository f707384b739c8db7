// What a search takes from each segment (document 01, "Search"): its tree searched, its times filtered.
#![tactic(auto)]

ghost use Rattle.std.specs.Prelude.{◌≡◌, map, ◌+◌, ◌*◌, ◌≤◌, length, IfSome};
ghost use Rattle.std.specs.Int.Count.{ones};
ghost use Rattle.flash.specs.Chip.{page_width, slot_width};
ghost use Rattle.bitset.specs.Set.{distinct};
ghost use Rattle.bitset.specs.Inner.Words.{empty_words};
ghost use Rattle.tree.specs.Place.{bucket_page};
ghost use Rattle.tree.specs.Sweep.{visited_on};
ghost use Rattle.sweep.specs.Inner.Swept.{as_sweep, found_of, swept_from, Held};
ghost use Rattle.visit.specs.Visit.{matches_of, closed_matches, tree_read, open_matches, closed_lifts, open_lifts};
ghost use Rattle.visit.specs.Inner.Sound.{ClosedSound, LogSound, closed_records, open_records};

use bitset::Bits;
use flash::Page;
use skiplist::{LEVELS, Pointer};
use sweep::{Range, Records, Swept};

// Times from t1 to t2, stored loads from k1 to k2. The same as `sweep::Range`, and a type of its own: the theorems speak of `visit`'s Query.
#[derive(Clone, Copy)]
pub struct Query {
    pub t1: u64,
    pub t2: u64,
    pub k1: u32,
    pub k2: u32,
}

// What a search needs of the state.
#[derive(Clone, Copy)]
pub struct Log {
    // S
    pub slots: u64,
    // open serial; its count, bucket count and start time
    pub current: u32,
    pub count: u16,
    pub buckets: u8,
    pub start: u64,
    // oldest retained serial, by which a pointer is live
    pub oldest: u32,
    // four skip heads
    pub heads: [Pointer; LEVELS],
}

// A closed segment whose tree is searched.
#[derive(Clone, Copy)]
pub struct Closed {
    pub slot: usize,
    pub count: u16,
    pub buckets: u8,
}

// The matches of one segment, and the mask of its tree pages that hold a bucket visited; none where damage is met.
fn matches(tree: &[u8], lifts: &[u8], tail: &[u8], g: Records, q: Query) -> Option<Swept>
    requires { Held tree.now lifts.now tail.now g }
    ensures found { found_of result ≡ swept_from empty_words (matches_of tree.now lifts.now tail.now
        g.first g.count g.buckets q) }
    ensures pages { IfSome result (λ m. ones m.read
        ≡ distinct (map bucket_page (visited_on tree.now g.buckets q.k1 q.k2))) }
{
    let r = Range {
        t1: q.t1,
        t2: q.t2,
        k1: q.k1,
        k2: q.k2,
    };
    sweep::sweep_tree(tree, lifts, tail, g, r)
}

// Where a closed segment's records stand: all in its pages.
pub fn closed_records(s: Closed) -> Records
    ensures { result ≡ closed_records s }
{
    Records {
        count: s.count,
        buckets: s.buckets,
        first: lift::LIFTS_MOST as usize,
    }
}

pub fn closed_lifts(nand: &[u8], s: Closed) -> &[u8]
    requires { s.slot * slot_width + slot_width ≤ length nand.now }
    ensures { result.now ≡ closed_lifts nand.now s }
{
    flash::pages_of(nand, s.slot, Page(0), flash::TREE_FIRST)
}

pub fn closed_sweep(nand: &[u8], s: Closed, q: Query) -> Option<Swept>
    requires { ClosedSound nand.now s }
    ensures found { found_of result ≡ swept_from empty_words (closed_matches nand.now s q) }
    ensures pages { IfSome result (λ m. ones m.read ≡ tree_read nand.now s q) }
{
    let lifts = closed_lifts(nand, s);
    let t = flash::pages_of(nand, s.slot, Page(flash::TREE_FIRST), flash::TREE_PAGES);
    let g = closed_records(s);
    matches(t, lifts, lifts, g, q)
}

pub fn closed_matches(nand: &[u8], s: Closed, q: Query) -> Option<Bits>
    requires { ClosedSound nand.now s }
    ensures { as_sweep result ≡ swept_from empty_words (closed_matches nand.now s q) }
{
    Some(closed_sweep(nand, s, q)?.set)
}

// The open segment's full pages of records are in NAND, the rest in the page buffer.
pub fn open_records(g: Log) -> Records
    ensures { result ≡ open_records g }
{
    let n = g.count as usize;
    Records {
        count: g.count,
        buckets: g.buckets,
        first: n / lift::LIFTS_PER_PAGE * lift::LIFTS_PER_PAGE,
    }
}

pub fn open_lifts(nand: &[u8], g: Log) -> &[u8]
    requires { (length nand.now ≡ g.slots * slot_width) × (1 ≤ g.current) × (1 ≤ g.slots) }
    ensures { result.now ≡ open_lifts nand.now g }
{
    let slot = flash::slot_of(g.current, g.slots);
    flash::pages_of(nand, slot, Page(0), flash::TREE_FIRST)
}

pub fn open_matches(nand: &[u8], nor: &[u8], page: &[u8], g: Log, q: Query) -> Option<Bits>
    requires log_sound { LogSound nand.now nor.now g }
    requires page_len { length page.now ≡ page_width }
    ensures { as_sweep result ≡ swept_from empty_words (open_matches nand.now nor.now page.now g q) }
{
    let lifts = open_lifts(nand, g);
    let t = flash::nor_tree(nor);
    let r = open_records(g);
    Some(matches(t, lifts, page, r, q)?.set)
}
