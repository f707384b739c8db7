// How many lifts a search finds (document 01, "Search"): segment by segment, the open one first.
#![tactic(auto)]

pub mod ahead;

ghost use Rattle.std.specs.Prelude.{◌≡◌, Some, true, false, ◌+◌, ◌*◌, ◌^◌, ◌<◌, ◌≤◌, length};
ghost use Rattle.lift.specs.Rows.{lifts_most};
ghost use Rattle.flash.specs.Chip.{page_width, slot_width};
ghost use Rattle.skiplist.specs.Skip.{serials_from};
ghost use Rattle.visit.specs.Visit.{closed_rows, open_rows, tree_read};
ghost use Rattle.visit.specs.Inner.Sound.{ClosedSound, LogSound};
ghost use Rattle.walk.specs.Inner.Sound.{Sound, Begun};
ghost use Rattle.found.specs.Pages.{no_pages};
ghost use Rattle.found.specs.Inner.Turns.{count_of, counted_with, count_after, with_pages, all_pages, all_rows};

use bitset::Bits;
use visit::{Closed, Log, Query};
use walk::{Cursor, Step};

// Pages read by a search (document 02, W-207): headers that the skip walk moved onto, Bloom pages that hold a bit tried, tree pages that
// hold a bucket visited.
#[derive(Clone, Copy)]
pub struct Pages {
    pub headers: u64,
    pub bloom: u64,
    pub tree: u64,
}

// How many were found, and the pages read.
#[derive(Clone, Copy)]
pub struct Counted {
    pub total: u64,
    pub pages: Pages,
}

pub fn no_pages() -> Pages
    ensures { result ≡ no_pages }
{
    Pages {
        headers: 0,
        bloom: 0,
        tree: 0,
    }
}

// Pages read, with those of one more closed segment.
fn pages_with(p: Pages, bloom: u8, tree: u32) -> Pages
    requires { (p.bloom + 255 < 2 ^ 64) × (p.tree + 64 < 2 ^ 64) × (tree ≤ 64) }
    ensures { result ≡ with_pages p (record { bloom = bloom; tree = tree }) }
{
    Pages {
        headers: p.headers,
        bloom: p.bloom + bloom as u64,
        tree: p.tree + tree as u64,
    }
}

// A count with the places of one more segment's set.
fn counted_with(total: u64, pages: Pages, set: Bits) -> Counted
    requires { total + 320 < 2 ^ 64 }
    ensures { Some result ≡ counted_with total pages (record { good = true; set = set }) }
{
    Counted {
        total: total + set.count() as u64,
        pages,
    }
}

// How many the open segment has; it adds no pages to those of the skip walk.
fn count_open(
    nand: &[u8],
    nor: &[u8],
    page: &[u8],
    g: Log,
    q: Query,
    walked: Pages,
) -> Option<Counted>
    requires log_sound { LogSound nand.now nor.now g }
    requires page_len { length page.now ≡ page_width }
    ensures { result ≡ count_of 0 walked (open_rows nand.now nor.now page.now g q) }
{
    if g.count == 0 {
        return Some(Counted {
            total: 0,
            pages: walked,
        });
    }
    let set = visit::open_matches(nand, nor, page, g, q)?;
    Some(counted_with(0, walked, set))
}

// One closed segment more, whose Bloom pages are known.
fn count_one(nand: &[u8], s: Closed, q: Query, n: Counted, bloom: u8) -> Option<Counted>
    requires closed_sound { ClosedSound nand.now s }
    requires total_bound { (n.total + 320 < 2 ^ 64) × (n.pages.bloom + 255 < 2 ^ 64) × (n.pages.tree + 64 < 2 ^ 64) }
    ensures { result ≡ count_of n.total (with_pages n.pages (record { bloom = bloom; tree = tree_read nand.now s q }))
        (closed_rows nand.now s q) }
{
    let m = visit::closed_sweep(nand, s, q)?;
    let pages = pages_with(n.pages, bloom, bitset::ones(m.read));
    Some(counted_with(n.total, pages, m.set))
}

// How many the closed segments from a cursor on have, with those of the open one.
fn count_closed(
    nand: &[u8],
    slots: u64,
    oldest: u32,
    q: Query,
    c: Cursor,
    newest: Counted,
) -> Option<Counted>
    requires nand_len { (length nand.now ≡ slots * slot_width) × (1 ≤ q.k1) × (newest.total ≤ lifts_most) }
    requires sound { Sound slots c × (newest.pages.bloom ≡ 0) × (newest.pages.tree ≡ 0) }
    ensures { result ≡ count_after nand.now slots (serials_from oldest) q newest c }
{
    let mut at = c;
    let mut n = newest;
    loop {
        let (step, bloom) = ahead::one_on(nand, slots, oldest, q, at);
        match step {
            Step::End => return Some(n),
            Step::Damage => return None,
            Step::Pass(d) => {
                let pages = pages_with(n.pages, bloom, 0);
                n = Counted {
                    total: n.total,
                    pages,
                };
                at = d;
            }
            Step::Visit(s, d) => {
                n = count_one(nand, s, q, n, bloom)?;
                at = d;
            }
        }
    }
}

// How many all segments have, the closed ones from a cursor on that the skip walk reached in so many moves.
pub fn count_all(
    nand: &[u8],
    nor: &[u8],
    page: &[u8],
    g: Log,
    q: Query,
    c: Cursor,
    moves: u64,
) -> Option<Counted>
    requires log_sound { LogSound nand.now nor.now g }
    requires page_len { (length page.now ≡ page_width) × (1 ≤ q.k1) }
    requires begun { Begun g c }
    ensures { result ≡ count_of 0 (all_pages nand.now g (serials_from g.oldest) q c moves)
        (all_rows nand.now nor.now page.now g (serials_from g.oldest) q c) }
{
    if !c.good {
        return None;
    }
    let walked = Pages {
        headers: moves,
        bloom: 0,
        tree: 0,
    };
    let newest = count_open(nand, nor, page, g, q, walked)?;
    count_closed(nand, g.slots, g.oldest, q, c, newest)
}
