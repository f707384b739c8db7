// Lifts counted by plate (document 01, "Plates"): segment by segment, the open one first.
ghost use Rattle.std.specs.Prelude.{◌≡◌, map, ◌*◌, ◌^◌, ◌≤◌, length};
ghost use Rattle.flash.specs.Chip.{page_width, slot_width};
ghost use Rattle.bitset.specs.Inner.Words.{members, Below};
ghost use Rattle.lift.specs.Rows.{code_in};
ghost use Rattle.plate.specs.Plate.{no_counts};
ghost use Rattle.sweep.specs.Inner.Swept.{Recorded};
ghost use Rattle.skiplist.specs.Skip.{serials_from};
ghost use Rattle.visit.specs.Visit.{closed_rows, open_rows};
ghost use Rattle.visit.specs.Inner.Sound.{ClosedSound, LogSound};
ghost use Rattle.walk.specs.Inner.Sound.{Sound};
ghost use Rattle.found.specs.Inner.Turns.{rows_after};
ghost use Rattle.tally.specs.Inner.Turns.{counted_all, tally_of, NoneAbove};

use bitset::Bits;
use found::ahead;
use grounds::Ground;
use plate::PLATES;
use sweep::Records;
use visit::{Closed, Log, Query};
use walk::Cursor;

// The counts with the lifts of a set, by plate.
fn tally_set(
    lifts: &[u8],
    tail: &[u8],
    g: Records,
    set: Bits,
    counts: [u64; PLATES],
) -> [u64; PLATES]
    requires recorded { Recorded lifts.now tail.now g }
    requires below { Below g.count (members set.words) }
    requires none_above { NoneAbove (2 ^ 63) counts }
    ensures { result ≡ counted_all counts
        (map (code_in lifts.now tail.now g.first) (members set.words)) }
{
    let mut n = counts;
    for p in set.places() {
        let code = lift::code_in(lifts, tail, g.first, p);
        let i = plate::plate_of_code(code) as usize;
        n[i] += 1;
    }
    n
}

// The open segment's lifts.
pub fn tally_open(
    nand: &[u8],
    nor: &[u8],
    page: &[u8],
    g: Log,
    q: Query,
) -> Result<[u64; PLATES], Ground>
    requires log_sound { LogSound nand.now nor.now g }
    requires page_len { length page.now ≡ page_width }
    ensures { result ≡ tally_of no_counts (open_rows nand.now nor.now page.now g q) }
{
    let none = plate::no_counts();
    if g.count == 0 {
        return Ok(none);
    }
    let set = visit::open_matches(nand, nor, page, g, q).ok_or(Ground::Damage)?;
    let lifts = visit::open_lifts(nand, g);
    let r = visit::open_records(g);
    Ok(tally_set(lifts, page, r, set, none))
}

// One closed segment more.
fn tally_one(
    nand: &[u8],
    s: Closed,
    q: Query,
    counts: [u64; PLATES],
) -> Result<[u64; PLATES], Ground>
    requires closed_sound { ClosedSound nand.now s }
    requires none_above { NoneAbove (2 ^ 63) counts }
    ensures { result ≡ tally_of counts (closed_rows nand.now s q) }
{
    let set = visit::closed_matches(nand, s, q).ok_or(Ground::Damage)?;
    let lifts = visit::closed_lifts(nand, s);
    let r = visit::closed_records(s);
    Ok(tally_set(lifts, lifts, r, set, counts))
}

// The closed segments from a cursor on, with the counts of the open one.
pub fn tally_closed(
    nand: &[u8],
    slots: u64,
    oldest: u32,
    q: Query,
    c: Cursor,
    newest: [u64; PLATES],
) -> Result<[u64; PLATES], Ground>
    requires nand_len { (length nand.now ≡ slots * slot_width) × (1 ≤ q.k1) }
    requires sound { Sound slots c }
    requires none_above { NoneAbove 320 newest }
    ensures { result ≡ tally_of newest (rows_after nand.now slots (serials_from oldest) q c) }
{
    let mut at = c;
    let mut counts = newest;
    while let Some((s, d)) = ahead::onward(nand, slots, oldest, q, at)? {
        counts = tally_one(nand, s, q, counts)?;
        at = d;
    }
    Ok(counts)
}
