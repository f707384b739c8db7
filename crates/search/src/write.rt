// The rows of a search (document 01, "Search"), written from the end of the count backwards: the open segment's first.
ghost use Rattle.std.specs.Prelude.{◌≡◌, map, ◌+◌, ◌*◌, ◌≤◌, length};
ghost use Rattle.flash.specs.Chip.{page_width, slot_width};
ghost use Rattle.lift.specs.Record.{record_width};
ghost use Rattle.codec.specs.Area.{splice};
ghost use Rattle.bitset.specs.Inner.Words.{members, Below};
ghost use Rattle.lift.specs.Rows.{record_in};
ghost use Rattle.sweep.specs.Inner.Swept.{Recorded};
ghost use Rattle.skiplist.specs.Skip.{serials_from};
ghost use Rattle.visit.specs.Visit.{closed_rows, open_rows};
ghost use Rattle.visit.specs.Inner.Sound.{ClosedSound, LogSound};
ghost use Rattle.walk.specs.Inner.Sound.{Sound, Begun};
ghost use Rattle.found.specs.Inner.Turns.{all_rows, rows_after, rows_in};
ghost use Rattle.search.specs.Answers.{row_bytes};
ghost use Rattle.search.specs.Inner.Turns.{written_in, WrittenUpTo, CountIs};

use bitset::Bits;
use found::ahead;
use sweep::Records;
use visit::{Closed, Log, Query};
use walk::Cursor;

// The records of a set's places go to rows from `row` on, the lowest place first.
fn put_rows(area: &mut [u8], row: usize, lifts: &[u8], tail: &[u8], g: Records, set: Bits)
    requires recorded { Recorded lifts.now tail.now g }
    requires below { Below g.count (members set.words) }
    requires record_width_in_bounds { (row + length (members set.words)) * record_width ≤ length area.old }
    ensures { area.new ≡ splice area.old (row * record_width)
        (row_bytes (map (record_in lifts.now tail.now g.first) (members set.words))) }
{
    for (i, p) in set.places().enumerate() {
        lift::put_row(area, row + i, lifts, tail, g.first, p);
    }
}

// The rows of a closed segment end at row `end`; where they begin.
fn write_one(area: &mut [u8], nand: &[u8], s: Closed, q: Query, end: u64) -> u64
    requires closed_sound { ClosedSound nand.now s }
    requires q_len_bound { (length (rows_in (closed_rows nand.now s q)) ≤ end) × (end * record_width ≤ length area.old) }
    ensures { WrittenUpTo area.old area.new (rows_in (closed_rows nand.now s q)) end result }
{
    let Some(set) = visit::closed_matches(nand, s, q) else {
        return end;
    };
    let row = end - set.count() as u64;
    let lifts = visit::closed_lifts(nand, s);
    let g = visit::closed_records(s);
    put_rows(area, row as usize, lifts, lifts, g, set);
    row
}

// Those of the open segment.
fn write_open(
    area: &mut [u8],
    nand: &[u8],
    nor: &[u8],
    page: &[u8],
    g: Log,
    q: Query,
    end: u64,
) -> u64
    requires log_sound { LogSound nand.now nor.now g }
    requires page_len { length page.now ≡ page_width }
    requires q_len_bound { (length (rows_in (open_rows nand.now nor.now page.now g q)) ≤ end) × (end * record_width ≤ length area.old) }
    ensures { WrittenUpTo area.old area.new
        (rows_in (open_rows nand.now nor.now page.now g q)) end result }
{
    if g.count == 0 {
        return end;
    }
    let Some(set) = visit::open_matches(nand, nor, page, g, q) else {
        return end;
    };
    let row = end - set.count() as u64;
    let lifts = visit::open_lifts(nand, g);
    let r = visit::open_records(g);
    put_rows(area, row as usize, lifts, page, r, set);
    row
}

// The rows of the closed segments from a cursor on, `row` of them, from the area's start on.
fn write_closed(
    area: &mut [u8],
    nand: &[u8],
    slots: u64,
    oldest: u32,
    q: Query,
    c: Cursor,
    row: u64,
)
    requires nand_len { (length nand.now ≡ slots * slot_width) × (1 ≤ q.k1) × (row * record_width ≤ length area.old) }
    requires sound { Sound slots c }
    requires count_is { CountIs row (rows_after nand.now slots (serials_from oldest) q c) }
    ensures { area.new
        ≡ written_in area.old (rows_after nand.now slots (serials_from oldest) q c) }
{
    let mut at = c;
    let mut end = row;
    while let Ok(Some((s, d))) = ahead::onward(nand, slots, oldest, q, at) {
        end = write_one(area, nand, s, q, end);
        at = d;
    }
}

// The rows of all segments, `total` of them, the oldest first.
pub fn write_all(
    area: &mut [u8],
    nand: &[u8],
    nor: &[u8],
    page: &[u8],
    g: Log,
    q: Query,
    c: Cursor,
    total: u64,
)
    requires log_sound { LogSound nand.now nor.now g }
    requires page_len { (length page.now ≡ page_width) × (1 ≤ q.k1) × (total * record_width ≤ length area.old) }
    requires begun { Begun g c }
    requires count_is { CountIs total (all_rows nand.now nor.now page.now g (serials_from g.oldest) q c) }
    ensures { area.new ≡ written_in area.old
        (all_rows nand.now nor.now page.now g (serials_from g.oldest) q c) }
{
    let row = write_open(area, nand, nor, page, g, q, total);
    write_closed(area, nand, g.slots, g.oldest, q, c, row);
}
