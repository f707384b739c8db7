// A whole log in hand (document 02, W-208): of each segment the slot and the set of its lifts that a search finds. Segment S is the open
// one, those below it are the closed ones, the oldest lowest. Slots and sets are two arrays: one of both would be padded past the stack
// that a call for pairs may take (docs/FORMAT.md, "Stack").
#![tactic(auto)]

pub mod rise;

ghost use Rattle.std.specs.Prelude.{◌≡◌, true, false, IfOk, IfErr, ◌+◌, ◌*◌, ◌≤◌, ◌<◌, length, get_or, set};
ghost use Rattle.flash.specs.Chip.{slot_of, slot_width, page_width};
ghost use Rattle.skiplist.specs.Skip.{serials_from};
ghost use Rattle.visit.specs.Visit.{closed_rows};
ghost use Rattle.visit.specs.Inner.Sound.{ClosedSound, LogSound};
ghost use Rattle.walk.specs.Inner.Sound.{Sound};
ghost use Rattle.found.specs.Found.{found_rows};
ghost use Rattle.each_segment.specs.Inner.Turns.{IsDamage};
ghost use Rattle.grounds.specs.declared.Ground.TheVariants.{Damage};
ghost use Rattle.whole_log.specs.Inner.Held.{lifts_at, records_at, closed_in, closed_sweep, open_sweep, set_for, Room};
ghost use Rattle.whole_log.specs.Inner.Turns.{Puts, Ends, GathersAll};

use bitset::Bits;
use flash::Page;
use found::ahead;
use grounds::Ground;
use sweep::Records;
use visit::{Closed, Log, Query};
use walk::Cursor;

// Where the records of a segment's slot stand.
pub fn lifts_of(nand: &[u8], slot: u16) -> &[u8]
    requires { slot * slot_width + slot_width ≤ length nand.now }
    ensures { result.now ≡ lifts_at nand.now slot }
{
    flash::pages_of(nand, slot as usize, Page(0), flash::TREE_FIRST)
}

// Which places a segment may have, and from which on the open one's records are in the page buffer.
pub fn records_of(g: Log, i: usize) -> Records
    requires { g.slots < 65536 }
    ensures { result ≡ records_at g i }
{
    if i < g.slots as usize {
        Records {
            count: lift::LIFTS_MOST,
            buckets: 0,
            first: lift::LIFTS_MOST as usize,
        }
    } else {
        visit::open_records(g)
    }
}

// The closed segment in a slot, by its header.
fn closed_in(nand: &[u8], slot: usize) -> Closed
    requires { slot * slot_width + slot_width ≤ length nand.now }
    ensures { result ≡ closed_in nand.now slot }
{
    let h = flash::pages_of(nand, slot, Page(flash::HEADER_LAST), 1);
    Closed {
        slot,
        count: header::count_in(h),
        buckets: header::buckets_in(h),
    }
}

// The open segment becomes segment S.
fn gather_open(
    nand: &[u8],
    nor: &[u8],
    page: &[u8],
    g: Log,
    q: Query,
    way: &mut [u16],
    sets: &mut [Bits],
) -> Result<(), Ground>
    requires log_sound { LogSound nand.now nor.now g × Room g way.old sets.old }
    requires page_len { length page.now ≡ page_width }
    ensures put { IfOk result (λ u. Puts (open_sweep nand.now nor.now page.now g q) g.slots (slot_of g.current g.slots)
        way.old sets.old way.new sets.new) }
    ensures damage { IfErr result (λ e. (e ≡ Damage) × ((open_sweep nand.now nor.now page.now g q).good ≡ false)) }
{
    let top = g.slots as usize;
    way[top] = flash::slot_of(g.current, g.slots) as u16;
    if g.count == 0 {
        sets[top] = Bits::empty();
        return Ok(());
    }
    let Some(set) = visit::open_matches(nand, nor, page, g, q) else {
        return Err(Ground::Damage);
    };
    sets[top] = set;
    Ok(())
}

// A closed segment becomes segment i.
fn gather_one(
    nand: &[u8],
    s: Closed,
    q: Query,
    i: usize,
    way: &mut [u16],
    sets: &mut [Bits],
) -> Result<(), Ground>
    requires closed_sound { ClosedSound nand.now s × (s.slot < 65536) }
    requires i_in_bounds { (i < length way.old) × (i < length sets.old) }
    ensures put { IfOk result (λ u. Puts (closed_sweep nand.now s q) i s.slot way.old sets.old way.new sets.new) }
    ensures damage { IfErr result (IsDamage (closed_rows nand.now s q)) }
{
    let Some(set) = visit::closed_matches(nand, s, q) else {
        return Err(Ground::Damage);
    };
    way[i] = s.slot as u16;
    sets[i] = set;
    Ok(())
}

// The closed segments from a cursor on; which one is the oldest.
fn gather_closed(
    nand: &[u8],
    g: Log,
    q: Query,
    c: Cursor,
    way: &mut [u16],
    sets: &mut [Bits],
) -> Result<usize, Ground>
    requires nand_len { (length nand.now ≡ g.slots * slot_width) × (1 ≤ q.k1) × Room g way.old sets.old }
    requires sound { Sound g.slots c }
    ensures { GathersAll nand.now g q way.old sets.old c way.new sets.new result }
{
    let mut at = c;
    let mut low = g.slots as usize;
    while let Some((s, d)) = ahead::onward(nand, g.slots, g.oldest, q, at)? {
        low -= 1;
        gather_one(nand, s, q, low, way, sets)?;
        at = d;
    }
    Ok(low)
}

// All segments of a log; which one is the oldest.
pub fn gather(
    nand: &[u8],
    nor: &[u8],
    page: &[u8],
    g: Log,
    q: Query,
    way: &mut [u16],
    sets: &mut [Bits],
) -> Result<usize, Ground>
    requires log_sound { LogSound nand.now nor.now g × Room g way.old sets.old }
    requires page_len { (length page.now ≡ page_width) × (1 ≤ q.k1) }
    ensures { Ends nand.now nor.now page.now g q
        (found_rows nand.now nor.now page.now g (serials_from g.oldest) q)
        way.new sets.new result }
{
    let c = walk::start_of(nand, g, q).at;
    if !c.good {
        return Err(Ground::Damage);
    }
    gather_open(nand, nor, page, g, q, way, sets)?;
    gather_closed(nand, g, q, c, way, sets)
}

// The set of one segment of a log that was gathered, made anew.
pub fn set_of(nand: &[u8], nor: &[u8], page: &[u8], g: Log, q: Query, way: &[u16], i: usize) -> Bits
    requires log_sound { LogSound nand.now nor.now g × (length page.now ≡ page_width) }
    requires i_in_bounds { (i < length way.now) × (g.slots < 65536)
        × (i < g.slots → ClosedSound nand.now (closed_in nand.now (get_or way.now i 0))) }
    ensures { result.words ≡ set_for nand.now nor.now page.now g q way.now i }
{
    if i < g.slots as usize {
        let s = closed_in(nand, way[i] as usize);
        return visit::closed_matches(nand, s, q).unwrap_or(Bits::empty());
    }
    if g.count == 0 {
        return Bits::empty();
    }
    visit::open_matches(nand, nor, page, g, q).unwrap_or(Bits::empty())
}
