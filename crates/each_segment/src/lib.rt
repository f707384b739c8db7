// Each segment that a question searches, in turn, the newest first (document 01, "Search"): where its records stand, and the set of its
// lifts that are found. Whoever goes through the lifts of a question, segment by segment, needs nothing else of the walk.
#![tactic(auto)]

ghost use Rattle.std.specs.Prelude.{◌≡◌, Some, IfOk, IfErr, MatchResult, List, ℕ, ◌+◌, ◌*◌, ◌≤◌, length};
ghost use Rattle.flash.specs.Chip.{page_width, slot_width};
ghost use Rattle.skiplist.specs.Skip.{serials_from};
ghost use Rattle.visit.specs.Visit.{closed_rows, open_rows};
ghost use Rattle.visit.specs.Inner.Sound.{ClosedSound, LogSound};
ghost use Rattle.walk.specs.Inner.Sound.{Sound, Begun};
ghost use Rattle.found.specs.Inner.Turns.{rows_after, all_rows};
ghost use Rattle.each_segment.specs.Inner.Turns.{AtHand, IsDamage, IsTurn, IsClosedTurn};

use bitset::Bits;
use found::ahead;
use grounds::Ground;
use sweep::Records;
use visit::{Closed, Log, Query};
use walk::Cursor;

// A segment at hand.
#[derive(Clone, Copy)]
pub struct Turn {
    // where the next one is looked for
    pub c: Cursor,
    // its slot, from which place on its records are in the page buffer, and its lifts that are found
    pub slot: usize,
    pub records: Records,
    pub set: Bits,
}

// The turn of a closed segment.
fn closed_turn(nand: &[u8], s: Closed, q: Query, c: Cursor) -> Result<Turn, Ground>
    requires { ClosedSound nand.now s }
    ensures turn { IfOk result (λ t. (page : List ℕ) → length page ≡ page_width
        → AtHand nand.now page (closed_rows nand.now s q) c t) }
    ensures damage { IfErr result (IsDamage (closed_rows nand.now s q)) }
{
    let Some(set) = visit::closed_matches(nand, s, q) else {
        return Err(Ground::Damage);
    };
    Ok(Turn {
        c,
        slot: s.slot,
        records: visit::closed_records(s),
        set,
    })
}

// The turn of the open segment.
fn open_turn(
    nand: &[u8],
    nor: &[u8],
    page: &[u8],
    g: Log,
    q: Query,
    c: Cursor,
) -> Result<Turn, Ground>
    requires log_sound { LogSound nand.now nor.now g }
    requires page_len { length page.now ≡ page_width }
    ensures turn { IfOk result (AtHand nand.now page.now (open_rows nand.now nor.now page.now g q) c) }
    ensures damage { IfErr result (IsDamage (open_rows nand.now nor.now page.now g q)) }
{
    let slot = flash::slot_of(g.current, g.slots);
    let records = visit::open_records(g);
    if g.count == 0 {
        return Ok(Turn {
            c,
            slot,
            records,
            set: Bits::empty(),
        });
    }
    let Some(set) = visit::open_matches(nand, nor, page, g, q) else {
        return Err(Ground::Damage);
    };
    Ok(Turn {
        c,
        slot,
        records,
        set,
    })
}

// The newest segment, the open one, whether it has lifts or not; c is where the closed ones begin.
pub fn first(
    nand: &[u8],
    nor: &[u8],
    page: &[u8],
    g: Log,
    q: Query,
    c: Cursor,
) -> Result<Turn, Ground>
    requires log_sound { LogSound nand.now nor.now g }
    requires page_len { length page.now ≡ page_width }
    requires begun { Begun g c }
    ensures turn { IfOk result (λ t. IsTurn nand.now g.slots (serials_from g.oldest) q page.now
        (all_rows nand.now nor.now page.now g (serials_from g.oldest) q c) (g.current + 1) (Some t)) }
    ensures damage { IfErr result (IsDamage (all_rows nand.now nor.now page.now g (serials_from g.oldest) q c)) }
{
    if !c.good {
        return Err(Ground::Damage);
    }
    open_turn(nand, nor, page, g, q, c)
}

// The next one, from where the last one left off.
pub fn next(
    nand: &[u8],
    slots: u64,
    oldest: u32,
    q: Query,
    c: Cursor,
) -> Result<Option<Turn>, Ground>
    requires nand_len { (length nand.now ≡ slots * slot_width) × (1 ≤ q.k1) }
    requires sound { Sound slots c }
    ensures turn { IfOk result (IsClosedTurn nand.now slots (serials_from oldest) q
        (rows_after nand.now slots (serials_from oldest) q c) c.before) }
    ensures damage { IfErr result (IsDamage (rows_after nand.now slots (serials_from oldest) q c)) }
{
    match ahead::onward(nand, slots, oldest, q, c)? {
        None => Ok(None),
        Some((s, d)) => Ok(Some(closed_turn(nand, s, q, d)?)),
    }
}
