// Pairs of two logs in hand (document 02, W-208): each lift of the first, in turn, joins the first free lift of the second that fits it.
// A lift that is joined loses its bit in the sets of the second log.
#![tactic(auto)]

pub mod look;

ghost use Rattle.std.specs.Prelude.{◌≡◌, cond, [], ◌∷◌, ◌++◌, map, ℕ, ◌+◌, ◌-◌, ◌*◌, ◌^◌, ◌≤◌, ◌<◌, ltb, length};
ghost use Rattle.codec.specs.Area.{splice};
ghost use Rattle.flash.specs.Chip.{page_width};
ghost use Rattle.bitset.specs.Inner.Words.{members, Below};
ghost use Rattle.lift.specs.Rows.{record_in};
ghost use Rattle.sweep.specs.Inner.Swept.{Recorded};
ghost use Rattle.visit.specs.Inner.Sound.{LogSound};
ghost use Rattle.whole_log.specs.Inner.Held.{Room};
ghost use Rattle.joining.specs.Inner.Passing.{ReadableFrom, JoinsOn, Lent, lent_rows, Joined};

use bitset::Bits;
use look::Sought;
use sweep::Records;
use visit::{Log, Query};

// Pairs on their way: no segment of the second log before `from` has a free lift, and so many pairs were made.
#[derive(Clone, Copy)]
struct Joining {
    from: usize,
    count: u64,
}

// The record of a lift of the first log and that of a lift of the second go to row `row` of the area, if it is among the first `rows`.
fn put_pair(
    area: &mut [u8],
    rows: u64,
    row: u64,
    lifts1: &[u8],
    tail1: &[u8],
    first1: usize,
    p1: usize,
    lifts2: &[u8],
    tail2: &[u8],
    first2: usize,
    p2: usize,
)
    requires p1_in_bounds { (p1 * 32 + 32 ≤ length lifts1.now) × ((p1 - first1) * 32 + 32 ≤ length tail1.now) }
    requires p2_in_bounds { (p2 * 32 + 32 ≤ length lifts2.now) × ((p2 - first2) * 32 + 32 ≤ length tail2.now) }
    requires rows_in_bounds { rows * 64 ≤ length area.old }
    ensures { area.new ≡ cond (ltb row rows) (splice area.old (row * 64)
        (record_in lifts1.now tail1.now first1 p1 ++ record_in lifts2.now tail2.now first2 p2))
        area.old }
{
    if rows <= row {
        return;
    }
    let to = 2 * (row as usize);
    lift::put_row(area, to, lifts1, tail1, first1, p1);
    lift::put_row(area, to + 1, lifts2, tail2, first2, p2);
}

// One lift of the first log. Its pair is written if it is among the first `rows`.
fn join_lift(
    area: &mut [u8],
    rows: u64,
    lifts: &[u8],
    tail: &[u8],
    first: usize,
    p: usize,
    nand: &[u8],
    page: &[u8],
    g: Log,
    way: &[u16],
    free: &mut [Bits],
    rising: bool,
    j: Joining,
) -> Joining
    requires p_in_bounds { (p * 32 + 32 ≤ length lifts.now) × ((p - first) * 32 + 32 ≤ length tail.now) }
    requires room { Room g way.now free.old × (length page.now ≡ page_width) }
    requires readable_from { ReadableFrom nand.now page.now g way.now free.old j.from }
    requires rows_in_bounds { (rows * 64 ≤ length area.old) × (j.count + 1 < 2 ^ 64) }
    ensures { JoinsOn nand.now page.now g way.now rising rows
        (record_in lifts.now tail.now first p ∷ [])
        free.old area.old j free.new area.new result }
{
    let member = lift::member_in(lifts, tail, first, p);
    let is_nobody = member == 0;
    if is_nobody {
        return j;
    }
    let time = lift::time_in(lifts, tail, first, p);
    let from = look::first_left(free, j.from, g.slots as usize);
    let s = Sought {
        time,
        member,
        rising,
    };
    let count = j.count;
    let Some(k) = look::take(nand, page, g, way, free, from, s) else {
        return Joining { from, count };
    };
    let lifts2 = whole_log::lifts_of(nand, way[k.segment]);
    let at = whole_log::records_of(g, k.segment);
    put_pair(
        area, rows, count, lifts, tail, first, p, lifts2, page, at.first, k.at,
    );
    Joining {
        from,
        count: count + 1,
    }
}

// The lifts of a set of the first log.
fn join_set(
    area: &mut [u8],
    rows: u64,
    lifts: &[u8],
    tail: &[u8],
    at: Records,
    set: Bits,
    nand: &[u8],
    page: &[u8],
    g: Log,
    way: &[u16],
    free: &mut [Bits],
    rising: bool,
    j0: Joining,
) -> Joining
    requires recorded { Recorded lifts.now tail.now at × Below at.count (members set.words) }
    requires room { Room g way.now free.old × (length page.now ≡ page_width) }
    requires readable_from { ReadableFrom nand.now page.now g way.now free.old j0.from }
    requires rows_in_bounds { (rows * 64 ≤ length area.old) × (j0.count + 320 < 2 ^ 64) }
    ensures { JoinsOn nand.now page.now g way.now rising rows
        (map (record_in lifts.now tail.now at.first) (members set.words))
        free.old area.old j0 free.new area.new result }
{
    let mut j = j0;
    for p in set.places() {
        j = join_lift(
            area, rows, lifts, tail, at.first, p, nand, page, g, way, free, rising, j,
        );
    }
    j
}

// All lifts of the first log, from its oldest segment on; how many pairs there are.
pub fn join_all(
    area: &mut [u8],
    rows: u64,
    nand1: &[u8],
    nor1: &[u8],
    page1: &[u8],
    g1: Log,
    q: Query,
    way1: &[u16],
    low1: usize,
    nand2: &[u8],
    page2: &[u8],
    g2: Log,
    way2: &[u16],
    free: &mut [Bits],
    low2: usize,
    rising: bool,
) -> u64
    requires log_sound { LogSound nand1.now nor1.now g1 × (length page1.now ≡ page_width) }
    requires slots_in_bounds { (g1.slots < length way1.now) × (g1.slots ≤ 4096) × (low1 ≤ g1.slots) }
    requires by_index { (i : ℕ) → low1 ≤ i → i ≤ g1.slots → Lent nand1.now nor1.now page1.now g1 q way1.now i }
    requires room { Room g2 way2.now free.old × (length page2.now ≡ page_width) × (rows * 64 ≤ length area.old) }
    requires readable_from { ReadableFrom nand2.now page2.now g2 way2.now free.old low2 }
    ensures { Joined nand2.now page2.now g2 way2.now rising rows
        (lent_rows nand1.now nor1.now page1.now g1 q way1.now low1)
        free.old low2 area.old area.new result }
{
    let mut j = Joining {
        from: low2,
        count: 0,
    };
    for i in low1..=g1.slots as usize {
        let set = whole_log::set_of(nand1, nor1, page1, g1, q, way1, i);
        let lifts = whole_log::lifts_of(nand1, way1[i]);
        let at = whole_log::records_of(g1, i);
        j = join_set(
            area, rows, lifts, page1, at, set, nand2, page2, g2, way2, free, rising, j,
        );
    }
    j.count
}
