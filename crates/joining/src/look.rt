// The first free lift of the second log that a lift of the first joins.
ghost use Rattle.std.specs.Prelude.{◌≡◌, ℕ, ◌+◌, ◌-◌, ◌*◌, ◌≤◌, ◌<◌, length, List};
ghost use Rattle.flash.specs.Chip.{page_width};
ghost use Rattle.bitset.specs.Inner.Words.{members, Below};
ghost use Rattle.sweep.specs.Inner.Swept.{Recorded};
ghost use Rattle.whole_log.specs.Inner.Held.{rows_on, places_in, Room};
ghost use Rattle.joining.specs.Inner.Looking.{fit_in, taken_of, left_of, ends, Looked};
ghost use Rattle.joining.specs.Inner.Passing.{ReadableFrom, Takes};

use bitset::Bits;
use sweep::Records;
use visit::Log;

// "later by 1 to 30,000 ms"
const LATER_MOST: u64 = 30000;

// The time and the member that are sought. Where the times of both logs never fall, a free lift that is not later than this time is later
// than none to come, so it loses its bit, and one that is too late ends the look.
#[derive(Clone, Copy)]
pub struct Sought {
    pub time: u64,
    pub member: u32,
    pub rising: bool,
}

// What a free lift is to the one that is sought for.
#[derive(Clone, Copy)]
enum Fit {
    Behind,
    Ahead,
    Joins,
    Other,
}

// How a look through one set ends: at the lift that is found, at one that is too late, or behind all of its lifts.
#[derive(Clone, Copy)]
enum End {
    Found(usize),
    Late,
    Through,
}

// What a look through one set leaves free, and how it ends.
#[derive(Clone, Copy)]
struct Look {
    left: Bits,
    end: End,
}

// A lift that is taken: its segment and its place.
#[derive(Clone, Copy)]
pub struct Taken {
    pub segment: usize,
    pub at: usize,
}

fn fit_of(lifts: &[u8], tail: &[u8], first: usize, p: usize, s: Sought) -> Fit
    requires { (p * 32 + 32 ≤ length lifts.now) × ((p - first) * 32 + 32 ≤ length tail.now) }
    ensures { result ≡ fit_in s lifts.now tail.now first p }
{
    let t = lift::time_in(lifts, tail, first, p);
    if t <= s.time {
        return Fit::Behind;
    }
    if LATER_MOST < t - s.time {
        return Fit::Ahead;
    }
    let m = lift::member_in(lifts, tail, first, p);
    if m == s.member {
        Fit::Joins
    } else {
        Fit::Other
    }
}

// A look through one set.
fn look_in(lifts: &[u8], tail: &[u8], g: Records, set: Bits, s: Sought) -> Look
    requires recorded { Recorded lifts.now tail.now g }
    requires below { Below g.count (members set.words) }
    ensures { Looked s.rising (fit_in s lifts.now tail.now g.first)
        (left_of s.rising (fit_in s lifts.now tail.now g.first) (members set.words))
        (taken_of s.rising (fit_in s lifts.now tail.now g.first) (members set.words))
        (ends s.rising (fit_in s lifts.now tail.now g.first) (members set.words)) result }
{
    let mut left = set;
    for p in set.places() {
        match fit_of(lifts, tail, g.first, p, s) {
            Fit::Other => {}
            Fit::Joins => {
                let without = left.remove(p);
                return Look {
                    left: without,
                    end: End::Found(p),
                };
            }
            Fit::Ahead => {
                if s.rising {
                    return Look {
                        left,
                        end: End::Late,
                    };
                }
            }
            Fit::Behind => {
                if s.rising {
                    left = left.remove(p);
                }
            }
        }
    }
    Look {
        left,
        end: End::Through,
    }
}

// The first segment from one on that has a free lift, or the open one.
pub fn first_left(free: &[Bits], from: usize, top: usize) -> usize
    requires { (from ≤ top) × (top < length free.now) × (top ≤ 4096) }
    ensures { (from ≤ result) × (result ≤ top) × ((row : ℕ → ℕ → List ℕ)
        → rows_on row (places_in free.now) result (top + 1 - result) ≡ rows_on row (places_in free.now) from (top + 1 - from)) }
{
    for i in from..top {
        let is_some = !free[i].is_empty();
        if is_some {
            return i;
        }
    }
    top
}

// The first free lift from a segment on that fits is taken.
pub fn take(
    nand: &[u8],
    page: &[u8],
    g: Log,
    way: &[u16],
    free: &mut [Bits],
    from: usize,
    s: Sought,
) -> Option<Taken>
    requires room { Room g way.now free.old × (length page.now ≡ page_width) }
    requires readable_from { ReadableFrom nand.now page.now g way.now free.old from }
    ensures { Takes nand.now page.now g way.now s free.old free.new from result }
{
    for i in from..=g.slots as usize {
        let lifts = whole_log::lifts_of(nand, way[i]);
        let at = whole_log::records_of(g, i);
        let k = look_in(lifts, page, at, free[i], s);
        free[i] = k.left;
        match k.end {
            End::Found(p) => return Some(Taken { segment: i, at: p }),
            End::Late => return None,
            End::Through => {}
        }
    }
    None
}
