// Whether the times of a log's lifts never fall.
ghost use Rattle.std.specs.Prelude.{◌≡◌, true, IfSome, map, ℕ, ◌≤◌, length};
ghost use Rattle.flash.specs.Chip.{page_width};
ghost use Rattle.lift.specs.Rows.{record_in};
ghost use Rattle.bitset.specs.Inner.Words.{members, Below};
ghost use Rattle.whole_log.specs.Inner.Held.{rows_held, Room, Readable};
ghost use Rattle.whole_log.specs.Inner.Rising.{Rising, Rises};

use bitset::Bits;
use lift::Lifts;
use visit::Log;

// The last time of one segment's lifts, behind a time; none where one fell.
fn rises_in(lifts: Lifts, set: Bits, from: u64) -> Option<u64>
    requires { Below lifts.count (members set.words) }
    ensures { IfSome result (Rises from
        (map (record_in lifts.entry.pages.now lifts.entry.tail.now lifts.entry.first) (members set.words))) }
{
    let mut last = from;
    for p in set.places() {
        let t = lifts.time(p);
        let has_fallen = t < last;
        if has_fallen {
            return None;
        }
        last = t;
    }
    Some(last)
}

// All segments from the oldest one on.
pub fn rises(nand: &[u8], page: &[u8], g: Log, way: &[u16], sets: &[Bits], low: usize) -> bool
    requires room { Room g way.now sets.now × (length page.now ≡ page_width) }
    requires by_index { (i : ℕ) → low ≤ i → i ≤ g.slots → Readable nand.now page.now g way.now sets.now i }
    ensures { result ≡ true
        → Rising 0 (rows_held nand.now page.now g way.now sets.now low) }
{
    let mut last = 0;
    for i in low..=g.slots as usize {
        let pages = crate::lifts_of(nand, way[i]);
        let at = crate::records_of(g, i);
        let lifts = Lifts {
            pages,
            tail: page,
            first: at.first,
            count: at.count,
        };
        let Some(t) = rises_in(lifts, sets[i], last) else {
            return false;
        };
        last = t;
    }
    true
}
