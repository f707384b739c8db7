// From closed segment to closed segment (document 01, "Search"): one step, and on to the next one that is searched.
ghost use Rattle.std.specs.Prelude.{◌≡◌, ◌*◌, ◌≤◌, length};
ghost use Rattle.flash.specs.Chip.{slot_width};
ghost use Rattle.skiplist.specs.Skip.{serials_from};
ghost use Rattle.walk.specs.Advance.{advance_of};
ghost use Rattle.walk.specs.Inner.Sound.{Sound};
ghost use Rattle.found.specs.Inner.Turns.{bloom_on, LeadsOn};

use grounds::Ground;
use visit::{Closed, Query};
use walk::{Cursor, Step};

// One segment on, and its Bloom pages that hold a bit tried. Inlined, so that no cursor is copied on the way.
#[inline(always)]
pub(crate) fn one_on(nand: &[u8], slots: u64, oldest: u32, q: Query, c: Cursor) -> (Step, u8)
    requires nand_len { (length nand.now ≡ slots * slot_width) × (1 ≤ q.k1) }
    requires sound { Sound slots c }
    ensures step { result.0 ≡ advance_of nand.now slots (serials_from oldest) q c }
    ensures bloom { result.1 ≡ bloom_on nand.now slots (serials_from oldest) q c }
{
    if walk::at_end(c, oldest) {
        return (Step::End, 0);
    }
    let slot = c.next.slot;
    let seen = walk::look(nand, slots, q, slot, c.before);
    (walk::step_of(slot, seen), walk::bloom_of(seen))
}

// On to the next segment that is searched, past those that are passed over, with the cursor behind it; none is left, or damage is met.
pub fn onward(
    nand: &[u8],
    slots: u64,
    oldest: u32,
    q: Query,
    c: Cursor,
) -> Result<Option<(Closed, Cursor)>, Ground>
    requires nand_len { (length nand.now ≡ slots * slot_width) × (1 ≤ q.k1) }
    requires sound { Sound slots c }
    ensures { LeadsOn nand.now slots (serials_from oldest) q c result }
{
    let mut at = c;
    loop {
        let (step, _) = one_on(nand, slots, oldest, q, at);
        match step {
            Step::End => return Ok(None),
            Step::Damage => return Err(Ground::Damage),
            Step::Pass(d) => at = d,
            Step::Visit(s, d) => return Ok(Some((s, d))),
        }
    }
}
