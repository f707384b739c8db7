// What the calls that keep counts do besides the plain ones, which the calls over byte areas share: ground 3 of the counts, and the counts
// after a forced drop.
ghost use Rattle.std.specs.Prelude.{◌≡◌, ◌-◌, ◌*◌, ◌^◌, ◌≤◌, ◌<◌, length};
ghost use Rattle.grounds.specs.Numbers.{number_in};
ghost use Rattle.flash.specs.Chip.{slot_width};
ghost use Rattle.grow.specs.Inner.Meaning.{meaning};
ghost use Rattle.counts.specs.Inner.Down.{down_of};
ghost use Rattle.store.specs.World.{World};
ghost use Rattle.store.specs.Calls.{room_world, drops_first};
ghost use Rattle.store.specs.Inner.Fields.{fields_of};
ghost use Rattle.keeping.specs.Keeping.{with_ground};
ghost use Rattle.keeping.specs.Inner.Shedding.{open_then, shed_from, shed_if};

use grounds::Ground;
use grow::Plan;
use plate::PLATES;
use store::fields::Fields;

// The grounds before and after it, with ground 3 of the counts.
pub fn with_ground_3(r: Result<(), Ground>, broken: bool) -> Result<(), Ground>
    ensures { number_in result ≡ with_ground 3 broken (number_in r) }
{
    if broken {
        bounds::sooner(Err(Ground::State), r)
    } else {
        r
    }
}

// The open serial when a forced drop comes: the next one where the open segment has lifts, since it closes first.
fn open_then(current: u32, count: u16) -> u32
    requires { current < 2 ^ 32 - 1 }
    ensures { result ≡ open_then current count }
{
    if count == 0 {
        return current;
    }
    current + 1
}

// The counts after a forced drop; none where damage is met. They are read before anything is written: a close does not touch the slot of the segment that goes.
pub fn shed(
    counts: [u32; PLATES],
    nand: &[u8],
    slots: u64,
    oldest: u32,
    current: u32,
    count: u16,
) -> Option<[u32; PLATES]>
    requires { (length nand.now ≡ slots * slot_width) × (1 ≤ slots) × (1 ≤ oldest) × (current < 2 ^ 32 - 1) }
    ensures { down_of result ≡ shed_from nand.now slots oldest current count counts }
{
    let slot = flash::slot_of(oldest, slots);
    let before = open_then(current, count);
    counts::without_segment(nand, slots, slot, before, counts)
}

// The counts after a drop, if the append forces one.
pub fn shed_if_due(
    f: Fields,
    counts: [u32; PLATES],
    nand: &[u8],
    slots: u64,
    p: Plan,
) -> Option<[u32; PLATES]>
    requires { (length nand.now ≡ slots * slot_width) × (1 ≤ slots) × (1 ≤ f.oldest) × (f.oldest ≤ f.current)
        × (f.current < 2 ^ 32 - 1) }
    ensures { (w : World) → fields_of w.state ≡ f
        → down_of result ≡ shed_if (drops_first (room_world w slots (meaning p)).state slots) nand.now slots f.oldest f.current
        f.count counts }
{
    if !f.sheds(slots, p) {
        return Some(counts);
    }
    shed(counts, nand, slots, f.oldest, f.current, f.count)
}
