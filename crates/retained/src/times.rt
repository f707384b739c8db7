// Going back, all retained lift times are read: each is to be later than the one before it (document 02, W-203).
ghost use Rattle.std.specs.Prelude.{◌≡◌, ◌+◌, ◌-◌, ◌*◌, ◌≤◌, length};
ghost use Rattle.flash.specs.Chip.{slot_width};
ghost use Rattle.lift.specs.Rows.{lifts_most};
ghost use Rattle.codec.specs.Number.{number_at};
ghost use Rattle.carry.specs.Carried.{header_of};
ghost use Rattle.retained.specs.Retained.{segment_times, closed_times, times_from, rises};
ghost use Rattle.retained.specs.Inner.Loops.{rise_with, rise_over, not_yet, times_of, CountsFit};

use crate::headers;
use carry::Serials;
use flash::{PAGE_BYTES, Page};

// The times so far: whether each was later than the one before it, and the last one if there was any.
#[derive(Clone, Copy)]
pub struct Rise {
    pub rising: bool,
    pub last: Option<u64>,
}

fn rise_with(r: Rise, time: u64) -> Rise
    ensures { result ≡ rise_with r time }
{
    let is_later = match r.last {
        None => true,
        Some(last) => last < time,
    };
    Rise {
        rising: r.rising & is_later,
        last: Some(time),
    }
}

// One segment's lifts: those before place `first` stand in `lifts`, the others in `tail`.
fn rise_in(lifts: &[u8], tail: &[u8], first: usize, count: usize, r: Rise) -> Rise
    requires { (length lifts.now ≡ 10240) × (512 ≤ length tail.now) × (count ≤ lifts_most) × (count - first ≤ 16) }
    ensures { result ≡ rise_over r (segment_times lifts.now tail.now first count) }
{
    let mut q = r;
    for p in 0..count {
        q = rise_with(q, lift::time_in(lifts, tail, first, p));
    }
    q
}

// The closed segment of serial n.
fn rise_closed(nand: &[u8], slots: u64, n: u32, r: Rise) -> Rise
    requires { (length nand.now ≡ slots * slot_width) × (1 ≤ slots) × (1 ≤ n) × (number_at (header_of nand.now slots n) 4 2 ≤ lifts_most) }
    ensures { result ≡ rise_over r (closed_times nand.now slots n) }
{
    let count = header::count_in(headers::header_at(nand, slots, n));
    let slot = flash::slot_of(n, slots);
    let lifts = flash::pages_of(nand, slot, Page(0), flash::TREE_FIRST);
    rise_in(lifts, lifts, lift::LIFTS_MOST as usize, count as usize, r)
}

// All closed segments, oldest first.
fn rise_all(nand: &[u8], s: Serials) -> Rise
    requires nand_len { (length nand.now ≡ s.slots * slot_width) × (1 ≤ s.slots) × (1 ≤ s.oldest) × (s.oldest ≤ s.current) }
    requires counts_fit { CountsFit nand.now s }
    ensures { result ≡ rise_over not_yet (times_from nand.now s.slots (s.current - s.oldest) s.oldest) }
{
    let mut q = Rise {
        rising: true,
        last: None,
    };
    for n in s.oldest..s.current {
        q = rise_closed(nand, s.slots, n, q);
    }
    q
}

// And then the open segment, whose last lifts are in the page buffer.
pub fn all_rise(nand: &[u8], s: Serials, page: [u8; PAGE_BYTES], count: u16) -> bool
    requires nand_len { (length nand.now ≡ s.slots * slot_width) × (1 ≤ s.slots) × (1 ≤ s.oldest) × (s.oldest ≤ s.current) × (count ≤ lifts_most) }
    requires counts_fit { CountsFit nand.now s }
    ensures { result ≡ rises (times_of nand.now s page count) }
{
    let closed = rise_all(nand, s);
    let slot = flash::slot_of(s.current, s.slots);
    let lifts = flash::pages_of(nand, slot, Page(0), flash::TREE_FIRST);
    let n = count as usize;
    let r = rise_in(
        lifts,
        &page,
        n / lift::LIFTS_PER_PAGE * lift::LIFTS_PER_PAGE,
        n,
        closed,
    );
    r.rising
}
