// A search from segment to segment (document 01, "Search"): the skip walk, then level 1.
#![tactic(auto)]

ghost use Rattle.std.specs.Prelude.{◌≡◌, not, ◌||◌, ℕ, suc, ◌+◌, ◌*◌, ◌<◌, ◌≤◌, length, get_or};
ghost use Rattle.codec.specs.Number.{number_at};
ghost use Rattle.flash.specs.Chip.{page_width, slot_width};
ghost use Rattle.form.specs.declared.Form.TheVariants.{New};
ghost use Rattle.header.specs.Header.{header_in};
ghost use Rattle.lift.specs.Rows.{lifts_most};
ghost use Rattle.skiplist.specs.Skip.{levels, none, is_live, serials_from};
ghost use Rattle.visit.specs.Inner.Sound.{InSlots};
ghost use Rattle.walk.specs.Seek.{skip_walk, start_of, moves_of};
ghost use Rattle.walk.specs.Advance.{is_passed, bloom_read};
ghost use Rattle.walk.specs.Inner.Placed.{Inside, PlaceSound, pointers_of, loaded_at, walk_at, walked_on};
ghost use Rattle.walk.specs.Inner.Seen.{seen_at, bloom_seen, cursor_of, step_of, bloom_of};

use flash::Page;
use form::Form;
use skiplist::{LEVELS, Pointer};
use visit::{Closed, Log, Query};

// The next segment to go to, the serial before it, and whether the last one has been done. Its flags stand as they are, since the theorems
// on a search from segment to segment (`advance_of`, `start_of`) speak of them, of a cursor that has met damage too.
#[derive(Clone, Copy)]
pub struct Cursor {
    // no damage on the way so far
    pub good: bool,
    // the last segment has been done
    pub last: bool,
    // the next segment, by its level 1 pointer; the serial of the header before it, or the open serial
    pub next: Pointer,
    pub before: u32,
}

// Where the closed segments begin, and how many segments the skip walk has moved onto to find it.
#[derive(Clone, Copy)]
pub struct Start {
    pub at: Cursor,
    pub moves: u64,
}

#[derive(Clone, Copy)]
pub enum Step {
    End,
    Damage,
    Pass(Cursor),
    Visit(Closed, Cursor),
}

// A closed segment as its header shows it: damage, passed over, or to be searched with so many lifts and buckets; then, of the cursor
// behind it, whether it is the last, where its pointer goes, and its own serial; then its Bloom pages that hold a bit tried. Numbers and
// no cursor within: a search hands one on for each segment, and a struct inside would be copied at each.
#[derive(Clone, Copy)]
pub enum Seen {
    Spoilt,
    Passed {
        last: bool,
        to: u16,
        serial: u32,
        time: u64,
        before: u32,
        bloom: u8,
    },
    Searched {
        count: u16,
        buckets: u8,
        last: bool,
        to: u16,
        serial: u32,
        time: u64,
        before: u32,
        bloom: u8,
    },
}

// Whether a closed segment is passed over, and how many of its Bloom pages hold a bit that was tried for it, which may be some either way.
#[derive(Clone, Copy)]
struct Passing {
    passed: bool,
    bloom: u8,
}

// Where the skip walk stands: at the heads of the state, or at the header in a slot. It keeps the place and not the pointers: these are
// read from the header's bytes when they are needed.
#[derive(Clone, Copy)]
struct Place {
    // no damage so far; where there was, `start_of` still promises the cursor and the moves
    good: bool,
    slot: usize,
    // the serial of the header loaded last, or the open serial
    before: u32,
    // the segments that it has moved onto; none while it stands at the heads
    moves: u64,
}

// The pointer of level k + 1.
fn pointer_of(pointers: [Pointer; LEVELS], k: usize) -> Pointer
    requires { k < levels }
    ensures { result ≡ get_or pointers k none }
{
    pointers[k]
}

// The pointer of level k + 1 where the walk stands.
fn pointer_from(nand: &[u8], heads: [Pointer; LEVELS], w: Place, k: usize) -> Pointer
    requires { Inside nand.now w × (k < levels) }
    ensures { result ≡ get_or (pointers_of nand.now heads w) k none }
{
    if w.moves == 0 {
        return pointer_of(heads, k);
    }
    let page = flash::pages_of(nand, w.slot, Page(flash::HEADER_LAST), 1);
    header::pointer_in(page, Form::New, k)
}

// The header in a slot is loaded, by this move.
fn loaded(nand: &[u8], slots: u64, slot: usize, before: u32, moves: u64) -> Place
    requires { slot * slot_width + slot_width ≤ length nand.now }
    ensures { result ≡ loaded_at nand.now slots slot before moves }
{
    let page = flash::pages_of(nand, slot, Page(flash::HEADER_LAST), 1);
    Place {
        good: header::header_good(page, Form::New, slots, before),
        slot,
        before: header::serial_in(page),
        moves,
    }
}

// On at level k + 1, while its pointer is live and its time is above t2.
fn along(
    nand: &[u8],
    slots: u64,
    heads: [Pointer; LEVELS],
    oldest: u32,
    t2: u64,
    k: usize,
    from: Place,
) -> Place
    requires nand_len { (length nand.now ≡ slots * slot_width) × (k < levels) }
    requires place_sound { PlaceSound nand.now slots heads from }
    ensures leads { walked_on nand.now slots (serials_from oldest) t2 (walk_at nand.now heads k result)
        ≡ walked_on nand.now slots (serials_from oldest) t2 (walk_at nand.now heads (suc k) from) }
    ensures sound { PlaceSound nand.now slots heads result }
{
    let mut w = from;
    loop {
        let p = pointer_from(nand, heads, w, k);
        let onward = w.good & (p.is_live(oldest) & (t2 < p.time));
        if !onward {
            return w;
        }
        w = loaded(nand, slots, p.slot as usize, w.before, w.moves + 1);
    }
}

// By the skip pointers, level 4 down to 1, to the newest closed segment with start not above t2.
fn seek(nand: &[u8], g: Log, t2: u64) -> Place
    requires nand_len { length nand.now ≡ g.slots * slot_width }
    requires in_slots { InSlots g.slots g.heads }
    ensures leads { walk_at nand.now g.heads 0 result ≡ skip_walk nand.now g (serials_from g.oldest) t2 }
    ensures inside { Inside nand.now result }
{
    let heads = g.heads;
    let w = Place {
        good: true,
        slot: 0,
        before: g.current,
        moves: 0,
    };
    let a = along(nand, g.slots, heads, g.oldest, t2, 3, w);
    let b = along(nand, g.slots, heads, g.oldest, t2, 2, a);
    let c = along(nand, g.slots, heads, g.oldest, t2, 1, b);
    along(nand, g.slots, heads, g.oldest, t2, 0, c)
}

// Where the closed segments begin; at the end where the open one has lifts and its start is below t1: then no walk takes place.
pub fn start_of(nand: &[u8], g: Log, q: Query) -> Start
    requires nand_len { length nand.now ≡ g.slots * slot_width }
    requires in_slots { InSlots g.slots g.heads }
    ensures at { result.at ≡ start_of nand.now g (serials_from g.oldest) q }
    ensures moves { result.moves ≡ moves_of nand.now g (serials_from g.oldest) q }
{
    let done = !(g.count == 0) & (g.start < q.t1);
    if done {
        return Start {
            at: Cursor {
                good: true,
                last: true,
                next: Pointer::NONE,
                before: g.current,
            },
            moves: 0,
        };
    }
    let w = seek(nand, g, q.t2);
    Start {
        at: Cursor {
            good: w.good,
            last: !w.good,
            next: pointer_from(nand, g.heads, w, 0),
            before: w.before,
        },
        moves: w.moves,
    }
}

// Its load span misses the range or, for equal loads, its Bloom pages miss the load. h is its header page.
fn pass_over(nand: &[u8], slot: usize, h: &[u8], q: Query) -> Passing
    requires slot_width_in_bounds { (slot * slot_width + slot_width ≤ length nand.now) × (length h.now ≡ page_width) × (1 ≤ q.k1) }
    requires bound { (1 ≤ number_at h.now 4 2) × (number_at h.now 4 2 ≤ lifts_most) }
    ensures { (slots before : ℕ)
        → (result.passed ≡ is_passed nand.now slot (header_in New h.now slots before) q)
        × (result.bloom ≡ bloom_read nand.now slot (header_in New h.now slots before) q) }
{
    let misses = (header::high_in(h) < q.k1) | (q.k2 < header::low_in(h));
    if misses {
        return Passing {
            passed: true,
            bloom: 0,
        };
    }
    if q.k1 < q.k2 {
        return Passing {
            passed: false,
            bloom: 0,
        };
    }
    let pages = flash::pages_of(nand, slot, Page(flash::BLOOM_FIRST), 2);
    let count = header::count_in(h);
    let t = bloom::try_bits(pages, count, q.k1);
    Passing {
        passed: !t.held,
        bloom: t.pages,
    }
}

// What is seen of the segment in a slot. In numbers alone, so that it stays a call that copies nothing.
pub fn look(nand: &[u8], slots: u64, q: Query, slot: u16, before: u32) -> Seen
    requires { (slot * slot_width + slot_width ≤ length nand.now) × (1 ≤ q.k1) }
    ensures step { step_of slot result ≡ seen_at nand.now slots q slot before }
    ensures bloom { bloom_of result ≡ bloom_seen nand.now slots q slot before }
{
    let at = slot as usize;
    let h = flash::pages_of(nand, at, Page(flash::HEADER_LAST), 1);
    let good = header::header_good(h, Form::New, slots, before);
    if !good {
        return Seen::Spoilt;
    }
    let first = header::pointer_in(h, Form::New, 0);
    let last = header::start_in(h) < q.t1;
    let serial = header::serial_in(h);
    let p = pass_over(nand, at, h, q);
    if p.passed {
        return Seen::Passed {
            last,
            to: first.slot,
            serial: first.serial,
            time: first.time,
            before: serial,
            bloom: p.bloom,
        };
    }
    Seen::Searched {
        count: header::count_in(h),
        buckets: header::buckets_in(h),
        last,
        to: first.slot,
        serial: first.serial,
        time: first.time,
        before: serial,
        bloom: p.bloom,
    }
}

// The Bloom pages that hold a bit tried in a segment that was seen.
pub fn bloom_of(seen: Seen) -> u8
    ensures { result ≡ bloom_of seen }
{
    match seen {
        Seen::Spoilt => 0,
        Seen::Passed { bloom, .. } => bloom,
        Seen::Searched { bloom, .. } => bloom,
    }
}

// The last segment has been done, or there is none to go to.
pub fn at_end(c: Cursor, oldest: u32) -> bool
    ensures { result ≡ (c.last || not (is_live c.next (serials_from oldest))) }
{
    c.last | !c.next.is_live(oldest)
}

fn cursor_at(last: bool, slot: u16, serial: u32, time: u64, before: u32) -> Cursor
    ensures { result ≡ cursor_of last slot serial time before }
{
    Cursor {
        good: true,
        last,
        next: Pointer::new(slot, serial, time),
        before,
    }
}

// One segment on, from what was seen of it.
pub fn step_of(slot: u16, seen: Seen) -> Step
    ensures { result ≡ step_of slot seen }
{
    match seen {
        Seen::Spoilt => Step::Damage,
        Seen::Passed {
            last,
            to,
            serial,
            time,
            before,
            ..
        } => Step::Pass(cursor_at(last, to, serial, time, before)),
        Seen::Searched {
            count,
            buckets,
            last,
            to,
            serial,
            time,
            before,
            ..
        } => {
            let s = Closed {
                slot: slot as usize,
                count,
                buckets,
            };
            Step::Visit(s, cursor_at(last, to, serial, time, before))
        }
    }
}
