// A lift written straight into the area of the state; a page or a section that it fills goes out from there.
#![tactic(auto)]

ghost use Rattle.std.specs.Prelude.{◌≡◌, cond, List, ℕ, ◌+◌, ◌*◌, ◌/◌, ◌%◌, ◌≤◌, eqb, ℤ, length};
ghost use Rattle.form.specs.declared.Form.TheVariants.{New};
ghost use Rattle.lift.specs.Rows.{lifts_most};
ghost use Rattle.flash.specs.Chip.{erased_page, programmed, nor_width, slot_width, tree_width};
ghost use Rattle.bloom.specs.Bloom.{empty_section};
ghost use Rattle.codec.specs.Area.{part, splice};
ghost use Rattle.codec.specs.Number.{number_at};
ghost use Rattle.state_bytes.specs.StateBytes.{state_bytes, state_in, loads_from, area_length};
ghost use Rattle.state_bytes.specs.Inner.Fields.{counters_of, span_of};
ghost use Rattle.in_place.specs.Inner.WithLift.{with_lift, nand_after, nor_after};
ghost use Rattle.store.specs.World.{state_given};

use flash::Page;
use lift::NOTE_BYTES;
use state_bytes::pieces;
use state_bytes::pieces::{Counters, Span};

// The fields before the heads after a lift.
fn counters_after(b: &[u8], time: u64, buckets: u8) -> Counters
    requires { (length b.now ≡ area_length New) × (number_at b.now 8 2 ≤ lifts_most) }
    ensures { (load : ℤ) (page section : List ℕ) → result
        ≡ counters_of (state_given (state_in b.now) time load time buckets page section) }
{
    Counters {
        oldest: codec::get_u32(b, pieces::OLDEST_AT),
        current: codec::get_u32(b, pieces::CURRENT_AT),
        count: codec::get_u16(b, pieces::COUNT_AT) + 1,
        buckets,
        next: time,
    }
}

// Those behind the buffers.
fn span_after(b: &[u8], time: u64, load: i32) -> Span
    requires { length b.now ≡ area_length New }
    ensures { (buckets : ℕ) (page section : List ℕ) → result
        ≡ span_of (state_given (state_in b.now) time load time buckets page section) }
{
    let count = codec::get_u16(b, pieces::COUNT_AT);
    let start = codec::get_u64(b, pieces::START_AT);
    let low = loads::load_at(b, pieces::LOW_AT);
    let high = loads::load_at(b, pieces::HIGH_AT);
    Span {
        start: append_parts::start_after(count, start, time),
        low: bounds::low_after(count, low, load),
        high: bounds::high_after(count, high, load),
    }
}

// A full page goes to NAND, and the page buffer is blank.
fn flush_page(b: &mut [u8], nand: &mut [u8], slot: usize, count: u16)
    requires { (length b.old ≡ area_length New) × (slot * slot_width + slot_width ≤ length nand.old) × (count ≤ lifts_most) }
    ensures area { b.new
        ≡ cond (eqb (count % 16) 15) (splice b.old (loads_from New + 52) erased_page) b.old }
    ensures nand { nand.new ≡ cond (eqb (count % 16) 15)
        (programmed nand.old slot (count / 16) (part b.old (loads_from New + 52) 512)) nand.old }
{
    let n = count as usize;
    if n % lift::LIFTS_PER_PAGE != append_parts::LAST_IN_PAGE {
        return;
    }
    let to = flash::page_at(slot, Page(n / lift::LIFTS_PER_PAGE));
    codec::copy_long(nand, to, &b[pieces::PAGE_AT..pieces::BLOOM_AT]);
    codec::fill(b, pieces::PAGE_AT, flash::PAGE_BYTES, 255);
}

// A full section goes to NOR, and the Bloom buffer is empty.
fn flush_section(b: &mut [u8], nor: &mut [u8], count: u16)
    requires { (length b.old ≡ area_length New) × (length nor.old ≡ nor_width) × (count ≤ lifts_most) }
    ensures area { b.new
        ≡ cond (eqb (count % 64) 63) (splice b.old (loads_from New + 564) empty_section) b.old }
    ensures nor { nor.new ≡ cond (eqb (count % 64) 63)
        (splice nor.old (tree_width + count / 64 * 128) (part b.old (loads_from New + 564) 128)) nor.old }
{
    let n = count as usize;
    if n % bloom::LIFTS_PER_SECTION != append_parts::LAST_IN_SECTION {
        return;
    }
    let to = flash::TREE_BYTES + n / bloom::LIFTS_PER_SECTION * bloom::SECTION_BYTES;
    codec::copy(nor, to, &b[pieces::BLOOM_AT..pieces::START_AT]);
    codec::fill(b, pieces::BLOOM_AT, bloom::SECTION_BYTES, 0);
}

// The lift with its bucket count: its record and bits go into the buffers where they stand, and a buffer that is full goes out from
// there. The heads are not touched.
pub fn put_lift(
    b: &mut [u8],
    nand: &mut [u8],
    nor: &mut [u8],
    slot: usize,
    time: u64,
    code: u32,
    load: i32,
    note: [u8; NOTE_BYTES],
    buckets: u8,
)
    requires b_len { (length b.old ≡ area_length New) × (number_at b.old 8 2 ≤ lifts_most) × (1 ≤ code) }
    requires slot_width_in_bounds { (slot * slot_width + slot_width ≤ length nand.old) × (length nor.old ≡ nor_width) }
    ensures area { b.new ≡ state_bytes (with_lift (state_in b.old) time code load note buckets) }
    ensures nand { nand.new ≡ nand_after nand.old slot (state_in b.old) time code note }
    ensures nor { nor.new ≡ nor_after nor.old (state_in b.old) code }
{
    let n = codec::get_u16(b, pieces::COUNT_AT);
    let old = loads::loads_at(b, pieces::LOADS_AT);
    let loads = bounds::pushed(old, n, load);
    let c = counters_after(b, time, buckets);
    let s = span_after(b, time, load);
    let at = pieces::PAGE_AT + (n as usize) % lift::LIFTS_PER_PAGE * lift::RECORD_BYTES;
    append_parts::put_record(b, at, time, code, note);
    flush_page(b, nand, slot, n);
    bloom::note_at(b, pieces::BLOOM_AT, code);
    flush_section(b, nor, n);
    pieces::put_rest(b, c, loads, s);
}
