// The parts of an append that need no state: what its plan says, and the buffers after a lift (document 01, "Segments", "State").
#![tactic(auto)]

ghost use Rattle.std.specs.Prelude.{◌≡◌, cond, not, ◌&&◌, ◌||◌, ◌+◌, ◌-◌, ◌*◌, ◌/◌, ◌%◌, ◌≤◌, eqb, leb, length};
ghost use Rattle.lift.specs.Record.{record_bytes, record_width};
ghost use Rattle.lift.specs.Rows.{lifts_most};
ghost use Rattle.codec.specs.Area.{part, splice, all_ones};
ghost use Rattle.flash.specs.Chip.{erased_page, page_erased, programmed, nor_width, page_width, slot_width, tree_width};
ghost use Rattle.bloom.specs.Bloom.{empty_section};
ghost use Rattle.tree.specs.Plan.{is_damaged, is_no_room};
ghost use Rattle.grow.specs.Inner.Meaning.{meaning};

use bloom::SECTION_BYTES;
use flash::{PAGE_BYTES, Page};
use grow::Plan;
use lift::NOTE_BYTES;

// The place of the lift that fills a page, and a section.
pub const LAST_IN_PAGE: usize = lift::LIFTS_PER_PAGE - 1;

pub const LAST_IN_SECTION: usize = bloom::LIFTS_PER_SECTION - 1;

pub fn blank_page() -> [u8; PAGE_BYTES]
    ensures { result ≡ erased_page }
{
    [255u8; PAGE_BYTES]
}

// A record in an area, from `at` on.
pub fn put_record(s: &mut [u8], at: usize, time: u64, code: u32, note: [u8; NOTE_BYTES])
    requires { at + record_width ≤ length s.old }
    ensures { s.new ≡ splice s.old at (record_bytes time code note) }
{
    codec::put_u64(s, at, time);
    codec::put_u32(s, at + lift::CODE_AT, code);
    codec::copy(s, at + lift::NOTE_AT, &note);
}

// The page with a record from `at` on.
pub fn with_record(
    page: [u8; PAGE_BYTES],
    at: usize,
    time: u64,
    code: u32,
    note: [u8; NOTE_BYTES],
) -> [u8; PAGE_BYTES]
    requires { at + record_width ≤ page_width }
    ensures { result ≡ splice page at (record_bytes time code note) }
{
    let mut p = page;
    put_record(&mut p, at, time, code, note);
    p
}

pub fn is_damaged_plan(p: Plan) -> bool
    ensures { result ≡ is_damaged (meaning p) }
{
    matches!(p, Plan::Damage)
}

// The segment closes first.
pub fn is_full(p: Plan) -> bool
    ensures { result ≡ is_no_room (meaning p) }
{
    matches!(p, Plan::Full)
}

// The first append to this serial drops the oldest closed segment.
pub fn drops_first(oldest: u32, current: u32, count: u16, slots: u64) -> bool
    requires { oldest ≤ current }
    ensures { result ≡ (eqb count 0 && leb slots (current - oldest)) }
{
    (count == 0) & (slots <= (current - oldest) as u64)
}

// The page that the lift at this place fills.
pub fn page_filled(count: u16) -> Option<Page>
    requires { count ≤ lifts_most }
    ensures { result ≡ cond (eqb (count % 16) 15) (Some (record { 0 = count / 16 })) None }
{
    let n = count as usize;
    if n % lift::LIFTS_PER_PAGE == LAST_IN_PAGE {
        Some(Page(n / lift::LIFTS_PER_PAGE))
    } else {
        None
    }
}

// Where the Bloom section starts that it fills.
pub fn section_filled(count: u16) -> Option<usize>
    requires { count ≤ lifts_most }
    ensures { result ≡ cond (eqb (count % 64) 63) (Some (tree_width + count / 64 * 128)) None }
{
    let n = count as usize;
    if n % bloom::LIFTS_PER_SECTION == LAST_IN_SECTION {
        Some(flash::TREE_BYTES + n / bloom::LIFTS_PER_SECTION * SECTION_BYTES)
    } else {
        None
    }
}

// That section can be written.
pub fn section_clear(nor: &[u8], count: u16) -> bool
    requires { (length nor.now ≡ nor_width) × (count ≤ lifts_most) }
    ensures { result ≡ (not (eqb (count % 64) 63) || all_ones (part nor.now (tree_width + count / 64 * 128) 128)) }
{
    match section_filled(count) {
        Some(at) => codec::all_ones(nor, at, SECTION_BYTES),
        None => true,
    }
}

// That page can be programmed.
pub fn page_free(nand: &[u8], slot: usize, count: u16) -> bool
    requires { (slot * slot_width + slot_width ≤ length nand.now) × (count ≤ lifts_most) }
    ensures { result ≡ not (eqb (count % 16) 15 && not (page_erased nand.now slot (count / 16))) }
{
    match page_filled(count) {
        Some(page) => flash::is_erased(nand, slot, page),
        None => true,
    }
}

// The page buffer after a lift; it goes to NAND when it is full.
pub fn page_after(
    nand: &mut [u8],
    slot: usize,
    count: u16,
    buffer: [u8; PAGE_BYTES],
) -> [u8; PAGE_BYTES]
    requires { (slot * slot_width + slot_width ≤ length nand.old) × (count ≤ lifts_most) }
    ensures nand { nand.new ≡ cond (eqb (count % 16) 15) (programmed nand.old slot (count / 16) buffer) nand.old }
    ensures page { result ≡ cond (eqb (count % 16) 15) erased_page buffer }
{
    if let Some(page) = page_filled(count) {
        flash::program(nand, slot, page, buffer);
        blank_page()
    } else {
        buffer
    }
}

// The Bloom buffer after a lift; it goes to NOR when it is full.
pub fn section_after(
    nor: &mut [u8],
    count: u16,
    section: [u8; SECTION_BYTES],
) -> [u8; SECTION_BYTES]
    requires { (length nor.old ≡ nor_width) × (count ≤ lifts_most) }
    ensures nor { nor.new ≡ cond (eqb (count % 64) 63) (splice nor.old (tree_width + count / 64 * 128) section) nor.old }
    ensures section { result ≡ cond (eqb (count % 64) 63) empty_section section }
{
    if let Some(at) = section_filled(count) {
        codec::copy(nor, at, &section);
        bloom::empty_section()
    } else {
        section
    }
}

// The segment's start after a lift.
pub fn start_after(count: u16, start: u64, time: u64) -> u64
    ensures { result ≡ cond (eqb count 0) time start }
{
    if count == 0 { time } else { start }
}
