// A closed segment's header page (document 01, "Segments", "Bloom and skip list"): what it says, its damage, and its bytes as a close
// writes them.
#![tactic(auto)]

ghost use Rattle.std.specs.Prelude.{◌≡◌, ◌≤◌, ◌<◌, length, get_or};
ghost use Rattle.lift.specs.Rows.{lifts_most};
ghost use Rattle.flash.specs.Chip.{page_width};
ghost use Rattle.codec.specs.Area.{splice, repeated};
ghost use Rattle.codec.specs.Number.{number_at};
ghost use Rattle.skiplist.specs.Skip.{levels, none};
ghost use Rattle.skiplist.specs.PointerBytes.{pointers_at};
ghost use Rattle.header.specs.Header.{form_bytes, count_bytes, span_bytes, header_page};
ghost use Rattle.header.specs.Header.{pointers_from, counts_good, span_good, pointer_good, pointers_good, form_in, counts_in, span_in, header_good, header_in};

use bloom::SECTION_BYTES;
use flash::PAGE_BYTES;
use form::Form;
use skiplist::{LEVELS, Pointer};

// Where the pointers stand in a header.
const POINTERS_AT: usize = 40;

// A header as read; `good` where it has no damage. A field and not an Option: `header_in` of specs/Header, on which World and the
// theorems of refinement and round_trips stand, has its numbers also where there is damage.
#[derive(Clone, Copy)]
pub struct Header {
    pub good: bool,
    // serial, count, buckets, start time, low and high load as stored
    pub serial: u32,
    pub count: u16,
    pub buckets: u8,
    pub start: u64,
    pub low: u32,
    pub high: u32,
    // the four pointers of its node, level 1 first
    pub next: [Pointer; LEVELS],
}

// All that a close needs of the state.
#[derive(Clone, Copy)]
pub struct Closing {
    pub form: Form,
    // open serial, count, bucket count
    pub serial: u32,
    pub count: u16,
    pub buckets: u8,
    // start and end time; low and high load, as stored
    pub start: u64,
    pub end: u64,
    pub low: u32,
    pub high: u32,
    // skip heads, page buffer, Bloom buffer
    pub heads: [Pointer; LEVELS],
    pub page: [u8; PAGE_BYTES],
    pub bloom: [u8; SECTION_BYTES],
}

// A segment without lifts has no sections, so it is told apart first.
fn counts_good(count: u16, buckets: u8, sections: u8, fragment: u8) -> bool
    ensures { result ≡ counts_good count buckets sections fragment }
{
    if count < 1 {
        false
    } else {
        let s = bloom::sections_of(count);
        let l = bloom::fragment_of(s);
        (count <= lift::LIFTS_MOST)
            & (((1 <= buckets) & (buckets <= tree::BUCKETS_MOST))
                & ((sections as usize == s) & (fragment as usize == l)))
    }
}

fn span_good(start: u64, end: u64, low: u32, high: u32) -> bool
    ensures { result ≡ span_good start end low high }
{
    let times = lift::time_ok(start) & (lift::time_ok(end) & (start <= end));
    let loads = lift::code_ok(low) & (lift::code_ok(high) & (low <= high));
    times & loads
}

fn pointer_good(p: Pointer, slots: u64) -> bool
    ensures { result ≡ pointer_good slots p }
{
    lift::time_ok(p.time) & p.in_slots(slots)
}

fn pointers_good(p: [Pointer; LEVELS], slots: u64) -> bool
    ensures { result ≡ pointers_good slots p }
{
    let a = pointer_good(p[0], slots);
    let b = pointer_good(p[1], slots);
    let c = pointer_good(p[2], slots);
    let d = pointer_good(p[3], slots);
    a & (b & (c & d))
}

fn counts_in(h: &[u8]) -> bool
    requires { 16 ≤ length h.now }
    ensures { result ≡ counts_in h.now }
{
    let count = codec::get_u16(h, 4);
    let buckets = codec::get_u8(h, 6);
    let sections = codec::get_u8(h, 7);
    let fragment = codec::get_u8(h, 8);
    counts_good(count, buckets, sections, fragment)
}

fn span_in(h: &[u8]) -> bool
    requires { 40 ≤ length h.now }
    ensures { result ≡ span_in h.now }
{
    let start = codec::get_u64(h, 16);
    let end = codec::get_u64(h, 24);
    let low = codec::get_u32(h, 32);
    let high = codec::get_u32(h, 36);
    span_good(start, end, low, high)
}

fn form_in(h: &[u8], form: Form) -> bool
    requires { 16 ≤ length h.now }
    ensures { result ≡ form_in form h.now }
{
    match form {
        Form::Old => true,
        Form::New => codec::get_u8(h, 10) == 1,
    }
}

// The header page h has no damage; its serial is to be below `before`.
pub fn header_good(h: &[u8], form: Form, slots: u64, before: u32) -> bool
    requires { length h.now ≡ page_width }
    ensures { result ≡ header_good form h.now slots before }
{
    let own = form_in(h, form);
    let counts = counts_in(h);
    let span = span_in(h);
    let next = skiplist::pointers_at(h, POINTERS_AT, form);
    let pointers = pointers_good(next, slots);
    let serial = serial_in(h);
    own & (counts & (span & (pointers & (serial < before))))
}

// What a header says, each number by itself: a caller that needs a few of them makes no Header.
pub fn serial_in(h: &[u8]) -> u32
    requires { length h.now ≡ page_width }
    ensures { result ≡ number_at h.now 0 4 }
{
    codec::get_u32(h, 0)
}

pub fn count_in(h: &[u8]) -> u16
    requires { length h.now ≡ page_width }
    ensures { result ≡ number_at h.now 4 2 }
{
    codec::get_u16(h, 4)
}

pub fn buckets_in(h: &[u8]) -> u8
    requires { length h.now ≡ page_width }
    ensures { result ≡ number_at h.now 6 1 }
{
    codec::get_u8(h, 6)
}

pub fn start_in(h: &[u8]) -> u64
    requires { length h.now ≡ page_width }
    ensures { result ≡ number_at h.now 16 8 }
{
    codec::get_u64(h, 16)
}

pub fn low_in(h: &[u8]) -> u32
    requires { length h.now ≡ page_width }
    ensures { result ≡ number_at h.now 32 4 }
{
    codec::get_u32(h, 32)
}

pub fn high_in(h: &[u8]) -> u32
    requires { length h.now ≡ page_width }
    ensures { result ≡ number_at h.now 36 4 }
{
    codec::get_u32(h, 36)
}

// The pointer of level k + 1.
pub fn pointer_in(h: &[u8], form: Form, k: usize) -> Pointer
    requires { (length h.now ≡ page_width) × (k < levels) }
    ensures { result ≡ get_or (pointers_at form h.now pointers_from) k none }
{
    skiplist::pointer_at(h, POINTERS_AT + form.pointer_bytes() * k, form)
}

// The header page h as read.
pub fn header_in(h: &[u8], form: Form, slots: u64, before: u32) -> Header
    requires { length h.now ≡ page_width }
    ensures { result ≡ header_in form h.now slots before }
{
    let good = header_good(h, form, slots, before);
    let next = skiplist::pointers_at(h, POINTERS_AT, form);
    Header {
        good,
        serial: serial_in(h),
        count: count_in(h),
        buckets: buckets_in(h),
        start: start_in(h),
        low: low_in(h),
        high: high_in(h),
        next,
    }
}

pub fn zeros() -> [u8; PAGE_BYTES]
    ensures { result ≡ repeated 512 0 }
{
    [0u8; PAGE_BYTES]
}

pub fn put_form(h: &mut [u8], form: Form)
    requires { 16 ≤ length h.old }
    ensures { h.new ≡ splice h.old 10 (form_bytes form) }
{
    codec::put_u8(h, 10, form.byte_ten());
    codec::fill(h, 11, 5, 0);
}

fn put_counts(h: &mut [u8], form: Form, serial: u32, count: u16, buckets: u8)
    requires { (16 ≤ length h.old) × (1 ≤ count) × (count ≤ lifts_most) }
    ensures { h.new ≡ splice h.old 0 (count_bytes form serial count buckets) }
{
    let sections = bloom::sections_of(count);
    let fragment = bloom::fragment_of(sections);
    let level = skiplist::level_of(serial);
    codec::put_u32(h, 0, serial);
    codec::put_u16(h, 4, count);
    codec::put_u8(h, 6, buckets);
    codec::put_u8(h, 7, sections as u8);
    codec::put_u8(h, 8, fragment as u8);
    codec::put_u8(h, 9, level as u8);
    put_form(h, form);
}

fn put_span(h: &mut [u8], start: u64, end: u64, low: u32, high: u32)
    requires { 40 ≤ length h.old }
    ensures { h.new ≡ splice h.old 16 (span_bytes start end low high) }
{
    codec::put_u64(h, 16, start);
    codec::put_u64(h, 24, end);
    codec::put_u32(h, 32, low);
    codec::put_u32(h, 36, high);
}

// Page 31.
pub fn header_page(c: Closing) -> [u8; PAGE_BYTES]
    requires { (1 ≤ c.count) × (c.count ≤ lifts_most) }
    ensures { result ≡ header_page c }
{
    let heads = c.heads;
    let serial = c.serial;
    let level = skiplist::level_of(serial);
    let node = skiplist::node_of(heads, level);
    let form = c.form;
    let mut h = zeros();
    put_counts(&mut h, form, serial, c.count, c.buckets);
    put_span(&mut h, c.start, c.end, c.low, c.high);
    skiplist::put_pointers(&mut h, POINTERS_AT, node, form);
    h
}
