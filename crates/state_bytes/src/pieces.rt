// The pieces of a state's area that a lift written in place shares with the whole state: where each field stands, and the fields around
// the page buffer. They are no calls: not for others than this crate, `in_place` and `area_reads`.
ghost use Rattle.std.specs.Prelude.{◌≡◌, ◌+◌, ◌≤◌, length};
ghost use Rattle.form.specs.declared.Form.TheVariants.{New};
ghost use Rattle.codec.specs.Area.{part, splice};
ghost use Rattle.state_bytes.specs.StateBytes.{live_width, heads_from, loads_from, area_length};
ghost use Rattle.state_bytes.specs.Inner.Fields.{counters_bytes, span_bytes, fields_bytes, fields_kept};

use bloom::SECTION_BYTES;
use form::Form;
use lift::LOADS_KEPT;
use skiplist::{LEVELS, Pointer};

// Where each field stands; those of form 0 alone have OLD in their name.
pub const OLDEST_AT: usize = 0;

pub const CURRENT_AT: usize = 4;

pub const COUNT_AT: usize = 8;

pub const BUCKETS_AT: usize = 10;

pub const NEXT_AT: usize = 11;

pub const OLD_LIVE_AT: usize = 19;

pub const OLD_HEADS_AT: usize = 27;

pub const HEADS_AT: usize = 19;

pub const OLD_LOADS_AT: usize = 67;

pub const LOADS_AT: usize = 75;

// From the loads on both forms are alike.
pub const PAGE_BEHIND: usize = 52;

pub const BLOOM_BEHIND: usize = 564;

pub const START_BEHIND: usize = 692;

pub const LOW_BEHIND: usize = 700;

pub const HIGH_BEHIND: usize = 704;

// And where they stand in form 1.
pub const PAGE_AT: usize = LOADS_AT + PAGE_BEHIND;

pub const BLOOM_AT: usize = LOADS_AT + BLOOM_BEHIND;

pub const START_AT: usize = LOADS_AT + START_BEHIND;

pub const LOW_AT: usize = LOADS_AT + LOW_BEHIND;

pub const HIGH_AT: usize = LOADS_AT + HIGH_BEHIND;

// The fields before the heads that both forms have, and those behind the buffers.
#[derive(Clone, Copy)]
pub struct Counters {
    pub oldest: u32,
    pub current: u32,
    pub count: u16,
    pub buckets: u8,
    pub next: u64,
}

#[derive(Clone, Copy)]
pub struct Span {
    pub start: u64,
    pub low: i32,
    pub high: i32,
}

// A buffer of N bytes from `at` on.
pub fn bytes_at<const N: usize>(b: &[u8], at: usize) -> [u8; N]
    requires { at + N ≤ length b.now }
    ensures { result ≡ part b.now at N }
{
    let mut p = [0u8; N];
    p.copy_from_slice(&b[at..at + N]);
    p
}

// Where the heads stand, by the form.
pub(crate) fn heads_from(form: Form) -> usize
    ensures { result ≡ heads_from form }
{
    match form {
        Form::Old => OLD_HEADS_AT,
        Form::New => HEADS_AT,
    }
}

// Where the loads stand.
pub fn loads_from(form: Form) -> usize
    ensures { result ≡ loads_from form }
{
    match form {
        Form::Old => OLD_LOADS_AT,
        Form::New => LOADS_AT,
    }
}

fn put_counters(b: &mut [u8], c: Counters)
    requires { 19 ≤ length b.old }
    ensures { b.new ≡ splice b.old 0 (counters_bytes c) }
{
    codec::put_u32(b, OLDEST_AT, c.oldest);
    codec::put_u32(b, CURRENT_AT, c.current);
    codec::put_u16(b, COUNT_AT, c.count);
    codec::put_u8(b, BUCKETS_AT, c.buckets);
    codec::put_u64(b, NEXT_AT, c.next);
}

fn put_span(b: &mut [u8], at: usize, s: Span)
    requires { at + 16 ≤ length b.old }
    ensures { b.new ≡ splice b.old at (span_bytes s) }
{
    codec::put_u64(b, at, s.start);
    loads::put_load(b, at + 8, s.low);
    loads::put_load(b, at + 12, s.high);
}

// Everything but the page buffer and the oldest live time.
pub fn put_around(
    b: &mut [u8],
    form: Form,
    c: Counters,
    heads: [Pointer; LEVELS],
    loads: [i32; LOADS_KEPT],
    section: [u8; SECTION_BYTES],
    s: Span,
)
    requires { length b.old ≡ area_length form }
    ensures { b.new ≡ fields_bytes form (part b.old 19 (live_width form)) c heads loads
        (part b.old (loads_from form + 52) 512) section s }
{
    let first = heads_from(form);
    let at = loads_from(form);
    put_counters(b, c);
    skiplist::put_pointers(b, first, heads, form);
    loads::put_loads(b, at, loads);
    codec::copy(b, at + BLOOM_BEHIND, &section);
    put_span(b, at + START_BEHIND, s);
}

// In form 1: everything but the heads and the buffers, which stay as they stand.
pub fn put_rest(b: &mut [u8], c: Counters, loads: [i32; LOADS_KEPT], s: Span)
    requires { length b.old ≡ area_length New }
    ensures { b.new ≡ fields_kept (part b.old (heads_from New) 56) c loads
        (part b.old (loads_from New + 52) 512) (part b.old (loads_from New + 564) 128) s }
{
    put_counters(b, c);
    loads::put_loads(b, LOADS_AT, loads);
    put_span(b, START_AT, s);
}
