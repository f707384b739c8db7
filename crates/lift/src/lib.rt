// A lift (document 01, "Chips and slots"): its limits, its load as stored, its record of 32 bytes.
#![tactic(auto)]

ghost use Rattle.std.specs.Prelude.{◌≡◌, true, ◌+◌, ◌-◌, ◌*◌, ◌^◌, ◌≤◌, ◌<◌, length};
ghost use Rattle.codec.specs.Area.{part, splice};
ghost use Rattle.lift.specs.Limits as Limits;
ghost use Rattle.lift.specs.Record.{time_at, code_at, member_at, record_width};
ghost use Rattle.lift.specs.Rows.{time_in, code_in, member_in, record_in, lifts_most};

// "a time (ms, 0 to 999,999,999,999,999)"
pub const TIME_LIMIT: u64 = 999999999999999;
// "a load (units of 10 g, −50,000 to 100,000)"
pub const LOAD_MIN: i32 = -50000;

pub const LOAD_MAX: i32 = 100000;
// "A load is stored as load + 50,001"
pub const CODE_OF_ZERO: u32 = 50001;

const STORED_OFFSET: i32 = CODE_OF_ZERO as i32;

pub const CODE_MAX: u32 = 150001;
// "Its record has 32 bytes: time 8, load 4, note 20"
pub const RECORD_BYTES: usize = 32;

pub const NOTE_BYTES: usize = 20;

// "16 a page", in 20 pages: a segment has at most 320 lifts; "last 13 loads"
pub const LIFTS_PER_PAGE: usize = 16;

pub const LIFTS_MOST: u16 = 320;

pub const LOADS_KEPT: usize = 13;

// Where the load and the note stand in a record.
pub const CODE_AT: usize = 8;

pub const NOTE_AT: usize = 12;

pub fn time_ok(time: u64) -> bool
    ensures { result ≡ Limits.time_ok time }
{
    time <= TIME_LIMIT
}

pub fn load_ok(load: i32) -> bool
    ensures { result ≡ Limits.load_ok load }
{
    (LOAD_MIN <= load) & (load <= LOAD_MAX)
}

pub fn code_ok(code: u32) -> bool
    ensures { result ≡ Limits.code_ok code }
{
    (1 <= code) & (code <= CODE_MAX)
}

// A load within its limits, as it is stored.
pub fn stored(load: i32) -> u32
    requires { Limits.load_ok load ≡ true }
    ensures { result ≡ Limits.stored load }
{
    (load + STORED_OFFSET) as u32
}

// The load that a stored number stands for.
pub fn load_of(code: u32) -> i32
    requires { code < 2 ^ 31 }
    ensures { result ≡ Limits.load_of code }
{
    (code as i32) - STORED_OFFSET
}

// The time of the record in an area from `at` on, and its load as stored.
pub fn record_time(area: &[u8], at: usize) -> u64
    requires { at + 8 ≤ length area.now }
    ensures { result ≡ time_at area.now at }
{
    codec::get_u64(area, at)
}

pub fn record_code(area: &[u8], at: usize) -> u32
    requires { at + 12 ≤ length area.now }
    ensures { result ≡ code_at area.now at }
{
    codec::get_u32(area, at + CODE_AT)
}

// "The first four note bytes now hold a member number, 0 for none" (document 02, W-208).
pub fn record_member(area: &[u8], at: usize) -> u32
    requires { at + 16 ≤ length area.now }
    ensures { result ≡ member_at area.now at }
{
    codec::get_u32(area, at + NOTE_AT)
}

// The 32 bytes of row i of an area.
pub fn row(area: &[u8], i: usize) -> &[u8]
    requires { i * record_width + record_width ≤ length area.now }
    ensures { result.now ≡ part area.now (i * record_width) record_width }
{
    let start = i * RECORD_BYTES;
    let end = start + RECORD_BYTES;
    &area[start..end]
}

// A segment's lifts: the records of those before place `first` stand in `pages`, the others in `tail`.
#[derive(Clone, Copy)]
pub struct Lifts<'a> {
    pub pages: &'a [u8],
    pub tail: &'a [u8],
    pub first: usize,
    pub count: u16,
    pub ghost few: { count ≤ lifts_most },
    pub ghost before: { count * record_width ≤ length pages.now },
    pub ghost after: { (count - first) * record_width ≤ length tail.now },
    pub ghost any: { record_width ≤ length tail.now },
}

impl<'a> Lifts<'a> {
    // The record of the lift at place p.
    pub fn record(self, p: usize) -> &'a [u8]
        requires { p < self.count }
        ensures is { result.now ≡ record_in self.entry.pages.now self.entry.tail.now self.entry.first p }
        ensures whole { length result.now ≡ record_width }
    {
        record_of(self.pages, self.tail, self.first, p)
    }

    // Its time, its load as stored, its member.
    pub fn time(self, p: usize) -> u64
        requires { p < self.count }
        ensures { result ≡ time_in self.entry.pages.now self.entry.tail.now self.entry.first p }
    {
        record_time(self.record(p), 0)
    }

    pub fn code(self, p: usize) -> u32
        requires { p < self.count }
        ensures { result ≡ code_in self.entry.pages.now self.entry.tail.now self.entry.first p }
    {
        record_code(self.record(p), 0)
    }

    pub fn member(self, p: usize) -> u32
        requires { p < self.count }
        ensures { result ≡ member_in self.entry.pages.now self.entry.tail.now self.entry.first p }
    {
        record_member(self.record(p), 0)
    }

    // Its record is copied to row `to` of the result area.
    pub fn put_row(self, p: usize, area: &mut [u8], to: usize)
        requires within { p < self.count }
        requires room { to * record_width + record_width ≤ length area.old }
        ensures { area.new ≡ splice area.old (to * record_width)
            (record_in self.entry.pages.now self.entry.tail.now self.entry.first p) }
    {
        codec::copy(area, to * RECORD_BYTES, self.record(p));
    }
}

// The same of areas that are no segment's in one piece: the records before place `first` stand in `lifts`, the others in `tail`.
pub fn record_of<'a>(lifts: &'a [u8], tail: &'a [u8], first: usize, p: usize) -> &'a [u8]
    requires { (p * record_width + record_width ≤ length lifts.now) × ((p - first) * record_width + record_width ≤ length tail.now) }
    ensures is { result.now ≡ record_in lifts.now tail.now first p }
    ensures whole { length result.now ≡ record_width }
{
    if p < first {
        row(lifts, p)
    } else {
        row(tail, p - first)
    }
}

pub fn time_in(lifts: &[u8], tail: &[u8], first: usize, p: usize) -> u64
    requires { (p * record_width + record_width ≤ length lifts.now) × ((p - first) * record_width + record_width ≤ length tail.now) }
    ensures { result ≡ time_in lifts.now tail.now first p }
{
    record_time(record_of(lifts, tail, first, p), 0)
}

pub fn code_in(lifts: &[u8], tail: &[u8], first: usize, p: usize) -> u32
    requires { (p * record_width + record_width ≤ length lifts.now) × ((p - first) * record_width + record_width ≤ length tail.now) }
    ensures { result ≡ code_in lifts.now tail.now first p }
{
    record_code(record_of(lifts, tail, first, p), 0)
}

pub fn member_in(lifts: &[u8], tail: &[u8], first: usize, p: usize) -> u32
    requires { (p * record_width + record_width ≤ length lifts.now) × ((p - first) * record_width + record_width ≤ length tail.now) }
    ensures { result ≡ member_in lifts.now tail.now first p }
{
    record_member(record_of(lifts, tail, first, p), 0)
}

// The record of the lift at place p is copied to row `row` of the result area.
pub fn put_row(area: &mut [u8], row: usize, lifts: &[u8], tail: &[u8], first: usize, p: usize)
    requires record_width_in_bounds { (p * record_width + record_width ≤ length lifts.now) × ((p - first) * record_width + record_width ≤ length tail.now) }
    requires record_width_in_bounds_2 { row * record_width + record_width ≤ length area.old }
    ensures { area.new
        ≡ splice area.old (row * record_width) (record_in lifts.now tail.now first p) }
{
    codec::copy(area, row * RECORD_BYTES, record_of(lifts, tail, first, p));
}
