// What a call needs of a state's area (document 01, "State", "Twelve grounds"), read where it stands: the grounds, an append's fields, a
// search's log. The buffers are not copied.
#![tactic(auto)]

ghost use Rattle.std.specs.Prelude.{◌≡◌, length};
ghost use Rattle.grounds.specs.Numbers.{number_in};
ghost use Rattle.bounds.specs.Bounds.{loads_ok};
ghost use Rattle.form.specs.declared.Form.TheVariants.{New};
ghost use Rattle.lift.specs.Limits.{loads_kept};
ghost use Rattle.loads.specs.Signed.{loads_at};
ghost use Rattle.skiplist.specs.PointerBytes.{pointers_at};
ghost use Rattle.store.specs.Bounds.{heads_ok, within_bounds};
ghost use Rattle.store.specs.Inner.Fields.{fields_of};
ghost use Rattle.store.specs.Inner.Pieces.{bounds_ground, entry_ground};
ghost use Rattle.questions.specs.Queries.{log_of};
ghost use Rattle.state_bytes.specs.StateBytes.{heads_from, loads_from, area_length, state_in};

use form::Form;
use grounds::Ground;
use lift::LOADS_KEPT;
use state_bytes::pieces;
use store::fields::Fields;
use visit::Log;

// A head of form 1: slot 2, serial 4, start time 8.
const HEAD_BYTES: usize = 14;

// The last loads are within their limits.
fn loads_ok(b: &[u8]) -> bool
    requires { length b.now ≡ area_length New }
    ensures { result ≡ loads_ok (loads_at b.now (loads_from New) loads_kept) }
{
    let mut good = true;
    for i in 0..LOADS_KEPT {
        let x = loads::load_at(b, pieces::LOADS_AT + 4 * i);
        good &= lift::load_ok(x);
    }
    good
}

// Each head is none, or its slot is below S.
fn heads_ok(b: &[u8], slots: u64) -> bool
    requires { length b.now ≡ area_length New }
    ensures { result ≡ heads_ok (pointers_at New b.now (heads_from New)) slots }
{
    let p = skiplist::pointer_at(b, pieces::HEADS_AT, Form::New);
    let q = skiplist::pointer_at(b, pieces::HEADS_AT + HEAD_BYTES, Form::New);
    let r = skiplist::pointer_at(b, pieces::HEADS_AT + 2 * HEAD_BYTES, Form::New);
    let s = skiplist::pointer_at(b, pieces::HEADS_AT + 3 * HEAD_BYTES, Form::New);
    p.in_slots(slots) & (q.in_slots(slots) & (r.in_slots(slots) & s.in_slots(slots)))
}

// Ground 3.
fn within_bounds(b: &[u8], slots: u64) -> bool
    requires { length b.now ≡ area_length New }
    ensures { result ≡ within_bounds New (state_in b.now) 0 slots }
{
    let oldest = codec::get_u32(b, pieces::OLDEST_AT);
    let current = codec::get_u32(b, pieces::CURRENT_AT);
    let count = codec::get_u16(b, pieces::COUNT_AT);
    let buckets = codec::get_u8(b, pieces::BUCKETS_AT);
    let next = codec::get_u64(b, pieces::NEXT_AT);
    let start = codec::get_u64(b, pieces::START_AT);
    let low = loads::load_at(b, pieces::LOW_AT);
    let high = loads::load_at(b, pieces::HIGH_AT);
    let serials = bounds::serials_ok(oldest, current, count, slots);
    let counts = bounds::counts_ok(current, count, buckets);
    let times = bounds::times_ok(Form::New, current, count, next, 0, start);
    let span = bounds::span_ok(count, low, high);
    let loads = loads_ok(b);
    let heads = heads_ok(b, slots);
    serials & (counts & (times & (span & (loads & heads))))
}

// Grounds 1 to 3.
#[tactic(auto, unfolding(store::specs::Inner::Pieces::bounds_ground, bounds::specs::Grounds::format_ground))]
pub fn ground(b: &[u8], nand: usize, nor: usize, slots: u64) -> Result<(), Ground>
    requires { length b.now ≡ area_length New }
    ensures { number_in result ≡ bounds_ground New (state_in b.now) 0 nand nor slots }
{
    bounds::chips_ground(nand, nor, slots)?;
    if within_bounds(b, slots) {
        Ok(())
    } else {
        Err(Ground::State)
    }
}

// Grounds 1 to 8 of an append.
#[tactic(auto, unfolding(store::specs::Inner::Pieces::bounds_ground, store::specs::Inner::Pieces::entry_ground))]
pub fn lift_ground(
    b: &[u8],
    nand: usize,
    nor: usize,
    slots: u64,
    time: u64,
    load: i32,
) -> Result<(), Ground>
    requires { length b.now ≡ area_length New }
    ensures { number_in result ≡ entry_ground (state_in b.now) nand nor slots time load }
{
    ground(b, nand, nor, slots)?;
    let next = codec::get_u64(b, pieces::NEXT_AT);
    let current = codec::get_u32(b, pieces::CURRENT_AT);
    bounds::lift_ground(time, load, next, current)
}

// What an append's plan goes by.
pub fn fields_at(b: &[u8]) -> Fields
    requires { length b.now ≡ area_length New }
    ensures { result ≡ fields_of (state_in b.now) }
{
    let oldest = codec::get_u32(b, pieces::OLDEST_AT);
    let current = codec::get_u32(b, pieces::CURRENT_AT);
    let count = codec::get_u16(b, pieces::COUNT_AT);
    let buckets = codec::get_u8(b, pieces::BUCKETS_AT);
    let loads = loads::loads_at(b, pieces::LOADS_AT);
    Fields {
        oldest: oldest,
        current: current,
        count: count,
        buckets: buckets,
        loads: loads,
    }
}

// What a search needs.
pub fn log_at(b: &[u8], slots: u64) -> Log
    requires { length b.now ≡ area_length New }
    ensures { result ≡ log_of (state_in b.now) slots }
{
    let oldest = codec::get_u32(b, pieces::OLDEST_AT);
    let current = codec::get_u32(b, pieces::CURRENT_AT);
    let count = codec::get_u16(b, pieces::COUNT_AT);
    let buckets = codec::get_u8(b, pieces::BUCKETS_AT);
    let heads = skiplist::pointers_at(b, pieces::HEADS_AT, Form::New);
    let start = codec::get_u64(b, pieces::START_AT);
    Log {
        slots: slots,
        current: current,
        count: count,
        buckets: buckets,
        start: start,
        oldest: oldest,
        heads: heads,
    }
}

// The page buffer.
pub fn page_of(b: &[u8]) -> &[u8]
    requires { length b.now ≡ area_length New }
    ensures { result.now ≡ (state_in b.now).page }
{
    let a: usize = pieces::PAGE_AT;
    let e: usize = pieces::BLOOM_AT;
    &b[a..e]
}
