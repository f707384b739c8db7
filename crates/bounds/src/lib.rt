// Grounds 1 to 8 and the bounds of the state, on plain numbers; the last loads, low and high after a lift (document 01, "Twelve
// grounds", "State").
#![tactic(auto)]

ghost use Rattle.std.specs.Prelude.{◌≡◌, true, map};
ghost use Rattle.grounds.specs.Numbers.{number_in};
ghost use Rattle.lift.specs.Limits as Limits;
ghost use Rattle.form.specs.declared.Form.TheVariants.{Old, New};
ghost use Rattle.bounds.specs.Bounds.{serials_ok, counts_ok, times_ok, span_ok, loads_ok};
ghost use Rattle.bounds.specs.Grounds as Grounds;
ghost use Rattle.bounds.specs.Grounds.{format_ground, lift_ground, limits_ground, ranges_ground, query_ground};
ghost use Rattle.bounds.specs.Lifts as Lifts;

use form::Form;
use grounds::Ground;
use lift::LOADS_KEPT;

// "S from 2 to 4,096"
const SLOTS_LEAST: u64 = 2;

const SLOTS_MOST: u64 = 4096;

const SLOT_BYTES: u64 = flash::SLOT_BYTES as u64;

// "serials 1 to 999,999,999"
const SERIAL_MOST: u32 = 999999999;

// Form 1: next "at most 999,999,999,999,999"; a start, and in form 0 every time, "at most 1,000,000,000,000,000"
const NEXT_MOST: u64 = lift::TIME_LIMIT;

const START_MOST: u64 = lift::TIME_LIMIT + 1;

// Of two answers, the one whose ground is tried first.
#[tactic(auto, using(grounds::proofs::Numbers::number_some), unfolding(crate::specs::Grounds::sooner))]
pub fn sooner(a: Result<(), Ground>, b: Result<(), Ground>) -> Result<(), Ground>
    ensures { number_in result ≡ Grounds.sooner (number_in a) (number_in b) }
{
    match (a, b) {
        (Ok(()), _) => b,
        (Err(_), Ok(())) => a,
        (Err(x), Err(y)) => {
            let comes_first = y.number() < x.number();
            if comes_first { b } else { a }
        }
    }
}

// The range of S comes first: the bytes of so many slots fit.
#[tactic(auto, unfolding(crate::specs::Grounds::format_ground))]
pub fn chips_ground(nand: usize, nor: usize, slots: u64) -> Result<(), Ground>
    ensures { number_in result ≡ format_ground nand nor slots }
{
    if slots < SLOTS_LEAST || SLOTS_MOST < slots || nand as u64 != slots * SLOT_BYTES {
        Err(Ground::DataChip)
    } else if nor != flash::NOR_BYTES {
        Err(Ground::IndexChip)
    } else {
        Ok(())
    }
}

#[tactic(auto, unfolding(crate::specs::Bounds::serials_ok))]
pub fn serials_ok(oldest: u32, current: u32, count: u16, slots: u64) -> bool
    ensures { result ≡ serials_ok oldest current count slots }
{
    if current < oldest {
        return false;
    }
    let closed = (current - oldest) as u64;
    ((1 <= oldest) & ((oldest <= current) & (current <= SERIAL_MOST)))
        & ((closed <= slots) & ((count == 0) | (closed < slots)))
}

#[tactic(auto, unfolding(crate::specs::Bounds::counts_ok))]
pub fn counts_ok(current: u32, count: u16, buckets: u8) -> bool
    ensures { result ≡ counts_ok current count buckets }
{
    let empty = count == 0;
    let exact = (buckets == 0) == empty;
    ((count <= lift::LIFTS_MOST) & (buckets <= tree::BUCKETS_MOST))
        & (exact & ((current != SERIAL_MOST) | empty))
}

#[tactic(auto, unfolding(crate::specs::Bounds::times_ok))]
pub fn times_ok(form: Form, current: u32, count: u16, next: u64, live: u64, start: u64) -> bool
    ensures { result ≡ times_ok form current count next live start }
{
    match form {
        Form::Old => old_times_ok(current, count, next, live, start),
        Form::New => new_times_ok(current, count, next, start),
    }
}

#[tactic(auto, unfolding(crate::specs::Bounds::times_ok))]
fn old_times_ok(current: u32, count: u16, next: u64, live: u64, start: u64) -> bool
    ensures { result ≡ times_ok Old current count next live start }
{
    let empty = count == 0;
    let new = (current == 1) & empty;
    let exact = (next == 0) == new;
    ((next <= START_MOST) & ((live <= START_MOST) & (start <= START_MOST)))
        & (exact & (empty | (start < next)))
}

#[tactic(auto, unfolding(crate::specs::Bounds::times_ok))]
fn new_times_ok(current: u32, count: u16, next: u64, start: u64) -> bool
    ensures { result ≡ times_ok New current count next 0 start }
{
    let empty = count == 0;
    let new = (current == 1) & empty;
    ((next <= NEXT_MOST) & (start <= START_MOST))
        & ((!new | (next == 0)) & (empty | (start <= next)))
}

#[tactic(auto, unfolding(crate::specs::Bounds::span_ok))]
pub fn span_ok(count: u16, low: i32, high: i32) -> bool
    ensures { result ≡ span_ok count low high }
{
    let both = lift::load_ok(low) & lift::load_ok(high);
    both & ((count == 0) | (low <= high))
}

pub fn loads_ok(loads: [i32; LOADS_KEPT]) -> bool
    ensures { result ≡ loads_ok loads }
{
    loads.iter().all(|x| lift::load_ok(*x))
}

#[tactic(auto, unfolding(crate::specs::Grounds::lift_ground))]
pub fn lift_ground(time: u64, load: i32, next: u64, current: u32) -> Result<(), Ground>
    ensures { number_in result ≡ lift_ground time load next current 0 }
{
    if !lift::time_ok(time) {
        Err(Ground::Time)
    } else if !lift::load_ok(load) {
        Err(Ground::Load)
    } else if time < next {
        Err(Ground::Earlier)
    } else if SERIAL_MOST - 1 <= current {
        Err(Ground::LastSerial)
    } else {
        Ok(())
    }
}

// A window's times and loads are within their limits.
pub fn limits_ground(t1: u64, t2: u64, k1: i32, k2: i32) -> Result<(), Ground>
    ensures { number_in result ≡ limits_ground t1 t2 k1 k2 0 }
{
    if !(lift::time_ok(t1) & lift::time_ok(t2)) {
        Err(Ground::Time)
    } else if !(lift::load_ok(k1) & lift::load_ok(k2)) {
        Err(Ground::Load)
    } else {
        Ok(())
    }
}

// Neither of its ranges runs backwards.
pub fn ranges_ground(t1: u64, t2: u64, k1: i32, k2: i32) -> Result<(), Ground>
    ensures { number_in result ≡ ranges_ground t1 t2 k1 k2 }
{
    let is_backwards = (t2 < t1) | (k2 < k1);
    if is_backwards {
        Err(Ground::Backwards)
    } else {
        Ok(())
    }
}

#[tactic(auto, unfolding(crate::specs::Grounds::query_ground))]
pub fn query_ground(t1: u64, t2: u64, k1: i32, k2: i32) -> Result<(), Ground>
    ensures { number_in result ≡ query_ground t1 t2 k1 k2 }
{
    limits_ground(t1, t2, k1, k2)?;
    ranges_ground(t1, t2, k1, k2)
}

// The loads as stored.
pub fn stored_loads(loads: [i32; LOADS_KEPT]) -> [u32; LOADS_KEPT]
    requires { loads_ok loads ≡ true }
    ensures { result ≡ map Limits.stored loads }
{
    let mut c = [0u32; LOADS_KEPT];
    for (i, x) in loads.iter().enumerate() {
        c[i] = lift::stored(*x);
    }
    c
}

fn shifted(loads: [i32; LOADS_KEPT], load: i32) -> [i32; LOADS_KEPT]
    ensures { result ≡ Lifts.shifted loads load }
{
    let mut l = loads;
    l.copy_within(1.., 0);
    l[12] = load;
    l
}

// The last 13 loads with a new one.
#[tactic(auto, unfolding(crate::specs::Lifts::pushed))]
pub fn pushed(loads: [i32; LOADS_KEPT], count: u16, load: i32) -> [i32; LOADS_KEPT]
    ensures { result ≡ Lifts.pushed loads count load }
{
    let n = count as usize;
    if n < LOADS_KEPT {
        let mut l = loads;
        l[n] = load;
        l
    } else {
        shifted(loads, load)
    }
}

#[tactic(auto, unfolding(crate::specs::Lifts::low_with))]
pub fn low_after(count: u16, low: i32, load: i32) -> i32
    ensures { result ≡ Lifts.low_with count low load }
{
    if count == 0 { load } else { low.min(load) }
}

#[tactic(auto, unfolding(crate::specs::Lifts::high_with))]
pub fn high_after(count: u16, high: i32, load: i32) -> i32
    ensures { result ≡ Lifts.high_with count high load }
{
    if count == 0 { load } else { high.max(load) }
}

pub fn no_loads() -> [i32; LOADS_KEPT]
    ensures { result ≡ Lifts.no_loads }
{
    [0i32; LOADS_KEPT]
}
