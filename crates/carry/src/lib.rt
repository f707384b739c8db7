// What is carried into the other form (document 02, W-203): pointers, headers, slots and the state.
#![tactic(auto)]

ghost use Rattle.std.specs.Prelude.{◌≡◌, [], ◌++◌, ℕ, ◌+◌, ◌-◌, ◌*◌, ◌/◌, ◌^◌, ◌≤◌, length};
ghost use Rattle.codec.specs.Area.{part, splice};
ghost use Rattle.flash.specs.Chip.{slot_of, page_width, slot_width};
ghost use Rattle.form.specs.declared.Form.TheVariants.{Old, New};
ghost use Rattle.header.specs.Header.{form_bytes};
ghost use Rattle.store.specs.World.{world};
ghost use Rattle.carry.specs.Carried as Carried;
ghost use Rattle.carry.specs.Carried.{pointer_into, pointers_into, header_into, slot_into, closed_into, open_into, next_into, state_into, first_time};

use flash::{PAGE_BYTES, Page};
use form::Form;
use skiplist::{LEVELS, Pointer};
use store::State;

// Pages 0 to 30 of a slot.
const KEPT_BYTES: usize = 15872;

const POINTERS_AT: usize = 40;

// S, and the serials that are retained as closed: from `oldest` to the one before `current`, the open serial. That they are in order
// stands in the contracts and not in the type: `serials_of` (conversion/specs/Inner/Pieces) makes one of any state, good or not.
#[derive(Clone, Copy)]
pub struct Serials {
    pub slots: u64,
    pub oldest: u32,
    pub current: u32,
}

// The form that a store is carried from. Not a method of Form: the theorems of round_trips cite `other` of specs/Carried.
pub fn other(form: Form) -> Form
    ensures { result ≡ Carried.other form }
{
    match form {
        Form::Old => Form::New,
        Form::New => Form::Old,
    }
}

// The largest multiple of m below n.
fn multiple_below(n: u32, m: u32) -> u32
    requires { (1 ≤ n) × (1 ≤ m) }
    ensures { result ≡ (n - 1) / m * m }
{
    (n - 1) / m * m
}

// An old pointer with the serial that it gets, none apart.
fn with_serial(p: Pointer, n: u32, m: u32) -> Pointer
    requires { (1 ≤ n) × (1 ≤ m) }
    ensures { (k : ℕ) → m ≡ 2 ^ k → result ≡ pointer_into New n k p }
{
    let serial = if p.is_none() { 0 } else { multiple_below(n, m) };
    Pointer::new(p.slot, serial, p.time)
}

// A pointer of segment n, at the level whose segments have multiples of m as serials.
fn carried_pointer(p: Pointer, form: Form, n: u32, m: u32) -> Pointer
    requires { (1 ≤ n) × (1 ≤ m) }
    ensures { (k : ℕ) → m ≡ 2 ^ k → result ≡ pointer_into form n k p }
{
    match form {
        Form::Old => Pointer::new(p.slot, 0, p.time),
        Form::New => with_serial(p, n, m),
    }
}

pub fn carried_pointers(p: [Pointer; LEVELS], form: Form, n: u32) -> [Pointer; LEVELS]
    requires { 1 ≤ n }
    ensures { result ≡ pointers_into form n 0 p }
{
    let a = carried_pointer(p[0], form, n, 1);
    let b = carried_pointer(p[1], form, n, 2);
    let c = carried_pointer(p[2], form, n, 4);
    let d = carried_pointer(p[3], form, n, 8);
    [a, b, c, d]
}

// The fields before the pointers, byte 10 of the form among them.
fn put_kept(d: &mut [u8], h: &[u8], form: Form)
    requires { (length h.now ≡ page_width) × (length d.old ≡ page_width) }
    ensures { d.new
        ≡ splice d.old 0 (part h.now 0 10 ++ (form_bytes form ++ part h.now 16 24)) }
{
    codec::copy(d, 0, &h[0..10]);
    header::put_form(d, form);
    codec::copy(d, 16, &h[16..40]);
}

// The header of serial n, written anew.
fn carried_header(h: &[u8], form: Form, n: u32) -> [u8; PAGE_BYTES]
    requires { (length h.now ≡ page_width) × (1 ≤ n) }
    ensures { result ≡ header_into form n h.now }
{
    let from = other(form);
    let p = skiplist::pointers_at(h, POINTERS_AT, from);
    let q = carried_pointers(p, form, n);
    let mut d = header::zeros();
    put_kept(&mut d, h, form);
    skiplist::put_pointers(&mut d, POINTERS_AT, q, form);
    d
}

// The slot of closed serial n.
fn carry_slot(to: &mut [u8], nand: &[u8], slots: u64, n: u32, form: Form)
    requires { (length nand.now ≡ slots * slot_width) × (length to.old ≡ slots * slot_width) × (1 ≤ slots) × (1 ≤ n) }
    ensures { to.new
        ≡ splice to.old (slot_of n slots * slot_width) (slot_into form nand.now (slot_of n slots) n) }
{
    let slot = flash::slot_of(n, slots);
    let a = slot * flash::SLOT_BYTES;
    codec::copy_long(to, a, &nand[a..a + KEPT_BYTES]);
    let h = flash::pages_of(nand, slot, Page(flash::HEADER_LAST), 1);
    let d = carried_header(h, form, n);
    flash::program(to, slot, Page(flash::HEADER_LAST), d);
}

// The closed segments, oldest first.
fn carry_closed(to: &mut [u8], nand: &[u8], s: Serials, form: Form)
    requires { (length nand.now ≡ s.slots * slot_width) × (length to.old ≡ s.slots * slot_width) × (1 ≤ s.slots) × (1 ≤ s.oldest)
        × (s.oldest ≤ s.current) }
    ensures { to.new
        ≡ closed_into form (s.current - s.oldest) s.oldest nand.now s.slots to.old }
{
    for n in s.oldest..s.current {
        carry_slot(to, nand, s.slots, n, form);
    }
}

// An erased chip with the open serial's slot.
fn carry_open(to: &mut [u8], nand: &[u8], slots: u64, current: u32)
    requires { (length nand.now ≡ slots * slot_width) × (length to.old ≡ slots * slot_width) × (1 ≤ slots) × (1 ≤ current) }
    ensures { to.new ≡ open_into nand.now slots current }
{
    flash::erase_chip(to);
    let slot = flash::slot_of(current, slots);
    let a = slot * flash::SLOT_BYTES;
    codec::copy_long(to, a, &nand[a..a + flash::SLOT_BYTES]);
}

pub fn carry_nand(to: &mut [u8], nand: &[u8], s: Serials, form: Form)
    requires { (length nand.now ≡ s.slots * slot_width) × (length to.old ≡ s.slots * slot_width) × (1 ≤ s.slots) × (1 ≤ s.oldest)
        × (s.oldest ≤ s.current) }
    ensures { to.new
        ≡ closed_into form (s.current - s.oldest) s.oldest nand.now s.slots
        (open_into nand.now s.slots s.current) }
{
    carry_open(to, nand, s.slots, s.current);
    carry_closed(to, nand, s, form);
}

// Next time of form 0 is one past that of form 1, but 0 in a store that has had no lift.
fn next_back(current: u32, count: u16, next: u64) -> u64
    requires { next ≤ 1000000000000000 }
    ensures { result ≡ next_into Old current count next }
{
    let new = (current == 1) & (count == 0);
    if new { 0 } else { next + 1 }
}

fn carried_next(form: Form, current: u32, count: u16, next: u64) -> u64
    requires { next ≤ 1000000000000000 }
    ensures { result ≡ next_into form current count next }
{
    match form {
        Form::Old => next_back(current, count, next),
        Form::New => next.saturating_sub(1),
    }
}

pub fn carried_state(mut s: State, form: Form) -> State
    requires { (1 ≤ s.current) × (s.next ≤ 1000000000000000) }
    ensures { result ≡ state_into form s }
{
    s.heads = carried_pointers(s.heads, form, s.current);
    s.next = carried_next(form, s.current, s.count, s.next);
    s
}

// The oldest live time of a store that goes back to form 0.
pub fn first_time(nand: &[u8], slots: u64, s: State) -> u64
    requires { (length nand.now ≡ slots * slot_width) × (1 ≤ slots) × (1 ≤ s.oldest) × (s.next ≤ 1000000000000000) }
    ensures { result ≡ first_time Old (world nand.now [] s) slots }
{
    if s.oldest < s.current {
        let slot = flash::slot_of(s.oldest, slots);
        let h = flash::pages_of(nand, slot, Page(flash::HEADER_LAST), 1);
        codec::get_u64(h, 16)
    } else if s.count == 0 {
        next_back(s.current, s.count, s.next)
    } else {
        s.start
    }
}
