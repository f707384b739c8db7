// What a conversion looks for in the headers of the retained closed segments (document 02, W-203).
ghost use Rattle.std.specs.Prelude.{◌≡◌, Bool, ℕ, ◌-◌, ◌*◌, ◌≤◌, ◌<◌, length};
ghost use Rattle.flash.specs.Chip.{page_width, slot_width};
ghost use Rattle.retained.specs.Retained as Retained;
ghost use Rattle.retained.specs.Retained.{any_from};
ghost use Rattle.retained.specs.Inner.Loops.{any_header};
ghost use Rattle.carry.specs.Carried.{header_of};

use carry::Serials;
use flash::Page;
use form::Form;
use skiplist::{LEVELS, Pointer};

fn is_form(h: &[u8], form: Form) -> bool
    requires { length h.now ≡ page_width }
    ensures { result ≡ Retained.is_form form 0 h.now }
{
    codec::get_u8(h, 10) == form.byte_ten()
}

// The header h is to be that of serial n.
fn is_damaged(h: &[u8], form: Form, slots: u64, before: u32, n: u32) -> bool
    requires { length h.now ≡ page_width }
    ensures { result ≡ Retained.is_damaged form slots before n h.now }
{
    let own = is_form(h, form);
    let good = header::header_good(h, form, slots, before);
    let placed = header::serial_in(h) == n;
    !(own & (good & placed))
}

fn is_late(p: Pointer, oldest: u32, first: u64) -> bool
    ensures { result ≡ Retained.is_late oldest first p }
{
    let none = p.is_none();
    let live = p.is_live(oldest);
    let late = first <= p.time;
    !none & (!live & late)
}

pub fn any_late(p: [Pointer; LEVELS], oldest: u32, first: u64) -> bool
    ensures { result ≡ Retained.any_late oldest first p }
{
    for q in p {
        if is_late(q, oldest, first) {
            return true;
        }
    }
    false
}

fn has_late(h: &[u8], oldest: u32, first: u64) -> bool
    requires { length h.now ≡ page_width }
    ensures { result ≡ Retained.has_late oldest first 0 h.now }
{
    let p = skiplist::pointers_at(h, 40, Form::New);
    any_late(p, oldest, first)
}

// The header page of serial n.
pub(crate) fn header_at(nand: &[u8], slots: u64, n: u32) -> &[u8]
    requires { (length nand.now ≡ slots * slot_width) × (1 ≤ slots) × (1 ≤ n) }
    ensures { (result.now ≡ header_of nand.now slots n) × (length result.now ≡ page_width) }
{
    let slot = flash::slot_of(n, slots);
    flash::pages_of(nand, slot, Page(flash::HEADER_LAST), 1)
}

// Whether a retained closed serial passes a test, newest first.
fn any_serial<F: Fn(u32) -> bool>(s: Serials, has: F) -> bool
    requires { (n : ℕ) → s.oldest ≤ n → n < s.current → F.pre has n }
    ensures { (p : ℕ → Bool) → ((n : ℕ) (b : Bool) → s.oldest ≤ n → n < s.current → F.post has n b → b ≡ p n)
        → result ≡ any_from p (s.current - s.oldest) s.oldest }
{
    for n in (s.oldest..s.current).rev() {
        if has(n) {
            return true;
        }
    }
    false
}

// Whether a header has byte 10 of this form.
pub fn any_of_form(nand: &[u8], s: Serials, form: Form) -> bool
    requires { (length nand.now ≡ s.slots * slot_width) × (1 ≤ s.slots) × (1 ≤ s.oldest) × (s.oldest ≤ s.current) }
    ensures { result ≡ any_header (Retained.is_form form) s nand.now }
{
    any_serial(s, |n| is_form(header_at(nand, s.slots, n), form))
}

// Whether a header is damaged by the rules of this form.
pub fn any_damaged(nand: &[u8], s: Serials, form: Form) -> bool
    requires { (length nand.now ≡ s.slots * slot_width) × (1 ≤ s.slots) × (1 ≤ s.oldest) × (s.oldest ≤ s.current) }
    ensures { result ≡ any_header (Retained.is_damaged form s.slots s.current) s nand.now }
{
    any_serial(s, |n| {
        is_damaged(header_at(nand, s.slots, n), form, s.slots, s.current, n)
    })
}

// Whether a header has a pointer that form 0 would take as live.
pub fn any_late_node(nand: &[u8], s: Serials, first: u64) -> bool
    requires { (length nand.now ≡ s.slots * slot_width) × (1 ≤ s.slots) × (1 ≤ s.oldest) × (s.oldest ≤ s.current) }
    ensures { result ≡ any_header (Retained.has_late s.oldest first) s nand.now }
{
    any_serial(s, |n| {
        has_late(header_at(nand, s.slots, n), s.oldest, first)
    })
}
