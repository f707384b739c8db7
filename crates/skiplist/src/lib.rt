// Skip pointers: the slot, the serial and the start time of a closed segment (document 01, "Bloom and skip list").
#![tactic(auto)]

ghost use Rattle.std.specs.Prelude.{◌≡◌, ◌+◌, ◌*◌, ◌≤◌, ◌<◌, length};
ghost use Rattle.codec.specs.Area.{splice};
ghost use Rattle.form.specs.Forms.{pointer_width};
ghost use Rattle.form.specs.declared.Form.TheVariants.{Old, New};
ghost use Rattle.skiplist.specs.Skip.{levels, no_heads, pointer, is_none, serials_from, is_live, in_slots, level_of, node_of, heads_after};
ghost use Rattle.skiplist.specs.PointerBytes.{pointer_bytes, pointers_bytes, pointer_at, pointers_at};

use form::Form;

// "four skip heads"
pub const LEVELS: usize = 4;

// "none is slot 65,535"
const NO_SLOT: u16 = 65535;

// A pointer ends in its start time.
const TIME_BYTES: usize = 8;

#[derive(Clone, Copy)]
pub struct Pointer {
    // the slot of a closed segment, 65,535 for none; its serial; its start time
    pub slot: u16,
    pub serial: u32,
    pub time: u64,
}

impl Pointer {
    pub const NONE: Pointer = Pointer {
        slot: NO_SLOT,
        serial: 0,
        time: 0,
    };

    pub fn new(slot: u16, serial: u32, time: u64) -> Pointer
        ensures { result ≡ pointer slot serial time }
    {
        Pointer { slot, serial, time }
    }

    pub fn is_none(self) -> bool
        ensures { result ≡ is_none self }
    {
        self.slot == NO_SLOT
    }

    // Live: not none, and its serial not below the oldest retained one.
    pub fn is_live(self, oldest: u32) -> bool
        ensures { result ≡ is_live self (serials_from oldest) }
    {
        !self.is_none() & (oldest <= self.serial)
    }

    // Its slot is below S, or it is none.
    pub fn in_slots(self, slots: u64) -> bool
        ensures { result ≡ in_slots self slots }
    {
        self.is_none() | ((self.slot as u64) < slots)
    }
}

// A segment's level, from 1 on.
pub fn level_of(serial: u32) -> usize
    ensures { (result ≡ level_of serial) × (1 ≤ result) × (result ≤ levels) }
{
    let n = 1 + serial.trailing_zeros() as usize;
    n.min(LEVELS)
}

pub fn no_heads() -> [Pointer; LEVELS]
    ensures { result ≡ no_heads }
{
    [Pointer::NONE; LEVELS]
}

// The first `level` heads, the others none.
pub fn node_of(heads: [Pointer; LEVELS], level: usize) -> [Pointer; LEVELS]
    requires { level ≤ levels }
    ensures { result ≡ node_of heads level }
{
    let mut n = heads;
    n[level..].fill(Pointer::NONE);
    n
}

// The first `level` heads point to the new segment.
fn heads_after(heads: [Pointer; LEVELS], level: usize, p: Pointer) -> [Pointer; LEVELS]
    requires { level ≤ levels }
    ensures { result ≡ heads_after heads level p }
{
    let mut n = heads;
    n[..level].fill(p);
    n
}

// The heads when the segment of `serial` closes: those up to its level point to it.
pub fn heads_closing(
    heads: [Pointer; LEVELS],
    slot: u16,
    serial: u32,
    start: u64,
) -> [Pointer; LEVELS]
    ensures { result ≡ heads_after heads (level_of serial) (pointer slot serial start) }
{
    let level = level_of(serial);
    let p = Pointer::new(slot, serial, start);
    heads_after(heads, level, p)
}

pub fn pointer_at(s: &[u8], at: usize, form: Form) -> Pointer
    requires { at + pointer_width form ≤ length s.now }
    ensures { result ≡ pointer_at form s.now at }
{
    let slot = codec::get_u16(s, at);
    let serial = match form {
        Form::Old => 0,
        Form::New => codec::get_u32(s, at + 2),
    };
    let time = codec::get_u64(s, at + form.pointer_bytes() - TIME_BYTES);
    Pointer::new(slot, serial, time)
}

pub fn pointers_at(s: &[u8], at: usize, form: Form) -> [Pointer; LEVELS]
    requires { at + levels * pointer_width form ≤ length s.now }
    ensures { result ≡ pointers_at form s.now at }
{
    let n = form.pointer_bytes();
    let a = pointer_at(s, at, form);
    let b = pointer_at(s, at + n, form);
    let c = pointer_at(s, at + 2 * n, form);
    let d = pointer_at(s, at + 3 * n, form);
    [a, b, c, d]
}

pub fn put_pointer(s: &mut [u8], at: usize, p: Pointer, form: Form)
    requires { at + pointer_width form ≤ length s.old }
    ensures { s.new ≡ splice s.old at (pointer_bytes form p) }
{
    codec::put_u16(s, at, p.slot);
    match form {
        Form::Old => {}
        Form::New => codec::put_u32(s, at + 2, p.serial),
    }
    codec::put_u64(s, at + form.pointer_bytes() - TIME_BYTES, p.time);
}

pub fn put_pointers(s: &mut [u8], at: usize, p: [Pointer; LEVELS], form: Form)
    requires { at + levels * pointer_width form ≤ length s.old }
    ensures { s.new ≡ splice s.old at (pointers_bytes form p) }
{
    let n = form.pointer_bytes();
    put_pointer(s, at, p[0], form);
    put_pointer(s, at + n, p[1], form);
    put_pointer(s, at + 2 * n, p[2], form);
    put_pointer(s, at + 3 * n, p[3], form);
}
