// Loads as they stand in a state's area (document 01: little-endian): one in four bytes, two's complement, and the last 13 loads of the
// open segment side by side.
#![tactic(auto)]

ghost use Rattle.std.specs.Prelude.{◌≡◌, ◌+◌, ◌≤◌, length};
ghost use Rattle.codec.specs.Area.{splice};
ghost use Rattle.loads.specs.Signed.{load_bytes, loads_bytes, load_at, loads_at};

use lift::LOADS_KEPT;

pub fn load_at(b: &[u8], at: usize) -> i32
    requires { at + 4 ≤ length b.now }
    ensures { result ≡ load_at b.now at }
{
    codec::get_u32(b, at).cast_signed()
}

pub fn put_load(b: &mut [u8], at: usize, load: i32)
    requires { at + 4 ≤ length b.old }
    ensures { b.new ≡ splice b.old at (load_bytes load) }
{
    codec::put_u32(b, at, load.cast_unsigned());
}

// The last 13 loads, oldest first.
pub fn loads_at(b: &[u8], at: usize) -> [i32; LOADS_KEPT]
    requires { at + 52 ≤ length b.now }
    ensures { result ≡ loads_at b.now at 13 }
{
    let mut loads = [0i32; LOADS_KEPT];
    for (i, x) in loads.iter_mut().enumerate() {
        *x = load_at(b, at + 4 * i);
    }
    loads
}

pub fn put_loads(b: &mut [u8], at: usize, loads: [i32; LOADS_KEPT])
    requires { at + 52 ≤ length b.old }
    ensures { b.new ≡ splice b.old at (loads_bytes loads) }
{
    for (i, x) in loads.iter().enumerate() {
        put_load(b, at + 4 * i, *x);
    }
}
