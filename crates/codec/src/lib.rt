// Little-endian numbers and runs of bytes in a byte area (document 01, "Chips and slots").
#![tactic(auto)]

ghost use Rattle.std.specs.Prelude.{◌≡◌, ◌+◌, ◌≤◌, ◌<◌, ◌^◌, length};
ghost use Rattle.codec.specs.Area.{part, splice, repeated, all_ones};
ghost use Rattle.codec.specs.Number.{bytes, number_at};

// The number in the n bytes from `at`.
pub fn get(s: &[u8], at: usize, n: usize) -> u64
    requires { (at + n ≤ length s.now) × (n ≤ 8) }
    ensures { (result ≡ number_at s.now at n) × (result < 256 ^ n) }
{
    let mut acc: u64 = 0;
    for i in (0..n).rev() {
        acc = acc * 256 + s[at + i] as u64;
    }
    acc
}

// The n low bytes of v are stored from `at`.
pub fn put(s: &mut [u8], at: usize, n: usize, v: u64)
    requires { at + n ≤ length s.old }
    ensures { s.new ≡ splice s.old at (bytes n v) }
{
    let mut rest = v;
    for b in s[at..at + n].iter_mut() {
        *b = (rest % 256) as u8;
        rest /= 256;
    }
}

// One line for each width over `get` and `put`: a trait for `get::<u32>` is no plainer, its impls would be these same lines.
pub fn get_u8(s: &[u8], at: usize) -> u8
    requires { at + 1 ≤ length s.now }
    ensures { result ≡ number_at s.now at 1 }
{
    get(s, at, 1) as u8
}

pub fn get_u16(s: &[u8], at: usize) -> u16
    requires { at + 2 ≤ length s.now }
    ensures { result ≡ number_at s.now at 2 }
{
    get(s, at, 2) as u16
}

pub fn get_u32(s: &[u8], at: usize) -> u32
    requires { at + 4 ≤ length s.now }
    ensures { result ≡ number_at s.now at 4 }
{
    get(s, at, 4) as u32
}

pub fn get_u64(s: &[u8], at: usize) -> u64
    requires { at + 8 ≤ length s.now }
    ensures { result ≡ number_at s.now at 8 }
{
    get(s, at, 8)
}

pub fn put_u8(s: &mut [u8], at: usize, v: u8)
    requires { at + 1 ≤ length s.old }
    ensures { s.new ≡ splice s.old at (bytes 1 v) }
{
    put(s, at, 1, v as u64);
}

pub fn put_u16(s: &mut [u8], at: usize, v: u16)
    requires { at + 2 ≤ length s.old }
    ensures { s.new ≡ splice s.old at (bytes 2 v) }
{
    put(s, at, 2, v as u64);
}

pub fn put_u32(s: &mut [u8], at: usize, v: u32)
    requires { at + 4 ≤ length s.old }
    ensures { s.new ≡ splice s.old at (bytes 4 v) }
{
    put(s, at, 4, v as u64);
}

pub fn put_u64(s: &mut [u8], at: usize, v: u64)
    requires { at + 8 ≤ length s.old }
    ensures { s.new ≡ splice s.old at (bytes 8 v) }
{
    put(s, at, 8, v);
}

// `src` is copied to `at`.
pub fn copy(s: &mut [u8], at: usize, src: &[u8])
    requires { at + length src.now ≤ length s.old }
    ensures { s.new ≡ splice s.old at src.now }
{
    s[at..at + src.len()].copy_from_slice(src);
}

// The same of pages and more, byte by byte: the compiler makes wide moves of it. `copy_from_slice` would ask for memmove, which no
// archive for C needs from outside otherwise.
pub fn copy_long(s: &mut [u8], at: usize, src: &[u8])
    requires { at + length src.now ≤ length s.old }
    ensures { s.new ≡ splice s.old at src.now }
{
    for (i, b) in src.iter().enumerate() {
        s[at + i] = *b;
    }
}

// The n bytes from `at` become v.
pub fn fill(s: &mut [u8], at: usize, n: usize, v: u8)
    requires { at + n ≤ length s.old }
    ensures { s.new ≡ splice s.old at (repeated n v) }
{
    s[at..at + n].fill(v);
}

// Whether the n bytes from `at` are all 255. No early return: without one many bytes are tested at a time.
pub fn all_ones(s: &[u8], at: usize, n: usize) -> bool
    requires { at + n ≤ length s.now }
    ensures { result ≡ all_ones (part s.now at n) }
{
    let mut good = true;
    for b in &s[at..at + n] {
        good &= *b == 255;
    }
    good
}
