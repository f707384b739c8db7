// Bloom sections of 1,024 bits, and the two Bloom pages (document 01, "Bloom and skip list").
#![tactic(auto)]

ghost use Rattle.std.specs.Prelude.{◌≡◌, [], ◌∷◌, ◌+◌, ◌*◌, ◌-◌, ◌^◌, ◌%◌, ◌/◌, ◌<◌, ◌≤◌, min, length, get_or};
ghost use Rattle.codec.specs.Area.{part, splice};
ghost use Rattle.flash.specs.Chip.{nor_width};
ghost use Rattle.bloom.specs.Bloom.{set_in, in_byte, noted, empty_section, some_set, may_hold};
ghost use Rattle.bitset.specs.Set.{distinct};
ghost use Rattle.bloom.specs.Tried.{bits_of, bit_page, pages_tried};
ghost use Rattle.bloom.specs.Pages.{section_count, fragment_length, sections_from, bloom_page, section_in, sections_in};

use flash::PAGE_BYTES;

// "sections of 128", 1,024 bits, each of 64 lifts
pub const SECTION_BYTES: usize = 128;

pub const LIFTS_PER_SECTION: usize = 64;

// A of the first, the second and the third bit.
const MULTIPLIERS: [u64; 3] = [2654435761, 2246822519, 3266489917];

// Whether a load may be in a segment, and how many of its Bloom pages hold a bit that was tried.
#[derive(Clone, Copy)]
pub struct Tried {
    pub held: bool,
    pub pages: u8,
}

// A load's three bits.
pub fn bits_of(code: u32) -> [u16; 3]
    requires { 1 ≤ code }
    ensures { result ≡ bits_of code }
{
    let u = (code - 1) as u64;
    [
        cut(u * MULTIPLIERS[0]),
        cut(u * MULTIPLIERS[1]),
        cut(u * MULTIPLIERS[2]),
    ]
}

fn cut(p: u64) -> u16
    ensures { result ≡ p % 2 ^ 32 / 2 ^ 22 }
{
    ((p % 4294967296) / 4194304) as u16
}

// Bit b of the section that stands in an area from `at` on.
pub fn set_at(s: &mut [u8], at: usize, b: u16)
    requires { (at + 128 ≤ length s.old) × (b < 1024) }
    ensures { s.new ≡ splice s.old at (set_in (part s.old at 128) b) }
{
    let i = at + (b / 8) as usize;
    s[i] |= 128u8 >> (b % 8);
}

// The three bits of a load, in such a section: nothing else of the area is touched.
pub fn note_at(s: &mut [u8], at: usize, code: u32)
    requires { (at + 128 ≤ length s.old) × (1 ≤ code) }
    ensures { s.new ≡ splice s.old at (noted (part s.old at 128) code) }
{
    let [first, second, third] = bits_of(code);
    set_at(s, at, first);
    set_at(s, at, second);
    set_at(s, at, third);
}

// The three bits of a load, in a section by value.
pub fn note(section: [u8; SECTION_BYTES], code: u32) -> [u8; SECTION_BYTES]
    requires { 1 ≤ code }
    ensures { result ≡ noted section code }
{
    let mut s = section;
    note_at(&mut s, 0, code);
    s
}

pub fn empty_section() -> [u8; SECTION_BYTES]
    ensures { result ≡ empty_section }
{
    [0u8; SECTION_BYTES]
}

pub fn sections_of(count: u16) -> usize
    ensures { result ≡ section_count count }
{
    ((count as usize) + (LIFTS_PER_SECTION - 1)) / LIFTS_PER_SECTION
}

// The fragment length for a number of sections.
pub fn fragment_of(sections: usize) -> usize
    requires { 1 ≤ sections }
    ensures { result ≡ fragment_length sections }
{
    SECTION_BYTES.min(PAGE_BYTES / sections)
}

// Bytes `from` to `to` of section j go to `at`: a whole section is in NOR, a part-filled one in the buffer.
fn put_fragment(
    d: &mut [u8],
    at: usize,
    nor: &[u8],
    buffer: &[u8],
    count: u16,
    j: usize,
    from: usize,
    to: usize,
)
    requires nor_len { (length nor.now ≡ nor_width) × (count ≤ 320) × (j < section_count count) × (length buffer.now ≡ 128) }
    requires from_le_to { (from ≤ to) × (to ≤ 128) × (at + (to - from) ≤ length d.old) }
    ensures { d.new ≡ splice d.old at
        (part (get_or (sections_from nor.now buffer.now count) j []) from (to - from)) }
{
    if (j + 1) * LIFTS_PER_SECTION <= count as usize {
        let start = flash::TREE_BYTES + j * SECTION_BYTES;
        codec::copy(d, at, &nor[start + from..start + to]);
    } else {
        codec::copy(d, at, &buffer[from..to]);
    }
}

// Bloom page i, 0 or 1, of the open segment.
pub fn bloom_page(nor: &[u8], buffer: [u8; SECTION_BYTES], count: u16, i: usize) -> [u8; PAGE_BYTES]
    requires { (length nor.now ≡ nor_width) × (1 ≤ count) × (count ≤ 320) × (i < 2) }
    ensures { result ≡ bloom_page (sections_from nor.now buffer count) i }
{
    let mut d = [0u8; PAGE_BYTES];
    let s = sections_of(count);
    let l = fragment_of(s);
    let from = i * l;
    let to = SECTION_BYTES.min(from + l);
    for j in 0..s {
        put_fragment(&mut d, j * l, nor, &buffer, count, j, from, to);
    }
    d
}

// Byte n of section j of the two Bloom pages, with fragments of l bytes.
fn stored_byte(pages: &[u8], l: usize, j: usize, n: usize) -> u8
    requires { (1024 ≤ length pages.now) × (j * l + l ≤ 512) × (128 ≤ 2 * l) × (n < 128) }
    ensures { result ≡ get_or (section_in pages.now l j) n 0 }
{
    if n < l {
        pages[j * l + n]
    } else {
        pages[PAGE_BYTES + j * l + (n - l)]
    }
}

// Whether bit b is set in its byte.
fn has_bit(x: u8, b: u16) -> bool
    ensures { result ≡ in_byte x b }
{
    (x >> (7 - b % 8)) % 2 == 1
}

// Whether the bit is set in some of s sections; `pages` are both Bloom pages.
fn in_some(pages: &[u8], s: usize, l: usize, b: u16) -> bool
    requires { (1024 ≤ length pages.now) × (1 ≤ s) × (s ≤ 5) × (l ≡ fragment_length s) × (b < 1024) }
    ensures { result ≡ some_set (sections_in pages.now s) b }
{
    let n = (b / 8) as usize;
    for j in 0..s {
        if has_bit(stored_byte(pages, l, j, n), b) {
            return true;
        }
    }
    false
}

// The Bloom page, 0 or 1, that holds bit b, with fragments of l bytes.
fn bit_page(b: u16, l: usize) -> u8
    requires { (b < 1024) × (128 ≤ 2 * l) }
    ensures { (result ≡ bit_page l b) × (result < 2) }
{
    if ((b / 8) as usize) < l { 0 } else { 1 }
}

// On how many pages two bits stand, and three, by the page of each.
fn pages_of_two(a: u8, b: u8) -> u8
    ensures { result ≡ distinct (a ∷ b ∷ []) }
{
    if a == b { 1 } else { 2 }
}

fn pages_of_three(a: u8, b: u8, c: u8) -> u8
    requires { (a < 2) × (b < 2) × (c < 2) }
    ensures { result ≡ distinct (a ∷ b ∷ c ∷ []) }
{
    if a == b { pages_of_two(b, c) } else { 2 }
}

// The bits of a load tried in turn, up to the first that is clear in all sections; `pages` are both Bloom pages.
pub fn try_bits(pages: &[u8], count: u16, code: u32) -> Tried
    requires { (1024 ≤ length pages.now) × (1 ≤ count) × (count ≤ 320) × (1 ≤ code) }
    ensures held { result.held ≡ may_hold (sections_in pages.now (section_count count)) code }
    ensures pages { result.pages ≡ pages_tried (sections_in pages.now (section_count count)) code }
{
    let s = sections_of(count);
    let l = fragment_of(s);
    let [first, second, third] = bits_of(code);
    if !in_some(pages, s, l, first) {
        return Tried {
            held: false,
            pages: 1,
        };
    }
    let a = bit_page(first, l);
    let b = bit_page(second, l);
    if !in_some(pages, s, l, second) {
        return Tried {
            held: false,
            pages: pages_of_two(a, b),
        };
    }
    let c = bit_page(third, l);
    let held = in_some(pages, s, l, third);
    Tried {
        held,
        pages: pages_of_three(a, b, c),
    }
}
