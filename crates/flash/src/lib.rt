// The chips: slots and pages of NAND, and NOR (document 01, "Chips and slots").
#![tactic(auto)]

ghost use Rattle.std.specs.Prelude.{◌≡◌, ◌+◌, ◌*◌, ◌^◌, ◌≤◌, ◌<◌, length};
ghost use Rattle.flash.specs.Chip.{slot_of, page_start, pages_of, page_erased, programmed, slot_erased, chip_erased, nor_written, nor_tree, slot_pages, slot_width, tree_width};

// A page is 512 bytes, a slot 32 pages.
pub const PAGE_BYTES: usize = 512;

pub const SLOT_PAGES: usize = 32;

pub const SLOT_BYTES: usize = 16384;

// "Pages of a slot: 0–19 lifts ..; 20–28 tree ..; 29–30 Bloom; 31 header"
pub const TREE_FIRST: usize = 20;

pub const TREE_PAGES: usize = 9;

pub const BLOOM_FIRST: usize = 29;

pub const BLOOM_SECOND: usize = 30;

pub const HEADER_LAST: usize = 31;

// NOR: 36 buckets of 128 bytes, then five Bloom sections of 128, and some to spare.
pub const NOR_BYTES: usize = 6144;

pub const TREE_BYTES: usize = 4608;

// A page's number in its slot, 0 to 31.
#[derive(Clone, Copy)]
pub struct Page(pub usize);

// The slot of a serial.
pub fn slot_of(serial: u32, slots: u64) -> usize
    requires { (1 ≤ serial) × (1 ≤ slots) }
    ensures { (result ≡ slot_of serial slots) × (result < slots) }
{
    ((serial - 1) as u64 % slots) as usize
}

// Where a page of a slot starts.
pub fn page_at(slot: usize, p: Page) -> usize
    requires { (slot * slot_width + slot_width < 2 ^ 64) × (p.0 < slot_pages) }
    ensures { result ≡ page_start slot p.0 }
{
    slot * SLOT_BYTES + p.0 * PAGE_BYTES
}

pub fn is_erased(nand: &[u8], slot: usize, p: Page) -> bool
    requires { (slot * slot_width + slot_width ≤ length nand.now) × (p.0 < slot_pages) }
    ensures { result ≡ page_erased nand.now slot p.0 }
{
    let at = page_at(slot, p);
    codec::all_ones(nand, at, PAGE_BYTES)
}

// A page is programmed whole.
pub fn program(nand: &mut [u8], slot: usize, p: Page, bytes: [u8; PAGE_BYTES])
    requires { (slot * slot_width + slot_width ≤ length nand.old) × (p.0 < slot_pages) }
    ensures { nand.new ≡ programmed nand.old slot p.0 bytes }
{
    let at = page_at(slot, p);
    codec::copy(nand, at, &bytes);
}

pub fn erase_slot(nand: &mut [u8], slot: usize)
    requires { slot * slot_width + slot_width ≤ length nand.old }
    ensures { nand.new ≡ slot_erased nand.old slot }
{
    codec::fill(nand, slot * SLOT_BYTES, SLOT_BYTES, 255);
}

// NAND or NOR, whole.
pub fn erase_chip(chip: &mut [u8])
    ensures { chip.new ≡ chip_erased (length chip.old) }
{
    chip.fill(255);
}

// n pages of a slot, from page p on.
pub fn pages_of(nand: &[u8], slot: usize, p: Page, n: usize) -> &[u8]
    requires { (slot * slot_width + slot_width ≤ length nand.now) × (p.0 + n ≤ 32) × (p.0 < slot_pages) }
    ensures { result.now ≡ pages_of nand.now slot p.0 n }
{
    let a = page_at(slot, p);
    &nand[a..a + n * PAGE_BYTES]
}

// The n low bytes of v are written into NOR; the caller has seen that the bytes there are 255.
pub fn write_nor(nor: &mut [u8], at: usize, n: usize, v: u64)
    requires { at + n ≤ length nor.old }
    ensures { nor.new ≡ nor_written nor.old at n v }
{
    codec::put(nor, at, n, v);
}

// The buckets in NOR.
pub fn nor_tree(nor: &[u8]) -> &[u8]
    requires { tree_width ≤ length nor.now }
    ensures { result.now ≡ nor_tree nor.now }
{
    &nor[..TREE_BYTES]
}
