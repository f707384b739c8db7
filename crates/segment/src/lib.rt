// The pages that a close programs (document 01, "Segments"; "Chips and slots": pages of a slot).
#![tactic(auto)]

ghost use Rattle.std.specs.Prelude.{◌≡◌, true, ◌+◌, ◌*◌, ◌≤◌, ◌<◌, length};
ghost use Rattle.tree.specs.Rules.{buckets_most};
ghost use Rattle.lift.specs.Rows.{lifts_most};
ghost use Rattle.flash.specs.Chip.{nor_width, slot_pages, slot_width};
ghost use Rattle.codec.specs.Area.{repeated};
ghost use Rattle.tree.specs.Place.{bucket_start, tree_start};
ghost use Rattle.segment.specs.Pages.{holds_bucket, page_due, tree_page, close_page, page_ready, page_programmed, close_erased, close_programmed};

use flash::{PAGE_BYTES, Page};
use header::Closing;
use tree::Bucket;

// "page 30 is used only for five sections"
const FIVE_SECTIONS: usize = 5;

fn ones() -> [u8; PAGE_BYTES]
    ensures { result ≡ repeated 512 255 }
{
    [255u8; PAGE_BYTES]
}

// Tree page p: its buckets, the rest 255.
fn tree_page(nor: &[u8], buckets: u8, p: usize) -> [u8; PAGE_BYTES]
    requires { (20 ≤ p) × (p < 29) × (tree_start p < bucket_start buckets) × (bucket_start buckets ≤ length nor.now) }
    ensures { result ≡ tree_page nor.now buckets p }
{
    let mut d = ones();
    let a = tree::page_start(Page(p));
    let end = tree::start_of(Bucket(buckets));
    let n = PAGE_BYTES.min(end - a);
    codec::copy(&mut d, 0, &nor[a..a + n]);
    d
}

// The last bucket's page is p or a later one.
fn holds_bucket(buckets: u8, p: usize) -> bool
    ensures { result ≡ holds_bucket buckets p }
{
    if buckets == 0 {
        false
    } else {
        let last = tree::place_of(Bucket(buckets - 1));
        p <= last.page.0
    }
}

// Whether a close programs page p: the part-filled lift page, the tree pages that hold a bucket, page 29, page 30 for five
// sections, page 31.
pub fn is_due(count: u16, buckets: u8, p: usize) -> bool
    ensures { result ≡ page_due count buckets p }
{
    if p < flash::TREE_FIRST {
        let n = count as usize;
        (n % lift::LIFTS_PER_PAGE != 0) & (p == n / lift::LIFTS_PER_PAGE)
    } else if p < flash::BLOOM_FIRST {
        holds_bucket(buckets, p)
    } else {
        (p != flash::BLOOM_SECOND) | (bloom::sections_of(count) == FIVE_SECTIONS)
    }
}

// What a close programs into page p.
pub fn page_image(nor: &[u8], c: Closing, p: usize) -> [u8; PAGE_BYTES]
    requires { (length nor.now ≡ nor_width) × (p < slot_pages) × (1 ≤ c.count) × (c.count ≤ lifts_most) × (c.buckets ≤ buckets_most)
        × (page_due c.count c.buckets p ≡ true) }
    ensures { result ≡ close_page nor.now c p }
{
    if p < flash::TREE_FIRST {
        c.page
    } else if p < flash::BLOOM_FIRST {
        tree_page(nor, c.buckets, p)
    } else if p < flash::HEADER_LAST {
        bloom::bloom_page(nor, c.bloom, c.count, p - flash::BLOOM_FIRST)
    } else {
        header::header_page(c)
    }
}

// Page p need not be programmed, or is erased.
fn is_ready(nand: &[u8], slot: usize, count: u16, buckets: u8, p: usize) -> bool
    requires { (slot * slot_width + slot_width ≤ length nand.now) × (p < slot_pages) }
    ensures { result ≡ page_ready nand.now slot count buckets p }
{
    !is_due(count, buckets, p) || flash::is_erased(nand, slot, Page(p))
}

// Whether all pages that a close programs are erased.
pub fn pages_erased(nand: &[u8], slot: usize, count: u16, buckets: u8) -> bool
    requires { slot * slot_width + slot_width ≤ length nand.now }
    ensures { result ≡ close_erased nand.now slot count buckets }
{
    for p in 0..flash::SLOT_PAGES {
        if !is_ready(nand, slot, count, buckets, p) {
            return false;
        }
    }
    true
}

// Page p is programmed if it is due.
fn program_page(nand: &mut [u8], nor: &[u8], slot: usize, c: Closing, p: usize)
    requires { (slot * slot_width + slot_width ≤ length nand.old) × (length nor.now ≡ nor_width) × (p < slot_pages)
        × (1 ≤ c.count) × (c.count ≤ lifts_most) × (c.buckets ≤ buckets_most) }
    ensures { nand.new ≡ page_programmed nand.old nor.now slot c p }
{
    if is_due(c.count, c.buckets, p) {
        let d = page_image(nor, c, p);
        flash::program(nand, slot, Page(p), d);
    }
}

// The close's programs, in rising page order.
pub fn program_pages(nand: &mut [u8], nor: &[u8], slot: usize, c: Closing)
    requires { (slot * slot_width + slot_width ≤ length nand.old) × (length nor.now ≡ nor_width)
        × (1 ≤ c.count) × (c.count ≤ lifts_most) × (c.buckets ≤ buckets_most) }
    ensures { nand.new ≡ close_programmed nand.old nor.now slot c }
{
    for p in 0..flash::SLOT_PAGES {
        program_page(nand, nor, slot, c, p);
    }
}
