// The service page (document 02, W-201): a tally laid out for the wall, line by line.
#![tactic(auto)]

ghost use Rattle.std.specs.Prelude.{◌≡◌, [], ◌∷◌, ◌++◌, ◌+◌, ◌*◌, ◌^◌, ◌≤◌, ◌<◌, length, sum};
ghost use Rattle.codec.specs.Area.{splice};
ghost use Rattle.plate.specs.Total.{total};
ghost use Rattle.plate.specs.Plate.{plates};
ghost use Rattle.service_page.specs.Page as Page;

use lines::{LINE_FEED, SPACE, TIME_COLUMNS};
use plate::PLATES;

// "a page 40 columns wide", and a line feed
const LINE_BYTES: usize = 41;

// After the heading and a line for each plate.
const TOTAL_AT: usize = LINE_BYTES * (PLATES + 1);

pub const PAGE_BYTES: usize = TOTAL_AT + LINE_BYTES;

fn end_line(s: &mut [u8], at: usize)
    requires { at + 41 ≤ length s.old }
    ensures { s.new ≡ splice s.old (at + 40) (10 ∷ []) }
{
    s[at + 40] = LINE_FEED;
}

// "a heading line with the window's two times"
fn put_heading(s: &mut [u8], at: usize, t1: u64, t2: u64)
    requires { at + 41 ≤ length s.old }
    ensures { s.new ≡ splice s.old at (Page.heading t1 t2 ++ (10 ∷ [])) }
{
    answers::put_number(s, at, TIME_COLUMNS, false, t1);
    codec::fill(s, at + 15, 10, SPACE);
    answers::put_number(s, at + 25, TIME_COLUMNS, false, t2);
    end_line(s, at);
}

// "percentage rounded down"
#[tactic(auto, unfolding(crate::specs::Page::percentage))]
fn percentage(count: u64, all: u64) -> u64
    requires { count < 2 ^ 57 }
    ensures { result ≡ Page.percentage count all }
{
    (100 * count).checked_div(all).unwrap_or(0)
}

// One plate: its number, its count and its percentage of all.
fn put_plate(s: &mut [u8], at: usize, all: u64, plate: u64, count: u64)
    requires { (at + 41 ≤ length s.old) × (count < 2 ^ 57) }
    ensures { s.new ≡ splice s.old at (Page.plate_line all plate count ++ (10 ∷ [])) }
{
    let share = percentage(count, all);
    answers::put_number(s, at, 4, false, plate);
    answers::put_number(s, at + 4, 9, false, count);
    answers::put_number(s, at + 13, 5, false, share);
    codec::fill(s, at + 18, 22, SPACE);
    end_line(s, at);
}

// "one line for each plate, heaviest first"
fn put_plates(s: &mut [u8], at: usize, counts: [u64; PLATES], all: u64)
    requires { (at + 41 * plates ≤ length s.old) × ((all ≡ total counts) × (total counts < 2 ^ 57)) }
    ensures { s.new ≡ splice s.old at (Page.text_of (Page.plate_lines counts plates)) }
{
    let mut to = at;
    for plate in (0..PLATES).rev() {
        let count = counts[plate];
        put_plate(s, to, all, plate as u64, count);
        to += LINE_BYTES;
    }
}

// "last a total in columns 5 to 13"
fn put_total(s: &mut [u8], at: usize, all: u64)
    requires { at + 41 ≤ length s.old }
    ensures { s.new ≡ splice s.old at (Page.total_line all ++ (10 ∷ [])) }
{
    codec::fill(s, at, 4, SPACE);
    answers::put_number(s, at + 4, 9, false, all);
    codec::fill(s, at + 13, 27, SPACE);
    end_line(s, at);
}

// The lifts of all plates together.
fn total_of(counts: &[u64]) -> u64
    requires { sum counts.now < 2 ^ 57 }
    ensures { result ≡ sum counts.now }
{
    counts.iter().sum()
}

// The page of a window and its counts, from `at`. The percentages want room for 100 times a count.
pub fn put_page(s: &mut [u8], at: usize, t1: u64, t2: u64, counts: [u64; PLATES])
    requires { (at + Page.page_bytes ≤ length s.old) × (total counts < 2 ^ 57) }
    ensures { s.new ≡ splice s.old at (Page.page_of t1 t2 counts) }
{
    let all = total_of(&counts);
    put_heading(s, at, t1, t2);
    put_plates(s, at + LINE_BYTES, counts, all);
    put_total(s, at + TOTAL_AT, all);
}
