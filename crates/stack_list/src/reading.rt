// A list of stacks read from text: one number for each line, 0 for a blank one.
ghost use Rattle.std.specs.Prelude.{◌≡◌, MatchOption, position, false, cond, eqb, suc, ◌≤◌, ltb, length};
ghost use Rattle.stack_list.specs.ListForm.{is_list};
ghost use Rattle.stack_list.specs.Inner.Turns.{first_line, plate_or0, IsPlate, read_line, Listed};

use lines::LINE_FEED;

// "a list of 1 to 16 stacks", "1 to 24 plates of 100 to 5,000 units each"
const MOST_STACKS: u32 = 16;

const MOST_PLATES: u32 = 24;

const LEAST_PLATE: u64 = 100;

const MOST_PLATE: u64 = 5000;
// "one plate in 6 columns per line"
pub const COLUMNS: usize = 6;

// The most lines that a list has: 16 stacks of 24 plates, and a blank one between two.
pub const NUMBERS: usize = 399;

fn line_feed_in(text: &[u8]) -> Option<usize>
    ensures { result ≡ position (λ b. eqb b 10) text.now }
{
    text.iter().position(|b| *b == LINE_FEED)
}

// The bytes before the first line feed.
fn line_length(text: &[u8]) -> usize
    ensures { result ≡ length (first_line text.now) }
{
    line_feed_in(text).unwrap_or(text.len())
}

// The plate of a line, if it has one within the sizes.
fn plate_in(line: &[u8]) -> Option<u32>
    ensures { MatchOption result (plate_or0 line.now ≡ 0) (IsPlate line.now) }
{
    if line.len() != COLUMNS {
        return None;
    }
    let plate = lines::field_at(line, 0, COLUMNS).time()?;
    if (LEAST_PLATE <= plate) & (plate <= MOST_PLATE) {
        Some(plate as u32)
    } else {
        None
    }
}

// A line as read: its number, the stacks so far and the plates of the last one.
#[derive(Clone, Copy)]
pub struct Read {
    pub number: u32,
    pub stacks: u32,
    pub plates: u32,
}

// A line after so many stacks, the last of them with so many plates, if a list can go on with it.
fn read_line(line: &[u8], stacks: u32, plates: u32) -> Option<Read>
    requires { (stacks ≤ 16) × (plates ≤ 24) }
    ensures { result ≡ read_line line.now stacks plates }
{
    if line.is_empty() {
        return if (0 < plates) & (stacks < MOST_STACKS) {
            Some(Read {
                number: 0,
                stacks: stacks + 1,
                plates: 0,
            })
        } else {
            None
        };
    }
    let number = plate_in(line)?;
    if plates < MOST_PLATES {
        Some(Read {
            number,
            stacks,
            plates: plates + 1,
        })
    } else {
        None
    }
}

// Where the next line begins, after the end of one: its line feed may be missing.
fn after_line(end: usize, len: usize) -> usize
    ensures { result ≡ cond (ltb end len) (suc end) len }
{
    if end < len { end + 1 } else { len }
}

// One number for each line of a list, at the start of `numbers`; a blank line stays the 0 that `Listed` and `end_lines` name, and no Option.
pub fn read_list<'a>(text: &[u8], numbers: &'a mut [u32]) -> Option<&'a [u32]>
    requires { 399 ≤ length numbers.old }
    ensures { MatchOption result (is_list text.now ≡ false) (λ read. Listed text.now read.now) }
{
    let mut at: usize = 0;
    let mut lines: usize = 0;
    let mut stacks: u32 = 1;
    let mut plates: u32 = 0;
    while at < text.len() {
        let end = at + line_length(&text[at..]);
        let r = read_line(&text[at..end], stacks, plates)?;
        numbers[lines] = r.number;
        lines += 1;
        stacks = r.stacks;
        plates = r.plates;
        at = after_line(end, text.len());
    }
    if plates == 0 {
        None
    } else {
        Some(&numbers[..lines])
    }
}
