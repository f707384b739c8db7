// The ends of the bands of stacks, printed: a line for each number, 0 for a blank one, and a last end for each stack.
ghost use Rattle.std.specs.Prelude.{◌≡◌, ◌+◌, ◌*◌, ◌^◌, ◌≤◌, ◌<◌, length, take};
ghost use Rattle.codec.specs.Area.{splice};
ghost use Rattle.stack_list.specs.Generated.{refusal};
ghost use Rattle.stack_list.specs.Inner.Turns.{end_line, turn_lines, sum_on, end_lines};

use crate::reading::COLUMNS;
use lines::LINE_FEED;

// "15 alone"
pub fn put_refusal(out: &mut [u8]) -> usize
    requires { 3 ≤ length out.old }
    ensures { (result ≤ length out.new) × (take result out.new ≡ refusal) }
{
    answers::put_number(out, 0, 2, false, 15);
    out[2] = LINE_FEED;
    3
}

// An end on its line; returns where the next line begins.
fn put_end(out: &mut [u8], at: usize, end: u64) -> usize
    requires { at + 7 ≤ length out.old }
    ensures { (out.new ≡ splice out.old at (end_line end)) × (result ≡ at + 7) }
{
    answers::put_number(out, at, COLUMNS, false, end);
    out[at + COLUMNS] = LINE_FEED;
    at + COLUMNS + 1
}

// Under plates of this sum, the lowest of them `above`: the middle between the sum above a plate and the sum with it; before a blank
// line the last end of its stack, half the last plate above the full sum.
fn put_turn(out: &mut [u8], at: usize, sum: u64, above: u64, plate: u64) -> usize
    requires { (at + 8 ≤ length out.old) × ((sum < 2 ^ 62) × ((above < 2 ^ 62) × (plate < 2 ^ 62))) }
    ensures { (out.new ≡ splice out.old at (turn_lines sum above plate))
        × (result ≡ at + length (turn_lines sum above plate)) }
{
    if plate == 0 {
        let blank = put_end(out, at, sum + above / 2);
        out[blank] = LINE_FEED;
        blank + 1
    } else {
        put_end(out, at, sum + plate / 2)
    }
}

// The sum down to a plate; after a blank line the next stack begins.
fn sum_on(sum: u64, plate: u64) -> u64
    requires { (sum < 2 ^ 62) × (plate < 2 ^ 62) }
    ensures { result ≡ sum_on sum plate }
{
    if plate == 0 { 0 } else { sum + plate }
}

// The ends of stacks given by one number for each line; returns how many bytes they take.
pub fn put_ends(numbers: &[u32], out: &mut [u8]) -> usize
    requires { (length numbers.now ≤ 399) × (8 * length numbers.now + 7 ≤ length out.old) }
    ensures { (result ≤ length out.new) × (take result out.new ≡ end_lines 0 0 numbers.now) }
{
    let mut sum: u64 = 0;
    let mut above: u64 = 0;
    let mut at: usize = 0;
    for number in numbers {
        let n = *number as u64;
        at = put_turn(out, at, sum, above, n);
        sum = sum_on(sum, n);
        above = n;
    }
    put_end(out, at, sum + above / 2)
}
