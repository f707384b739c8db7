// A list of stacks, read from text, and the ends of their bands printed (document 02, W-205 and W-206).
#![tactic(auto)]

mod printing;
mod reading;

ghost use Rattle.std.specs.Prelude.{◌≡◌, ◌≤◌, length, take};
ghost use Rattle.stack_list.specs.Generated.{generated};

use reading::NUMBERS;

// A byte more than the longest list has: 16 stacks of 24 lines of 7 bytes, and 15 blank lines.
pub const INPUT_BYTES: usize = 2704;

// A line of 7 bytes for each line of a list, at a blank one a byte more, and the last end.
pub const OUTPUT_BYTES: usize = 8 * NUMBERS + 7;

// What the generator prints for a text, at the start of `out`; returns how many bytes.
pub fn generate(text: &[u8], out: &mut [u8]) -> usize
    requires { 3199 ≤ length out.old }
    ensures { (result ≤ length out.new) × (take result out.new ≡ generated text.now) }
{
    let mut numbers = [0u32; NUMBERS];
    match reading::read_list(text, &mut numbers) {
        Some(read) => printing::put_ends(read, out),
        None => printing::put_refusal(out),
    }
}
