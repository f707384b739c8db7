// The answers of `slotlist` (document 01, "Program"): numbers, lifts and counts laid out in columns.
#![tactic(auto)]

ghost use Rattle.std.specs.Prelude.{◌≡◌, cond, ◌+◌, ◌-◌, ◌≤◌, ltb, length};
ghost use Rattle.codec.specs.Area.{splice};
ghost use Rattle.lift.specs.Limits.{load_of};
ghost use Rattle.answers.specs.Printed as Printed;
ghost use Rattle.answers.specs.Inner.Pen as Pens;

use lift::CODE_OF_ZERO;
use lines::{LOAD_COLUMNS, MINUS, SPACE, TIME_COLUMNS, ZERO};
use plate::PLATES;

// "letter and number (3 columns, ..)", "the count (7)"
const NUMBER_COLUMNS: usize = 3;

const COUNT_COLUMNS: usize = 7;
// Letter and number; an answer's count or counts follow.
const HEAD_BYTES: usize = 4;

// What is left to write of a number, from its last column.
#[derive(Clone, Copy)]
pub enum Pen {
    // Digits of this number, and whether a minus stands before them.
    Digits(u64, bool),
    Minus,
    Spaces,
}

impl Pen {
    fn byte(self) -> u8
        ensures { result ≡ Pens.pen_byte self }
    {
        match self {
            Pen::Digits(v, _) => ZERO + (v % 10) as u8,
            Pen::Minus => MINUS,
            Pen::Spaces => SPACE,
        }
    }

    fn next(self) -> Pen
        ensures { result ≡ Pens.pen_next self }
    {
        match self {
            Pen::Digits(v, minus) if 10 <= v => Pen::Digits(v / 10, minus),
            Pen::Digits(_, true) => Pen::Minus,
            _ => Pen::Spaces,
        }
    }
}

// A number in `width` columns from `at`, right-justified.
pub fn put_number(s: &mut [u8], at: usize, width: usize, minus: bool, v: u64)
    requires { at + width ≤ length s.old }
    ensures { s.new ≡ splice s.old at (Printed.columns width minus v) }
{
    let mut pen = Pen::Digits(v, minus);
    for column in (0..width).rev() {
        s[at + column] = pen.byte();
        pen = pen.next();
    }
}

// "It prints letter and number"
pub fn put_head(s: &mut [u8], letter: u8, number: u8)
    requires { 4 ≤ length s.old }
    ensures { s.new ≡ splice s.old 0 (Printed.head_bytes letter number) }
{
    s[0] = letter;
    put_number(s, 1, NUMBER_COLUMNS, false, number as u64);
}

pub fn put_count(s: &mut [u8], at: usize, n: u64)
    requires { at + 7 ≤ length s.old }
    ensures { s.new ≡ splice s.old at (Printed.count_bytes n) }
{
    put_number(s, at, COUNT_COLUMNS, false, n);
}

// The size of the load that a stored number stands for; its sign is a test of that number.
pub fn size_of(code: u32) -> u64
    ensures { result ≡ cond (ltb code 50001) (50001 - code) (code - 50001) }
{
    code.abs_diff(CODE_OF_ZERO) as u64
}

// "a line per lift in the same columns without a letter": from the load as stored.
pub fn put_lift(s: &mut [u8], time: u64, code: u32)
    requires { 23 ≤ length s.old }
    ensures { s.new ≡ splice s.old 0 (Printed.lift_bytes time (load_of code)) }
{
    put_number(s, 0, TIME_COLUMNS, false, time);
    let size = size_of(code);
    put_number(s, TIME_COLUMNS, LOAD_COLUMNS, code < CODE_OF_ZERO, size);
}

// "an accepted T", 22 counts "(7 each)"
pub fn put_counts(s: &mut [u8], counts: [u64; PLATES])
    requires { 158 ≤ length s.old }
    ensures { s.new ≡ splice s.old 4 (Printed.counts_bytes counts) }
{
    for (i, n) in counts.iter().enumerate() {
        put_count(s, HEAD_BYTES + COUNT_COLUMNS * i, *n);
    }
}
