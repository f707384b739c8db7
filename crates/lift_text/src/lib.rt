// Lifts as text (document 02, W-211): how many bytes a lift's record has, and the record itself, written from its end backwards.
#![tactic(auto)]

ghost use Rattle.std.specs.Prelude.{◌≡◌, ◌+◌, ◌≤◌, ◌<◌, length};
ghost use Rattle.codec.specs.Area.{splice};
ghost use Rattle.lift.specs.Limits.{load_of};
ghost use Rattle.answers.specs.Printed.{digits};
ghost use Rattle.lift_text.specs.Text.{load_text, line_text, head_text};
ghost use Rattle.lift_text.specs.Inner.Before.{PutBefore};

use lift::CODE_OF_ZERO;
use lines::{LINE_FEED, MINUS, ZERO};

pub const COMMA: u8 = b',';

pub const CARRIAGE_RETURN: u8 = b'\r';

// "time,load,member" and its CRLF.
pub const HEADING: [u8; 16] = *b"time,load,member";

pub const HEAD_BYTES: usize = 18;

// How many digits a number has.
fn digits_in(v: u64) -> u64
    ensures { (result ≡ length (digits v)) × (result ≤ 20) }
{
    u64::from(v.max(1).ilog10()) + 1
}

// How many bytes a load's numeral has, from the load as stored.
fn load_bytes(code: u32) -> u64
    ensures { (result ≡ length (load_text (load_of code))) × (result ≤ 21) }
{
    let n = digits_in(answers::size_of(code));
    if code < CODE_OF_ZERO { n + 1 } else { n }
}

// How many bytes the line of a lift has: two commas and CRLF are four.
pub fn line_bytes(time: u64, code: u32, member: u32) -> u64
    ensures { (result ≡ length (line_text (record { time = time; load = load_of code; member = member }))) × (result ≤ 65) }
{
    digits_in(time) + load_bytes(code) + digits_in(member as u64) + 4
}

// The digits of a number end at `end`; returns where they begin. No twin of `answers::put_number`: it writes no column before them.
fn put_digits(area: &mut [u8], end: usize, v: u64) -> usize
    requires { (length (digits v) ≤ end) × (end ≤ length area.old) }
    ensures { PutBefore area.old area.new (digits v) end result }
{
    let mut to = end;
    let mut rest = v;
    loop {
        to -= 1;
        area[to] = ZERO + (rest % 10) as u8;
        if rest < 10 {
            return to;
        }
        rest /= 10;
    }
}

// A load's digits, and a minus before them below zero.
fn put_load(area: &mut [u8], end: usize, code: u32) -> usize
    requires { (length (load_text (load_of code)) ≤ end) × (end ≤ length area.old) }
    ensures { PutBefore area.old area.new (load_text (load_of code)) end result }
{
    let size = answers::size_of(code);
    let at = put_digits(area, end, size);
    if code < CODE_OF_ZERO {
        area[at - 1] = MINUS;
        at - 1
    } else {
        at
    }
}

// The line of a lift ends at `end`; returns where it begins.
#[tactic(auto, using(crate::proofs::Lines::length_told))]
pub fn put_line(area: &mut [u8], end: usize, time: u64, code: u32, member: u32) -> usize
    requires { (length (line_text (record { time = time; load = load_of code; member = member })) ≤ end) × (end ≤ length area.old) }
    ensures { PutBefore area.old area.new
        (line_text (record { time = time; load = load_of code; member = member })) end result }
{
    area[end - 1] = LINE_FEED;
    area[end - 2] = CARRIAGE_RETURN;
    let m = put_digits(area, end - 2, member as u64);
    area[m - 1] = COMMA;
    let k = put_load(area, m - 1, code);
    area[k - 1] = COMMA;
    put_digits(area, k - 1, time)
}

// The header with its CRLF, at the area's start.
pub fn put_heading(area: &mut [u8])
    requires { 18 ≤ length area.old }
    ensures { area.new ≡ splice area.old 0 head_text }
{
    codec::copy(area, 0, &HEADING);
    area[16] = CARRIAGE_RETURN;
    area[17] = LINE_FEED;
}
