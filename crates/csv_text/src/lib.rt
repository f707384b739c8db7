// Comma-separated files (document 02, W-211; RFC 4180): the header and the lines of a lent text, read from a place on without going back.
#![tactic(auto)]

ghost use Rattle.std.specs.Prelude.{◌≡◌, false, cond, MatchOption, min, ◌+◌, ◌-◌, ◌^◌, ◌≤◌, ◌<◌, eqb, pos, length, get_or, drop};
ghost use Rattle.std.proofs.Math.IntN.{sub_ℕ};
ghost use Rattle.std.proofs.Math.Option.{none};
ghost use Rattle.csv_text.specs.Grammar.{lines_of, has_heading};
ghost use Rattle.csv_text.specs.Inner.Descent.{RunRead, NoField, FieldRead, NoComma, CommaPassed, EndPassed, bit, ends};
ghost use Rattle.csv_text.specs.Inner.Reading.{first_record, LineRead, HeadingRead};

use lift_text::{CARRIAGE_RETURN, COMMA, HEADING};
use lines::{LINE_FEED, MINUS, NINE, ZERO};

const QUOTE: u8 = b'"';
// "decimal fields of 1 to 15 digits"
const DIGITS_MOST: usize = 15;

const MEMBER_MOST: u64 = 4294967295;

const HEADING_BYTES: usize = 16;

// What a record's line tells, and where the next line begins.
#[derive(Clone, Copy)]
pub struct Line {
    pub time: u64,
    pub load: i64,
    pub member: u32,
    pub next: usize,
}

// Digits: their number, and where they end.
#[derive(Clone, Copy)]
struct Run {
    value: u64,
    end: usize,
}

// What a field says, and where it ends.
#[derive(Clone, Copy)]
struct Field {
    minus: bool,
    value: u64,
    end: usize,
}

// Whether this byte stands at this place.
fn is_byte(text: &[u8], at: usize, b: u8) -> bool
    requires { 0 < b }
    ensures { result ≡ eqb (get_or text.now at 0) b }
{
    at < text.len() && text[at] == b
}

// Past a byte that stands here.
fn past(at: usize, there: bool) -> usize
    requires { at + bit there < 2 ^ 64 }
    ensures { result ≡ at + bit there }
{
    at + usize::from(there)
}

// The digits from `at` on, at most 15.
fn run_at(text: &[u8], at: usize) -> Run
    requires { at ≤ length text.now }
    ensures { RunRead text.now at result }
{
    let most = at + DIGITS_MOST.min(text.len() - at);
    let mut value: u64 = 0;
    for end in at..most {
        let b = text[end];
        if (b < ZERO) | (NINE < b) {
            return Run { value, end };
        }
        value = value * 10 + (b - ZERO) as u64;
    }
    Run { value, end: most }
}

// The field from `at` on, with a minus or none where it may have one.
fn field_at(text: &[u8], at: usize, signed: bool) -> Option<Field>
    requires { at ≤ length text.now }
    ensures { MatchOption result (NoField signed text.now at) (FieldRead signed text.now at) }
{
    let quoted = is_byte(text, at, QUOTE);
    let from = past(at, quoted);
    let minus = signed & is_byte(text, from, MINUS);
    let first = past(from, minus);
    let Run { value, end } = run_at(text, first);
    let closed = !quoted | is_byte(text, end, QUOTE);
    if (first < end) & closed {
        Some(Field {
            minus,
            value,
            end: past(end, quoted),
        })
    } else {
        None
    }
}

// Past the comma that stands here.
fn past_comma(text: &[u8], at: usize) -> Option<usize>
    ensures { MatchOption result (NoComma text.now at) (CommaPassed text.now at) }
{
    if is_byte(text, at, COMMA) {
        Some(at + 1)
    } else {
        None
    }
}

// Where the next line begins, if this one ends here: at CRLF, or at the text's end.
fn after_end(text: &[u8], at: usize) -> Option<usize>
    requires { at ≤ length text.now }
    ensures { MatchOption result (ends (drop at text.now) ≡ false) (EndPassed text.now at) }
{
    if at == text.len() {
        Some(at)
    } else if is_byte(text, at, CARRIAGE_RETURN) & is_byte(text, at + 1, LINE_FEED) {
        Some(at + 2)
    } else {
        None
    }
}

// The load that digits and a sign say.
fn load_of(minus: bool, value: u64) -> i64
    requires { value < 10 ^ 15 }
    ensures { result ≡ cond minus (sub_ℕ 0 value) (pos value) }
{
    if minus { -(value as i64) } else { value as i64 }
}

// The record in the line from `at` on; none is a bad one.
pub fn line_at(text: &[u8], at: usize) -> Option<Line>
    requires { at < length text.now }
    ensures { MatchOption result (first_record (lines_of (drop at text.now)) ≡ none) (LineRead text.now at) }
{
    let time = field_at(text, at, false)?;
    let second = past_comma(text, time.end)?;
    let load = field_at(text, second, true)?;
    let third = past_comma(text, load.end)?;
    let member = field_at(text, third, false)?;
    let next = after_end(text, member.end)?;
    if member.value <= MEMBER_MOST {
        Some(Line {
            time: time.value,
            load: load_of(load.minus, load.value),
            member: member.value as u32,
            next,
        })
    } else {
        None
    }
}

// Where the line behind the header begins.
pub fn heading_of(text: &[u8]) -> Option<usize>
    ensures { MatchOption result (has_heading (lines_of text.now) ≡ false) (HeadingRead text.now) }
{
    if text.starts_with(&HEADING) {
        after_end(text, HEADING_BYTES)
    } else {
        None
    }
}
