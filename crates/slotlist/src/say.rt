// What `slotlist` prints (document 01, "Program"; P: document 02, W-201): letter and number of each answer, and what was found or counted.
ghost use Rattle.std.specs.Prelude.{◌+◌, ◌*◌, ◌≤◌, length};
ghost use Rattle.lift.specs.Record.{record_width};

use lines::Line;
use store::State;

// Lines with their line feeds: letter and number; these and a count; these and 22 counts; a lift.
const HEAD_BYTES: usize = 5;

const COUNT_BYTES: usize = 12;

const COUNTS_BYTES: usize = 159;

const LIFT_BYTES: usize = 24;

// What standard output does not take is lost: the lines that follow are obeyed all the same.
fn put(rt: &impl Print, text: &[u8]) {
    let _ = rt.write_all(text);
}

// Letter and number.
fn head(rt: &impl Print, letter: u8, number: u8) {
    let mut o = [lines::LINE_FEED; HEAD_BYTES];
    answers::put_head(&mut o, letter, number);
    put(rt, &o);
}

// The head of an accepted search and its count.
fn count(rt: &impl Print, n: u64) {
    let mut o = [lines::LINE_FEED; COUNT_BYTES];
    answers::put_head(&mut o, b'Q', 0);
    answers::put_count(&mut o, 4, n);
    put(rt, &o);
}

// The lift in a row of the result area.
fn row(rt: &impl Print, area: &[u8], at: usize)
    requires { at * record_width + record_width ≤ length area.now }
{
    let mut o = [lines::LINE_FEED; LIFT_BYTES];
    let time = lift::record_time(area, at * lift::RECORD_BYTES);
    let code = lift::record_code(area, at * lift::RECORD_BYTES);
    answers::put_lift(&mut o, time, code);
    put(rt, &o);
}

// A line for each lift found.
fn lifts(rt: &impl Print, area: &[u8], found: u64) {
    let n = desk::rows(area, found);
    for i in 0..n {
        row(rt, area, i);
    }
}

// A search: its number or, if it is accepted, its count and the lifts.
fn search(rt: &impl Print, nand: &[u8], nor: &[u8], s: State, t1: u64, t2: u64, k1: i32, k2: i32) {
    let mut area = [0u8; desk::RESULT_BYTES];
    match desk::search(nand, nor, s, t1, t2, k1, k2, &mut area) {
        Err(ground) => head(rt, b'Q', ground.number()),
        Ok(f) => {
            count(rt, f.count);
            lifts(rt, &area, f.count);
        }
    }
}

// A tally: its number, and its counts if it is accepted.
fn tally(rt: &impl Print, nand: &[u8], nor: &[u8], s: State, t1: u64, t2: u64) {
    match desk::tally(nand, nor, s, t1, t2) {
        Err(ground) => head(rt, b'T', ground.number()),
        Ok(counts) => {
            let mut o = [lines::LINE_FEED; COUNTS_BYTES];
            answers::put_head(&mut o, b'T', 0);
            answers::put_counts(&mut o, counts);
            put(rt, &o);
        }
    }
}

// A tally's service page.
fn page(rt: &impl Print, nand: &[u8], nor: &[u8], s: State, t1: u64, t2: u64) {
    let mut o = [lines::LINE_FEED; page_line::ANSWER_BYTES];
    let n = page_line::page_answer(nand, nor, s, t1, t2, &mut o);
    put(rt, &o[..n]);
}

// The answer to a line that was carried out: its call's number, or what the state after it answers; a line of no form prints `?`.
pub fn answer(rt: &impl Print, nand: &[u8], nor: &[u8], s: State, number: u8, l: Line) {
    match l {
        Line::Append(_, _) => head(rt, b'A', number),
        Line::Close => head(rt, b'C', number),
        Line::Drop => head(rt, b'G', number),
        Line::Search(t1, t2, k1, k2) => search(rt, nand, nor, s, t1, t2, k1, k2),
        Line::Tally(t1, t2) => tally(rt, nand, nor, s, t1, t2),
        Line::Page(t1, t2) => page(rt, nand, nor, s, t1, t2),
        Line::Other => {
            put(rt, b"?\n");
        }
    }
}
