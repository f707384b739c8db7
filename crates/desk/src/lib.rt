// What a line of `slotlist` does (document 01, "Program"), with nothing read and nothing printed: the calls of a store of two slots,
// and the line so far.
#![tactic(auto)]

ghost use Rattle.std.specs.Prelude.{◌≡◌, ◌*◌, ◌≤◌, length, take};
ghost use Rattle.lift.specs.Record.{record_width};
ghost use Rattle.store.specs.World.{world};
ghost use Rattle.store.specs.Calls.{next_state};
ghost use Rattle.desk.specs.Obeyed.{obeyed, kept};

use grounds::Ground;
use lift::NOTE_BYTES;
use lines::Line;
use page_line::SLOTS;
use plate::PLATES;
use search::Found;
use store::State;

pub const NAND_BYTES: usize = 2 * flash::SLOT_BYTES;
// "320 result rows"
pub const RESULT_BYTES: usize = 320 * lift::RECORD_BYTES;

// The longest form has 47 bytes; one byte more is of no form, and what follows is not kept.
const LINE_BYTES: usize = 48;

// The state, and the line so far.
#[derive(Clone, Copy)]
pub struct Reader {
    pub state: State,
    pub line: [u8; LINE_BYTES],
    pub len: usize,
}

// "It starts from a format."
pub fn formatted(nand: &mut [u8], nor: &mut [u8]) -> State {
    State::format(nand, nor, SLOTS).unwrap_or(State::new())
}

// The call of a line that changes chips or state: "A appends (notes 0), C closes, G drops". The others change neither.
pub fn carried_out(nand: &mut [u8], nor: &mut [u8], s: State, l: Line) -> Result<State, Ground>
    ensures { world nand.new nor.new (next_state s result)
        ≡ obeyed (world nand.old nor.old s) l }
{
    match l {
        Line::Append(t, k) => s.append(nand, nor, SLOTS, t, k, [0u8; NOTE_BYTES]),
        Line::Close => s.close(nand, nor, SLOTS),
        Line::Drop => s.drop(nand, nor, SLOTS),
        Line::Search(..) | Line::Tally(..) | Line::Page(..) | Line::Other => Ok(s),
    }
}

// "Q searches"
pub fn search(
    nand: &[u8],
    nor: &[u8],
    s: State,
    t1: u64,
    t2: u64,
    k1: i32,
    k2: i32,
    area: &mut [u8],
) -> Result<Found, Ground> {
    questions::search(s, nand, nor, SLOTS, t1, t2, k1, k2, area)
}

// The rows to print: those found, which never outnumber the whole rows of the area (ground 12).
pub fn rows(area: &[u8], count: u64) -> usize
    ensures { result * record_width ≤ length area.now }
{
    let whole = area.len() / lift::RECORD_BYTES;
    whole.min(count as usize)
}

// "T tallies"
pub fn tally(nand: &[u8], nor: &[u8], s: State, t1: u64, t2: u64) -> Result<[u64; PLATES], Ground> {
    questions::tally(s, nand, nor, SLOTS, t1, t2)
}

// Before the first byte.
pub fn begun(state: State) -> Reader
    ensures { (result.state ≡ state) × (result.len ≡ 0) }
{
    Reader {
        state,
        line: [0u8; LINE_BYTES],
        len: 0,
    }
}

// The line with one byte more.
pub fn pushed(mut s: Reader, b: u8) -> Reader
    requires { s.len ≤ 48 }
    ensures { (result.len ≤ 48) × ((result.state ≡ s.state) × (take result.len result.line ≡ kept (take s.len s.line) b)) }
{
    let n = s.len;
    if n < LINE_BYTES {
        s.line[n] = b;
        s.len += 1;
    }
    s
}
