// The calls for C and Rust: byte areas and numbers only. The state is a lent area of 783 bytes, 775 in form 0, the other answers are an
// area of 8-byte numbers, a service page its text. Each call returns its number; 20 where one of these areas has another length, before
// everything else.
#![tactic(auto)]

pub mod counted;
pub mod lists;
pub mod texts;

ghost use Rattle.std.specs.Prelude.{◌≡◌, [], length};
ghost use Rattle.form.specs.declared.Form.TheVariants.{New};
ghost use Rattle.questions.specs.Queries.{tally_outcome};
ghost use Rattle.state_bytes.specs.StateBytes.{state_in, area_length};
ghost use Rattle.store.specs.World.{world};
ghost use Rattle.tally.specs.Answers.{answer_of};
ghost use Rattle.areas.specs.Areas.{left, replied};
ghost use Rattle.areas.specs.Areas.{format_called, append_called, close_called, drop_called};
ghost use Rattle.areas.specs.Areas.{forward_called, backward_called};
ghost use Rattle.areas.specs.Areas.{search_called, tally_called, page_called, plate_called};

use grounds::Ground;
use kept::{NUMBER_BYTES, SEARCH_BYTES};
use lift::NOTE_BYTES;
use plate::PLATES;
use service_page::PAGE_BYTES;
use store::State;

// One of the areas of state and answers has another length. Each call tests its own areas: C takes a number, so `?` has nowhere to go.
const AREA_LENGTH: u8 = Ground::AreaLength as u8;
// A tally's counts.
const COUNTS_BYTES: usize = 8 * PLATES;

#[unsafe(no_mangle)]
pub extern "C" fn store_format(state: &mut [u8], nand: &mut [u8], nor: &mut [u8], slots: u64) -> u8
    ensures { left result state.new nand.new nor.new
        ≡ format_called state.old nand.old nor.old slots }
{
    if state.len() != state_bytes::STATE_BYTES {
        return AREA_LENGTH;
    }
    let r = State::format(nand, nor, slots);
    kept::keep_state(state, r)
}

#[unsafe(no_mangle)]
pub extern "C" fn store_append(
    state: &mut [u8],
    nand: &mut [u8],
    nor: &mut [u8],
    slots: u64,
    time: u64,
    load: i32,
    note: &[u8; NOTE_BYTES],
) -> u8
    ensures { left result state.new nand.new nor.new
        ≡ append_called state.old nand.old nor.old slots time load note.now }
{
    if state.len() != state_bytes::STATE_BYTES {
        return AREA_LENGTH;
    }
    let n = *note;
    grounds::number_in(&area_append::append(state, nand, nor, slots, time, load, n))
}

#[unsafe(no_mangle)]
pub extern "C" fn store_close(state: &mut [u8], nand: &mut [u8], nor: &mut [u8], slots: u64) -> u8
    ensures { left result state.new nand.new nor.new
        ≡ close_called state.old nand.old nor.old slots }
{
    if state.len() != state_bytes::STATE_BYTES {
        return AREA_LENGTH;
    }
    let s = state_bytes::get_state(state);
    let r = s.close(nand, nor, slots);
    kept::keep_state(state, r)
}

#[unsafe(no_mangle)]
pub extern "C" fn store_drop(state: &mut [u8], nand: &mut [u8], nor: &[u8], slots: u64) -> u8
    ensures { left result state.new nand.new nor.now
        ≡ drop_called state.old nand.old nor.now slots }
{
    if state.len() != state_bytes::STATE_BYTES {
        return AREA_LENGTH;
    }
    let s = state_bytes::get_state(state);
    let r = s.drop(nand, nor, slots);
    kept::keep_state(state, r)
}

#[unsafe(no_mangle)]
pub extern "C" fn store_search(
    state: &[u8],
    nand: &[u8],
    nor: &[u8],
    slots: u64,
    t1: u64,
    t2: u64,
    k1: i32,
    k2: i32,
    rows: &mut [u8],
    answer: &mut [u8],
) -> u8
    ensures { replied result rows.new answer.new
        ≡ search_called state.now nand.now nor.now slots t1 t2 k1 k2 rows.old
        answer.old }
{
    if state.len() != state_bytes::STATE_BYTES {
        return AREA_LENGTH;
    }
    if answer.len() != SEARCH_BYTES {
        return AREA_LENGTH;
    }
    let judged = area_reads::ground(state, nand.len(), nor.len(), slots);
    let page = area_reads::page_of(state);
    let g = area_reads::log_at(state, slots);
    match questions::pieces::search_from(judged, page, g, nand, nor, t1, t2, k1, k2, rows) {
        Err(ground) => ground.number(),
        Ok(f) => {
            let p = f.pages;
            kept::keep_search(answer, 0, f.count, p.headers, p.bloom, p.tree);
            0
        }
    }
}

// A tally of the store whose state is in this area.
fn tallied(
    state: &[u8],
    nand: &[u8],
    nor: &[u8],
    slots: u64,
    t1: u64,
    t2: u64,
) -> Result<[u64; PLATES], Ground>
    requires { length state.now ≡ area_length New }
    ensures { answer_of result ≡ tally_outcome (world nand.now nor.now (state_in state.now)) slots t1 t2 }
{
    let judged = area_reads::ground(state, nand.len(), nor.len(), slots);
    let page = area_reads::page_of(state);
    let g = area_reads::log_at(state, slots);
    questions::pieces::tally_from(judged, page, g, nand, nor, t1, t2)
}

#[unsafe(no_mangle)]
pub extern "C" fn store_tally(
    state: &[u8],
    nand: &[u8],
    nor: &[u8],
    slots: u64,
    t1: u64,
    t2: u64,
    answer: &mut [u8],
) -> u8
    ensures { replied result [] answer.new
        ≡ tally_called state.now nand.now nor.now slots t1 t2 answer.old }
{
    if state.len() != state_bytes::STATE_BYTES {
        return AREA_LENGTH;
    }
    if answer.len() != COUNTS_BYTES {
        return AREA_LENGTH;
    }
    match tallied(state, nand, nor, slots, t1, t2) {
        Err(ground) => ground.number(),
        Ok(counts) => {
            kept::keep_counts(answer, 0, counts);
            0
        }
    }
}

// The service page of a tally (W-201).
#[unsafe(no_mangle)]
pub extern "C" fn store_page(
    state: &[u8],
    nand: &[u8],
    nor: &[u8],
    slots: u64,
    t1: u64,
    t2: u64,
    page: &mut [u8],
) -> u8
    ensures { replied result [] page.new
        ≡ page_called state.now nand.now nor.now slots t1 t2 page.old }
{
    if state.len() != state_bytes::STATE_BYTES {
        return AREA_LENGTH;
    }
    if page.len() != PAGE_BYTES {
        return AREA_LENGTH;
    }
    match tallied(state, nand, nor, slots, t1, t2) {
        Err(ground) => ground.number(),
        Ok(counts) => {
            kept::keep_page(page, 0, t1, t2, counts);
            0
        }
    }
}

#[unsafe(no_mangle)]
pub extern "C" fn store_plate(place: u64, load: i32, answer: &mut [u8]) -> u8
    ensures { replied result [] answer.new ≡ plate_called place load answer.old }
{
    if answer.len() != NUMBER_BYTES {
        return AREA_LENGTH;
    }
    let plate = plate::plate_of(place, load);
    let number = grounds::number_in(&plate);
    kept::keep_number(answer, number, plate.unwrap_or(0) as u64);
    number
}

// A store of form 0 into a second lent store of form 1.
#[unsafe(no_mangle)]
pub extern "C" fn store_forward(
    old: &[u8],
    nand: &[u8],
    nor: &[u8],
    slots: u64,
    state: &mut [u8],
    to_nand: &mut [u8],
    to_nor: &mut [u8],
) -> u8
    ensures { left result state.new to_nand.new to_nor.new
        ≡ forward_called old.now nand.now nor.now slots state.old
        to_nand.old to_nor.old }
{
    if old.len() != state_bytes::OLD_STATE_BYTES {
        return AREA_LENGTH;
    }
    if state.len() != state_bytes::STATE_BYTES {
        return AREA_LENGTH;
    }
    let s = state_bytes::get_old_state(old);
    let r = conversion::forward(s, nand, nor, slots, to_nand, to_nor);
    kept::keep_state(state, r)
}

// And back.
#[unsafe(no_mangle)]
pub extern "C" fn store_backward(
    state: &[u8],
    nand: &[u8],
    nor: &[u8],
    slots: u64,
    old: &mut [u8],
    to_nand: &mut [u8],
    to_nor: &mut [u8],
) -> u8
    ensures { left result old.new to_nand.new to_nor.new
        ≡ backward_called state.now nand.now nor.now slots old.old
        to_nand.old to_nor.old }
{
    if state.len() != state_bytes::STATE_BYTES {
        return AREA_LENGTH;
    }
    if old.len() != state_bytes::OLD_STATE_BYTES {
        return AREA_LENGTH;
    }
    let s = state_bytes::get_state(state);
    let r = conversion::backward(s, nand, nor, slots, to_nand, to_nor);
    kept::keep_old_state(old, r)
}
