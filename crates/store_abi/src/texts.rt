// The calls for C and Rust that write and read comma-separated text (W-211): export, and import with kept counts and without.
ghost use Rattle.std.specs.Prelude.{◌≡◌, length};
ghost use Rattle.codec.specs.Area.{splice};
ghost use Rattle.codec.specs.Number.{bytes};
ghost use Rattle.import.specs.Inner.Ends.{end_number, end_line};
ghost use Rattle.areas.specs.Areas.{replied, export_called, lent, lent_kept, left_after, import_called, import_kept_called};

use crate::AREA_LENGTH;
use counts::area::COUNTS_BYTES;
use import::Stop;
use kept::NUMBER_BYTES;

// A search as text.
#[unsafe(no_mangle)]
pub extern "C" fn store_export(
    state: &[u8],
    nand: &[u8],
    nor: &[u8],
    slots: u64,
    t1: u64,
    t2: u64,
    k1: i32,
    k2: i32,
    text: &mut [u8],
    answer: &mut [u8],
) -> u8
    ensures { replied result text.new answer.new
        ≡ export_called state.now nand.now nor.now slots t1 t2 k1 k2 text.old
        answer.old }
{
    if state.len() != state_bytes::STATE_BYTES {
        return AREA_LENGTH;
    }
    if answer.len() != NUMBER_BYTES {
        return AREA_LENGTH;
    }
    let judged = area_reads::ground(state, nand.len(), nor.len(), slots);
    let page = area_reads::page_of(state);
    let g = area_reads::log_at(state, slots);
    match export::pieces::export_from(judged, page, g, nand, nor, t1, t2, k1, k2, text) {
        Ok(long) => {
            kept::keep_number(answer, 0, long);
            0
        }
        Err(ground) => ground.number(),
    }
}

// The line that ended an import, 0 if all went in; the import's number.
fn put_line(answer: &mut [u8], end: Result<(), Stop>) -> u8
    requires { length answer.old ≡ 8 }
    ensures number { result ≡ end_number end }
    ensures line { answer.new ≡ splice answer.old 0 (bytes 8 (end_line end)) }
{
    match end {
        Ok(()) => {
            codec::put_u64(answer, 0, 0);
            0
        }
        Err(stop) => {
            codec::put_u64(answer, 0, stop.line);
            stop.ground.number()
        }
    }
}

// The records of a text, appended in turn; the line that ended it is written whatever the number is.
#[unsafe(no_mangle)]
pub extern "C" fn store_import(
    state: &mut [u8],
    nand: &mut [u8],
    nor: &mut [u8],
    slots: u64,
    text: &[u8],
    answer: &mut [u8],
) -> u8
    ensures { left_after result (lent state.new nand.new nor.new) answer.new
        ≡ import_called state.old nand.old nor.old slots text.now answer.old }
{
    if state.len() != state_bytes::STATE_BYTES {
        return AREA_LENGTH;
    }
    if answer.len() != NUMBER_BYTES {
        return AREA_LENGTH;
    }
    let end = area_import::import(state, nand, nor, slots, text);
    put_line(answer, end)
}

// The same, keeping counts.
#[unsafe(no_mangle)]
pub extern "C" fn store_import_kept(
    state: &mut [u8],
    counts: &mut [u8],
    nand: &mut [u8],
    nor: &mut [u8],
    slots: u64,
    text: &[u8],
    answer: &mut [u8],
) -> u8
    ensures { left_after result (lent_kept state.new counts.new nand.new nor.new) answer.new
        ≡ import_kept_called state.old counts.old nand.old nor.old slots text.now
        answer.old }
{
    if state.len() != state_bytes::STATE_BYTES {
        return AREA_LENGTH;
    }
    if counts.len() != COUNTS_BYTES {
        return AREA_LENGTH;
    }
    if answer.len() != NUMBER_BYTES {
        return AREA_LENGTH;
    }
    let end = area_import::counted::import(state, counts, nand, nor, slots, text);
    put_line(answer, end)
}
