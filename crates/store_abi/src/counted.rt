// The calls for C and Rust that keep counts (W-210): the 22 counts are a lent area of 88 bytes beside that of the state.
ghost use Rattle.std.specs.Prelude.{◌≡◌};
ghost use Rattle.areas.specs.Areas.{left_kept, format_kept_called, append_kept_called, drop_kept_called};

use crate::AREA_LENGTH;
use counts::area::COUNTS_BYTES;
use lift::NOTE_BYTES;

#[unsafe(no_mangle)]
pub extern "C" fn store_format_kept(
    state: &mut [u8],
    counts: &mut [u8],
    nand: &mut [u8],
    nor: &mut [u8],
    slots: u64,
) -> u8
    ensures { left_kept result state.new counts.new nand.new nor.new
        ≡ format_kept_called state.old counts.old nand.old nor.old slots }
{
    if state.len() != state_bytes::STATE_BYTES {
        return AREA_LENGTH;
    }
    if counts.len() != COUNTS_BYTES {
        return AREA_LENGTH;
    }
    let r = keeping::format(nand, nor, slots);
    kept::keep_counted(state, counts, r)
}

#[unsafe(no_mangle)]
pub extern "C" fn store_append_kept(
    state: &mut [u8],
    counts: &mut [u8],
    nand: &mut [u8],
    nor: &mut [u8],
    slots: u64,
    time: u64,
    load: i32,
    note: &[u8; NOTE_BYTES],
) -> u8
    ensures { left_kept result state.new counts.new nand.new nor.new
        ≡ append_kept_called state.old counts.old nand.old nor.old slots time load
        note.now }
{
    if state.len() != state_bytes::STATE_BYTES {
        return AREA_LENGTH;
    }
    if counts.len() != COUNTS_BYTES {
        return AREA_LENGTH;
    }
    let r = area_append::counted::append(state, counts, nand, nor, slots, time, load, note);
    grounds::number_in(&r)
}

#[unsafe(no_mangle)]
pub extern "C" fn store_drop_kept(
    state: &mut [u8],
    counts: &mut [u8],
    nand: &mut [u8],
    nor: &[u8],
    slots: u64,
) -> u8
    ensures { left_kept result state.new counts.new nand.new nor.now
        ≡ drop_kept_called state.old counts.old nand.old nor.now slots }
{
    if state.len() != state_bytes::STATE_BYTES {
        return AREA_LENGTH;
    }
    if counts.len() != COUNTS_BYTES {
        return AREA_LENGTH;
    }
    let s = state_bytes::get_state(state);
    let c = counts::area::get_counts(counts);
    let r = keeping::drop(s, c, nand, nor, slots);
    kept::keep_counted(state, counts, r)
}
