// Append over areas that keeps counts (W-210): the 22 counts are an area of 88 bytes beside that of the state.
ghost use Rattle.std.specs.Prelude.{◌≡◌, length};
ghost use Rattle.grounds.specs.Numbers.{number_in};
ghost use Rattle.form.specs.declared.Form.TheVariants.{New};
ghost use Rattle.counts.specs.CountsBytes.{counts_length};
ghost use Rattle.state_bytes.specs.StateBytes.{area_length};
ghost use Rattle.areas.specs.Areas.{left_kept, append_kept_called};
ghost use Rattle.area_append.specs.Inner.Appending.{Counting, Shedding};

use grounds::Ground;
use lift::NOTE_BYTES;
use state_bytes::pieces;

// A drop comes first: the lifts that go are counted down before anything is written.
fn append_shedding(
    state: &mut [u8],
    counts: &mut [u8],
    nand: &mut [u8],
    nor: &mut [u8],
    slots: u64,
    time: u64,
    load: i32,
    note: [u8; NOTE_BYTES],
) -> Result<(), Ground>
    requires { Shedding state.old counts.old nand.old nor.old slots time load }
    ensures { left_kept (number_in result) state.new counts.new nand.new nor.new
        ≡ append_kept_called state.old counts.old nand.old nor.old slots time load note }
{
    let oldest = codec::get_u32(state, pieces::OLDEST_AT);
    let current = codec::get_u32(state, pieces::CURRENT_AT);
    let count = codec::get_u16(state, pieces::COUNT_AT);
    let c = counts::area::get_counts(counts);
    let Some(left) = keeping::pieces::shed(c, nand, slots, oldest, current, count) else {
        return Err(Ground::Damage);
    };
    crate::append_on(state, nand, nor, slots, time, load, note, true).unwrap()?;
    let next = counts::one_more(left, lift::stored(load));
    counts::area::put_counts(counts, next);
    Ok(())
}

// An append past grounds 1 to 8.
fn append_counted(
    state: &mut [u8],
    counts: &mut [u8],
    nand: &mut [u8],
    nor: &mut [u8],
    slots: u64,
    time: u64,
    load: i32,
    note: [u8; NOTE_BYTES],
) -> Result<(), Ground>
    requires { Counting state.old counts.old nand.old nor.old slots time load }
    ensures { left_kept (number_in result) state.new counts.new nand.new nor.new
        ≡ append_kept_called state.old counts.old nand.old nor.old slots time load note }
{
    let gone = crate::append_on(state, nand, nor, slots, time, load, note, false);
    match gone {
        None => append_shedding(state, counts, nand, nor, slots, time, load, note),
        Some(r) => {
            if r.is_ok() {
                counts::area::one_more(counts, lift::stored(load));
            }
            r
        }
    }
}

// The append that keeps counts, of a state and counts in areas of their lengths.
pub fn append(
    state: &mut [u8],
    counts: &mut [u8],
    nand: &mut [u8],
    nor: &mut [u8],
    slots: u64,
    time: u64,
    load: i32,
    note: &[u8; NOTE_BYTES],
) -> Result<(), Ground>
    requires { (length state.old ≡ area_length New) × (length counts.old ≡ counts_length) }
    ensures { left_kept (number_in result) state.new counts.new nand.new nor.new
        ≡ append_kept_called state.old counts.old nand.old nor.old slots time load note.now }
{
    let plain = area_reads::lift_ground(state, nand.len(), nor.len(), slots, time, load);
    keeping::pieces::with_ground_3(plain, counts::area::are_broken(counts))?;
    let copy = *note;
    append_counted(state, counts, nand, nor, slots, time, load, copy)
}
