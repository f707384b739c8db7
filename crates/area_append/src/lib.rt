// Append over byte areas (`areas`): a lift goes straight into the area of the state where it can.
#![tactic(auto)]

pub mod counted;

ghost use Rattle.std.specs.Prelude.{◌≡◌, true, length};
ghost use Rattle.grounds.specs.Numbers.{number_in};
ghost use Rattle.form.specs.declared.Form.TheVariants.{New};
ghost use Rattle.grow.specs.Inner.Meaning.{meaning};
ghost use Rattle.state_bytes.specs.StateBytes.{state_in, area_length};
ghost use Rattle.store.specs.Inner.Fields.{fields_of};
ghost use Rattle.store.specs.Inner.Pieces.{entry_ground, is_plain};
ghost use Rattle.areas.specs.Areas.{left, append_called};
ghost use Rattle.area_append.specs.Inner.Appending.{Appending, GoesOn, number_or_stop};

use grounds::Ground;
use grow::Plan;
use lift::NOTE_BYTES;
use store::append::pieces;
use store::fields::Fields;

// A plain lift goes straight into NOR and the area of the state; a page or a section that it fills goes out from there.
fn put_plain(
    state: &mut [u8],
    nand: &mut [u8],
    nor: &mut [u8],
    slots: u64,
    f: Fields,
    time: u64,
    load: i32,
    note: [u8; NOTE_BYTES],
    p: Plan,
)
    requires appending { Appending state.old nand.old nor.old slots time load p × (f ≡ fields_of (state_in state.old)) }
    requires p_value { is_plain (state_in state.old) slots (meaning p) ≡ true }
    ensures { left 0 state.new nand.new nor.new
        ≡ append_called state.old nand.old nor.old slots time load note }
{
    let code = lift::stored(load);
    let slot = flash::slot_of(f.current, slots);
    let w = grow::writes_of(p, f.buckets, code, f.count);
    grow::carry(nor, w);
    let after = grow::buckets_after(p, f.buckets);
    in_place::put_lift(state, nand, nor, slot, time, code, load, note, after);
}

// Every other lift: the state goes through the store's append by value, and back into its area.
fn put_by_value(
    state: &mut [u8],
    nand: &mut [u8],
    nor: &mut [u8],
    slots: u64,
    time: u64,
    load: i32,
    note: [u8; NOTE_BYTES],
    p: Plan,
)
    requires { Appending state.old nand.old nor.old slots time load p }
    ensures { left 0 state.new nand.new nor.new
        ≡ append_called state.old nand.old nor.old slots time load note }
{
    let s = state_bytes::get_state(state);
    let t = pieces::carried_out(s, nand, nor, slots, time, load, note, p);
    state_bytes::put_state(state, t);
}

// A lift that no ground refuses.
fn put(
    state: &mut [u8],
    nand: &mut [u8],
    nor: &mut [u8],
    slots: u64,
    f: Fields,
    time: u64,
    load: i32,
    note: [u8; NOTE_BYTES],
    p: Plan,
)
    requires { Appending state.old nand.old nor.old slots time load p × (f ≡ fields_of (state_in state.old)) }
    ensures { left 0 state.new nand.new nor.new
        ≡ append_called state.old nand.old nor.old slots time load note }
{
    if f.is_plain(slots, p) {
        put_plain(state, nand, nor, slots, f, time, load, note, p);
        return;
    }
    put_by_value(state, nand, nor, slots, time, load, note, p);
}

// An append past grounds 1 to 8. Where it may not drop it stops before a forced drop, with nothing changed, and answers None. It takes no
// structs: it has several callers.
fn append_on(
    state: &mut [u8],
    nand: &mut [u8],
    nor: &mut [u8],
    slots: u64,
    time: u64,
    load: i32,
    note: [u8; NOTE_BYTES],
    may_drop: bool,
) -> Option<Result<(), Ground>>
    requires { (length state.old ≡ area_length New)
        × (entry_ground (state_in state.old) (length nand.old) (length nor.old) slots time load ≡ 0) }
    ensures { GoesOn may_drop state.old nand.old nor.old slots time load note
        (left (number_or_stop result) state.new nand.new nor.new) }
{
    let f = area_reads::fields_at(state);
    let code = lift::stored(load);
    let p = f.plan(nor, code);
    let stop = !may_drop & f.sheds(slots, p);
    if stop {
        return None;
    }
    if let Err(ground) = f.blocked(nand, nor, slots, code, p) {
        return Some(Err(ground));
    }
    put(state, nand, nor, slots, f, time, load, note, p);
    Some(Ok(()))
}

// The plain append, of a state in an area of its length.
pub fn append(
    state: &mut [u8],
    nand: &mut [u8],
    nor: &mut [u8],
    slots: u64,
    time: u64,
    load: i32,
    note: [u8; NOTE_BYTES],
) -> Result<(), Ground>
    requires { length state.old ≡ area_length New }
    ensures { left (number_in result) state.new nand.new nor.new
        ≡ append_called state.old nand.old nor.old slots time load note }
{
    area_reads::lift_ground(state, nand.len(), nor.len(), slots, time, load)?;
    append_on(state, nand, nor, slots, time, load, note, true).unwrap()
}
