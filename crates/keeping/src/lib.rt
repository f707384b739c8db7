// The calls that keep counts beside the state (document 02, W-210): format, append and drop. The counts come by value and go back by value.
#![tactic(auto)]

pub mod pieces;

ghost use Rattle.std.specs.Prelude.{◌≡◌};
ghost use Rattle.form.specs.declared.Form.TheVariants.{New};
ghost use Rattle.grounds.specs.Numbers.{number_in};
ghost use Rattle.plate.specs.Plate.{no_counts};
ghost use Rattle.store.specs.World.{world};
ghost use Rattle.store.specs.Calls.{formatted};
ghost use Rattle.keeping.specs.Keeping.{counted, format_kept, drop_kept, append_kept};
ghost use Rattle.keeping.specs.Next.{next_state, next_counts};

use form::Form;
use grounds::Ground;
use lift::NOTE_BYTES;
use plate::PLATES;
use store::State;

// The next state and the next counts of a call that is accepted.
#[derive(Clone, Copy)]
pub struct Counted {
    pub state: State,
    pub counts: [u32; PLATES],
}

// The state of an erased store and 22 zeros.
pub fn format(nand: &mut [u8], nor: &mut [u8], slots: u64) -> Result<Counted, Ground>
    ensures { counted (number_in result) nand.new nor.new (next_state formatted result)
        (next_counts no_counts result)
        ≡ format_kept New nand.old nor.old slots }
{
    let state = State::format(nand, nor, slots)?;
    let counts = counts::no_counts();
    Ok(Counted { state, counts })
}

pub fn append(
    s: State,
    counts: [u32; PLATES],
    nand: &mut [u8],
    nor: &mut [u8],
    slots: u64,
    time: u64,
    load: i32,
    note: [u8; NOTE_BYTES],
) -> Result<Counted, Ground>
    ensures { counted (number_in result) nand.new nor.new (next_state s result)
        (next_counts counts result)
        ≡ append_kept (world nand.old nor.old s) slots time load note counts }
{
    let plain = s.entry_ground(nand.len(), nor.len(), slots, time, load);
    pieces::with_ground_3(plain, counts::are_broken(counts))?;
    let f = s.fields();
    let code = lift::stored(load);
    let p = f.plan(nor, code);
    let Some(left) = pieces::shed_if_due(f, counts, nand, slots, p) else {
        return Err(Ground::Damage);
    };
    f.blocked(nand, nor, slots, code, p)?;
    let state = store::append::pieces::carried_out(s, nand, nor, slots, time, load, note, p);
    let next = counts::one_more(left, code);
    Ok(Counted {
        state,
        counts: next,
    })
}

pub fn drop(
    s: State,
    counts: [u32; PLATES],
    nand: &mut [u8],
    nor: &[u8],
    slots: u64,
) -> Result<Counted, Ground>
    ensures { counted (number_in result) nand.new nor.now (next_state s result)
        (next_counts counts result)
        ≡ drop_kept (world nand.old nor.now s) slots counts }
{
    let plain = s.ground(Form::New, 0, nand.len(), nor.len(), slots);
    pieces::with_ground_3(plain, counts::are_broken(counts))?;
    if s.oldest == s.current {
        return Err(Ground::NothingThere);
    }
    let slot = flash::slot_of(s.oldest, slots);
    let Some(less) = counts::without_segment(nand, slots, slot, s.current, counts) else {
        return Err(Ground::Damage);
    };
    let state = s.drop(nand, nor, slots)?;
    Ok(Counted {
        state,
        counts: less,
    })
}
