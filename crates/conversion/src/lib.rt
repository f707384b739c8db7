// A store of one form carried into a second lent store of the other (document 02, W-203): there, from form 0 to form 1, and back.
#![tactic(auto)]

ghost use Rattle.std.specs.Prelude.{◌≡◌, true, [], ◌*◌, ◌≤◌, length};
ghost use Rattle.grounds.specs.Numbers.{number_in};
ghost use Rattle.flash.specs.Chip.{slot_width};
ghost use Rattle.form.specs.declared.Form.TheVariants.{Old};
ghost use Rattle.store.specs.World.{world};
ghost use Rattle.store.specs.Calls.{returned, next_state, formatted};
ghost use Rattle.carry.specs.Carried.{nand_into};
ghost use Rattle.conversion.specs.Outcome.{cannot_go_back, forward_outcome, backward_outcome, old_returned, next_old_state};
ghost use Rattle.conversion.specs.Inner.Pieces.{lengths_ground, store_of, early_grounds, back_grounds, NoGround};

use carry::Serials;
use form::Form;
use grounds::Ground;
use store::{OldState, State};

// Grounds 1 and 2, each of the first store and then of the second.
fn lengths_ground(
    nand: usize,
    nor: usize,
    slots: u64,
    to_nand: usize,
    to_nor: usize,
) -> Result<(), Ground>
    ensures { number_in result ≡ lengths_ground nand nor slots to_nand to_nor }
{
    bounds::sooner(
        bounds::chips_ground(nand, nor, slots),
        bounds::chips_ground(to_nand, to_nor, slots),
    )
}

// Grounds 1, 2, 3, 13 and 10 of a store that is carried into `form`.
fn first_grounds(
    s: State,
    live: u64,
    nand: &[u8],
    nor: usize,
    slots: u64,
    to_nand: usize,
    to_nor: usize,
    form: Form,
) -> Result<(), Ground>
    ensures { number_in result ≡ early_grounds form s live nand.now nor slots to_nand to_nor }
{
    lengths_ground(nand.len(), nor, slots, to_nand, to_nor)?;
    let from = carry::other(form);
    s.ground(from, live, nand.len(), nor, slots)?;
    let c = Serials {
        slots,
        oldest: s.oldest,
        current: s.current,
    };
    if retained::headers::any_of_form(nand, c, form) {
        return Err(Ground::OtherForm);
    }
    if retained::headers::any_damaged(nand, c, from) {
        return Err(Ground::Damage);
    }
    Ok(())
}

// Ground 14: lift times that do not rise, or a pointer to a segment that went that form 0 would take as live.
fn cannot_go_back(s: State, nand: &[u8], slots: u64) -> bool
    requires { NoGround Old s 0 nand.now slots }
    ensures { result ≡ cannot_go_back (world nand.now [] s) slots }
{
    let c = Serials {
        slots,
        oldest: s.oldest,
        current: s.current,
    };
    let page = s.page;
    if !retained::times::all_rise(nand, c, page, s.count) {
        return true;
    }
    let first = carry::first_time(nand, slots, s);
    let heads = s.heads;
    if retained::headers::any_late(heads, s.oldest, first) {
        return true;
    }
    retained::headers::any_late_node(nand, c, first)
}

// All grounds of going back.
fn backward_ground(
    s: State,
    nand: &[u8],
    nor: usize,
    slots: u64,
    to_nand: usize,
    to_nor: usize,
) -> Result<(), Ground>
    ensures { number_in result ≡ back_grounds s nand.now nor slots to_nand to_nor }
{
    first_grounds(s, 0, nand, nor, slots, to_nand, to_nor, Form::Old)?;
    if cannot_go_back(s, nand, slots) {
        Err(Ground::NoWayBack)
    } else {
        Ok(())
    }
}

// Both chips of the second store.
fn carry_chips(
    s: State,
    nand: &[u8],
    nor: &[u8],
    slots: u64,
    to_nand: &mut [u8],
    to_nor: &mut [u8],
    form: Form,
)
    requires { (length nand.now ≡ slots * slot_width) × (length to_nand.old ≡ slots * slot_width) × (1 ≤ slots)
        × (1 ≤ s.oldest) × (s.oldest ≤ s.current) × (length nor.now ≡ length to_nor.old) }
    ensures { (to_nand.new ≡ nand_into form (store_of form s 0 nand.now nor.now) slots)
        × (to_nor.new ≡ nor.now) }
{
    let c = Serials {
        slots,
        oldest: s.oldest,
        current: s.current,
    };
    carry::carry_nand(to_nand, nand, c, form);
    codec::copy_long(to_nor, 0, nor);
}

// Form 0 into form 1.
pub fn forward(
    old: OldState,
    nand: &[u8],
    nor: &[u8],
    slots: u64,
    to_nand: &mut [u8],
    to_nor: &mut [u8],
) -> Result<State, Ground>
    ensures { returned (number_in result) to_nand.new to_nor.new (next_state formatted result)
        ≡ forward_outcome nand.now nor.now old slots to_nand.old to_nor.old }
{
    let s = old.state;
    first_grounds(
        s,
        old.live,
        nand,
        nor.len(),
        slots,
        to_nand.len(),
        to_nor.len(),
        Form::New,
    )?;
    carry_chips(s, nand, nor, slots, to_nand, to_nor, Form::New);
    Ok(carry::carried_state(s, Form::New))
}

// Form 1 back into form 0.
pub fn backward(
    s: State,
    nand: &[u8],
    nor: &[u8],
    slots: u64,
    to_nand: &mut [u8],
    to_nor: &mut [u8],
) -> Result<OldState, Ground>
    ensures { old_returned (number_in result) to_nand.new to_nor.new (next_old_state result)
        ≡ backward_outcome nand.now nor.now s slots to_nand.old to_nor.old }
{
    backward_ground(s, nand, nor.len(), slots, to_nand.len(), to_nor.len())?;
    carry_chips(s, nand, nor, slots, to_nand, to_nor, Form::Old);
    let live = carry::first_time(nand, slots, s);
    let state = carry::carried_state(s, Form::Old);
    Ok(OldState { state, live })
}
