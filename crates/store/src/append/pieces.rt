// The pieces of an append: the plan with its grounds, and the carrying out, which the calls over byte areas share with it. They are no
// calls: the second asks what its callers show.
ghost use Rattle.std.specs.Prelude.{◌≡◌, true, length, IfOk};
ghost use Rattle.grounds.specs.Numbers.{number_in};
ghost use Rattle.lift.specs.Limits.{load_ok};
ghost use Rattle.form.specs.declared.Form.TheVariants.{New};
ghost use Rattle.grow.specs.Inner.Meaning.{meaning};
ghost use Rattle.store.specs.World.{world};
ghost use Rattle.store.specs.Calls.{append_ground};
ghost use Rattle.store.specs.Inner.Pieces as Pieces;
ghost use Rattle.store.specs.Inner.Pieces.{Suits, Accepted, bounds_ground};

use crate::State;
use grounds::Ground;
use grow::Plan;
use lift::NOTE_BYTES;

// The grounds of an append, and its plan.
pub fn plan_append(
    s: State,
    nand: &[u8],
    nor: &[u8],
    slots: u64,
    time: u64,
    load: i32,
) -> Result<Plan, Ground>
    ensures number { number_in result ≡ append_ground (world nand.now nor.now s) slots time load }
    ensures accepted { IfOk result (λ p. Accepted (world nand.now nor.now s) slots time load p) }
{
    s.entry_ground(nand.len(), nor.len(), slots, time, load)?;
    let f = s.fields();
    let code = lift::stored(load);
    let p = f.plan(nor, code);
    f.blocked(nand, nor, slots, code, p)?;
    Ok(p)
}

// Room for the lift, then the lift.
pub fn carried_out(
    s: State,
    nand: &mut [u8],
    nor: &mut [u8],
    slots: u64,
    time: u64,
    load: i32,
    note: [u8; NOTE_BYTES],
    p: Plan,
) -> State
    requires slots_value { (bounds_ground New s 0 (length nand.old) (length nor.old) slots ≡ 0) × Suits s.buckets s.count p }
    requires load_value { load_ok load ≡ true }
    ensures { world nand.new nor.new result
        ≡ Pieces.carried_out (world nand.old nor.old s) slots time load note (meaning p) }
{
    let a = s.room(nand, nor, slots, p);
    let b = a.dropped_first(nand, slots);
    b.put(nand, nor, slots, time, load, note, p)
}
