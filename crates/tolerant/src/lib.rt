// Loads known within a tolerance (document 02, W-209): a search that tells certain lifts from possible ones.
#![tactic(auto)]

pub mod pieces;

ghost use Rattle.std.specs.Prelude.{◌≡◌};
ghost use Rattle.store.specs.World.{world};
ghost use Rattle.tolerant.specs.Call.{tolerant_outcome};
ghost use Rattle.tolerant.specs.Inner.Counted.{answered};

use form::Form;
use grounds::Ground;
use pieces::Both;
use store::State;

pub fn tolerant(
    s: State,
    nand: &[u8],
    nor: &[u8],
    slots: u64,
    t1: u64,
    t2: u64,
    k1: i32,
    k2: i32,
    d: u64,
    certain: &mut [u8],
    possible: &mut [u8],
) -> Result<Both, Ground>
    ensures { answered result certain.new possible.new
        ≡ tolerant_outcome (world nand.now nor.now s) slots t1 t2 k1 k2 d certain.old
        possible.old }
{
    let judged = s.ground(Form::New, 0, nand.len(), nor.len(), slots);
    let page = s.page;
    let g = questions::log_of(s, slots);
    pieces::tolerant_from(
        judged, &page, g, nand, nor, t1, t2, k1, k2, d, certain, possible,
    )
}
