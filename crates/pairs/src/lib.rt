// Supersets across two machines (document 02, W-208): the call over two stores.
#![tactic(auto)]

pub mod pieces;

ghost use Rattle.std.specs.Prelude.{◌≡◌};
ghost use Rattle.store.specs.World.{world};
ghost use Rattle.pairs.specs.Call.{pairs_outcome};
ghost use Rattle.pairs.specs.Inner.Hands.{answered};

use form::Form;
use grounds::Ground;
use store::State;

pub fn pairs(
    first: State,
    nand1: &[u8],
    nor1: &[u8],
    slots1: u64,
    second: State,
    nand2: &[u8],
    nor2: &[u8],
    slots2: u64,
    area: &mut [u8],
) -> Result<u64, Ground>
    ensures { answered result area.new
        ≡ pairs_outcome (world nand1.now nor1.now first) slots1
        (world nand2.now nor2.now second) slots2 area.old }
{
    let n1 = first.ground(Form::New, 0, nand1.len(), nor1.len(), slots1);
    let n2 = second.ground(Form::New, 0, nand2.len(), nor2.len(), slots2);
    let page1 = first.page;
    let page2 = second.page;
    let g1 = questions::log_of(first, slots1);
    let g2 = questions::log_of(second, slots2);
    pieces::pairs_from(
        n1, n2, &page1, g1, nand1, nor1, &page2, g2, nand2, nor2, area,
    )
}
