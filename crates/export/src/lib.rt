// Comma-separated export (document 02, W-211): a search written as text.
#![tactic(auto)]

pub mod pieces;

ghost use Rattle.std.specs.Prelude.{◌≡◌};
ghost use Rattle.store.specs.World.{world};
ghost use Rattle.export.specs.Call.{export_outcome};
ghost use Rattle.export.specs.Inner.Sizing.{answered};

use form::Form;
use grounds::Ground;
use store::State;

pub fn export(
    s: State,
    nand: &[u8],
    nor: &[u8],
    slots: u64,
    t1: u64,
    t2: u64,
    k1: i32,
    k2: i32,
    area: &mut [u8],
) -> Result<u64, Ground>
    ensures { answered result area.new
        ≡ export_outcome (world nand.now nor.now s) slots t1 t2 k1 k2 area.old }
{
    let judged = s.ground(Form::New, 0, nand.len(), nor.len(), slots);
    let page = s.page;
    let g = questions::log_of(s, slots);
    pieces::export_from(judged, &page, g, nand, nor, t1, t2, k1, k2, area)
}
