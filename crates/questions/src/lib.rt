// The calls that read (document 01, "Search", "Plates"): search and tally, each of a state and its chips. Their grounds in checking order, then
// what the chips hold. A method must stand in the crate of its type, so these are functions of a state.
#![tactic(auto)]

pub mod pieces;

ghost use Rattle.std.specs.Prelude.{◌≡◌};
ghost use Rattle.search.specs.Answers.{answer_of};
ghost use Rattle.tally.specs.Answers as Tallies;
ghost use Rattle.store.specs.World.{world};
ghost use Rattle.questions.specs.Queries.{log_of, search_outcome, tally_outcome};

use form::Form;
use grounds::Ground;
use plate::PLATES;
use search::Found;
use store::State;
use visit::Log;

// What a search needs of the state.
pub fn log_of(s: State, slots: u64) -> Log
    ensures { result ≡ log_of s slots }
{
    let heads = s.heads;
    Log {
        slots,
        current: s.current,
        count: s.count,
        buckets: s.buckets,
        start: s.start,
        oldest: s.oldest,
        heads,
    }
}

pub fn search(
    s: State,
    nand: &[u8],
    nor: &[u8],
    slots: u64,
    t1: u64,
    t2: u64,
    k1: i32,
    k2: i32,
    area: &mut [u8],
) -> Result<Found, Ground>
    ensures { answer_of result area.new ≡ search_outcome (world nand.now nor.now s) slots t1 t2 k1 k2 area.old }
{
    let judged = s.ground(Form::New, 0, nand.len(), nor.len(), slots);
    let page = s.page;
    let g = log_of(s, slots);
    pieces::search_from(judged, &page, g, nand, nor, t1, t2, k1, k2, area)
}

pub fn tally(
    s: State,
    nand: &[u8],
    nor: &[u8],
    slots: u64,
    t1: u64,
    t2: u64,
) -> Result<[u64; PLATES], Ground>
    ensures { Tallies.answer_of result ≡ tally_outcome (world nand.now nor.now s) slots t1 t2 }
{
    let judged = s.ground(Form::New, 0, nand.len(), nor.len(), slots);
    let page = s.page;
    let g = log_of(s, slots);
    pieces::tally_from(judged, &page, g, nand, nor, t1, t2)
}
