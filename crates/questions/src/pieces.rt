// The pieces of a search and a tally (document 01, "Search", "Plates") that the calls over byte areas share: what is asked of a log and
// a page, once grounds 1 to 3 are known. They are no calls: they ask what their callers show.
ghost use Rattle.std.specs.Prelude.{◌≡◌, ℕ, length, IfOk, ◌≤◌};
ghost use Rattle.flash.specs.Chip.{page_width};
ghost use Rattle.form.specs.declared.Form.TheVariants.{New};
ghost use Rattle.visit.specs.Inner.Sound.{LogSound};
ghost use Rattle.grounds.specs.Numbers.{number_in};
ghost use Rattle.bounds.specs.Grounds.{query_ground};
ghost use Rattle.search.specs.Answers.{answer_of};
ghost use Rattle.tally.specs.Answers as Tallies;
ghost use Rattle.store.specs.declared.State.{State};
ghost use Rattle.store.specs.World.{world};
ghost use Rattle.store.specs.Inner.Pieces.{bounds_ground};
ghost use Rattle.questions.specs.Queries.{log_of, query_of, search_outcome, tally_outcome};

use grounds::Ground;
use plate::PLATES;
use search::Found;
use visit::{Log, Query};

// Grounds 4 to 6, and the question, its loads as stored.
pub fn window(t1: u64, t2: u64, k1: i32, k2: i32) -> Result<Query, Ground>
    ensures ground { number_in result ≡ query_ground t1 t2 k1 k2 }
    ensures is { IfOk result (λ q. (q ≡ query_of t1 t2 k1 k2) × (1 ≤ q.k1)) }
{
    bounds::query_ground(t1, t2, k1, k2)?;
    let low = lift::stored(k1);
    let high = lift::stored(k2);
    Ok(Query {
        t1,
        t2,
        k1: low,
        k2: high,
    })
}

// Grounds 4 to 6 and what a search finds. Grounds 1 to 3 were judged of a state whose log and page these are.
pub fn search_from(
    judged: Result<(), Ground>,
    page: &[u8],
    g: Log,
    nand: &[u8],
    nor: &[u8],
    t1: u64,
    t2: u64,
    k1: i32,
    k2: i32,
    area: &mut [u8],
) -> Result<Found, Ground>
    requires log_sound { number_in judged ≡ 0 → LogSound nand.now nor.now g }
    requires page_len { length page.now ≡ page_width }
    ensures { (s : State) (slots : ℕ) → number_in judged ≡ bounds_ground New s 0 (length nand.now) (length nor.now) slots
        → g ≡ log_of s slots → page.now ≡ s.page
        → answer_of result area.new ≡ search_outcome (world nand.now nor.now s) slots t1 t2 k1 k2 area.old }
{
    judged?;
    let q = window(t1, t2, k1, k2)?;
    search::search_in(nand, nor, page, g, q, area)
}

// The same of a tally: over all loads.
pub fn tally_from(
    judged: Result<(), Ground>,
    page: &[u8],
    g: Log,
    nand: &[u8],
    nor: &[u8],
    t1: u64,
    t2: u64,
) -> Result<[u64; PLATES], Ground>
    requires log_sound { number_in judged ≡ 0 → LogSound nand.now nor.now g }
    requires page_len { length page.now ≡ page_width }
    ensures { (s : State) (slots : ℕ) → number_in judged ≡ bounds_ground New s 0 (length nand.now) (length nor.now) slots
        → g ≡ log_of s slots → page.now ≡ s.page
        → Tallies.answer_of result ≡ tally_outcome (world nand.now nor.now s) slots t1 t2 }
{
    judged?;
    let q = window(t1, t2, lift::LOAD_MIN, lift::LOAD_MAX)?;
    tally::tally_in(nand, nor, page, g, q)
}
