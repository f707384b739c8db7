// The pieces of a tolerant search (document 02, W-209) that the calls over byte areas share: what is asked of a log and a page, once
// grounds 1 to 3 are known. They are no calls: they ask what their callers show.
ghost use Rattle.std.specs.Prelude.{◌≡◌, map, ℕ, ◌+◌, ◌*◌, ◌≤◌, length, Some, IfOk, IfErr};
ghost use Rattle.codec.specs.Area.{splice};
ghost use Rattle.flash.specs.Chip.{page_width, slot_width};
ghost use Rattle.form.specs.declared.Form.TheVariants.{New};
ghost use Rattle.bitset.specs.Inner.Words.{members, Below};
ghost use Rattle.lift.specs.Record.{record_width};
ghost use Rattle.lift.specs.Rows.{record_in};
ghost use Rattle.skiplist.specs.Skip.{serials_from};
ghost use Rattle.sweep.specs.Inner.Swept.{Recorded};
ghost use Rattle.visit.specs.Inner.Sound.{LogSound};
ghost use Rattle.found.specs.Found.{found_rows};
ghost use Rattle.search.specs.Answers.{row_bytes};
ghost use Rattle.store.specs.declared.State.{State};
ghost use Rattle.store.specs.World.{world};
ghost use Rattle.store.specs.Inner.Pieces.{bounds_ground};
ghost use Rattle.questions.specs.Queries.{log_of};
ghost use Rattle.grounds.specs.Numbers.{number_in};
ghost use Rattle.each_segment.specs.Inner.Turns.{rows_left, IsTurn, IsDamage};
ghost use Rattle.tolerance.specs.Inner.Ends.{rows_in_ends};
ghost use Rattle.tolerant.specs.Answers.{tolerant_answer};
ghost use Rattle.tolerant.specs.Call.{tolerant_outcome};
ghost use Rattle.tolerant.specs.Inner.Counted.{CountsBoth, answered};
ghost use Rattle.tolerant.specs.Inner.Rows.{rows_in};

use bitset::Bits;
use each_segment::Turn;
use flash::Page;
use grounds::Ground;
use sweep::Records;
use tolerance::Ends;
use visit::{Log, Query};

// How many lifts are certain, and how many possible.
#[derive(Clone, Copy)]
pub struct Both {
    pub certain: u64,
    pub possible: u64,
}

// How many lifts of a set have loads between the ends.
fn certain_in(lifts: &[u8], tail: &[u8], g: Records, set: Bits, e: Ends) -> u64
    requires recorded { Recorded lifts.now tail.now g }
    requires below { Below g.count (members set.words) }
    ensures { result ≡ length (rows_in_ends e
        (map (record_in lifts.now tail.now g.first) (members set.words))) }
{
    let mut n = 0;
    for p in set.places() {
        let code = lift::code_in(lifts, tail, g.first, p);
        if tolerance::is_between(code, e) {
            n += 1;
        }
    }
    n
}

// Both lists counted, in one walk over the chips from the first turn on.
fn count_both(
    nand: &[u8],
    page: &[u8],
    g: Log,
    q: Query,
    first: Turn,
    e: Ends,
) -> Result<Both, Ground>
    requires nand_len { (length nand.now ≡ g.slots * slot_width) × (length page.now ≡ page_width) × (1 ≤ q.k1) }
    requires turn { IsTurn nand.now g.slots (serials_from g.oldest) q page.now
        (rows_left nand.now g.slots (serials_from g.oldest) q page.now (Some first)) (g.current + 1) (Some first) }
    ensures counts { IfOk result (CountsBoth e
        (rows_left nand.now g.slots (serials_from g.oldest) q page.now (Some first))) }
    ensures damage { IfErr result (IsDamage
        (rows_left nand.now g.slots (serials_from g.oldest) q page.now (Some first))) }
{
    let mut turn = Some(first);
    let mut certain: u64 = 0;
    let mut possible: u64 = 0;
    while let Some(t) = turn {
        let lifts = flash::pages_of(nand, t.slot, Page(0), flash::TREE_FIRST);
        certain += certain_in(lifts, page, t.records, t.set, e);
        possible += t.set.count() as u64;
        turn = each_segment::next(nand, g.slots, g.oldest, q, t.c)?;
    }
    Ok(Both { certain, possible })
}

// Of the first rows of one area those between the ends go to the other, from its start on.
fn pick_certain(certain: &mut [u8], possible: &[u8], rows: usize, e: Ends)
    requires record_width_in_bounds { rows * record_width ≤ length possible.now }
    requires record_width_in_bounds_2 { length (rows_in_ends e (rows_in possible.now 0 rows)) * record_width ≤ length certain.old }
    ensures { certain.new
        ≡ splice certain.old 0 (row_bytes (rows_in_ends e (rows_in possible.now 0 rows))) }
{
    let mut to = 0;
    for i in 0..rows {
        let code = lift::code_in(possible, possible, rows, i);
        if tolerance::is_between(code, e) {
            lift::put_row(certain, to, possible, possible, rows, i);
            to += 1;
        }
    }
}

// Grounds 10 and 12, then both lists: the possible rows in a second walk, the certain ones from among them. No row is written before the
// answer is known.
fn list_both(
    nand: &[u8],
    nor: &[u8],
    page: &[u8],
    g: Log,
    q: Query,
    e: Ends,
    certain: &mut [u8],
    possible: &mut [u8],
) -> Result<Both, Ground>
    requires log_sound { LogSound nand.now nor.now g }
    requires page_len { (length page.now ≡ page_width) × (1 ≤ q.k1) }
    ensures { answered result certain.new possible.new
        ≡ tolerant_answer (rows_in_ends e) certain.old possible.old
        (found_rows nand.now nor.now page.now g (serials_from g.oldest) q) }
{
    let start = walk::start_of(nand, g, q);
    let c = start.at;
    let first = each_segment::first(nand, nor, page, g, q, c)?;
    let n = count_both(nand, page, g, q, first, e)?;
    let certain_rows = (certain.len() / lift::RECORD_BYTES) as u64;
    let possible_rows = (possible.len() / lift::RECORD_BYTES) as u64;
    if (certain_rows < n.certain) | (possible_rows < n.possible) {
        return Err(Ground::ManyRows);
    }
    search::write::write_all(possible, nand, nor, page, g, q, c, n.possible);
    pick_certain(certain, possible, n.possible as usize, e);
    Ok(n)
}

// Grounds 4, 5, 17 and 6 and both lists. Grounds 1 to 3 were judged of a state whose log and page
// these are.
pub fn tolerant_from(
    judged: Result<(), Ground>,
    page: &[u8],
    g: Log,
    nand: &[u8],
    nor: &[u8],
    t1: u64,
    t2: u64,
    k1: i32,
    k2: i32,
    d: u64,
    certain: &mut [u8],
    possible: &mut [u8],
) -> Result<Both, Ground>
    requires log_sound { number_in judged ≡ 0 → LogSound nand.now nor.now g }
    requires page_len { length page.now ≡ page_width }
    ensures { (s : State) (slots : ℕ) → number_in judged ≡ bounds_ground New s 0 (length nand.now) (length nor.now) slots
        → g ≡ log_of s slots → page.now ≡ s.page
        → answered result certain.new possible.new
        ≡ tolerant_outcome (world nand.now nor.now s) slots t1 t2 k1 k2 d certain.old
        possible.old }
{
    judged?;
    tolerance::window_ground(t1, t2, k1, k2, d)?;
    let wide = tolerance::widened(k1, k2, d);
    let narrow = tolerance::narrowed(k1, k2, d);
    let q = Query {
        t1,
        t2,
        k1: wide.low,
        k2: wide.high,
    };
    list_both(nand, nor, page, g, q, narrow, certain, possible)
}
