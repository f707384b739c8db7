// The pieces of a call for pairs that the calls over byte areas share: what is asked of two logs and two pages, once grounds 1 to 3 of
// each store are known. They are no calls: they ask what their callers show.
ghost use Rattle.std.specs.Prelude.{◌≡◌, ℕ, ◌*◌, ◌≤◌, ◌<◌, length, IfOk, IfErr};
ghost use Rattle.flash.specs.Chip.{page_width};
ghost use Rattle.form.specs.declared.Form.TheVariants.{New};
ghost use Rattle.lift.specs.Limits.{time_limit, load_least, load_most};
ghost use Rattle.skiplist.specs.Skip.{serials_from};
ghost use Rattle.visit.specs.Inner.Sound.{LogSound};
ghost use Rattle.found.specs.Found.{found_rows};
ghost use Rattle.store.specs.declared.State.{State};
ghost use Rattle.store.specs.World.{world};
ghost use Rattle.store.specs.Inner.Pieces.{bounds_ground};
ghost use Rattle.questions.specs.Queries.{log_of, query_of};
ghost use Rattle.each_segment.specs.Inner.Turns.{IsDamage};
ghost use Rattle.whole_log.specs.Inner.Held.{Room};
ghost use Rattle.pairs.specs.Answers.{pairs_answer};
ghost use Rattle.grounds.specs.Numbers.{number_in};
ghost use Rattle.pairs.specs.Call.{pairs_outcome};
ghost use Rattle.pairs.specs.Inner.Hands.{InHand, Lends, Known, Writes, answered};

use bitset::Bits;
use grounds::Ground;
use visit::{Log, Query};

// Both records of a pair.
const PAIR_BYTES: usize = 64;

// S + 1 segments at most, a slot and a set for each.
const SEGMENTS: usize = 4097;

// A log in hand: its oldest segment, and whether its times never fall.
#[derive(Clone, Copy)]
struct Hand {
    low: usize,
    rising: bool,
}

// A search over all times and loads.
fn everything() -> Query
    ensures { result ≡ query_of 0 time_limit load_least load_most }
{
    Query {
        t1: 0,
        t2: lift::TIME_LIMIT,
        k1: 1,
        k2: lift::CODE_MAX,
    }
}

fn take_in_hand(
    nand: &[u8],
    nor: &[u8],
    page: &[u8],
    g: Log,
    q: Query,
    way: &mut [u16],
    sets: &mut [Bits],
) -> Result<Hand, Ground>
    requires log_sound { LogSound nand.now nor.now g × Room g way.old sets.old }
    requires page_len { (length page.now ≡ page_width) × (1 ≤ q.k1) }
    ensures hand { IfOk result (λ h. InHand nand.now nor.now page.now g q
        (found_rows nand.now nor.now page.now g (serials_from g.oldest) q)
        way.new sets.new h.low h.rising) }
    ensures damage { IfErr result (IsDamage (found_rows nand.now nor.now page.now g (serials_from g.oldest) q)) }
{
    let low = whole_log::gather(nand, nor, page, g, q, way, sets)?;
    let rising = whole_log::rise::rises(nand, page, g, way, sets, low);
    Ok(Hand { low, rising })
}

// The sets of the second log are made anew, and the pairs written: `rows` is at least as many as there are.
fn write_pairs(
    area: &mut [u8],
    rows: u64,
    nand1: &[u8],
    nor1: &[u8],
    page1: &[u8],
    g1: Log,
    q: Query,
    way1: &[u16],
    low1: usize,
    nand2: &[u8],
    nor2: &[u8],
    page2: &[u8],
    g2: Log,
    way2: &mut [u16],
    free: &mut [Bits],
    rising: bool,
)
    requires log_sound { LogSound nand1.now nor1.now g1 × (length page1.now ≡ page_width) }
    requires slots_in_bounds { (g1.slots < length way1.now) × (g1.slots ≤ 4096) }
    requires lends { Lends nand1.now nor1.now page1.now g1 q
        (found_rows nand1.now nor1.now page1.now g1 (serials_from g1.oldest) q) way1.now low1 rising }
    requires log_sound_2 { LogSound nand2.now nor2.now g2 × Room g2 way2.old free.old × (length page2.now ≡ page_width) }
    requires le_k1 { (1 ≤ q.k1) × (rows * 64 ≤ length area.old)
        × Known (found_rows nand2.now nor2.now page2.now g2 (serials_from g2.oldest) q) rising }
    ensures { Writes (found_rows nand1.now nor1.now page1.now g1 (serials_from g1.oldest) q)
        (found_rows nand2.now nor2.now page2.now g2 (serials_from g2.oldest) q) rows
        area.old area.new }
{
    if let Ok(low2) = whole_log::gather(nand2, nor2, page2, g2, q, way2, free) {
        joining::join_all(
            area, rows, nand1, nor1, page1, g1, q, way1, low1, nand2, page2, g2, way2, free, low2,
            rising,
        );
    }
}

// Ground 16, then the pairs of two logs in hand: counted, and then written in a second pass.
fn list_pairs(
    area: &mut [u8],
    nand1: &[u8],
    nor1: &[u8],
    page1: &[u8],
    g1: Log,
    q: Query,
    way1: &[u16],
    low1: usize,
    nand2: &[u8],
    nor2: &[u8],
    page2: &[u8],
    g2: Log,
    way2: &mut [u16],
    free: &mut [Bits],
    low2: usize,
    rising: bool,
) -> Result<u64, Ground>
    requires log_sound { LogSound nand1.now nor1.now g1 × (length page1.now ≡ page_width) }
    requires slots_in_bounds { (g1.slots < length way1.now) × (g1.slots ≤ 4096) × (1 ≤ q.k1) }
    requires lends { Lends nand1.now nor1.now page1.now g1 q
        (found_rows nand1.now nor1.now page1.now g1 (serials_from g1.oldest) q) way1.now low1 rising }
    requires log_sound_2 { LogSound nand2.now nor2.now g2 × Room g2 way2.old free.old × (length page2.now ≡ page_width) }
    requires in_hand { InHand nand2.now nor2.now page2.now g2 q
        (found_rows nand2.now nor2.now page2.now g2 (serials_from g2.oldest) q) way2.old free.old low2 rising }
    ensures { answered result area.new ≡ pairs_answer area.old
        (found_rows nand1.now nor1.now page1.now g1 (serials_from g1.oldest) q)
        (found_rows nand2.now nor2.now page2.now g2 (serials_from g2.oldest) q) }
{
    let count = joining::join_all(
        area, 0, nand1, nor1, page1, g1, q, way1, low1, nand2, page2, g2, way2, free, low2, rising,
    );
    let rows = (area.len() / PAIR_BYTES) as u64;
    if rows < count {
        return Err(Ground::ManyPairs);
    }
    write_pairs(
        area, rows, nand1, nor1, page1, g1, q, way1, low1, nand2, nor2, page2, g2, way2, free,
        rising,
    );
    Ok(count)
}

// Both logs are taken in hand: ground 10 of the first, of the second, then their pairs.
fn pair_up(
    page1: &[u8],
    g1: Log,
    nand1: &[u8],
    nor1: &[u8],
    page2: &[u8],
    g2: Log,
    nand2: &[u8],
    nor2: &[u8],
    q: Query,
    way1: &mut [u16],
    way2: &mut [u16],
    free: &mut [Bits],
    area: &mut [u8],
) -> Result<u64, Ground>
    requires log_sound { LogSound nand1.now nor1.now g1 × Room g1 way1.old free.old × (length page1.now ≡ page_width) }
    requires log_sound_2 { LogSound nand2.now nor2.now g2 × Room g2 way2.old free.old × (length page2.now ≡ page_width) }
    requires le_k1 { 1 ≤ q.k1 }
    ensures { answered result area.new ≡ pairs_answer area.old
        (found_rows nand1.now nor1.now page1.now g1 (serials_from g1.oldest) q)
        (found_rows nand2.now nor2.now page2.now g2 (serials_from g2.oldest) q) }
{
    let a = take_in_hand(nand1, nor1, page1, g1, q, way1, free)?;
    let b = take_in_hand(nand2, nor2, page2, g2, q, way2, free)?;
    let rising = a.rising & b.rising;
    list_pairs(
        area, nand1, nor1, page1, g1, q, way1, a.low, nand2, nor2, page2, g2, way2, free, b.low,
        rising,
    )
}

// What grounds 1 to 3 gave of two states whose logs and pages these are, then their pairs. The sets and slots are on the stack of this
// call alone.
pub fn pairs_from(
    n1: Result<(), Ground>,
    n2: Result<(), Ground>,
    page1: &[u8],
    g1: Log,
    nand1: &[u8],
    nor1: &[u8],
    page2: &[u8],
    g2: Log,
    nand2: &[u8],
    nor2: &[u8],
    area: &mut [u8],
) -> Result<u64, Ground>
    requires log_sound { (number_in n1 ≡ 0 → LogSound nand1.now nor1.now g1 × (g1.slots ≤ 4096)) × (length page1.now ≡ page_width) }
    requires log_sound_2 { (number_in n2 ≡ 0 → LogSound nand2.now nor2.now g2 × (g2.slots ≤ 4096)) × (length page2.now ≡ page_width) }
    ensures { (s1 s2 : State) (slots1 slots2 : ℕ)
        → number_in n1 ≡ bounds_ground New s1 0 (length nand1.now) (length nor1.now) slots1
        → number_in n2 ≡ bounds_ground New s2 0 (length nand2.now) (length nor2.now) slots2
        → g1 ≡ log_of s1 slots1 → page1.now ≡ s1.page → g2 ≡ log_of s2 slots2 → page2.now ≡ s2.page
        → answered result area.new ≡ pairs_outcome (world nand1.now nor1.now s1) slots1 (world nand2.now nor2.now s2) slots2
        area.old }
{
    bounds::sooner(n1, n2)?;
    let mut way1 = [0u16; SEGMENTS];
    let mut way2 = [0u16; SEGMENTS];
    let mut free = [Bits { words: [0; 5] }; SEGMENTS];
    let q = everything();
    pair_up(
        page1, g1, nand1, nor1, page2, g2, nand2, nor2, q, &mut way1, &mut way2, &mut free, area,
    )
}
