// The pieces of an export (document 02, W-211) that the calls over byte areas share: what is asked of a log and a page, once grounds 1 to 3
// are known. They are no calls: they ask what their callers show. The text is counted first and then written from its end backwards, the
// newest segment first; no row is kept.
ghost use Rattle.std.specs.Prelude.{◌≡◌, ℕ, ◌+◌, ◌*◌, ◌≤◌, length, Some, IfOk, IfErr};
ghost use Rattle.flash.specs.Chip.{page_width, slot_width};
ghost use Rattle.form.specs.declared.Form.TheVariants.{New};
ghost use Rattle.bitset.specs.Inner.Words.{members, Below};
ghost use Rattle.skiplist.specs.Skip.{serials_from};
ghost use Rattle.sweep.specs.Inner.Swept.{Recorded};
ghost use Rattle.visit.specs.Inner.Sound.{LogSound};
ghost use Rattle.found.specs.Found.{found_rows};
ghost use Rattle.store.specs.declared.State.{State};
ghost use Rattle.store.specs.World.{world};
ghost use Rattle.store.specs.Inner.Pieces.{bounds_ground};
ghost use Rattle.questions.specs.Queries.{log_of};
ghost use Rattle.lift_text.specs.Inner.Before.{PutBefore};
ghost use Rattle.grounds.specs.Numbers.{number_in};
ghost use Rattle.each_segment.specs.Inner.Turns.{rows_left, IsTurn, IsDamage};
ghost use Rattle.export.specs.Answers.{export_answer};
ghost use Rattle.export.specs.Call.{export_outcome};
ghost use Rattle.export.specs.Inner.Sizing.{set_lines, segment_most, SizeIs, EndsAt, lines_from, answered};

use bitset::Bits;
use each_segment::Turn;
use flash::Page;
use grounds::Ground;
use lift_text::HEAD_BYTES;
use sweep::Records;
use visit::{Log, Query};

// How many bytes the lines of a set's lifts have.
fn bytes_in(lifts: &[u8], tail: &[u8], g: Records, set: Bits) -> u64
    requires recorded { Recorded lifts.now tail.now g }
    requires below { Below g.count (members set.words) }
    ensures { (result ≡ length (set_lines lifts.now tail.now g.first set.words)) × (result ≤ segment_most) }
{
    let mut n = 0;
    for p in set.places() {
        let time = lift::time_in(lifts, tail, g.first, p);
        let code = lift::code_in(lifts, tail, g.first, p);
        let member = lift::member_in(lifts, tail, g.first, p);
        n += lift_text::line_bytes(time, code, member);
    }
    n
}

// All lines counted in bytes, in one walk over the chips from the first turn on.
fn count_bytes(nand: &[u8], page: &[u8], g: Log, q: Query, first: Turn) -> Result<u64, Ground>
    requires nand_len { (length nand.now ≡ g.slots * slot_width) × (length page.now ≡ page_width) × (1 ≤ q.k1) }
    requires turn { IsTurn nand.now g.slots (serials_from g.oldest) q page.now
        (rows_left nand.now g.slots (serials_from g.oldest) q page.now (Some first)) (g.current + 1) (Some first) }
    ensures size { IfOk result (SizeIs
        (rows_left nand.now g.slots (serials_from g.oldest) q page.now (Some first))) }
    ensures few { IfOk result (λ n. n ≤ segment_most * (g.current + 1)) }
    ensures damage { IfErr result (IsDamage
        (rows_left nand.now g.slots (serials_from g.oldest) q page.now (Some first))) }
{
    let mut turn = Some(first);
    let mut bytes: u64 = 0;
    while let Some(t) = turn {
        let lifts = flash::pages_of(nand, t.slot, Page(0), flash::TREE_FIRST);
        bytes += bytes_in(lifts, page, t.records, t.set);
        turn = each_segment::next(nand, g.slots, g.oldest, q, t.c)?;
    }
    Ok(bytes)
}

// The lines of a set's lifts end at `end`; returns where they begin.
fn put_lines(area: &mut [u8], end: usize, lifts: &[u8], tail: &[u8], g: Records, set: Bits) -> usize
    requires recorded { Recorded lifts.now tail.now g }
    requires below { Below g.count (members set.words) }
    requires words_len_bound { (length (set_lines lifts.now tail.now g.first set.words) ≤ end) × (end ≤ length area.old) }
    ensures { PutBefore area.old area.new
        (set_lines lifts.now tail.now g.first set.words) end result }
{
    let mut to = end;
    for p in last_place::places_down(set) {
        let time = lift::time_in(lifts, tail, g.first, p);
        let code = lift::code_in(lifts, tail, g.first, p);
        let member = lift::member_in(lifts, tail, g.first, p);
        to = lift_text::put_line(area, to, time, code, member);
    }
    to
}

// All lines, ending at `end`, in a second walk over the chips: it meets no damage where the first met none.
fn write_lines(area: &mut [u8], nand: &[u8], page: &[u8], g: Log, q: Query, first: Turn, end: usize)
    requires nand_len { (length nand.now ≡ g.slots * slot_width) × (length page.now ≡ page_width) × (1 ≤ q.k1) }
    requires turn { IsTurn nand.now g.slots (serials_from g.oldest) q page.now
        (rows_left nand.now g.slots (serials_from g.oldest) q page.now (Some first)) (g.current + 1) (Some first) }
    requires ends_at { EndsAt end (rows_left nand.now g.slots (serials_from g.oldest) q page.now (Some first)) × (end ≤ length area.old) }
    ensures { area.new ≡ lines_from area.old
        (rows_left nand.now g.slots (serials_from g.oldest) q page.now (Some first)) }
{
    let mut turn = Ok(Some(first));
    let mut to = end;
    while let Ok(Some(t)) = turn {
        let lifts = flash::pages_of(nand, t.slot, Page(0), flash::TREE_FIRST);
        to = put_lines(area, to, lifts, page, t.records, t.set);
        turn = each_segment::next(nand, g.slots, g.oldest, q, t.c);
    }
}

// Grounds 10 and 12, then the text. No byte is written before the answer is known.
fn export_in(
    nand: &[u8],
    nor: &[u8],
    page: &[u8],
    g: Log,
    q: Query,
    area: &mut [u8],
) -> Result<u64, Ground>
    requires log_sound { LogSound nand.now nor.now g }
    requires page_len { (length page.now ≡ page_width) × (1 ≤ q.k1) }
    ensures { answered result area.new ≡ export_answer area.old
        (found_rows nand.now nor.now page.now g (serials_from g.oldest) q) }
{
    let start = walk::start_of(nand, g, q);
    let c = start.at;
    let first = each_segment::first(nand, nor, page, g, q, c)?;
    let bytes = count_bytes(nand, page, g, q, first)?;
    let long = bytes + HEAD_BYTES as u64;
    if (area.len() as u64) < long {
        return Err(Ground::ManyRows);
    }
    lift_text::put_heading(area);
    write_lines(area, nand, page, g, q, first, long as usize);
    Ok(long)
}

// Grounds 4 to 6 and the text of what a search finds. Grounds 1 to 3 were judged of a state whose log and page these are.
pub fn export_from(
    judged: Result<(), Ground>,
    page: &[u8],
    g: Log,
    nand: &[u8],
    nor: &[u8],
    t1: u64,
    t2: u64,
    k1: i32,
    k2: i32,
    area: &mut [u8],
) -> Result<u64, Ground>
    requires log_sound { number_in judged ≡ 0 → LogSound nand.now nor.now g }
    requires page_len { length page.now ≡ page_width }
    ensures { (s : State) (slots : ℕ) → number_in judged ≡ bounds_ground New s 0 (length nand.now) (length nor.now) slots
        → g ≡ log_of s slots → page.now ≡ s.page
        → answered result area.new
        ≡ export_outcome (world nand.now nor.now s) slots t1 t2 k1 k2 area.old }
{
    judged?;
    let q = questions::pieces::window(t1, t2, k1, k2)?;
    export_in(nand, nor, page, g, q, area)
}
