// What a tally counts (document 01, "Plates"): the lifts by plate that a search over all loads finds.
#![tactic(auto)]

mod by_plate;

ghost use Rattle.std.specs.Prelude.{◌≡◌, ◌≤◌, length};
ghost use Rattle.flash.specs.Chip.{page_width};
ghost use Rattle.skiplist.specs.Skip.{serials_from};
ghost use Rattle.visit.specs.Inner.Sound.{LogSound};
ghost use Rattle.found.specs.Found.{found_rows};
ghost use Rattle.tally.specs.Answers.{answer_of, tally_answer};

use grounds::Ground;
use plate::PLATES;
use visit::{Log, Query};

// Ground 10, then the counts by plate of what a search finds.
pub fn tally_in(
    nand: &[u8],
    nor: &[u8],
    page: &[u8],
    g: Log,
    q: Query,
) -> Result<[u64; PLATES], Ground>
    requires log_sound { LogSound nand.now nor.now g }
    requires page_len { length page.now ≡ page_width }
    requires le_k1 { 1 ≤ q.k1 }
    ensures { answer_of result ≡ tally_answer (found_rows nand.now nor.now page.now g (serials_from g.oldest) q) }
{
    let c = walk::start_of(nand, g, q).at;
    if !c.good {
        return Err(Ground::Damage);
    }
    let newest = by_plate::tally_open(nand, nor, page, g, q)?;
    let all = by_plate::tally_closed(nand, g.slots, g.oldest, q, c, newest)?;
    Ok(all)
}
