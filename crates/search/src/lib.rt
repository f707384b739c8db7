// The answer of a search (document 01, "Search"): what is found is counted first, then written.
#![tactic(auto)]

pub mod write;

ghost use Rattle.std.specs.Prelude.{◌≡◌, ◌≤◌, length};
ghost use Rattle.flash.specs.Chip.{page_width};
ghost use Rattle.skiplist.specs.Skip.{serials_from};
ghost use Rattle.visit.specs.Inner.Sound.{LogSound};
ghost use Rattle.found.specs.Found.{found_rows};
ghost use Rattle.found.specs.Pages.{pages_read};
ghost use Rattle.search.specs.Answers.{answer_of, search_answer};

use found::Pages;
use grounds::Ground;
use visit::{Log, Query};

// How many were found, and the pages read.
#[derive(Clone, Copy)]
pub struct Found {
    pub count: u64,
    pub pages: Pages,
}

// Grounds 10 and 12, then the rows. No row is written before the answer is known.
pub fn search_in(
    nand: &[u8],
    nor: &[u8],
    page: &[u8],
    g: Log,
    q: Query,
    area: &mut [u8],
) -> Result<Found, Ground>
    requires log_sound { LogSound nand.now nor.now g }
    requires page_len { length page.now ≡ page_width }
    requires le_k1 { 1 ≤ q.k1 }
    ensures { answer_of result area.new ≡ search_answer area.old (pages_read nand.now g (serials_from g.oldest) q)
        (found_rows nand.now nor.now page.now g (serials_from g.oldest) q) }
{
    let start = walk::start_of(nand, g, q);
    let n = found::count_all(nand, nor, page, g, q, start.at, start.moves).ok_or(Ground::Damage)?;
    let total = n.total;
    let rows = (area.len() / lift::RECORD_BYTES) as u64;
    if rows < total {
        return Err(Ground::ManyRows);
    }
    write::write_all(area, nand, nor, page, g, q, start.at, total);
    Ok(Found {
        count: total,
        pages: n.pages,
    })
}
