// What a line P prints (document 02, W-201): letter and number and, where that is 0, the service page of a tally of the program's store.
#![tactic(auto)]

ghost use Rattle.std.specs.Prelude.{◌+◌, ◌≤◌, length};
ghost use Rattle.store.specs.World.{world};
ghost use Rattle.questions.specs.Queries.{tally_outcome};
ghost use Rattle.service_page.specs.Page.{page_bytes};
ghost use Rattle.page_line.specs.ServicePage.{page_answer};
ghost use Rattle.page_line.specs.Inner.PagePut.{PagePut};

use lines::LINE_FEED;
use store::State;

// Of the program's store.
pub const SLOTS: u64 = 2;

const LETTER_P: u8 = b'P';

// Letter and number, and a line feed.
const HEAD_BYTES: usize = 5;
// These, and the page.
pub const ANSWER_BYTES: usize = HEAD_BYTES + service_page::PAGE_BYTES;

// What a P line prints, from the area's start, and how many bytes it has.
pub fn page_answer(nand: &[u8], nor: &[u8], s: State, t1: u64, t2: u64, o: &mut [u8]) -> usize
    requires { 5 + page_bytes ≤ length o.old }
    ensures { PagePut o.old o.new result
        (page_answer (tally_outcome (world nand.now nor.now s) 2 t1 t2) t1 t2) }
{
    let t = questions::tally(s, nand, nor, SLOTS, t1, t2);
    answers::put_head(o, LETTER_P, grounds::number_in(&t));
    o[4] = LINE_FEED;
    match t {
        Err(_) => HEAD_BYTES,
        Ok(counts) => {
            service_page::put_page(o, HEAD_BYTES, t1, t2, counts);
            ANSWER_BYTES
        }
    }
}
