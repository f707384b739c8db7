// The calls for C and Rust that list more than the rows of one search: the pairs of two stores, and a tolerant search.
ghost use Rattle.std.specs.Prelude.{◌≡◌};
ghost use Rattle.areas.specs.Areas.{replied, pairs_called, replied_both, tolerant_called};

use crate::AREA_LENGTH;
use kept::{NUMBER_BYTES, TOLERANT_BYTES};

// The pairs of two stores (W-208).
#[unsafe(no_mangle)]
pub extern "C" fn store_pairs(
    first: &[u8],
    nand1: &[u8],
    nor1: &[u8],
    slots1: u64,
    second: &[u8],
    nand2: &[u8],
    nor2: &[u8],
    slots2: u64,
    rows: &mut [u8],
    answer: &mut [u8],
) -> u8
    ensures { replied result rows.new answer.new
        ≡ pairs_called first.now nand1.now nor1.now slots1 second.now nand2.now
        nor2.now slots2 rows.old answer.old }
{
    if first.len() != state_bytes::STATE_BYTES {
        return AREA_LENGTH;
    }
    if second.len() != state_bytes::STATE_BYTES {
        return AREA_LENGTH;
    }
    if answer.len() != NUMBER_BYTES {
        return AREA_LENGTH;
    }
    let n1 = area_reads::ground(first, nand1.len(), nor1.len(), slots1);
    let n2 = area_reads::ground(second, nand2.len(), nor2.len(), slots2);
    let page1 = area_reads::page_of(first);
    let page2 = area_reads::page_of(second);
    let g1 = area_reads::log_at(first, slots1);
    let g2 = area_reads::log_at(second, slots2);
    match pairs::pieces::pairs_from(n1, n2, page1, g1, nand1, nor1, page2, g2, nand2, nor2, rows) {
        Ok(count) => {
            kept::keep_number(answer, 0, count);
            0
        }
        Err(g) => g.number(),
    }
}

// A search for loads that are known within d (W-209).
#[unsafe(no_mangle)]
pub extern "C" fn store_tolerant(
    state: &[u8],
    nand: &[u8],
    nor: &[u8],
    slots: u64,
    t1: u64,
    t2: u64,
    k1: i32,
    k2: i32,
    d: u64,
    certain: &mut [u8],
    possible: &mut [u8],
    answer: &mut [u8],
) -> u8
    ensures { replied_both result certain.new possible.new answer.new
        ≡ tolerant_called state.now nand.now nor.now slots t1 t2 k1 k2 d certain.old
        possible.old answer.old }
{
    if state.len() != state_bytes::STATE_BYTES {
        return AREA_LENGTH;
    }
    if answer.len() != TOLERANT_BYTES {
        return AREA_LENGTH;
    }
    let judged = area_reads::ground(state, nand.len(), nor.len(), slots);
    let page = area_reads::page_of(state);
    let g = area_reads::log_at(state, slots);
    match tolerant::pieces::tolerant_from(
        judged, page, g, nand, nor, t1, t2, k1, k2, d, certain, possible,
    ) {
        Ok(both) => {
            kept::keep_both(answer, 0, both.certain, both.possible);
            0
        }
        Err(ground) => ground.number(),
    }
}
