// Long random lists of calls on the store and on a plain list (document 01, "a plain in-memory list over long random calls"): number,
// rows and counts of every call are compared, and the serials, count, buckets and next time after it. A line for each S and kind of
// loads; the last column, differences, is to be 0.
#![tactic(auto)]

use call_counts::counts::Counts;
use call_counts::{counts, print};
use compared::Sides;
use dice::{List, Loads};
use plain_list::Lift;

const SLOT_BYTES: usize = 16384;

const NOR_BYTES: usize = 6144;

// A store of so many slots stands at the start of the data chip, which has as many as the largest.
const SIZES: [usize; 4] = [2, 3, 4, 8];

const NAND_BYTES: usize = 131072;
// Nine serials of 320 lifts.
const SHEET_LIFTS: usize = 2880;

const CALLS_IN_LIST: u64 = 4000;

fn list_of_calls(rt: &impl Print, sides: &mut Sides, slots: u64, list: List) -> Counts {
    sides.begin(slots);
    let mut random = list.first_number(slots);
    let mut counts = Counts::default();
    for _ in 0..CALLS_IN_LIST {
        counts = counts + one_call(rt, sides, list, random, counts);
        random = dice::later(random);
    }
    counts
}

// A call on both, and what is counted of it; the first difference of a line's calls is printed.
fn one_call(rt: &impl Print, sides: &mut Sides, list: List, random: u64, counts: Counts) -> Counts {
    let before = sides.pair().log;
    let drawn = dice::calls::pick(sides.sheet, &before, list, random);
    let done = sides.call(drawn);
    let differs = done.differs();
    if differs && counts.differences == 0 {
        print::difference(
            rt,
            counts.calls,
            drawn,
            done.expected_number(),
            done.found_number(),
        );
    }
    counts::of_call(drawn.call, &before, &sides.log, done.expected, differs)
}

// Two lists of one kind of loads, on one sheet, and their line.
fn kind_of_loads(
    rt: &impl Print,
    nand: &mut [u8],
    nor: &mut [u8],
    slots: u64,
    loads: Loads,
) -> Counts {
    let mut sheet = [Lift::default(); SHEET_LIFTS];
    let mut sides = Sides::new(nand, nor, &mut sheet, slots);
    let mut counts = Counts::default();
    for second in [false, true] {
        counts = counts + list_of_calls(rt, &mut sides, slots, List { loads, second });
    }
    print::line(rt, slots, loads, &counts);
    counts
}

fn main(rt: HostRuntime) {
    let mut nand = [0u8; NAND_BYTES];
    let mut nor = [0u8; NOR_BYTES];
    let mut counts = Counts::default();
    print::head(&rt);
    for slots in SIZES {
        let chip = &mut nand[..slots * SLOT_BYTES];
        for loads in Loads::ALL {
            counts = counts + kind_of_loads(&rt, chip, &mut nor, slots as u64, loads);
        }
    }
    print::totals(&rt, &counts);
}
