// What `store_cases` prints: a call's answer, the state, hashes of areas. What standard output does not take is lost: the script goes
// on.
#![tactic(auto)]

pub mod digest;

use plate::PLATES;
use store::State;
use trial_calls::Store;

// S, how much of the chips the calls are lent, and what the last call answered.
#[derive(Clone, Copy)]
pub struct Trial {
    pub slots: u64,
    pub nand: usize,
    pub nor: usize,
    pub answer: Result<(), u8>,
    pub found: u64,
    pub area: u64,
    pub counts: [u64; PLATES],
}

impl Trial {
    // 0, or the number of the ground.
    pub fn number(&self) -> u8 {
        self.answer.err().unwrap_or(0)
    }
}

pub fn text(rt: &impl Print, s: &[u8]) {
    let _ = rt.write_all(s);
}

pub fn end_line(rt: &impl Print) {
    let _ = println!(rt);
}

// The hashes of both chips, and the end of the line.
pub fn chips(rt: &impl Print, store: &Store) {
    let nand = digest::of(store.nand);
    let nor = digest::of(store.nor);
    let _ = println!(rt; " nand={nand:016x} nor={nor:016x}");
}

// What a call left: its number, the state's serials, counts and time, and the chips.
pub fn state(rt: &impl Print, store: &Store, t: &Trial) {
    let number = t.number();
    let State {
        oldest,
        current,
        count,
        buckets,
        next,
        ..
    } = store.state;
    let _ = print!(rt;
        ": number={number} oldest={oldest} open={current} count={count} buckets={buckets} next={next}"
    );
    chips(rt, store);
}

// What a search found, with the hash of its result area.
pub fn rows(rt: &impl Print, t: &Trial) {
    let number = t.number();
    let found = t.found;
    let area = t.area;
    let _ = println!(rt; ": number={number} found={found} area={area:016x}");
}

pub fn number(rt: &impl Print, t: &Trial) {
    let number = t.number();
    let _ = print!(rt; " {number}");
}

// The lifts found, those of plate 0, or the plate.
pub fn found(rt: &impl Print, t: &Trial) {
    let found = t.found;
    let _ = print!(rt; "/{found}");
}

// What a tally counted.
pub fn counts(rt: &impl Print, t: &Trial) {
    let number = t.number();
    let _ = print!(rt; ": number={number}");
    for n in t.counts {
        let _ = print!(rt; " {n}");
    }
    end_line(rt);
}
