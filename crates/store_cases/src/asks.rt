// The calls of the script that only ask.
use crate::script::Ask;
use case_print::{Trial, digest};
use plain_list::Query;
use plate::PLATES;
use trial_calls::Store;

const AREA_BYTES: usize = 1024;
// What every byte of a result area holds before a search.
const AREA_BYTE: u8 = 170;

fn query(store: &Store, t: &mut Trial, query: Query, bytes: usize) {
    let mut area = [AREA_BYTE; AREA_BYTES];
    let found = store.search(t.slots, query, bytes, &mut area);
    t.answer = found.map(|_| ());
    t.found = found.unwrap_or(0);
    t.area = digest::of_first(&area, bytes);
}

fn tally(store: &Store, t: &mut Trial, t1: u64, t2: u64) {
    let tally = store.tally(t.slots, t1, t2);
    let counts = tally.unwrap_or([0; PLATES]);
    t.answer = tally.map(|_| ());
    t.found = counts[0];
    t.counts = counts;
}

fn plate(t: &mut Trial, place: u64, code: u64) {
    let plate = trial_calls::plate(place, code);
    t.answer = plate.map(|_| ());
    t.found = u64::from(plate.unwrap_or(0));
}

pub fn asked(store: &Store, t: &mut Trial, ask: Ask) {
    match ask {
        Ask::Query { query: q, bytes } => query(store, t, q, bytes),
        Ask::Tally { t1, t2 } => tally(store, t, t1, t2),
        Ask::Plate { place, code } => plate(t, place, code),
    }
}
