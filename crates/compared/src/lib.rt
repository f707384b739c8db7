// One call on the store and on the list, and what they answer compared.
#![tactic(auto)]

ghost use Rattle.std.specs.Prelude.{◌≡◌};

use dice::calls::{Area, Call, Drawn};
use lift::RECORD_BYTES;
use plain_list::{Ground, Lift, PlainLog, Query};
use plate::PLATES;
use store::State;
use trial_calls::Store;

// Eight serials of 320 lifts.
const AREA_BYTES: usize = 81920;

// The store's state and the list, as they stand between two calls.
#[derive(Clone, Copy)]
pub struct Pair {
    pub state: State,
    pub log: PlainLog,
}

// The store, and the list on its sheet.
#[derive(Drop)]
pub struct Sides<'a> {
    pub store: Store<'a>,
    pub log: PlainLog,
    pub sheet: &'a mut [Lift],
}

// What both answered to a call: the list with the rows that a search found or its ground, the store with its number; and whether all
// else agrees.
#[derive(Clone, Copy, Debug, PartialEq, Eq)]
pub struct Done {
    pub expected: Result<usize, Ground>,
    pub found: Result<(), u8>,
    pub good: bool,
}

impl Done {
    pub fn expected_number(&self) -> u8 {
        match self.expected {
            Ok(_) => 0,
            Err(ground) => ground.number(),
        }
    }

    pub fn found_number(&self) -> u8 {
        self.found.err().unwrap_or(0)
    }

    pub fn differs(&self) -> bool {
        !self.good || self.expected_number() != self.found_number()
    }
}

// The bytes of a search's result area.
fn room(area: Area, found: usize) -> usize {
    let exact = found.saturating_mul(RECORD_BYTES);
    match area {
        Area::Ample => AREA_BYTES,
        Area::Exact => exact,
        Area::RowShort => exact.saturating_sub(RECORD_BYTES),
        Area::ByteShort => exact.saturating_sub(1),
        Area::Loose => exact.saturating_add(RECORD_BYTES - 1),
    }
}

// A lift's record; the note is made from the lift's number.
fn record(lift: Lift, number: u64) -> [u8; RECORD_BYTES] {
    let mut record = [0u8; RECORD_BYTES];
    record[..8].copy_from_slice(&lift.time.to_le_bytes());
    record[8..12].copy_from_slice(&lift.code.to_le_bytes());
    record[12..].copy_from_slice(&plain_list::note_of(number));
    record
}

impl<'a> Sides<'a> {
    pub fn new(
        nand: &'a mut [u8],
        nor: &'a mut [u8],
        sheet: &'a mut [Lift],
        slots: u64,
    ) -> Sides<'a> {
        let store = Store::new(nand, nor);
        let log = PlainLog::new(slots);
        Sides { store, log, sheet }
    }
}

impl Sides<'_> {
    // Both sides as they stand.
    pub fn pair(&self) -> Pair
        ensures { (result.state ≡ self.now.store.state) × (result.log ≡ self.now.log) }
    {
        Pair {
            state: self.store.state,
            log: self.log,
        }
    }

    // The state's serials, count, buckets and next time are the list's.
    fn agrees(&self) -> bool {
        let state = &self.store.state;
        let log = &self.log;
        state.oldest == log.oldest
            && state.current == log.current
            && u32::from(state.count) == log.count
            && usize::from(state.buckets) == log.tree.len()
            && state.next == log.next
    }

    // After a call that changes both.
    fn settle(&mut self, expected: Result<PlainLog, Ground>, found: Result<(), u8>) -> Done {
        self.log = expected.unwrap_or(self.log);
        Done {
            expected: expected.map(|_| 0),
            found,
            good: self.agrees(),
        }
    }

    // Every row is the list's next lift of the query.
    fn rows_agree(&self, area: &[u8], q: Query) -> bool {
        let mut rows = area.chunks(RECORD_BYTES);
        for (place, lift) in self.log.held(self.sheet).iter().enumerate() {
            if q.finds(*lift) {
                let record = record(*lift, self.log.number_at(place));
                if rows.next() != Some(record.as_slice()) {
                    return false;
                }
            }
        }
        true
    }

    fn search(&self, slots: u64, q: Query, area: Area) -> Done {
        let mut rows = [0u8; AREA_BYTES];
        let bytes = room(area, self.log.found(self.sheet, q));
        let expected = self.log.search(self.sheet, slots, q, bytes / RECORD_BYTES);
        let found = self.store.search(slots, q, bytes, &mut rows);
        let good = match (expected, found) {
            (Ok(lifts), Ok(count)) => count == lifts as u64 && self.rows_agree(&rows, q),
            _ => true,
        };
        Done {
            expected,
            found: found.map(|_| ()),
            good,
        }
    }

    fn counts_agree(&self, q: Query, counts: [u64; PLATES]) -> bool {
        let sheet = &*self.sheet;
        counts.iter().enumerate().all(|(plate, n)| self.log.of_plate(sheet, q, plate as u64) as u64
            == *n)
    }

    fn tally(&self, slots: u64, query: Query) -> Done {
        let q = Query {
            k1: plain_list::CODE_MIN,
            k2: plain_list::CODE_MAX,
            ..query
        };
        let expected = self.log.ask(slots, q);
        let found = self.store.tally(slots, q.t1, q.t2);
        let good = match (expected, found) {
            (Ok(()), Ok(counts)) => self.counts_agree(q, counts),
            _ => true,
        };
        Done {
            expected: expected.map(|_| 0),
            found: found.map(|_| ()),
            good,
        }
    }

    // A list of calls begins. A store that is not formatted would show as differences.
    pub fn begin(&mut self, slots: u64) {
        let _ = self.store.format(slots);
        self.log = PlainLog::new(slots);
    }

    // A lift's note is that of its number.
    pub fn call(&mut self, drawn: Drawn) -> Done {
        let slots = drawn.slots;
        match drawn.call {
            Call::Append { time, code } => {
                let found = self.store.append(slots, time, code, self.log.next_number());
                let expected = self.log.append(self.sheet, slots, time, code);
                self.settle(expected, found)
            }
            Call::Close => {
                let found = self.store.close(slots);
                let expected = self.log.close(slots);
                self.settle(expected, found)
            }
            Call::Drop => {
                let found = self.store.drop(slots);
                let expected = self.log.drop(self.sheet, slots);
                self.settle(expected, found)
            }
            Call::Search { query, area } => self.search(slots, query, area),
            Call::Tally { query } => self.tally(slots, query),
        }
    }
}
