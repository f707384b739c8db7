// The paper log of document 01 ("Paper log"; W-202) as a plain list, for test programs: it shares no code with the store. The list of
// lifts stands on a lent sheet; all else is in `PlainLog`, by value. Loads are stored numbers.
#![tactic(auto)]

ghost use Rattle.std.specs.Prelude.{◌≤◌, length, IfOk};

mod ground;
mod lifts;
mod notes;
mod plain_tree;

pub use ground::Ground;
pub use lifts::{Lift, Query, lift_at};
pub use notes::note_of;
pub use plain_tree::Tree;

// "a time (ms, 0 to 999,999,999,999,999)"
pub const TIME_LIMIT: u64 = 999999999999999;
// Loads −50,000 and 100,000, as stored.
pub const CODE_MIN: u64 = 1;

pub const CODE_MAX: u64 = 150001;
// "An append that finds 320 lifts"
pub const LIFTS_PER_SERIAL: u32 = 320;
// "An append finds open serial 999,999,998 or more."
const LAST_SERIAL: u32 = 999999998;

#[derive(Clone, Copy)]
pub struct PlainLog {
    pub slots: u64,
    pub oldest: u32,
    pub current: u32,
    // Of the open serial.
    pub count: u32,
    pub tree: Tree,
    // The last accepted time, 0 before there is one.
    pub next: u64,
    // Of all serials held.
    pub lifts: usize,
    // Of serials that went.
    pub gone: u64,
}

fn time_in_limits(time: u64) -> Result<(), Ground> {
    if time <= TIME_LIMIT {
        Ok(())
    } else {
        Err(Ground::Time)
    }
}

fn code_in_limits(code: u64) -> Result<u32, Ground> {
    if CODE_MIN <= code && code <= CODE_MAX {
        Ok(code as u32)
    } else {
        Err(Ground::Load)
    }
}

impl PlainLog {
    // "It starts with serial 1, open and empty, and next time 0."
    pub fn new(slots: u64) -> PlainLog {
        PlainLog {
            slots,
            oldest: 1,
            current: 1,
            count: 0,
            tree: Tree::new(),
            next: 0,
            lifts: 0,
            gone: 0,
        }
    }

    fn has_slots(&self, slots: u64) -> Result<(), Ground> {
        if slots == self.slots {
            Ok(())
        } else {
            Err(Ground::Slots)
        }
    }

    // The list after an append, whose load is a stored one.
    pub fn append(
        self,
        sheet: &mut [Lift],
        slots: u64,
        time: u64,
        code: u64,
    ) -> Result<PlainLog, Ground> {
        self.has_slots(slots)?;
        time_in_limits(time)?;
        let code = code_in_limits(code)?;
        if time < self.next {
            return Err(Ground::Earlier);
        }
        if LAST_SERIAL <= self.current {
            return Err(Ground::Serial);
        }
        let log = if self.closes_first(u64::from(code)) {
            self.closed()
        } else {
            self
        };
        Ok(log.with_lift(sheet, time, code))
    }

    // Whether an append of this stored load closes the open serial first: "if open serial n has 320 lifts, or its loads and then the new
    // one need bucket 36". A load above the limit goes as the highest one.
    pub fn closes_first(&self, code: u64) -> bool {
        self.count == LIFTS_PER_SERIAL || self.tree.needs_more(code.min(CODE_MAX) as u32)
    }

    // "The lift goes last into the open serial, m; m − S goes, if held."
    fn with_lift(self, sheet: &mut [Lift], time: u64, code: u32) -> PlainLog {
        let far = u64::from(self.current).saturating_sub(self.slots);
        let log = if u64::from(self.oldest) <= far {
            self.without_oldest(sheet)
        } else {
            self
        };
        let mut tree = log.tree;
        tree.insert(code, lifts::last_sums(sheet, log.lifts));
        let serial = log.current;
        lifts::put(sheet, log.lifts, Lift { time, code, serial });
        PlainLog {
            count: log.count.saturating_add(1),
            tree,
            next: time,
            lifts: log.lifts.saturating_add(1),
            ..log
        }
    }

    pub fn close(self, slots: u64) -> Result<PlainLog, Ground> {
        self.has_slots(slots)?;
        if self.count == 0 {
            return Err(Ground::Nothing);
        }
        Ok(self.closed())
    }

    // "The open serial closes, the next opens."
    fn closed(self) -> PlainLog {
        PlainLog {
            current: self.current.saturating_add(1),
            count: 0,
            tree: Tree::new(),
            ..self
        }
    }

    pub fn drop(self, sheet: &mut [Lift], slots: u64) -> Result<PlainLog, Ground> {
        self.has_slots(slots)?;
        if self.oldest == self.current {
            return Err(Ground::Nothing);
        }
        Ok(self.without_oldest(sheet))
    }

    // "The oldest closed serial goes."
    fn without_oldest(self, sheet: &mut [Lift]) -> PlainLog {
        let oldest = self.oldest;
        let lifts = self.lifts;
        let going = self
            .held(sheet)
            .iter()
            .position(|lift| oldest < lift.serial)
            .unwrap_or(lifts);
        lifts::move_down(sheet, going, lifts);
        PlainLog {
            oldest: oldest.saturating_add(1),
            lifts: lifts.saturating_sub(going),
            gone: self.gone.saturating_add(going as u64),
            ..self
        }
    }

    // The lifts of the list.
    pub fn held<'a>(&self, sheet: &'a [Lift]) -> &'a [Lift]
        ensures { length result.now ≤ self.now.lifts }
    {
        &sheet[..self.lifts.min(sheet.len())]
    }

    // Grounds 1 to 6 of a search, or of a tally, which asks for all loads.
    pub fn ask(&self, slots: u64, q: Query) -> Result<(), Ground> {
        self.has_slots(slots)?;
        time_in_limits(q.t1)?;
        time_in_limits(q.t2)?;
        code_in_limits(q.k1)?;
        code_in_limits(q.k2)?;
        if q.t2 < q.t1 || q.k2 < q.k1 {
            Err(Ground::Ends)
        } else {
            Ok(())
        }
    }

    // How many lifts a search finds that has room for so many rows.
    pub fn search(&self, sheet: &[Lift], slots: u64, q: Query, rows: usize) -> Result<usize, Ground>
        ensures { IfOk result (λ found. found ≤ rows) }
    {
        self.ask(slots, q)?;
        let found = self.found(sheet, q);
        if rows < found {
            Err(Ground::TooSmall)
        } else {
            Ok(found)
        }
    }

    // How many lifts a query finds.
    pub fn found(&self, sheet: &[Lift], q: Query) -> usize {
        self.held(sheet)
            .iter()
            .filter(|lift| q.finds(**lift))
            .count()
    }

    // How many of them have this plate.
    pub fn of_plate(&self, sheet: &[Lift], q: Query, plate: u64) -> usize {
        self.held(sheet)
            .iter()
            .filter(|lift| q.finds(**lift) && plain_rules::plate_of(u64::from(lift.code)) == plate)
            .count()
    }

    // The number since the log began, from 0, of the lift at a place of the list: lifts at one time differ in it. The place after the
    // last has the next lift's.
    pub fn number_at(&self, place: usize) -> u64 {
        self.gone.saturating_add(place as u64)
    }

    pub fn next_number(&self) -> u64 {
        self.number_at(self.lifts)
    }
}
