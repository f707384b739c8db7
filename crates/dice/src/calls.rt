// Which call comes next, by random numbers: appends above all, searches and tallies, closes and drops (seldom in the first list of a
// kind, often in the second), and now and then a call that is to be refused.
ghost use Rattle.std.specs.Prelude.{◌<◌};

use crate::{List, Loads};
use plain_list::{Lift, PlainLog, Query};

// How much room a search is lent for its rows.
#[derive(Clone, Copy, Debug, PartialEq, Eq)]
pub enum Area {
    Ample,
    Exact,
    RowShort,
    ByteShort,
    // 31 bytes more than the rows.
    Loose,
}

// Loads are stored ones.
#[derive(Clone, Copy, Debug, PartialEq, Eq)]
pub enum Call {
    Append { time: u64, code: u64 },
    Close,
    Drop,
    Search { query: Query, area: Area },
    Tally { query: Query },
}

#[derive(Clone, Copy, Debug, PartialEq, Eq)]
pub struct Drawn {
    pub slots: u64,
    pub call: Call,
}

// Past the limits of stored loads.
const CODE_PAST: u64 = 150002;

// Every load, at all times.
const EVERYTHING: Query = Query {
    t1: 0,
    t2: plain_list::TIME_LIMIT,
    k1: plain_list::CODE_MIN,
    k2: plain_list::CODE_MAX,
};

impl Call {
    // What it asks for; an append has its time in t1 and its load in k1.
    pub fn query(self) -> Query {
        match self {
            Call::Append { time, code } => Query {
                t1: time,
                k1: code,
                ..EVERYTHING
            },
            Call::Close | Call::Drop => EVERYTHING,
            Call::Search { query, .. } | Call::Tally { query } => query,
        }
    }
}

fn some_area(x: u64) -> Area {
    match x % 5 {
        0 => Area::Ample,
        1 => Area::Exact,
        2 => Area::RowShort,
        3 => Area::ByteShort,
        _ => Area::Loose,
    }
}

// Times between two appends: none, as between two arms, long ones and short ones. Of 1,600 lifts the last 400 are at one time, past
// the ends of pages, sections and segments.
fn gap(log: &PlainLog, x: u64) -> u64 {
    if log.next_number() / 400 % 4 == 3 {
        return 0;
    }
    match x % 8 {
        0 | 1 => 0,
        2 => x / 8 % 20000,
        _ => x / 8 % 800,
    }
}

// A lift of the list; the first of the sheet where it has none.
fn some_lift(sheet: &[Lift], log: &PlainLog, x: u64) -> Lift {
    let place = (x % 4294967296) as usize;
    plain_list::lift_at(sheet, place.checked_rem(log.lifts).unwrap_or(0))
}

// The stored load of an append.
fn some_code(log: &PlainLog, list: List, time: u64, x: u64) -> u64 {
    if list.loads == Loads::Splitting && x / 8 % 16 != 0 {
        u64::from(log.tree.splitting_code())
    } else {
        list.code(time, x)
    }
}

// An append at or after the last time; now and then one that is to be refused.
fn append(log: &PlainLog, list: List, x: u64) -> Drawn {
    let y = crate::next(x);
    let time = log.next.saturating_add(gap(log, y));
    let code = some_code(log, list, time, crate::next(y));
    let slots = log.slots;
    let (slots, time, code) = match x / 128 % 200 {
        0 => (slots, log.next / 2, code),
        1 => (slots, plain_list::TIME_LIMIT + 1, code),
        2 => (slots, time, 0),
        3 => (slots, time, CODE_PAST),
        4 => (5, time, code),
        5 => (slots, time, u64::MAX),
        6 => (slots, log.next.saturating_sub(1), code),
        _ => (slots, time, code),
    };
    Drawn {
        slots,
        call: Call::Append { time, code },
    }
}

// A window of times: whole, from a lift on, up to a lift, one lift's time, one time at random.
fn window(sheet: &[Lift], log: &PlainLog, x: u64) -> Query {
    let y = crate::next(x);
    let time = some_lift(sheet, log, y).time;
    let (t1, t2) = match x / 256 % 8 {
        0 => (0, time),
        1 => (time, plain_list::TIME_LIMIT),
        2 | 3 => (time, time),
        4 => (y % 1000000, y % 1000000),
        5 | 6 => (time, time.saturating_add(y % 200000)),
        _ => (0, plain_list::TIME_LIMIT),
    };
    Query {
        t1,
        t2,
        ..EVERYTHING
    }
}

// Loads of a search: all, those of one lift, one at random, a band.
fn with_loads(sheet: &[Lift], log: &PlainLog, window: Query, x: u64) -> Query {
    let y = crate::next(x);
    let code = u64::from(some_lift(sheet, log, y).code);
    let other = 1 + y % plain_list::CODE_MAX;
    let (k1, k2) = match x / 512 % 6 {
        0 | 1 => (code, code),
        2 => (other, other),
        3 => (code, code.max(other)),
        4 => (plain_list::CODE_MIN, code),
        _ => (plain_list::CODE_MIN, plain_list::CODE_MAX),
    };
    Query { k1, k2, ..window }
}

// Now and then a query is to be refused: a time or a load past its limit, a range that runs backwards.
fn spoilt(q: Query, x: u64) -> Query {
    match x / 1024 % 60 {
        0 => Query {
            t2: plain_list::TIME_LIMIT + 1,
            ..q
        },
        1 => Query { t1: u64::MAX, ..q },
        2 => Query { k1: 0, ..q },
        3 => Query { k2: CODE_PAST, ..q },
        4 => Query { t1: 5, t2: 4, ..q },
        5 => Query {
            k1: 50001,
            k2: 50000,
            ..q
        },
        _ => q,
    }
}

// Another S now and then: 0, 1, one more, and far more than a chip has.
fn some_slots(log: &PlainLog, x: u64) -> u64 {
    match x / 2048 % 200 {
        0 => 0,
        1 => 1,
        2 => log.slots.saturating_add(1),
        3 => 5000,
        _ => log.slots,
    }
}

fn search(sheet: &[Lift], log: &PlainLog, x: u64) -> Drawn {
    let y = crate::next(x);
    let z = crate::next(y);
    let query = with_loads(sheet, log, window(sheet, log, x), y);
    let call = Call::Search {
        query: spoilt(query, z),
        area: some_area(z / 4096),
    };
    Drawn {
        slots: some_slots(log, y),
        call,
    }
}

fn tally(sheet: &[Lift], log: &PlainLog, x: u64) -> Drawn {
    let y = crate::next(x);
    let z = crate::next(y);
    let call = Call::Tally {
        query: spoilt(window(sheet, log, x), z),
    };
    Drawn {
        slots: some_slots(log, y),
        call,
    }
}

// One close in so many calls.
fn calls_per_close(list: List) -> u64
    ensures { 0 < result }
{
    if list.second { 40 } else { 2000 }
}

pub fn pick(sheet: &[Lift], log: &PlainLog, list: List, x: u64) -> Drawn {
    let often = calls_per_close(list);
    let y = crate::next(x);
    let slots = some_slots(log, x);
    if y / 16 % often == 0 {
        return Drawn {
            slots,
            call: Call::Close,
        };
    }
    if y / 32 % often == 1 {
        return Drawn {
            slots,
            call: Call::Drop,
        };
    }
    match x / 64 % 100 {
        0..24 => search(sheet, log, y),
        24..28 => tally(sheet, log, y),
        _ => append(log, list, y),
    }
}
