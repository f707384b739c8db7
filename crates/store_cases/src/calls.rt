// The calls of the script that change the store. A lift's note is made from its time and its place in the segment.
use crate::script::Change;
use plain_list::{Lift, PlainLog};
use trial_calls::Store;

// Milliseconds between the lifts of a run.
const STEP: u64 = 1000;
// Those of one serial, and a few more.
const SHEET_LIFTS: usize = 328;

fn lift(store: &mut Store, slots: u64, time: u64, code: u64) -> Result<(), u8> {
    let number = time.saturating_add(u64::from(store.state.count));
    store.append(slots, time, code, number)
}

// So many lifts, whose stored loads `code` gives; what the store answers to the last, or answered before.
fn run<F: FnMut() -> u64>(
    store: &mut Store,
    slots: u64,
    lifts: u64,
    before: Result<(), u8>,
    mut code: F,
) -> Result<(), u8>
    requires { F.IsAlwaysCallable code }
{
    let mut answer = before;
    for _ in 0..lifts {
        let time = store.state.next.saturating_add(STEP);
        answer = lift(store, slots, time, code());
    }
    answer
}

// Lifts by which buckets come soonest; a plain list says where they are to go.
fn grow(store: &mut Store, slots: u64, lifts: u64, before: Result<(), u8>) -> Result<(), u8> {
    let mut sheet = [Lift::default(); SHEET_LIFTS];
    let mut log = PlainLog::new(slots);
    run(store, slots, lifts, before, || {
        let code = u64::from(log.tree.splitting_code());
        log = log.append(&mut sheet, slots, 0, code).unwrap_or(log);
        code
    })
}

// What the store answers; where no call is made, what it answered before.
pub fn changed(
    store: &mut Store,
    slots: u64,
    change: Change,
    before: Result<(), u8>,
) -> Result<(), u8> {
    match change {
        Change::Format => store.format(slots),
        Change::Append { lifts, code, rise } => {
            let mut next = code;
            run(store, slots, lifts, before, || {
                let code = next;
                next = next.saturating_add(rise);
                code
            })
        }
        Change::Lift { time, code } => lift(store, slots, time, code),
        Change::Grow { lifts } => grow(store, slots, lifts, before),
        Change::Close => store.close(slots),
        Change::Drop => store.drop(slots),
    }
}
