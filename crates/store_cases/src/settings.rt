// What the script sets: S, the bytes lent of each chip, a byte of them, a field of the state.
use crate::script::{Field, Setting};
use case_print::Trial;
use skiplist::Pointer;
use store::State;
use trial_calls::Store;

fn put(s: &mut [u8], at: usize, value: u8) {
    if at < s.len() {
        s[at] = value;
    }
}

fn cut(value: u64) -> u32 {
    (value % 4294967296) as u32
}

fn with_head(s: State, serial: u32) -> State {
    let mut heads = s.heads;
    let head = heads[0];
    heads[0] = Pointer::new(head.slot, serial, head.time);
    State { heads, ..s }
}

fn with_field(s: State, field: Field, value: u64) -> State {
    match field {
        Field::Oldest => State {
            oldest: cut(value),
            ..s
        },
        Field::Current => State {
            current: cut(value),
            ..s
        },
        Field::Count => State {
            count: (value % 65536) as u16,
            ..s
        },
        Field::Buckets => State {
            buckets: (value % 256) as u8,
            ..s
        },
        Field::Next => State { next: value, ..s },
        Field::Start => State { start: value, ..s },
        Field::HeadSerial => with_head(s, cut(value)),
        Field::Heads => State {
            heads: skiplist::no_heads(),
            ..s
        },
    }
}

pub fn set(store: &mut Store, t: &mut Trial, setting: Setting) {
    match setting {
        Setting::Slots(slots) => t.slots = slots,
        Setting::Extent { nand, nor } => {
            t.nand = nand;
            t.nor = nor;
        }
        Setting::NandByte { at, value } => put(store.nand, at, value),
        Setting::NorByte { at, value } => put(store.nor, at, value),
        Setting::Field { field, value } => store.state = with_field(store.state, field, value),
    }
}
