// Cases on the store at its edges (document 01, "320 and 321 lifts, 13 and 14 equal loads"; W-202), with S = 2 and 3. The cases are a
// script on standard input, which says at its head what its lines mean.
#![tactic(auto)]

mod asks;
mod calls;
mod script;
mod settings;

use case_print::Trial;
use plate::PLATES;
use script::{Command, Item};
use store::State;
use trial_calls::Store;

const NAND_BYTES: usize = 49152;

const NOR_BYTES: usize = 6144;

// Before the script says otherwise.
const SLOTS: u64 = 3;

const SCRIPT_BYTES: usize = 16384;

fn say(rt: &impl Print, store: &Store, t: &Trial, item: Item) {
    match item {
        Item::Nothing => {}
        Item::State => case_print::state(rt, store, t),
        Item::Rows => case_print::rows(rt, t),
        Item::Counts => case_print::counts(rt, t),
        Item::Number => case_print::number(rt, t),
        Item::Found => case_print::found(rt, t),
        Item::Chips => case_print::chips(rt, store),
        Item::LineEnd => case_print::end_line(rt),
    }
}

fn obey(rt: &impl Print, store: &mut Store, t: &mut Trial, command: Command) {
    match command {
        Command::Change(change) => t.answer = calls::changed(store, t.slots, change, t.answer),
        Command::Ask(ask) => asks::asked(store, t, ask),
        Command::Set(setting) => settings::set(store, t, setting),
        Command::Say { text, item } => {
            case_print::text(rt, text);
            say(rt, store, t, item);
        }
    }
}

// The calls are lent the first bytes of each chip; a line does nothing where a chip has fewer.
fn obey_line(
    rt: &impl Print,
    state: State,
    nand: &mut [u8],
    nor: &mut [u8],
    t: &mut Trial,
    line: &[u8],
) -> State {
    if nand.len() < t.nand || nor.len() < t.nor {
        return state;
    }
    let Some(command) = script::read(line) else {
        return state;
    };
    let mut lent = Store {
        state,
        nand: &mut nand[..t.nand],
        nor: &mut nor[..t.nor],
    };
    obey(rt, &mut lent, t, command);
    lent.state
}

fn main(rt: HostRuntime) {
    let mut nand = [0u8; NAND_BYTES];
    let mut nor = [0u8; NOR_BYTES];
    let mut script = [0u8; SCRIPT_BYTES];
    let script = fixed_input::read_full(&mut rt.reader(), &mut script);
    let mut store = Store::new(&mut nand, &mut nor);
    let answer = store.format(SLOTS);
    let mut state = store.state;
    let mut t = Trial {
        slots: SLOTS,
        nand: NAND_BYTES,
        nor: NOR_BYTES,
        answer,
        found: 0,
        area: 0,
        counts: [0; PLATES],
    };
    for line in script.split(|byte| *byte == b'\n') {
        state = obey_line(&rt, state, &mut nand, &mut nor, &mut t, line);
    }
}
