// The store's calls as a test program makes them: loads as stored numbers, a note made from a number, and a search that is lent the
// first bytes of an area. They promise nothing: a test program compares what it gets, and what is proved of a call stands at the
// crate store's.
#![tactic(auto)]

use grounds::Ground;
use plain_list::Query;
use plate::PLATES;
use store::State;

// The stored number of the first load past the upper limit.
const CODE_PAST: u64 = 150002;

// A stored load as a call takes it; one past its limits stays so.
pub fn load_of(code: u64) -> i32 {
    if code <= CODE_PAST {
        lift::load_of(code as u32)
    } else {
        i32::MAX
    }
}

// A store on its chips. A call that is refused leaves the state as it was.
#[derive(Drop)]
pub struct Store<'a> {
    pub state: State,
    pub nand: &'a mut [u8],
    pub nor: &'a mut [u8],
}

// An error is a number, as the answers of the store's calls have it.
fn answered(r: Result<State, Ground>) -> Result<State, u8> {
    r.map_err(|ground| ground.number())
}

// Both chips are lent as they are to the other calls, of which a drop only reads NOR.
fn dropped(state: State, nand: &mut [u8], nor: &mut [u8], slots: u64) -> Result<State, u8> {
    answered(state.drop(nand, nor, slots))
}

impl<'a> Store<'a> {
    // With the state that a format makes; the chips are as they come.
    pub fn new(nand: &'a mut [u8], nor: &'a mut [u8]) -> Store<'a> {
        let state = State::new();
        Store { state, nand, nor }
    }
}

impl Store<'_> {
    pub fn format(&mut self, slots: u64) -> Result<(), u8> {
        self.state = answered(State::format(self.nand, self.nor, slots))?;
        Ok(())
    }

    // The note is that of a number.
    pub fn append(&mut self, slots: u64, time: u64, code: u64, number: u64) -> Result<(), u8> {
        let note = plain_list::note_of(number);
        let load = load_of(code);
        self.state = answered(
            self.state
                .append(self.nand, self.nor, slots, time, load, note),
        )?;
        Ok(())
    }

    pub fn close(&mut self, slots: u64) -> Result<(), u8> {
        self.state = answered(self.state.close(self.nand, self.nor, slots))?;
        Ok(())
    }

    pub fn drop(&mut self, slots: u64) -> Result<(), u8> {
        self.state = dropped(self.state, self.nand, self.nor, slots)?;
        Ok(())
    }

    // How many lifts a search finds that has the area's first bytes as its result area, or all of them where it has no more.
    pub fn search(&self, slots: u64, q: Query, bytes: usize, area: &mut [u8]) -> Result<u64, u8> {
        let room = bytes.min(area.len());
        let k1 = load_of(q.k1);
        let k2 = load_of(q.k2);
        let found = questions::search(
            self.state,
            self.nand,
            self.nor,
            slots,
            q.t1,
            q.t2,
            k1,
            k2,
            &mut area[..room],
        );
        match found {
            Ok(found) => Ok(found.count),
            Err(ground) => Err(ground.number()),
        }
    }

    pub fn tally(&self, slots: u64, t1: u64, t2: u64) -> Result<[u64; PLATES], u8> {
        questions::tally(self.state, self.nand, self.nor, slots, t1, t2).map_err(
            |ground| ground.number(),
        )
    }
}

// The plate of a stored load on the stack at a place.
pub fn plate(place: u64, code: u64) -> Result<u8, u8> {
    plate::plate_of(place, load_of(code)).map_err(|ground| ground.number())
}
