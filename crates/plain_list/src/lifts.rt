// The lifts of the list, by serial and then by arrival. They stand on a lent sheet, as the test programs have no heap: a lift past its
// end reads as nothing but zeros and is not written, so a sheet that is too small shows as a difference.
ghost use Rattle.std.specs.Prelude.{◌≡◌, ◌*◌, ◌^◌, ◌<◌, ◌≤◌, ◌↔◌, length, IsTrue, slice_index_or};

use crate::plain_tree;
use plain_rules::Sums;

// "the prediction is from the last 13 loads"
const LAST_LOADS: usize = 13;

// The load as stored.
#[derive(Clone, Copy, Debug, Default, PartialEq, Eq)]
pub struct Lift {
    pub time: u64,
    pub code: u32,
    pub serial: u32,
}

// t1 ≤ time ≤ t2 and k1 ≤ load ≤ k2, loads as stored.
#[derive(Clone, Copy, Debug, PartialEq, Eq)]
pub struct Query {
    pub t1: u64,
    pub t2: u64,
    pub k1: u64,
    pub k2: u64,
}

impl Query {
    pub fn finds(self, lift: Lift) -> bool
        ensures { IsTrue result ↔ ((self.t1 ≤ lift.time) × (lift.time ≤ self.t2) × (self.k1 ≤ lift.code) × (lift.code ≤ self.k2)) }
    {
        let code = u64::from(lift.code);
        (self.t1..=self.t2).contains(&lift.time) && (self.k1..=self.k2).contains(&code)
    }
}

pub fn lift_at(sheet: &[Lift], place: usize) -> Lift
    ensures on { place < length sheet.now → result ≡ slice_index_or sheet.now place result }
    ensures past { length sheet.now ≤ place → (result.time ≡ 0) × (result.code ≡ 0) × (result.serial ≡ 0) }
{
    sheet.get(place).copied().unwrap_or_default()
}

pub fn put(sheet: &mut [Lift], place: usize, lift: Lift) {
    if place < sheet.len() {
        sheet[place] = lift;
    }
}

// The lifts from place `from` to `lifts` go to the sheet's start.
pub fn move_down(sheet: &mut [Lift], from: usize, lifts: usize) {
    for place in from..lifts {
        put(sheet, place - from, lift_at(sheet, place));
    }
}

// A load's part in the sums: 0 where the list has no such lift.
fn load_back(sheet: &[Lift], lifts: usize, back: usize) -> u32 {
    match lifts.checked_sub(back) {
        Some(place) => plain_tree::raised(lift_at(sheet, place).code),
        None => 0,
    }
}

// From the last load to the first: what is summed so far counts once more for each place before it.
pub fn last_sums(sheet: &[Lift], lifts: usize) -> Sums {
    let mut all: u64 = 0;
    let mut placed: u64 = 0;
    for back in 0..LAST_LOADS {
        placed += all;
        all += u64::from(load_back(sheet, lifts, back + 1));
    }
    Sums { all, placed }
}
