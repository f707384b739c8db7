// What a line of an import needs, by value and over areas alike: its load and its note as an append takes them, and the number of a bad record.
ghost use Rattle.std.specs.Prelude.{◌≡◌, true, false, cond, eqb};
ghost use Rattle.grounds.specs.Numbers.{number_of, number_in};
ghost use Rattle.lift.specs.Limits.{load_ok};
ghost use Rattle.import.specs.Call.{note_of};

use grounds::Ground;
use lift::NOTE_BYTES;

// The limits of a load, as wide as a record's digits can say it.
const LEAST: i64 = lift::LOAD_MIN as i64;

const MOST: i64 = lift::LOAD_MAX as i64;

// The load, or another past its limits where it is past them.
pub fn fitted(load: i64) -> i32
    ensures { (load_ok load ≡ true → result ≡ load) × (load_ok load ≡ false → load_ok result ≡ false) }
{
    if !((LEAST <= load) & (load <= MOST)) {
        return lift::LOAD_MAX + 1;
    }
    load as i32
}

// The note of a lift by this member.
pub fn note_of(member: u32) -> [u8; NOTE_BYTES]
    ensures { result ≡ note_of member }
{
    let mut note = [0u8; NOTE_BYTES];
    codec::put_u32(&mut note, 0, member);
    note
}

// The ground of a bad record: grounds 1 to 3 come first.
pub fn bad_record(first: Result<(), Ground>) -> Ground
    ensures { number_of result ≡ cond (eqb (number_in first) 0) 18 (number_in first) }
{
    match first {
        Ok(()) => Ground::Text,
        Err(g) => g,
    }
}
