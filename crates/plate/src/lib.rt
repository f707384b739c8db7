// The plate of a load: on a carried stack (W-205) and, for a tally, by the sticker on the frame (document 01, "Plates"; W-204).
#![tactic(auto)]

mod stacks;
mod sticker;

ghost use Rattle.std.specs.Prelude.{◌≡◌, false, ◌&&◌, ◌<◌, ltb, leb};
ghost use Rattle.std.proofs.Math.IntN.{sub_ℕ};
ghost use Rattle.lift.specs.Limits.{load_of, load_shift};
ghost use Rattle.plate.specs.Plate.{plate_of, no_counts};
ghost use Rattle.plate.specs.Carried.{lookup};
ghost use Rattle.plate.specs.Inner.Found.{lookup_of};

use grounds::Ground;
use lift::CODE_OF_ZERO;

pub const PLATES: usize = 22;
// The whole 512s in a load number its plate or the one below it: a band is 500 wide, and in twenty of them 512 falls behind by less
// than half a band. With twenty-one 512s a load is past every end.
const NEAR: u32 = 512;

const PAST_ENDS: u32 = CODE_OF_ZERO + 21 * NEAR;

// Its band has no end.
const BEYOND_STACK: u8 = 21;

// The plate of a load from zero on, by the end that the sticker has near it.
fn plate_by_end(load: u32) -> u8
    requires { load < 10752 }
    ensures { result ≡ plate_of (sub_ℕ load 0) }
{
    let mut plate = load / NEAR;
    let end = sticker::upper_end(plate);
    if end < load {
        plate += 1;
    }
    plate as u8
}

// The plate of a load as stored that is below zero, or past all ends.
fn far_plate(code: u32) -> u8
    requires { (leb load_shift code && ltb code 60753) ≡ false }
    ensures { result ≡ plate_of (load_of code) }
{
    if code < CODE_OF_ZERO { 0 } else { BEYOND_STACK }
}

// The plate of a load as stored.
pub fn plate_of_code(code: u32) -> u8
    ensures { result ≡ plate_of (load_of code) }
{
    let near = (CODE_OF_ZERO <= code) & (code < PAST_ENDS);
    if near {
        plate_by_end(code - CODE_OF_ZERO)
    } else {
        far_plate(code)
    }
}

// The lookup: refused for a load past its limit, and for a place beyond the carried stacks.
pub fn plate_of(place: u64, load: i32) -> Result<u8, Ground>
    ensures { lookup_of result ≡ lookup place load }
{
    if !lift::load_ok(load) {
        return Err(Ground::Load);
    }
    let is_beyond = stacks::CARRIED <= place;
    if is_beyond {
        return Err(Ground::NoStack);
    }
    Ok(stacks::plate_on(place, lift::stored(load)))
}

pub fn no_counts() -> [u64; PLATES]
    ensures { result ≡ no_counts }
{
    [0u64; PLATES]
}
