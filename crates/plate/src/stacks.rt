// The stacks that are carried, by their place in the list (W-205): up to which load the band of each plate goes, as `plate_ends` prints
// it, plate 0 first, in units of 10 g. The band beyond the stack has no end.
ghost use Rattle.std.specs.Prelude.{◌≡◌, ◌≤◌, ◌<◌, [], leb, length, get_or, position};
ghost use Rattle.std.proofs.Math.IntN.{sub_ℕ};
ghost use Rattle.lift.specs.Limits.{load_of};
ghost use Rattle.plate.specs.Stack.{ends_of, plate_by, plate_on};
ghost use Rattle.plate.specs.Carried.{carried};

use lift::CODE_OF_ZERO;

// Place 0: the sticker on the frame (W-204), and the last end (W-206).
pub const TWENTY_OF_500: [u32; 21] = [
    250, 750, 1250, 1750, 2250, 2750, 3250, 3750, 4250, 4750, 5250, 5750, 6250, 6750, 7250, 7750,
    8250, 8750, 9250, 9750, 10250,
];

// Place 1.
pub const FOUR_OF_250_OVER_16_OF_500: [u32; 21] = [
    125, 375, 625, 875, 1250, 1750, 2250, 2750, 3250, 3750, 4250, 4750, 5250, 5750, 6250, 6750,
    7250, 7750, 8250, 8750, 9250,
];

// The tables in the order of the list.
static TABLES: [&[u32]; 2] = [&TWENTY_OF_500, &FOUR_OF_250_OVER_16_OF_500];

// How many stacks are carried.
pub const CARRIED: u64 = 2;

// The first end that a load is not past.
fn first_end(ends: &[u32], load: u32) -> Option<usize>
    ensures { result ≡ position (λ end. leb load end) ends.now }
{
    ends.iter().position(|end| load <= *end)
}

// The plate by the ends of a stack's bands, of a load from zero on.
fn plate_by(ends: &[u32], load: u32) -> u8
    requires { length ends.now ≤ 25 }
    ensures { result ≡ plate_by ends.now (sub_ℕ load 0) }
{
    first_end(ends, load).unwrap_or(ends.len()) as u8
}

// Each table is the rule's.
fn ends_at(place: usize) -> &'static [u32]
    requires { place < length carried }
    ensures { result.now ≡ ends_of (get_or carried place []) }
{
    TABLES[place]
}

// The plate of a load as stored, on the stack at a place. No end lies below zero, so that a load there counts as zero.
pub fn plate_on(place: u64, code: u32) -> u8
    requires { place < length carried }
    ensures { result ≡ plate_on (get_or carried place []) (load_of code) }
{
    plate_by(ends_at(place as usize), code.saturating_sub(CODE_OF_ZERO))
}
