// Loads known within a tolerance (document 02, W-209): the ends of the plain search that has all possible lifts, those between which a lift
// is certain, and the grounds of the window.
#![tactic(auto)]

ghost use Rattle.std.specs.Prelude.{◌≡◌, true, ◌≤◌};
ghost use Rattle.grounds.specs.Numbers.{number_in};
ghost use Rattle.lift.specs.Limits.{load_ok, stored};
ghost use Rattle.tolerance.specs.Tolerance.{low_end, high_end};
ghost use Rattle.tolerance.specs.Grounds.{tolerance_most, tolerance_ground};
ghost use Rattle.tolerance.specs.Inner.Ends.{in_ends, narrowed_ends};

use grounds::Ground;

// "d from 0 to 1,000"
const TOLERANCE_MOST: u64 = 1000;

// Stored loads from low to high.
#[derive(Clone, Copy)]
pub struct Ends {
    pub low: u32,
    pub high: u32,
}

// The grounds of a plain search's window, and 17 before the ranges are compared.
#[tactic(auto, unfolding(crate::specs::Grounds::tolerance_ground))]
pub fn window_ground(t1: u64, t2: u64, k1: i32, k2: i32, d: u64) -> Result<(), Ground>
    ensures { number_in result ≡ tolerance_ground t1 t2 k1 k2 d }
{
    bounds::limits_ground(t1, t2, k1, k2)?;
    let is_too_tolerant = TOLERANCE_MOST < d;
    if is_too_tolerant {
        return Err(Ground::Tolerance);
    }
    bounds::ranges_ground(t1, t2, k1, k2)
}

// The ends widened by d; they stop at the load limits.
pub fn widened(k1: i32, k2: i32, d: u64) -> Ends
    requires { (load_ok k1 ≡ true) × (load_ok k2 ≡ true) × (d ≤ tolerance_most) }
    ensures low { result.low ≡ stored (low_end k1 d) }
    ensures high { result.high ≡ stored (high_end k2 d) }
{
    let by = d as u32;
    Ends {
        low: lift::stored(k1).saturating_sub(by).max(1),
        high: (lift::stored(k2) + by).min(lift::CODE_MAX),
    }
}

// The ends narrowed by d: a load from one to the other is certain.
pub fn narrowed(k1: i32, k2: i32, d: u64) -> Ends
    requires { (load_ok k1 ≡ true) × (load_ok k2 ≡ true) × (d ≤ tolerance_most) }
    ensures { result ≡ narrowed_ends (stored k1) (stored k2) d }
{
    let by = d as u32;
    Ends {
        low: lift::stored(k1) + by,
        high: lift::stored(k2).saturating_sub(by),
    }
}

pub fn is_between(code: u32, e: Ends) -> bool
    ensures { result ≡ in_ends e code }
{
    (e.low <= code) & (code <= e.high)
}
