// Where a full bucket is split (document 01, "Tree"): the prediction, the overlap's case, the midpoint rule, the clamp.
// The work is on the load and 3,000,000, so that no number is below 0; a stored load is that less 2,949,999.
#![tactic(auto)]

ghost use Rattle.std.specs.Prelude.{◌≡◌, map, ℕ, ◌+◌, ◌*◌, ◌/◌, ◌<◌, ◌≤◌, min, max, get_or};
ghost use Rattle.std.proofs.Math.IntN.{sub_ℕ};
ghost use Rattle.lift.specs.Limits.{load_of, code_most, loads_kept};
ghost use Rattle.split.specs.Split as Split;
ghost use Rattle.split.specs.Inner.Work.{value_of, Predicts, Small};

use lift::LOADS_KEPT;

// 182 × 3,000,000 less 14 × 13 × 50,001: the offset of 182 fitted values over sums of 13 stored loads.
const FITTED_OFFSET: u64 = 536899818;
// 3,000,000 less 50,001.
const WORK_OFFSET: u64 = 2949999;

#[derive(Clone, Copy)]
struct Predicted {
    l: u64,
    h: u64,
}

// "Mid is the first that applies": the overlap of (x, y] with l..h as a small number, as document 01, "The shape of each place", has it.
fn overlap(x: u64, y: u64, l: u64, h: u64) -> u8
    ensures { result ≡ Split.overlap (value_of x) (value_of y) (value_of l) (value_of h) }
{
    if (x < l) & (h < y) {
        0
    } else if (l <= x) & (y <= h) {
        1
    } else if (l <= x) & ((x < h) & (h <= y)) {
        2
    } else if (x <= l) & ((l < y) & (y <= h)) {
        3
    } else {
        4
    }
}

// Halves are rounded down, and an even offset keeps them so.
fn halfway(a: u64, b: u64) -> u64
    requires { (a ≤ 9000000) × (b ≤ 9000000) }
    ensures { result ≡ (a + b) / 2 }
{
    (a + b) / 2
}

// The midpoint rule of a case; 2(h−x) > h−l where 2x < h+l, and 2(y−l) > h−l where h+l < 2y.
fn rule(case: u8, x: u64, y: u64, l: u64, h: u64) -> u64
    requires { Small x y l h }
    ensures { value_of result ≡ Split.rule «case» (value_of x) (value_of y) (value_of l) (value_of h) }
{
    match case {
        0 => halfway(l, h),
        1 => halfway(x, y),
        2 => {
            if x + x < h + l {
                halfway(x, h)
            } else {
                h.max(halfway(x, y))
            }
        }
        3 => {
            if h + l < y + y {
                halfway(l, y)
            } else {
                l.min(halfway(x, y))
            }
        }
        _ => halfway(x, y),
    }
}

// "Then it is brought into x+1..y−1; if y=x+1, mid is y."
fn bring(m: u64, x: u64, y: u64) -> u64
    requires { (x < y) × (y ≤ 4000000) }
    ensures { value_of result ≡ Split.bring (value_of m) (value_of x) (value_of y) }
{
    if y <= x + 1 {
        y
    } else {
        m.max(x + 1).min(y - 1)
    }
}

fn mid(x: u64, y: u64, l: u64, h: u64) -> u64
    requires small { Small x y l h }
    requires x_lt_y { x < y }
    ensures { value_of result ≡ Split.mid (value_of x) (value_of y) (value_of l) (value_of h) }
{
    bring(rule(overlap(x, y, l, h), x, y, l, h), x, y)
}

// l and h from the sum of 13 stored loads and the sum of each times its place: A = a − 13 × 50,001, D = w − 6a.
fn fit(a: u64, w: u64) -> Predicted
    requires { (a ≤ 1950013) × (w ≤ 23400156) }
    ensures { Predicts (sub_ℕ a 650013) (sub_ℕ w (6 * a)) result.l result.h }
{
    let p = 7 * w + FITTED_OFFSET - 28 * a;
    let q = 32 * w + FITTED_OFFSET - 178 * a;
    Predicted {
        l: p.min(q) / 182,
        h: p.max(q).div_ceil(182),
    }
}

fn predict(loads: [u32; LOADS_KEPT]) -> Predicted
    requires { (k : ℕ) → k < loads_kept → get_or loads k 0 ≤ code_most }
    ensures { Predicts (Split.sum (map load_of loads)) (Split.slope (map load_of loads)) result.l result.h }
{
    let mut a: u64 = 0;
    let mut w: u64 = 0;
    for (i, load) in loads.iter().enumerate() {
        let y = u64::from(*load);
        a += y;
        w += i as u64 * y;
    }
    fit(a, w)
}

// The mid of a full bucket with range (x, y], from the 13 loads before the new one, all as stored.
pub fn mid_of(x: u32, y: u32, loads: [u32; LOADS_KEPT]) -> u32
    requires x_lt_y { (x < y) × (y ≤ code_most) }
    requires by_index { (k : ℕ) → k < loads_kept → get_or loads k 0 ≤ code_most }
    ensures is { result ≡ Split.midpoint x y loads }
    ensures within { (x < result) × (result ≤ y) }
{
    let Predicted { l, h } = predict(loads);
    let m = mid(x as u64 + WORK_OFFSET, y as u64 + WORK_OFFSET, l, h);
    (m - WORK_OFFSET) as u32
}
