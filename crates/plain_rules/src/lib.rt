// Rules of document 01 on plain numbers, as the plain list of the test programs applies them ("Plates", "Split"): the plate of a load
// and the mid of a range. It shares no code with the store.
#![tactic(auto)]

ghost use Rattle.std.specs.Prelude.{◌≡◌, ◌+◌, ◌*◌, ◌^◌, ◌≤◌, ◌<◌};

// Loads 250 and 10,250 as stored, and the kilograms of a plate: 5.
const PLATE_0_TOP: u64 = 50251;

const PLATE_20_TOP: u64 = 60251;

const PLATE_LOADS: u64 = 500;

const BEYOND_STACK: u64 = 21;
// "fitted values (14A+7D)/182 and (14A+32D)/182"
const FIT_PARTS: u64 = 182;

// "0 up to 250; n for 500n−250 < load ≤ 500n+250", and 21 above 10,250 (W-206), of a load as stored.
pub fn plate_of(code: u64) -> u64
    ensures upper_bound { (result ≤ 21) × ((code ≤ 50251 → result ≡ 0) × (60251 < code → result ≡ 21)) }
    ensures result_bound { 50251 < code → code ≤ 60251 → (500 * result + 49751 < code) × (code ≤ 500 * result + 50251) }
{
    if code <= PLATE_0_TOP {
        0
    } else if code <= PLATE_20_TOP {
        (code - 49752) / PLATE_LOADS
    } else {
        BEYOND_STACK
    }
}

// Of the last 13 loads, raised: A, their sum, and the sum of each times its place from 0, which is D and 6A more.
#[derive(Clone, Copy)]
pub struct Sums {
    pub all: u64,
    pub placed: u64,
    ghost bounded: { (all ≤ 13 * 2 ^ 33) × (placed ≤ 169 * 2 ^ 33) },
}

// l and h, raised.
#[derive(Clone, Copy)]
pub struct Fit {
    pub low: u64,
    pub high: u64,
    ghost bounded: { (low < 2 ^ 40) × (high < 2 ^ 40) },
}

impl Sums {
    // The fitted values: the smaller rounded down, the larger up.
    pub fn fitted(self) -> Fit {
        let p = (7 * self.placed).saturating_sub(28 * self.all);
        let q = (32 * self.placed).saturating_sub(178 * self.all);
        Fit {
            low: p.min(q) / FIT_PARTS,
            high: p.max(q).div_ceil(FIT_PARTS),
        }
    }
}

impl Fit {
    // "Mid is the first that applies, halves rounded down", before it is brought into the range.
    fn rule(self, x: u64, y: u64) -> u64
        requires { (x < 2 ^ 32) × (y < 2 ^ 32) }
    {
        let l = self.low;
        let h = self.high;
        let half = (x + y) / 2;
        if x < l && h < y {
            (l + h) / 2
        } else if l <= x && y <= h {
            half
        } else if l <= x && x < h && h <= y {
            // 2(h−x) > h−l
            if 2 * x < h + l {
                (x + h) / 2
            } else {
                h.max(half)
            }
        } else if x <= l && l < y && y <= h {
            // 2(y−l) > h−l
            if h + l < 2 * y {
                (l + y) / 2
            } else {
                l.min(half)
            }
        } else {
            half
        }
    }

    // "Then it is brought into x+1..y−1; if y=x+1, mid is y"
    pub fn mid(self, x: u32, y: u32) -> u32
        ensures { x < y → (x < result) × (result ≤ y) }
    {
        let lower = u64::from(x);
        let upper = u64::from(y);
        if upper <= lower + 1 {
            return y;
        }
        let mid = self.rule(lower, upper);
        mid.clamp(lower + 1, upper - 1) as u32
    }
}
