// Random numbers, loads of several kinds, and the calls that a test program draws by them (`calls`).
#![tactic(auto)]

ghost use Rattle.std.specs.Prelude.{◌<◌, ◌≤◌};

pub mod calls;

// The kinds of loads.
#[derive(Clone, Copy, Debug, PartialEq, Eq)]
pub enum Loads {
    Equal,
    Rising,
    Falling,
    Clustered,
    Random,
    Negative,
    Edges,
    // Loads that make buckets soonest; the plain list says which.
    Splitting,
}

impl Loads {
    pub const ALL: [Loads; 8] = [
        Loads::Equal,
        Loads::Rising,
        Loads::Falling,
        Loads::Clustered,
        Loads::Random,
        Loads::Negative,
        Loads::Edges,
        Loads::Splitting,
    ];

    pub fn name(self) -> &'static str {
        match self {
            Loads::Equal => "equal",
            Loads::Rising => "rising",
            Loads::Falling => "falling",
            Loads::Clustered => "clustered",
            Loads::Random => "random",
            Loads::Negative => "negative",
            Loads::Edges => "edges",
            Loads::Splitting => "splitting",
        }
    }
}

// A list of calls. There are two for each S and kind of loads, which differ in how often they close and drop.
#[derive(Clone, Copy, Debug, PartialEq, Eq)]
pub struct List {
    pub loads: Loads,
    pub second: bool,
}

// One number from the last: shifts and exclusive ors.
pub fn next(x: u64) -> u64 {
    let a = x ^ (x << 13);
    let b = a ^ (a >> 7);
    b ^ (b << 17)
}

// The number for the next call; a call draws four from its own.
pub fn later(x: u64) -> u64 {
    (0..5).fold(x, |y, _| next(y))
}

impl List {
    // The number that it starts from; never 0, from which none would follow.
    pub fn first_number(self, slots: u64) -> u64
        ensures { 0 < result }
    {
        let a = next(88172645463325252 ^ slots);
        let b = next(a ^ self.loads as u64);
        next(b ^ u64::from(self.second)).max(1)
    }

    // A stored load of its kind. Rising and falling ones go by the time.
    pub fn code(self, time: u64, x: u64) -> u64
        ensures { (1 ≤ result) × (result ≤ 150001) }
    {
        match self.loads {
            // 5 kg, or the lowest load.
            Loads::Equal => if self.second { 1 } else { 50501 },
            Loads::Rising => 1 + time / 40 % 150001,
            Loads::Falling => 150001 - time / 40 % 150001,
            Loads::Clustered => 40001 + x % 5 * 3000 + x / 5 % 20,
            Loads::Random => 1 + x % 150001,
            Loads::Negative => 1 + x % 50000,
            Loads::Edges | Loads::Splitting => edge(x),
        }
    }
}

// Loads at the limits, about zero, and at the ends of plates 0, 19 and 20.
const EDGES: [u64; 12] = [
    1, 2, 150001, 150000, 50001, 50000, 50251, 50252, 59751, 59752, 60251, 60252,
];

fn edge(x: u64) -> u64
    ensures { (1 ≤ result) × (result ≤ 150001) }
{
    EDGES[(x % 12) as usize]
}
