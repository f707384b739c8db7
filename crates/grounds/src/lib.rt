// Why a call is refused: the grounds of documents 01 and 02, in the order of their numbers (docs/NUMBERS.md).
#![tactic(auto)]

ghost use Rattle.std.specs.Prelude.{◌≡◌, ◌<◌};
ghost use Rattle.grounds.specs.Numbers.{number_of, number_in};

use std::fmt;

#[derive(Clone, Copy, Debug, PartialEq, Eq, PartialOrd, Ord)]
pub enum Ground {
    // "1. S is outside 2 to 4,096, or NAND length is not S slots."
    DataChip = 1,
    // "2. NOR length is not 6,144."
    IndexChip = 2,
    // "3. The state breaks a bound."
    State = 3,
    // "4. A time is past its limit."
    Time = 4,
    // "5. A load is past its limit."
    Load = 5,
    // "6. A range runs backwards."
    Backwards = 6,
    // "7. An appended time is below next time."
    Earlier = 7,
    // "8. An append finds open serial 999,999,998 or more."
    LastSerial = 8,
    // 9: no open lift to close, no closed segment to drop
    NothingThere = 9,
    // "10. Damage is met."
    Damage = 10,
    // 11: a page that is due to be written is not erased
    NotErased = 11,
    // "12. The lifts found outnumber the whole 32-byte rows of the result area."
    ManyRows = 12,
    // "13: a retained closed segment's header has the other form's byte 10"
    OtherForm = 13,
    // 14: the log cannot go back to form 0
    NoWayBack = 14,
    // 15: no stack of plates is carried at the place named
    NoStack = 15,
    // "16: the pairs outnumber the whole 64-byte rows of their area"
    ManyPairs = 16,
    // "17: d above 1,000, before the ranges are compared"
    Tolerance = 17,
    // 18: the header or a record of a text is against the form of a file
    Text = 18,
    // 20: an area has another length than the interface says
    AreaLength = 20,
}

impl Ground {
    // The number that a call for C answers with.
    pub fn number(self) -> u8
        ensures is { result ≡ number_of self }
        ensures some { 0 < result }
    {
        self as u8
    }
}

impl From<Ground> for u8 {
    ghost from_gives = { λ g n. n ≡ number_of g };

    fn from(ground: Ground) -> u8 {
        ground.number()
    }
}

// As docs/NUMBERS.md says it.
impl fmt::Display for Ground {
    fn fmt<W: fmt::Write>(&self, f: &mut fmt::Formatter<W>) -> fmt::Result {
        match self {
            Ground::DataChip => write!(f, "slots not from 2 to 4,096, or not the data chip's"),
            Ground::IndexChip => write!(f, "the index chip has not 6,144 bytes"),
            Ground::State => write!(f, "the state breaks a rule of its own"),
            Ground::Time => write!(f, "a time is past its limit"),
            Ground::Load => write!(f, "a load is past its limits"),
            Ground::Backwards => write!(f, "a range runs backwards"),
            Ground::Earlier => write!(f, "the lift is earlier than the last one"),
            Ground::LastSerial => write!(f, "no more segments can be numbered"),
            Ground::NothingThere => write!(f, "nothing to close, or no closed segment to drop"),
            Ground::Damage => write!(f, "damage: what the chips hold contradicts itself"),
            Ground::NotErased => write!(f, "a page that is due to be written is not erased"),
            Ground::ManyRows => write!(f, "more lifts were found than the area has room for"),
            Ground::OtherForm => write!(f, "the log is of the other form already"),
            Ground::NoWayBack => write!(f, "the log cannot go back to form 0"),
            Ground::NoStack => write!(f, "no stack of plates is carried at that place"),
            Ground::ManyPairs => write!(f, "there are more pairs than the area has room for"),
            Ground::Tolerance => write!(f, "the tolerance is above 1,000 units"),
            Ground::Text => write!(f, "a line of the text is against the form of a file"),
            Ground::AreaLength => write!(f, "an area has another length than the interface says"),
        }
    }
}

// A call's number: 0 where it is done, else its ground's.
pub fn number_in<T>(r: &Result<T, Ground>) -> u8
    ensures { result ≡ number_in r.now }
{
    match r {
        Ok(_) => 0,
        Err(g) => g.number(),
    }
}
