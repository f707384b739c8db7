// The grounds of refusal that the paper log has, with their numbers in document 01.
ghost use Rattle.std.specs.Prelude.{◌<◌};

#[derive(Clone, Copy, Debug, PartialEq, Eq)]
pub enum Ground {
    Slots = 1,
    Time = 4,
    Load = 5,
    Ends = 6,
    Earlier = 7,
    Serial = 8,
    Nothing = 9,
    TooSmall = 12,
}

impl Ground {
    pub fn number(self) -> u8
        ensures some { 0 < result }
        ensures last { result < 13 }
    {
        self as u8
    }
}
