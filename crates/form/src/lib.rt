// The two forms of a store (document 02, W-202): what they differ in is in specs/Forms.
#![tactic(auto)]

ghost use Rattle.std.specs.Prelude.{◌≡◌};
ghost use Rattle.form.specs.Forms.{byte_ten, pointer_width};

#[derive(Clone, Copy, PartialEq, Eq, Debug)]
pub enum Form {
    Old,
    New,
}

impl Form {
    // A pointer in bytes: slot 2, in form 1 serial 4, start time 8.
    pub fn pointer_bytes(self) -> usize
        ensures { result ≡ pointer_width self }
    {
        match self {
            Form::Old => 10,
            Form::New => 14,
        }
    }

    // Byte 10 of a header.
    pub fn byte_ten(self) -> u8
        ensures { result ≡ byte_ten self }
    {
        match self {
            Form::Old => 0,
            Form::New => 1,
        }
    }
}
