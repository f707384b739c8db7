// The lines of `slotlist` (document 01, "Program"): a line, read by its form.
#![tactic(auto)]

ghost use Rattle.std.specs.Prelude.{◌≡◌, cond, Some, None, unwrap_or, ◌+◌, ◌^◌, ◌≤◌, ◌<◌, eqb, length};
ghost use Rattle.codec.specs.Area.{part};
ghost use Rattle.lines.specs.Columns as Columns;
ghost use Rattle.lines.specs.Columns.{field_in, value_of};
ghost use Rattle.lines.specs.declared.Line.TheVariants.{Other};
ghost use Rattle.lines.specs.Forms as Forms;
ghost use Rattle.lines.specs.Forms.{time_field};
ghost use Rattle.lines.specs.Inner.Read.{window_in};

pub const MINUS: u8 = b'-';

pub const SPACE: u8 = b' ';

pub const ZERO: u8 = b'0';

pub const NINE: u8 = b'9';
// The byte that ends a line.
pub const LINE_FEED: u8 = b'\n';
// "times in 15 columns and loads in 8"
pub const TIME_COLUMNS: usize = 15;

pub const LOAD_COLUMNS: usize = 8;

// A line, by its form.
#[derive(Clone, Copy)]
pub enum Line {
    Append(u64, i32),
    Close,
    Drop,
    Search(u64, u64, i32, i32),
    Tally(u64, u64),
    Page(u64, u64),
    Other,
}

// A field as far as it is read: "spaces, a minus for a load below zero, then digits".
#[derive(Clone, Copy)]
pub enum Field {
    Spaces,
    Minus,
    // Whether a minus stands before the digits, and their number.
    Digits(bool, u64),
    Broken,
}

impl Field {
    fn with_digit(self, d: u64) -> Field
        requires { (value_of self < 10 ^ 18) × (d < 10) }
        ensures { result ≡ Columns.with_digit self d }
    {
        match self {
            Field::Spaces => Field::Digits(false, d),
            Field::Minus => Field::Digits(true, d),
            Field::Digits(minus, v) => Field::Digits(minus, v * 10 + d),
            Field::Broken => Field::Broken,
        }
    }

    fn with_space(self) -> Field
        ensures { result ≡ Columns.with_space self }
    {
        match self {
            Field::Spaces => Field::Spaces,
            _ => Field::Broken,
        }
    }

    fn with_minus(self) -> Field
        ensures { result ≡ Columns.with_minus self }
    {
        match self {
            Field::Spaces => Field::Minus,
            _ => Field::Broken,
        }
    }

    // One column more.
    #[tactic(auto, unfolding(crate::specs::Columns::read_on))]
    fn read_on(self, b: u8) -> Field
        requires { value_of self < 10 ^ 18 }
        ensures { result ≡ Columns.read_on self b }
    {
        match b {
            ZERO..=NINE => self.with_digit((b - ZERO) as u64),
            SPACE => self.with_space(),
            MINUS => self.with_minus(),
            _ => Field::Broken,
        }
    }

    // The time that it says: digits with no minus.
    pub fn time(self) -> Option<u64>
        ensures { result ≡ cond (Columns.is_time self) (Some (value_of self)) None }
    {
        match self {
            Field::Digits(false, v) => Some(v),
            _ => None,
        }
    }

    // The load that it says: a minus stands only before a number other than 0.
    fn load(self) -> Option<i32>
        requires { value_of self < 10 ^ 8 }
        ensures { result ≡ cond (Columns.is_load self) (Some (Columns.load_in self)) None }
    {
        match self {
            Field::Digits(false, v) => Some(v as i32),
            Field::Digits(true, v) if v != 0 => Some(-(v as i32)),
            _ => None,
        }
    }
}

// The field in `width` columns from `at`.
pub fn field_at(s: &[u8], at: usize, width: usize) -> Field
    requires { (at + width ≤ length s.now) × (width ≤ 18) }
    ensures { (result ≡ field_in (part s.now at width)) × (value_of result < 10 ^ width) }
{
    let mut f = Field::Spaces;
    for b in &s[at..at + width] {
        f = f.read_on(*b);
    }
    f
}

#[tactic(auto, unfolding(crate::specs::Forms::append_line))]
fn append_line(s: &[u8]) -> Option<Line>
    requires { length s.now ≡ 24 }
    ensures { unwrap_or result Other ≡ Forms.append_line s.now }
{
    let time = field_at(s, 1, TIME_COLUMNS).time()?;
    let load = field_at(s, 16, LOAD_COLUMNS).load()?;
    Some(Line::Append(time, load))
}

// The two times of a window, after a line's letter.
fn window(s: &[u8]) -> Option<(u64, u64)>
    requires { 31 ≤ length s.now }
    ensures { result ≡ window_in (time_field s.now 1) (time_field s.now 16) }
{
    let t1 = field_at(s, 1, TIME_COLUMNS).time()?;
    let t2 = field_at(s, 16, TIME_COLUMNS).time()?;
    Some((t1, t2))
}

#[tactic(auto, unfolding(crate::specs::Forms::search_line))]
fn search_line(s: &[u8]) -> Option<Line>
    requires { length s.now ≡ 47 }
    ensures { unwrap_or result Other ≡ Forms.search_line s.now }
{
    let (t1, t2) = window(s)?;
    let k1 = field_at(s, 31, LOAD_COLUMNS).load()?;
    let k2 = field_at(s, 39, LOAD_COLUMNS).load()?;
    Some(Line::Search(t1, t2, k1, k2))
}

// The line, if it is of a form.
#[tactic(auto, unfolding(crate::specs::Forms::line_of, crate::specs::Forms::has_form, crate::specs::Forms::window_line))]
fn in_form(s: &[u8]) -> Option<Line>
    ensures { unwrap_or result Other ≡ Forms.line_of s.now }
{
    match (*s.first()?, s.len()) {
        (b'A', 24) => append_line(s),
        (b'C', 1) => Some(Line::Close),
        (b'G', 1) => Some(Line::Drop),
        (b'Q', 47) => search_line(s),
        (b'T', 31) => window(s).map(|(t1, t2)| Line::Tally(t1, t2)),
        (b'P', 31) => window(s).map(|(t1, t2)| Line::Page(t1, t2)),
        _ => None,
    }
}

// A line without its line feed. `Other` stays, and not an Option: `line_of` and the theorems of `desk` name it.
pub fn parse(s: &[u8]) -> Line
    ensures { result ≡ Forms.line_of s.now }
{
    in_form(s).unwrap_or(Line::Other)
}

pub fn ends_line(b: u8) -> bool
    ensures { result ≡ eqb b Forms.line_feed }
{
    b == LINE_FEED
}
