// A line of the script: a word, of which the first letter counts, then numbers, or a text that is to be printed.
use plain_list::Query;

// No number of the script has more digits.
const MOST: u64 = 1000000000000000000;

// The calls that change the store; loads are stored numbers.
#[derive(Clone, Copy, Debug, PartialEq, Eq)]
pub enum Change {
    Format,
    Append { lifts: u64, code: u64, rise: u64 },
    Lift { time: u64, code: u64 },
    Grow { lifts: u64 },
    Close,
    Drop,
}

// The calls that only ask.
#[derive(Clone, Copy, Debug, PartialEq, Eq)]
pub enum Ask {
    Query { query: Query, bytes: usize },
    Tally { t1: u64, t2: u64 },
    Plate { place: u64, code: u64 },
}

// A field of the state, which the script calls by its number, from 0 on.
#[derive(Clone, Copy, Debug, PartialEq, Eq)]
pub enum Field {
    Oldest,
    Current,
    Count,
    Buckets,
    Next,
    Start,
    // The serial of the first head.
    HeadSerial,
    // All heads, which go.
    Heads,
}

// What the script sets: S, the bytes lent of each chip, a byte of them, a field of the state.
#[derive(Clone, Copy, Debug, PartialEq, Eq)]
pub enum Setting {
    Slots(u64),
    Extent { nand: usize, nor: usize },
    NandByte { at: usize, value: u8 },
    NorByte { at: usize, value: u8 },
    Field { field: Field, value: u64 },
}

// What is printed after a text.
#[derive(Clone, Copy, Debug, PartialEq, Eq)]
pub enum Item {
    Nothing,
    State,
    Rows,
    Counts,
    Number,
    Found,
    Chips,
    LineEnd,
}

#[derive(Clone, Copy, Debug, PartialEq, Eq)]
pub enum Command<'a> {
    Change(Change),
    Ask(Ask),
    Set(Setting),
    Say { text: &'a [u8], item: Item },
}

fn field_of(number: u64) -> Option<Field> {
    match number {
        0 => Some(Field::Oldest),
        1 => Some(Field::Current),
        2 => Some(Field::Count),
        3 => Some(Field::Buckets),
        4 => Some(Field::Next),
        5 => Some(Field::Start),
        6 => Some(Field::HeadSerial),
        7 => Some(Field::Heads),
        _ => None,
    }
}

impl From<u8> for Item {
    fn from(letter: u8) -> Item {
        match letter {
            b'S' => Item::State,
            b'R' => Item::Rows,
            b'C' => Item::Counts,
            b'N' => Item::Number,
            b'F' => Item::Found,
            b'H' => Item::Chips,
            b'E' => Item::LineEnd,
            _ => Item::Nothing,
        }
    }
}

fn with_digit(value: u64, byte: u8) -> u64 {
    match byte {
        b'0'..=b'9' if value < MOST => value * 10 + u64::from(byte - b'0'),
        _ => value,
    }
}

// The numbers after the word; 0 for one that is not there.
fn numbers(line: &[u8]) -> [u64; 5] {
    let mut numbers = [0u64; 5];
    let words = line.split(|byte| *byte == b' ').skip(1);
    for (n, word) in numbers.iter_mut().zip(words) {
        *n = word.iter().fold(0, |value, byte| with_digit(value, *byte));
    }
    numbers
}

// A line's text begins after its first blank.
fn text(line: &[u8]) -> &[u8] {
    match line.iter().position(|byte| *byte == b' ') {
        Some(blank) => &line[blank + 1..],
        None => &[],
    }
}

// None for a line that says nothing to do.
pub fn read(line: &[u8]) -> Option<Command<'_>> {
    let letter = *line.first()?;
    let [a, b, c, d, e] = numbers(line);
    let command = match letter {
        b'f' => Command::Change(Change::Format),
        b'a' => Command::Change(Change::Append {
            lifts: a,
            code: b,
            rise: c,
        }),
        b'l' => Command::Change(Change::Lift { time: a, code: b }),
        b'g' => Command::Change(Change::Grow { lifts: a }),
        b'c' => Command::Change(Change::Close),
        b'd' => Command::Change(Change::Drop),
        b'q' => Command::Ask(Ask::Query {
            query: Query {
                t1: a,
                t2: b,
                k1: c,
                k2: d,
            },
            bytes: e as usize,
        }),
        b't' => Command::Ask(Ask::Tally { t1: a, t2: b }),
        b'p' => Command::Ask(Ask::Plate { place: a, code: b }),
        b's' => Command::Set(Setting::Slots(a)),
        b'e' => Command::Set(Setting::Extent {
            nand: a as usize,
            nor: b as usize,
        }),
        b'b' => Command::Set(Setting::NandByte {
            at: a as usize,
            value: (b % 256) as u8,
        }),
        b'n' => Command::Set(Setting::NorByte {
            at: a as usize,
            value: (b % 256) as u8,
        }),
        b'v' => Command::Set(Setting::Field {
            field: field_of(a)?,
            value: b,
        }),
        b'A'..=b'Z' => Command::Say {
            text: text(line),
            item: Item::from(letter),
        },
        _ => return None,
    };
    Some(command)
}
