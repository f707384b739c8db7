// What is counted over lists of calls. A count stops at the largest number.
ghost use Rattle.std.specs.Prelude.{◌≡◌, MatchResult};

use dice::calls::Call;
use plain_list::{Ground, PlainLog};
use std::array;
use std::ops::Add;

// Numbers of grounds, from 0 to 12.
pub const GROUNDS: usize = 13;

#[derive(Clone, Copy, Debug, Default, PartialEq, Eq)]
pub struct Counts {
    pub calls: u64,
    pub appends: u64,
    pub closes: u64,
    pub drops: u64,
    pub searches: u64,
    // The rows that searches found.
    pub rows: u64,
    pub tallies: u64,
    pub refused: u64,
    // Closes by an append: at 320 lifts, and for want of bucket 36.
    pub full: u64,
    pub tree_full: u64,
    pub forced_drops: u64,
    // Lifts at the time of the one before.
    pub repeated: u64,
    pub differences: u64,
    // The refused calls, by the number of their ground.
    pub refused_by: [u64; GROUNDS],
}

impl Add for Counts {
    type Output = Counts;

    fn add(self, other: Counts) -> Counts {
        Counts {
            calls: self.calls.saturating_add(other.calls),
            appends: self.appends.saturating_add(other.appends),
            closes: self.closes.saturating_add(other.closes),
            drops: self.drops.saturating_add(other.drops),
            searches: self.searches.saturating_add(other.searches),
            rows: self.rows.saturating_add(other.rows),
            tallies: self.tallies.saturating_add(other.tallies),
            refused: self.refused.saturating_add(other.refused),
            full: self.full.saturating_add(other.full),
            tree_full: self.tree_full.saturating_add(other.tree_full),
            forced_drops: self.forced_drops.saturating_add(other.forced_drops),
            repeated: self.repeated.saturating_add(other.repeated),
            differences: self.differences.saturating_add(other.differences),
            refused_by: sums(self.refused_by, other.refused_by),
        }
    }
}

fn sums(a: [u64; GROUNDS], b: [u64; GROUNDS]) -> [u64; GROUNDS] {
    array::from_fn(|i| a[i].saturating_add(b[i]))
}

// What an append closed or dropped first, and whether its time is that of the lift before.
fn of_append(before: &PlainLog, after: &PlainLog) -> Counts
    ensures { result.refused ≡ 0 }
{
    let closed = before.current != after.current;
    let full = before.count == plain_list::LIFTS_PER_SERIAL;
    let repeated = before.next == after.next && before.next_number() != 0;
    Counts {
        appends: 1,
        full: u64::from(closed && full),
        tree_full: u64::from(closed && !full),
        forced_drops: u64::from(before.oldest != after.oldest),
        repeated: u64::from(repeated),
        ..Counts::default()
    }
}

fn of_accepted(call: Call, before: &PlainLog, after: &PlainLog, rows: usize) -> Counts
    ensures { result.refused ≡ 0 }
{
    let none = Counts::default();
    match call {
        Call::Append { .. } => of_append(before, after),
        Call::Close => Counts { closes: 1, ..none },
        Call::Drop => Counts { drops: 1, ..none },
        Call::Search { .. } => Counts {
            searches: 1,
            rows: rows as u64,
            ..none
        },
        Call::Tally { .. } => Counts { tallies: 1, ..none },
    }
}

fn of_refused(ground: Ground) -> Counts
    ensures { result.refused ≡ 1 }
{
    let mut refused_by = [0; GROUNDS];
    refused_by[usize::from(ground.number())] = 1;
    Counts {
        refused: 1,
        refused_by,
        ..Counts::default()
    }
}

// Of one call: the list before and after it, and the rows or the ground of its answer.
pub fn of_call(
    call: Call,
    before: &PlainLog,
    after: &PlainLog,
    answer: Result<usize, Ground>,
    differs: bool,
) -> Counts
    ensures once { result.calls ≡ 1 }
    ensures refused { MatchResult answer (λ _. result.refused ≡ 0) (λ _. result.refused ≡ 1) }
{
    let counts = match answer {
        Ok(rows) => of_accepted(call, before, after, rows),
        Err(ground) => of_refused(ground),
    };
    Counts {
        calls: 1,
        differences: u64::from(differs),
        ..counts
    }
}
