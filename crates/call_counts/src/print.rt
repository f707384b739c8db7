// What the program prints. What standard output does not take is lost: the counts go on.
use crate::counts::Counts;
use dice::Loads;
use dice::calls::{Call, Drawn};
use plain_list::Query;
use std::fmt;

// The columns of a line.
impl fmt::Display for Counts {
    fn fmt<W: fmt::Write>(&self, f: &mut fmt::Formatter<W>) -> fmt::Result {
        let columns = [
            self.calls,
            self.appends,
            self.closes,
            self.drops,
            self.searches,
            self.rows,
            self.tallies,
            self.refused,
            self.full,
            self.tree_full,
            self.forced_drops,
            self.repeated,
            self.differences,
        ];
        for n in columns {
            write!(f, "{n:9}")?;
        }
        Ok(())
    }
}

pub fn head(rt: &impl Print) {
    let _ = print!(rt; "S loads         calls  appends   closes    drops searches     rows");
    let _ = println!(rt; "  tallies  refused   by 320    by 36   forced repeated   differ");
}

pub fn line(rt: &impl Print, slots: u64, loads: Loads, counts: &Counts) {
    let name = loads.name();
    let _ = println!(rt; "{slots} {name:9}{counts}");
}

// The counts of all lists, and how many calls each ground refused.
pub fn totals(rt: &impl Print, counts: &Counts) {
    let _ = println!(rt; "all        {counts}");
    for (ground, n) in counts.refused_by.iter().enumerate() {
        if *n != 0 {
            let _ = println!(rt; "refused by ground {ground}{n:9}");
        }
    }
}

fn name(call: Call) -> &'static str {
    match call {
        Call::Append { .. } => "append",
        Call::Close => "close",
        Call::Drop => "drop",
        Call::Search { .. } => "search",
        Call::Tally { .. } => "tally",
    }
}

// The call of a line at which store and list first differ: its S, times and stored loads, then both numbers.
pub fn difference(rt: &impl Print, number: u64, drawn: Drawn, expected: u8, found: u8) {
    let name = name(drawn.call);
    let slots = drawn.slots;
    let Query { t1, t2, k1, k2 } = drawn.call.query();
    let _ = print!(rt; "difference at call {number} {name:9} {slots} {t1} {t2} {k1} {k2}");
    let _ = println!(rt; ", list and store {expected} {found}");
}
