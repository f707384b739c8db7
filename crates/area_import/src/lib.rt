// Import over byte areas (`areas`): each record of a lent text is appended in turn; a bad record or a refused append ends it.
#![tactic(auto)]

pub mod counted;

ghost use Rattle.std.specs.Prelude.{◌≡◌, ◌≤◌, length, drop};
ghost use Rattle.grounds.specs.Numbers.{number_in};
ghost use Rattle.form.specs.declared.Form.TheVariants.{New};
ghost use Rattle.std.proofs.Math.Option.{some};
ghost use Rattle.csv_text.specs.Grammar.{lines_of};
ghost use Rattle.csv_text.specs.Inner.Reading.{told_by};
ghost use Rattle.state_bytes.specs.StateBytes.{area_length};
ghost use Rattle.import.specs.Fold.{import_lines};
ghost use Rattle.import.specs.Inner.Ends.{imported_by};
ghost use Rattle.areas.specs.Areas.{left, lent, lent_ground, append_in, lent_after, import_in};
ghost use Rattle.area_import.specs.Inner.Line.{line_left};

use csv_text::Line;
use grounds::Ground;
use import::{Stop, pieces};

// What a record tells, appended.
fn append_line(
    state: &mut [u8],
    nand: &mut [u8],
    nor: &mut [u8],
    slots: u64,
    l: Line,
) -> Result<(), Ground>
    requires { length state.old ≡ area_length New }
    ensures { left (number_in result) state.new nand.new nor.new
        ≡ line_left slots (lent state.old nand.old nor.old) (some (told_by l)) }
{
    let load = pieces::fitted(l.load);
    let note = pieces::note_of(l.member);
    area_append::append(state, nand, nor, slots, l.time, load, note)
}

// The lines from a place on, the first of them line 2.
fn import_lines(
    state: &mut [u8],
    nand: &mut [u8],
    nor: &mut [u8],
    slots: u64,
    text: &[u8],
    from: usize,
) -> Result<(), Stop>
    requires { (length state.old ≡ area_length New) × (2 ≤ from) × (from ≤ length text.now) }
    ensures { imported_by result (lent state.new nand.new nor.new)
        ≡ import_lines (lent_ground slots) (λ v t. (append_in slots v t).number) (lent_after slots) 2
        (lines_of (drop from text.now)) (lent state.old nand.old nor.old) }
{
    let mut at = from;
    let mut line: u64 = 2;
    while at < text.len() {
        let Some(l) = csv_text::line_at(text, at) else {
            let first = area_reads::ground(state, nand.len(), nor.len(), slots);
            let ground = pieces::bad_record(first);
            return Err(Stop { ground, line });
        };
        if let Err(ground) = append_line(state, nand, nor, slots, l) {
            return Err(Stop { ground, line });
        }
        at = l.next;
        line += 1;
    }
    Ok(())
}

// The import, of a state in an area of its length.
pub fn import(
    state: &mut [u8],
    nand: &mut [u8],
    nor: &mut [u8],
    slots: u64,
    text: &[u8],
) -> Result<(), Stop>
    requires { length state.old ≡ area_length New }
    ensures { imported_by result (lent state.new nand.new nor.new)
        ≡ import_in (lent state.old nand.old nor.old) slots text.now }
{
    if let Err(ground) = area_reads::ground(state, nand.len(), nor.len(), slots) {
        return Err(Stop { ground, line: 0 });
    }
    let Some(from) = csv_text::heading_of(text) else {
        return Err(Stop {
            ground: Ground::Text,
            line: 1,
        });
    };
    import_lines(state, nand, nor, slots, text, from)
}
