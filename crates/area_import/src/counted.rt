// The same with kept counts (W-210): each append keeps them.
ghost use Rattle.std.specs.Prelude.{◌≡◌, ◌≤◌, length, drop};
ghost use Rattle.grounds.specs.Numbers.{number_in};
ghost use Rattle.form.specs.declared.Form.TheVariants.{New};
ghost use Rattle.std.proofs.Math.Option.{some};
ghost use Rattle.csv_text.specs.Grammar.{lines_of};
ghost use Rattle.csv_text.specs.Inner.Reading.{told_by};
ghost use Rattle.counts.specs.CountsBytes.{counts_length};
ghost use Rattle.state_bytes.specs.StateBytes.{area_length};
ghost use Rattle.import.specs.Fold.{import_lines};
ghost use Rattle.import.specs.Inner.Ends.{imported_by};
ghost use Rattle.areas.specs.Areas.{left_kept, lent_kept, kept_ground, append_kept_in, kept_after, import_kept_in};
ghost use Rattle.area_import.specs.Inner.Line.{line_left_kept};

use csv_text::Line;
use grounds::Ground;
use import::{Stop, pieces};

// Grounds 1 to 3, of the state and of the counts.
fn first_grounds(
    state: &[u8],
    counts: &[u8],
    nand: &[u8],
    nor: &[u8],
    slots: u64,
) -> Result<(), Ground>
    requires { (length state.now ≡ area_length New) × (length counts.now ≡ counts_length) }
    ensures { number_in result ≡ kept_ground slots (lent_kept state.now counts.now nand.now nor.now) }
{
    let plain = area_reads::ground(state, nand.len(), nor.len(), slots);
    let c = counts::area::get_counts(counts);
    keeping::pieces::with_ground_3(plain, counts::are_broken(c))
}

// What a record tells, appended.
fn append_line(
    state: &mut [u8],
    counts: &mut [u8],
    nand: &mut [u8],
    nor: &mut [u8],
    slots: u64,
    l: Line,
) -> Result<(), Ground>
    requires { (length state.old ≡ area_length New) × (length counts.old ≡ counts_length) }
    ensures { left_kept (number_in result) state.new counts.new nand.new nor.new
        ≡ line_left_kept slots (lent_kept state.old counts.old nand.old nor.old) (some (told_by l)) }
{
    let load = pieces::fitted(l.load);
    let note = pieces::note_of(l.member);
    area_append::counted::append(state, counts, nand, nor, slots, l.time, load, &note)
}

// The lines from a place on, the first of them line 2.
fn import_lines(
    state: &mut [u8],
    counts: &mut [u8],
    nand: &mut [u8],
    nor: &mut [u8],
    slots: u64,
    text: &[u8],
    from: usize,
) -> Result<(), Stop>
    requires { (length state.old ≡ area_length New) × (length counts.old ≡ counts_length) × (2 ≤ from) × (from ≤ length text.now) }
    ensures { imported_by result (lent_kept state.new counts.new nand.new nor.new)
        ≡ import_lines (kept_ground slots) (λ v t. (append_kept_in slots v t).number) (kept_after slots) 2
        (lines_of (drop from text.now))
        (lent_kept state.old counts.old nand.old nor.old) }
{
    let mut at = from;
    let mut line: u64 = 2;
    while at < text.len() {
        let Some(l) = csv_text::line_at(text, at) else {
            let first = first_grounds(state, counts, nand, nor, slots);
            let ground = pieces::bad_record(first);
            return Err(Stop { ground, line });
        };
        if let Err(ground) = append_line(state, counts, nand, nor, slots, l) {
            return Err(Stop { ground, line });
        }
        at = l.next;
        line += 1;
    }
    Ok(())
}

// The import that keeps counts, of a state and counts in areas of their lengths.
pub fn import(
    state: &mut [u8],
    counts: &mut [u8],
    nand: &mut [u8],
    nor: &mut [u8],
    slots: u64,
    text: &[u8],
) -> Result<(), Stop>
    requires { (length state.old ≡ area_length New) × (length counts.old ≡ counts_length) }
    ensures { imported_by result (lent_kept state.new counts.new nand.new nor.new)
        ≡ import_kept_in (lent_kept state.old counts.old nand.old nor.old) slots
        text.now }
{
    if let Err(ground) = first_grounds(state, counts, nand, nor, slots) {
        return Err(Stop { ground, line: 0 });
    }
    let Some(from) = csv_text::heading_of(text) else {
        return Err(Stop {
            ground: Ground::Text,
            line: 1,
        });
    };
    import_lines(state, counts, nand, nor, slots, text, from)
}
