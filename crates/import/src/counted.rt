// The same with kept counts (W-210): each append keeps them.
ghost use Rattle.std.specs.Prelude.{◌≡◌, ◌≤◌, length, drop};
ghost use Rattle.std.proofs.Math.Option.{some};
ghost use Rattle.grounds.specs.Numbers.{number_in};
ghost use Rattle.csv_text.specs.Grammar.{lines_of};
ghost use Rattle.csv_text.specs.Inner.Reading.{told_by};
ghost use Rattle.store.specs.World.{world};
ghost use Rattle.keeping.specs.Keeping.{counted, store};
ghost use Rattle.keeping.specs.Next.{next_state, next_counts};
ghost use Rattle.import.specs.Fold.{import_lines};
ghost use Rattle.import.specs.Call.{ground_kept, append_told_kept, store_of, import_kept};
ghost use Rattle.import.specs.Inner.Lines.{line_kept};
ghost use Rattle.import.specs.Inner.Ends.{imported_by};

use crate::{Imported, pieces};
use csv_text::Line;
use form::Form;
use grounds::Ground;
use keeping::Counted;
use plate::PLATES;
use store::State;

// Grounds 1 to 3, of the state and of the counts.
fn first_grounds(k: Counted, nand: &[u8], nor: &[u8], slots: u64) -> Result<(), Ground>
    ensures { number_in result ≡ ground_kept slots (store (world nand.now nor.now k.state) k.counts) }
{
    let s = k.state;
    let plain = s.ground(Form::New, 0, nand.len(), nor.len(), slots);
    keeping::pieces::with_ground_3(plain, counts::are_broken(k.counts))
}

// What a record tells, appended.
fn append_line(
    k: Counted,
    nand: &mut [u8],
    nor: &mut [u8],
    slots: u64,
    l: Line,
) -> Result<Counted, Ground>
    ensures { counted (number_in result) nand.new nor.new (next_state k.state result)
        (next_counts k.counts result)
        ≡ line_kept slots (store (world nand.old nor.old k.state) k.counts) (some (told_by l)) }
{
    let load = pieces::fitted(l.load);
    let note = pieces::note_of(l.member);
    keeping::append(k.state, k.counts, nand, nor, slots, l.time, load, note)
}

// The lines from a place on, the first of them line 2.
fn import_lines(
    k: Counted,
    nand: &mut [u8],
    nor: &mut [u8],
    slots: u64,
    text: &[u8],
    from: usize,
) -> Imported<Counted>
    requires { (2 ≤ from) × (from ≤ length text.now) }
    ensures { imported_by result.end (store (world nand.new nor.new result.left.state) result.left.counts)
        ≡ import_lines (ground_kept slots) (λ v t. (append_told_kept slots v t).number) (λ v t. store_of (append_told_kept slots v t)) 2
        (lines_of (drop from text.now)) (store (world nand.old nor.old k.state) k.counts) }
{
    let mut kept = k;
    let mut at = from;
    let mut line: u64 = 2;
    while at < text.len() {
        let Some(l) = csv_text::line_at(text, at) else {
            let first = first_grounds(kept, nand, nor, slots);
            return crate::stopped(pieces::bad_record(first), line, kept);
        };
        match append_line(kept, nand, nor, slots, l) {
            Ok(next) => kept = next,
            Err(ground) => return crate::stopped(ground, line, kept),
        }
        at = l.next;
        line += 1;
    }
    Imported {
        left: kept,
        end: Ok(()),
    }
}

pub fn import(
    s: State,
    counts: [u32; PLATES],
    nand: &mut [u8],
    nor: &mut [u8],
    slots: u64,
    text: &[u8],
) -> Imported<Counted>
    ensures { imported_by result.end (store (world nand.new nor.new result.left.state) result.left.counts)
        ≡ import_kept (store (world nand.old nor.old s) counts) slots text.now }
{
    let k = Counted { state: s, counts };
    if let Err(ground) = first_grounds(k, nand, nor, slots) {
        return crate::stopped(ground, 0, k);
    }
    let Some(from) = csv_text::heading_of(text) else {
        return crate::stopped(Ground::Text, 1, k);
    };
    import_lines(k, nand, nor, slots, text, from)
}
