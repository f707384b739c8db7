// Comma-separated import (document 02, W-211): each record of a lent text is appended in turn; a bad record or a refused append ends it.
#![tactic(auto)]

pub mod counted;
pub mod pieces;

ghost use Rattle.std.specs.Prelude.{◌≡◌, ◌≤◌, length, drop};
ghost use Rattle.std.proofs.Math.Option.{some};
ghost use Rattle.std.specs.declared.result.Result.TheVariants.{Err};
ghost use Rattle.grounds.specs.Numbers.{number_in};
ghost use Rattle.csv_text.specs.Grammar.{lines_of};
ghost use Rattle.csv_text.specs.Inner.Reading.{told_by};
ghost use Rattle.store.specs.World.{world};
ghost use Rattle.store.specs.Calls.{returned, next_state, state_ground};
ghost use Rattle.import.specs.Fold.{import_lines};
ghost use Rattle.import.specs.Call.{append_told, import_outcome};
ghost use Rattle.import.specs.Inner.Lines.{line_outcome};
ghost use Rattle.import.specs.Inner.Ends.{imported_by};

use csv_text::Line;
use form::Form;
use grounds::Ground;
use store::State;

// What ends an import before its end: the ground of a record or an append, and its line. The header is line 1; a ground of the whole has
// line 0.
#[derive(Clone, Copy)]
pub struct Stop {
    pub ground: Ground,
    pub line: u64,
}

// What is left of a store, with what was appended, and what ended the import.
#[derive(Clone, Copy)]
pub struct Imported<S> {
    pub left: S,
    pub end: Result<(), Stop>,
}

fn stopped<S>(ground: Ground, line: u64, left: S) -> Imported<S>
    ensures { result ≡ record { left = left; end = Err (record { ground = ground; line = line }) } }
{
    let stop = Stop { ground, line };
    Imported {
        left,
        end: Err(stop),
    }
}

// What a record tells, appended.
fn append_line(
    s: State,
    nand: &mut [u8],
    nor: &mut [u8],
    slots: u64,
    l: Line,
) -> Result<State, Ground>
    ensures { returned (number_in result) nand.new nor.new (next_state s result)
        ≡ line_outcome slots (world nand.old nor.old s) (some (told_by l)) }
{
    let load = pieces::fitted(l.load);
    let note = pieces::note_of(l.member);
    s.append(nand, nor, slots, l.time, load, note)
}

// The lines from a place on, the first of them line 2.
fn import_lines(
    s: State,
    nand: &mut [u8],
    nor: &mut [u8],
    slots: u64,
    text: &[u8],
    from: usize,
) -> Imported<State>
    requires { (2 ≤ from) × (from ≤ length text.now) }
    ensures { imported_by result.end (world nand.new nor.new result.left)
        ≡ import_lines (λ v. state_ground v slots 0) (λ v t. (append_told slots v t).number) (λ v t. (append_told slots v t).world) 2
        (lines_of (drop from text.now)) (world nand.old nor.old s) }
{
    let mut state = s;
    let mut at = from;
    let mut line: u64 = 2;
    while at < text.len() {
        let Some(l) = csv_text::line_at(text, at) else {
            let first = state.ground(Form::New, 0, nand.len(), nor.len(), slots);
            return stopped(pieces::bad_record(first), line, state);
        };
        match append_line(state, nand, nor, slots, l) {
            Ok(next) => state = next,
            Err(ground) => {
                let is_refused = ground.number() != 0;
                if is_refused {
                    return stopped(ground, line, state);
                }
            }
        }
        at = l.next;
        line += 1;
    }
    Imported {
        left: state,
        end: Ok(()),
    }
}

pub fn import(s: State, nand: &mut [u8], nor: &mut [u8], slots: u64, text: &[u8]) -> Imported<State>
    ensures { imported_by result.end (world nand.new nor.new result.left)
        ≡ import_outcome (world nand.old nor.old s) slots text.now }
{
    if let Err(ground) = s.ground(Form::New, 0, nand.len(), nor.len(), slots) {
        return stopped(ground, 0, s);
    }
    let Some(from) = csv_text::heading_of(text) else {
        return stopped(Ground::Text, 1, s);
    };
    import_lines(s, nand, nor, slots, text, from)
}
