// The counts that are kept beside the state (document 02, W-210): ground 3 of them, a lift more, a segment less.
#![tactic(auto)]

pub mod area;

ghost use Rattle.std.specs.Prelude.{◌≡◌, ◌+◌, ◌*◌, ◌≤◌, length, sum};
ghost use Rattle.flash.specs.Chip.{slot_width};
ghost use Rattle.form.specs.declared.Form.TheVariants.{New};
ghost use Rattle.lift.specs.Record.{code_at, record_width};
ghost use Rattle.lift.specs.Rows.{lifts_most};
ghost use Rattle.bloom.specs.Pages.{each};
ghost use Rattle.plate.specs.Total.{total};
ghost use Rattle.plate.specs.Plate.{no_counts};
ghost use Rattle.counts.specs.Counts.{counts_most, counts_broken, one_more, counted_down, without_segment};
ghost use Rattle.counts.specs.Inner.Down.{down_of};

use flash::Page;
use form::Form;
use plate::PLATES;

// "Counts with a sum above 1,310,720 break ground 3": 4,096 segments of 320 lifts.
pub const SUM_MOST: u32 = 1310720;

pub fn no_counts() -> [u32; PLATES]
    ensures { result ≡ no_counts }
{
    [0u32; PLATES]
}

// What the counts come to.
fn sum_of(counts: &[u32]) -> u64
    requires { length counts.now ≤ 22 }
    ensures { result ≡ sum counts.now }
{
    counts.iter().map(|n| u64::from(*n)).sum()
}

// Ground 3 of the counts.
pub fn are_broken(counts: [u32; PLATES]) -> bool
    ensures { result ≡ counts_broken counts }
{
    u64::from(SUM_MOST) < sum_of(&counts)
}

// A lift more, by its stored load.
pub fn one_more(counts: [u32; PLATES], code: u32) -> [u32; PLATES]
    requires { total counts ≤ counts_most }
    ensures { result ≡ one_more counts code }
{
    let mut c = counts;
    let i = plate::plate_of_code(code) as usize;
    c[i] += 1;
    c
}

// A segment's lifts less, one after the other; none where damage is met.
fn lifts_less(lifts: &[u8], count: usize, counts: [u32; PLATES]) -> Option<[u32; PLATES]>
    requires { (length lifts.now ≡ 10240) × (count ≤ lifts_most) }
    ensures { down_of result ≡ counted_down counts (each (λ p. code_at lifts.now (p * record_width)) 0 count) }
{
    let mut c = counts;
    for p in 0..count {
        let code = lift::record_code(lifts, p * lift::RECORD_BYTES);
        let ok = lift::code_ok(code);
        let i = plate::plate_of_code(code) as usize;
        let n = c[i];
        let can_go = ok & (0 < n);
        if !can_go {
            return None;
        }
        c[i] = n - 1;
    }
    Some(c)
}

// The closed segment in a slot less: its header and lifts are read; none where damage is met.
pub fn without_segment(
    nand: &[u8],
    slots: u64,
    slot: usize,
    before: u32,
    counts: [u32; PLATES],
) -> Option<[u32; PLATES]>
    requires { slot * slot_width + slot_width ≤ length nand.now }
    ensures { down_of result ≡ without_segment New nand.now slots slot before counts }
{
    let h = flash::pages_of(nand, slot, Page(flash::HEADER_LAST), 1);
    if header::header_good(h, Form::New, slots, before) {
        let lifts = flash::pages_of(nand, slot, Page(0), flash::TREE_FIRST);
        lifts_less(lifts, header::count_in(h) as usize, counts)
    } else {
        None
    }
}
