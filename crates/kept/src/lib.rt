// What a call over byte areas leaves in its caller's areas: written if the call was accepted, else as it was. A state has 783 bytes, 775
// in form 0, the other answers are 8-byte numbers, a service page its text.
#![tactic(auto)]

ghost use Rattle.std.specs.Prelude.{◌≡◌, List, [], ◌∷◌, ℕ, ◌*◌, ◌^◌, ◌<◌, length, MatchResult};
ghost use Rattle.form.specs.declared.Form.TheVariants.{Old, New};
ghost use Rattle.codec.specs.Number.{bytes};
ghost use Rattle.plate.specs.Total.{total};
ghost use Rattle.plate.specs.Plate.{plates};
ghost use Rattle.service_page.specs.Page.{page_bytes, page_of};
ghost use Rattle.loads.specs.Signed.{side_by_side};
ghost use Rattle.state_bytes.specs.StateBytes.{state_bytes, old_state_bytes, area_length};
ghost use Rattle.counts.specs.CountsBytes.{counts_length, counts_bytes};
ghost use Rattle.grounds.specs.Numbers.{number_in};
ghost use Rattle.store.specs.declared.State.{State};
ghost use Rattle.store.specs.Calls.{next_state};
ghost use Rattle.keeping.specs.Next as Next;
ghost use Rattle.keeping.specs.Next.{next_counts};
ghost use Rattle.kept.specs.Kept.{kept};

use grounds::Ground;
use keeping::Counted;
use plate::PLATES;
use store::{OldState, State};

// A count, or a plate.
pub const NUMBER_BYTES: usize = 8;

// A search's count and its three counts of pages.
pub const SEARCH_BYTES: usize = 32;

// The two counts of a tolerant search.
pub const TOLERANT_BYTES: usize = 16;

// The next state goes into its area if the call was accepted.
pub fn keep_state(area: &mut [u8], r: Result<State, Ground>) -> u8
    requires { length area.old ≡ area_length New }
    ensures number { result ≡ number_in r }
    ensures state { (s : State) → area.new ≡ kept (number_in r) (state_bytes (next_state s r)) area.old }
{
    match r {
        Ok(s) => {
            state_bytes::put_state(area, s);
            0
        }
        Err(refused) => refused.number(),
    }
}

// The next state and the next counts.
pub fn keep_counted(area: &mut [u8], counts: &mut [u8], r: Result<Counted, Ground>) -> u8
    requires { (length area.old ≡ area_length New) × (length counts.old ≡ counts_length) }
    ensures number { result ≡ number_in r }
    ensures state { (s : State) → area.new ≡ kept (number_in r) (state_bytes (Next.next_state s r)) area.old }
    ensures counts { (c : List ℕ) → counts.new ≡ kept (number_in r) (counts_bytes (next_counts c r)) counts.old }
{
    match r {
        Ok(k) => {
            counts::area::put_counts(counts, k.counts);
            state_bytes::put_state(area, k.state);
            0
        }
        Err(g) => g.number(),
    }
}

// A state of form 0.
pub fn keep_old_state(area: &mut [u8], r: Result<OldState, Ground>) -> u8
    requires { length area.old ≡ area_length Old }
    ensures number { result ≡ number_in r }
    ensures state { MatchResult r (λ s. area.new ≡ old_state_bytes s) (λ _. area.new ≡ area.old) }
{
    match r {
        Ok(s) => {
            state_bytes::put_old_state(area, s);
            0
        }
        Err(ground) => ground.number(),
    }
}

// A number goes into the area of the answer if the call was accepted.
pub fn keep_number(answer: &mut [u8], number: u8, value: u64)
    requires { length answer.old ≡ 8 }
    ensures { answer.new ≡ kept number (bytes 8 value) answer.old }
{
    if number == 0 {
        codec::put_u64(answer, 0, value);
    }
}

// The count and the pages of a search go into the area of the answer if it was accepted.
pub fn keep_search(answer: &mut [u8], number: u8, count: u64, headers: u64, bloom: u64, tree: u64)
    requires { length answer.old ≡ 32 }
    ensures { answer.new
        ≡ kept number (side_by_side (bytes 8) (count ∷ headers ∷ bloom ∷ tree ∷ [])) answer.old }
{
    if number == 0 {
        codec::put_u64(answer, 0, count);
        codec::put_u64(answer, 8, headers);
        codec::put_u64(answer, 16, bloom);
        codec::put_u64(answer, 24, tree);
    }
}

// The counts of a tolerant search go into the area of the answer if it was accepted.
pub fn keep_both(answer: &mut [u8], number: u8, certain: u64, possible: u64)
    requires { length answer.old ≡ 16 }
    ensures { answer.new ≡ kept number (side_by_side (bytes 8) (certain ∷ possible ∷ [])) answer.old }
{
    if number == 0 {
        codec::put_u64(answer, 0, certain);
        codec::put_u64(answer, 8, possible);
    }
}

fn put_counts(answer: &mut [u8], counts: [u64; PLATES])
    requires { length answer.old ≡ 8 * plates }
    ensures { answer.new ≡ side_by_side (bytes 8) counts }
{
    for i in 0..PLATES {
        codec::put_u64(answer, NUMBER_BYTES * i, counts[i]);
    }
}

// The counts go into the area of the answer if the tally was accepted.
pub fn keep_counts(answer: &mut [u8], number: u8, counts: [u64; PLATES])
    requires { length answer.old ≡ 8 * plates }
    ensures { answer.new ≡ kept number (side_by_side (bytes 8) counts) answer.old }
{
    if number == 0 {
        put_counts(answer, counts);
    }
}

// The page of a tally goes into its area if the tally was accepted.
pub fn keep_page(page: &mut [u8], number: u8, t1: u64, t2: u64, counts: [u64; PLATES])
    requires { (length page.old ≡ page_bytes) × (total counts < 2 ^ 57) }
    ensures { page.new ≡ kept number (page_of t1 t2 counts) page.old }
{
    if number == 0 {
        service_page::put_page(page, 0, t1, t2, counts);
    }
}
