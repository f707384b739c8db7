// The state as a lent area, in the order of document 01's list, little-endian, no gaps: 783 bytes in form 1, without the oldest live
// time, and 775 in form 0 (document 02, W-202 and W-214).
#![tactic(auto)]

pub mod pieces;

ghost use Rattle.std.specs.Prelude.{◌≡◌, ◌+◌, ◌≤◌, length};
ghost use Rattle.form.specs.declared.Form.TheVariants.{Old, New};
ghost use Rattle.codec.specs.Area.{part};
ghost use Rattle.state_bytes.specs.StateBytes.{live_width, area_length, bytes_in};
ghost use Rattle.state_bytes.specs.StateBytes.{state_bytes, state_as, state_in, old_state_bytes, old_state_in};

use form::Form;
use pieces::{Counters, Span};
use store::{OldState, State};

pub const STATE_BYTES: usize = 783;
// In form 0.
pub const OLD_STATE_BYTES: usize = 775;

// The fields of both forms; the oldest live time stays.
fn put_fields(b: &mut [u8], form: Form, s: State)
    requires { length b.old ≡ area_length form }
    ensures { b.new ≡ bytes_in form (part b.old 19 (live_width form)) s }
{
    let c = Counters {
        oldest: s.oldest,
        current: s.current,
        count: s.count,
        buckets: s.buckets,
        next: s.next,
    };
    let span = Span {
        start: s.start,
        low: s.low,
        high: s.high,
    };
    let at = pieces::loads_from(form);
    codec::copy(b, at + pieces::PAGE_BEHIND, &s.page);
    pieces::put_around(b, form, c, s.heads, s.loads, s.bloom, span);
}

// The fields of both forms. Inlined: as a call it would leave a second state on the stack of every call that reads one.
#[inline(always)]
fn fields_at(b: &[u8], form: Form) -> State
    requires { length b.now ≡ area_length form }
    ensures { result ≡ state_as form b.now }
{
    let at = pieces::loads_from(form);
    State {
        oldest: codec::get_u32(b, pieces::OLDEST_AT),
        current: codec::get_u32(b, pieces::CURRENT_AT),
        count: codec::get_u16(b, pieces::COUNT_AT),
        buckets: codec::get_u8(b, pieces::BUCKETS_AT),
        next: codec::get_u64(b, pieces::NEXT_AT),
        heads: skiplist::pointers_at(b, pieces::heads_from(form), form),
        loads: loads::loads_at(b, at),
        page: pieces::bytes_at(b, at + pieces::PAGE_BEHIND),
        bloom: pieces::bytes_at(b, at + pieces::BLOOM_BEHIND),
        start: codec::get_u64(b, at + pieces::START_BEHIND),
        low: loads::load_at(b, at + pieces::LOW_BEHIND),
        high: loads::load_at(b, at + pieces::HIGH_BEHIND),
    }
}

pub fn get_state(b: &[u8]) -> State
    requires { length b.now ≡ area_length New }
    ensures { result ≡ state_in b.now }
{
    fields_at(b, Form::New)
}

pub fn put_state(b: &mut [u8], s: State)
    requires { length b.old ≡ area_length New }
    ensures { b.new ≡ state_bytes s }
{
    put_fields(b, Form::New, s);
}

pub fn get_old_state(b: &[u8]) -> OldState
    requires { length b.now ≡ area_length Old }
    ensures { result ≡ old_state_in b.now }
{
    OldState {
        state: fields_at(b, Form::Old),
        live: codec::get_u64(b, pieces::OLD_LIVE_AT),
    }
}

pub fn put_old_state(b: &mut [u8], s: OldState)
    requires { length b.old ≡ area_length Old }
    ensures { b.new ≡ old_state_bytes s }
{
    codec::put_u64(b, pieces::OLD_LIVE_AT, s.live);
    put_fields(b, Form::Old, s.state);
}
