// The store (document 01, "State", "Segments", "Twelve grounds"; form 1 of document 02, W-202): its state by value, and the calls as
// methods.
#![tactic(auto)]

pub mod append;
pub mod fields;

ghost use Rattle.std.specs.Prelude.{◌≡◌, true, ◌+◌, ◌-◌, ◌*◌, ◌^◌, ◌≤◌, ◌<◌, length};
ghost use Rattle.grounds.specs.Numbers.{number_in};
ghost use Rattle.flash.specs.Chip.{slot_of, slot_erased, slot_width};
ghost use Rattle.lift.specs.Limits.{load_ok};
ghost use Rattle.form.specs.declared.Form.TheVariants.{New};
ghost use Rattle.store.specs.Bounds.{heads_ok, within_bounds};
ghost use Rattle.store.specs.World as World;
ghost use Rattle.store.specs.World.{world, close_world};
ghost use Rattle.store.specs.Calls.{returned, next_state, formatted};
ghost use Rattle.store.specs.Calls.{format_outcome, close_outcome, drop_outcome};
ghost use Rattle.store.specs.Inner.Pieces.{bounds_ground};

use bloom::SECTION_BYTES;
use flash::PAGE_BYTES;
use form::Form;
use grounds::Ground;
use header::Closing;
use lift::LOADS_KEPT;
use skiplist::{LEVELS, Pointer};

// The state, by value, in the order of document 01's list. The last loads, low and high are signed, as logged.
#[derive(Clone, Copy)]
pub struct State {
    // oldest retained serial
    pub oldest: u32,
    // open serial
    pub current: u32,
    // count: lifts of the open segment, its bucket count
    pub count: u16,
    pub buckets: u8,
    // next time: the last accepted time, at first 0
    pub next: u64,
    // four skip heads, level 1 first
    pub heads: [Pointer; LEVELS],
    // last 13 loads of the open segment, oldest first; unused places 0
    pub loads: [i32; LOADS_KEPT],
    // page buffer
    pub page: [u8; PAGE_BYTES],
    // Bloom buffer
    pub bloom: [u8; SECTION_BYTES],
    // the open segment's start time, its low and high load
    pub start: u64,
    pub low: i32,
    pub high: i32,
}

// A state of form 0: the fields that both forms have, and the oldest live time. Its heads have no serials; what stands there is not
// looked at.
#[derive(Clone, Copy)]
pub struct OldState {
    pub state: State,
    // oldest live time: "the start of the oldest retained lift, or next time if there is none"
    pub live: u64,
}

fn heads_ok(heads: [Pointer; LEVELS], slots: u64) -> bool
    ensures { result ≡ heads_ok heads slots }
{
    let a = heads[0];
    let b = heads[1];
    let c = heads[2];
    let d = heads[3];
    a.in_slots(slots) & (b.in_slots(slots) & (c.in_slots(slots) & d.in_slots(slots)))
}

impl State {
    pub fn new() -> State
        ensures { result ≡ formatted }
    {
        let heads = skiplist::no_heads();
        let loads = bounds::no_loads();
        let page = append_parts::blank_page();
        let bloom = bloom::empty_section();
        State {
            oldest: 1,
            current: 1,
            count: 0,
            buckets: 0,
            next: 0,
            heads: heads,
            loads: loads,
            page: page,
            bloom: bloom,
            start: 0,
            low: 0,
            high: 0,
        }
    }

    // Ground 3.
    fn within_bounds(self, form: Form, live: u64, slots: u64) -> bool
        ensures { result ≡ within_bounds form self live slots }
    {
        let heads = self.heads;
        let loads = self.loads;
        let a = bounds::serials_ok(self.oldest, self.current, self.count, slots);
        let b = bounds::counts_ok(self.current, self.count, self.buckets);
        let c = bounds::times_ok(form, self.current, self.count, self.next, live, self.start);
        let d = bounds::span_ok(self.count, self.low, self.high);
        let e = bounds::loads_ok(loads);
        let f = heads_ok(heads, slots);
        a & (b & (c & (d & (e & f))))
    }

    // Grounds 1 to 3, of a state of either form.
    #[tactic(auto, unfolding(crate::specs::Inner::Pieces::bounds_ground, bounds::specs::Grounds::format_ground))]
    pub fn ground(
        self,
        form: Form,
        live: u64,
        nand: usize,
        nor: usize,
        slots: u64,
    ) -> Result<(), Ground>
        ensures { number_in result ≡ bounds_ground form self live nand nor slots }
    {
        bounds::chips_ground(nand, nor, slots)?;
        if self.within_bounds(form, live, slots) {
            Ok(())
        } else {
            Err(Ground::State)
        }
    }

    // What a close needs.
    fn closing(self) -> Closing
        requires { (load_ok self.low ≡ true) × (load_ok self.high ≡ true) }
        ensures { result ≡ World.closing New self }
    {
        let heads = self.heads;
        let page = self.page;
        let section = self.bloom;
        let low = lift::stored(self.low);
        let high = lift::stored(self.high);
        Closing {
            form: Form::New,
            serial: self.current,
            count: self.count,
            buckets: self.buckets,
            start: self.start,
            end: self.next,
            low: low,
            high: high,
            heads: heads,
            page: page,
            bloom: section,
        }
    }

    // The next serial opens; the segment that was open lies in `slot`.
    fn moved_on(mut self, slot: usize) -> State
        requires { (slot < 65536) × (self.current < 2 ^ 32 - 1) }
        ensures { result ≡ World.moved_on New self slot }
    {
        let old = self.heads;
        let heads = skiplist::heads_closing(old, slot as u16, self.current, self.start);
        let loads = bounds::no_loads();
        let page = append_parts::blank_page();
        let section = bloom::empty_section();
        self.heads = heads;
        self.loads = loads;
        self.page = page;
        self.bloom = section;
        self.current = self.current + 1;
        self.count = 0;
        self.buckets = 0;
        self.start = 0;
        self.low = 0;
        self.high = 0;
        self
    }

    // The open segment is closed.
    fn closed(self, nand: &mut [u8], nor: &mut [u8], slots: u64) -> State
        requires { (bounds_ground New self 0 (length nand.old) (length nor.old) slots ≡ 0) × (1 ≤ self.count) }
        ensures { world nand.new nor.new result
            ≡ close_world (world nand.old nor.old self) slots }
    {
        let slot = flash::slot_of(self.current, slots);
        let c = self.closing();
        segment::program_pages(nand, nor, slot, c);
        flash::erase_chip(nor);
        self.moved_on(slot)
    }

    // The oldest closed segment is erased.
    fn dropped(mut self, nand: &mut [u8], slots: u64) -> State
        requires { (length nand.old ≡ slots * slot_width) × (1 ≤ slots) × (1 ≤ self.oldest) × (self.oldest < self.current) }
        ensures { (nand.new ≡ slot_erased nand.old (slot_of self.oldest slots))
            × (result ≡ World.without_oldest self) }
    {
        let slot = flash::slot_of(self.oldest, slots);
        flash::erase_slot(nand, slot);
        self.oldest = self.oldest + 1;
        self
    }

    // The state of an erased store.
    pub fn format(nand: &mut [u8], nor: &mut [u8], slots: u64) -> Result<State, Ground>
        ensures { returned (number_in result) nand.new nor.new (next_state formatted result)
            ≡ format_outcome New nand.old nor.old slots }
    {
        bounds::chips_ground(nand.len(), nor.len(), slots)?;
        flash::erase_chip(nand);
        flash::erase_chip(nor);
        Ok(State::new())
    }

    pub fn close(self, nand: &mut [u8], nor: &mut [u8], slots: u64) -> Result<State, Ground>
        ensures { returned (number_in result) nand.new nor.new (next_state self result)
            ≡ close_outcome (world nand.old nor.old self) slots }
    {
        self.ground(Form::New, 0, nand.len(), nor.len(), slots)?;
        if self.count == 0 {
            return Err(Ground::NothingThere);
        }
        let slot = flash::slot_of(self.current, slots);
        if !segment::pages_erased(nand, slot, self.count, self.buckets) {
            return Err(Ground::NotErased);
        }
        Ok(self.closed(nand, nor, slots))
    }

    pub fn drop(self, nand: &mut [u8], nor: &[u8], slots: u64) -> Result<State, Ground>
        ensures { returned (number_in result) nand.new nor.now (next_state self result)
            ≡ drop_outcome (world nand.old nor.now self) slots }
    {
        self.ground(Form::New, 0, nand.len(), nor.len(), slots)?;
        if self.oldest == self.current {
            Err(Ground::NothingThere)
        } else {
            Ok(self.dropped(nand, slots))
        }
    }
}
