// Append (document 01, "Segments") and its pieces: the plan, grounds 10 and 11, the close and the drop that make room, and the lift
// that is put.
use bloom::SECTION_BYTES;

pub mod pieces;

ghost use Rattle.std.specs.Prelude.{◌≡◌, true, cond, [], ◌+◌, ◌-◌, ◌*◌, ◌%◌, ◌≤◌, ℤ, length};
ghost use Rattle.grounds.specs.Numbers.{number_in};
ghost use Rattle.tree.specs.Rules.{buckets_most};
ghost use Rattle.lift.specs.Rows.{lifts_most};
ghost use Rattle.flash.specs.Chip.{erased_page, nor_width, slot_width};
ghost use Rattle.lift.specs.Limits.{load_ok, stored};
ghost use Rattle.bloom.specs.Bloom.{empty_section};
ghost use Rattle.form.specs.declared.Form.TheVariants.{New};
ghost use Rattle.grow.specs.Inner.Meaning.{meaning, Fitting};
ghost use Rattle.store.specs.World.{world, put_world, nand_with, nor_with, state_given, page_with, bloom_with, fills_page, fills_section};
ghost use Rattle.store.specs.Calls.{returned, next_state, append_outcome, room_world};
ghost use Rattle.store.specs.Inner.Fields.{fields_of};
ghost use Rattle.store.specs.Inner.Pieces.{Suits, drop_due, entry_ground, bounds_ground};

use crate::State;
use crate::fields::Fields;
use flash::PAGE_BYTES;
use form::Form;
use grounds::Ground;
use grow::Plan;
use lift::NOTE_BYTES;

impl State {
    // Grounds 1 to 8.
    #[tactic(auto, unfolding(crate::specs::Inner::Pieces::bounds_ground, crate::specs::Inner::Pieces::entry_ground))]
    pub fn entry_ground(
        self,
        nand: usize,
        nor: usize,
        slots: u64,
        time: u64,
        load: i32,
    ) -> Result<(), Ground>
        ensures { number_in result ≡ entry_ground self nand nor slots time load }
    {
        self.ground(Form::New, 0, nand, nor, slots)?;
        bounds::lift_ground(time, load, self.next, self.current)
    }

    // What the plan goes by.
    pub fn fields(self) -> Fields
        ensures { result ≡ fields_of self }
    {
        let loads = self.loads;
        Fields {
            oldest: self.oldest,
            current: self.current,
            count: self.count,
            buckets: self.buckets,
            loads: loads,
        }
    }

    // A close if it is due.
    fn room(self, nand: &mut [u8], nor: &mut [u8], slots: u64, p: Plan) -> State
        requires { (bounds_ground New self 0 (length nand.old) (length nor.old) slots ≡ 0) × Suits self.buckets self.count p }
        ensures { world nand.new nor.new result
            ≡ room_world (world nand.old nor.old self) slots (meaning p) }
    {
        if append_parts::is_full(p) {
            return self.closed(nand, nor, slots);
        }
        self
    }

    // A drop if it is due.
    fn dropped_first(self, nand: &mut [u8], slots: u64) -> State
        requires { (length nand.old ≡ slots * slot_width) × (1 ≤ slots) × (1 ≤ self.oldest) × (self.oldest ≤ self.current) }
        ensures { world nand.new [] result ≡ drop_due (world nand.old [] self) slots }
    {
        if !append_parts::drops_first(self.oldest, self.current, self.count, slots) {
            return self;
        }
        self.dropped(nand, slots)
    }

    // The record goes into the page buffer, and a full page to NAND.
    fn recorded(
        self,
        nand: &mut [u8],
        slots: u64,
        time: u64,
        code: u32,
        note: [u8; NOTE_BYTES],
    ) -> [u8; PAGE_BYTES]
        requires { (length nand.old ≡ slots * slot_width) × (1 ≤ slots) × (1 ≤ self.current) × (self.count ≤ lifts_most) }
        ensures nand { (load : ℤ) → code ≡ stored load → nand.new
            ≡ nand_with nand.old self slots time load note }
        ensures page { (load : ℤ) → code ≡ stored load → result
            ≡ cond (fills_page self) erased_page (page_with self time load note) }
    {
        let n = self.count as usize;
        let slot = flash::slot_of(self.current, slots);
        let old = self.page;
        let full = append_parts::with_record(
            old,
            n % lift::LIFTS_PER_PAGE * lift::RECORD_BYTES,
            time,
            code,
            note,
        );
        append_parts::page_after(nand, slot, self.count, full)
    }

    // The entry goes into the tree, the load's bits into the section, and a full section to NOR.
    fn indexed(self, nor: &mut [u8], code: u32, p: Plan) -> [u8; SECTION_BYTES]
        requires { (length nor.old ≡ nor_width) × (self.buckets ≤ buckets_most) × (self.count ≤ lifts_most) × Fitting self.buckets p
            × (1 ≤ code) }
        ensures nor { (load : ℤ) → code ≡ stored load → nor.new
            ≡ nor_with nor.old self load (meaning p) }
        ensures section { (load : ℤ) → code ≡ stored load → result
            ≡ cond (fills_section self) empty_section (bloom_with self load) }
    {
        let w = grow::writes_of(p, self.buckets, code, self.count);
        grow::carry(nor, w);
        let old = self.bloom;
        let full = bloom::note(old, code);
        append_parts::section_after(nor, self.count, full)
    }

    // The state with the lift, its bucket count and buffers given.
    fn counted(
        self,
        time: u64,
        load: i32,
        buckets: u8,
        page: [u8; PAGE_BYTES],
        section: [u8; SECTION_BYTES],
    ) -> State
        requires { self.count ≤ lifts_most }
        ensures { result ≡ state_given self time load time buckets page section }
    {
        let heads = self.heads;
        let old = self.loads;
        let loads = bounds::pushed(old, self.count, load);
        let low = bounds::low_after(self.count, self.low, load);
        let high = bounds::high_after(self.count, self.high, load);
        let start = append_parts::start_after(self.count, self.start, time);
        State {
            oldest: self.oldest,
            current: self.current,
            count: self.count + 1,
            buckets: buckets,
            next: time,
            heads: heads,
            loads: loads,
            page: page,
            bloom: section,
            start: start,
            low: low,
            high: high,
        }
    }

    // The lift goes last into the open segment.
    fn put(
        self,
        nand: &mut [u8],
        nor: &mut [u8],
        slots: u64,
        time: u64,
        load: i32,
        note: [u8; NOTE_BYTES],
        p: Plan,
    ) -> State
        requires nand_len { (length nand.old ≡ slots * slot_width) × (length nor.old ≡ nor_width) × (1 ≤ slots) × (1 ≤ self.current) }
        requires count_le_lifts_most { (self.count ≤ lifts_most) × (self.buckets ≤ buckets_most) × Fitting self.buckets p }
        requires load_value { load_ok load ≡ true }
        ensures { world nand.new nor.new result
            ≡ put_world (world nand.old nor.old self) slots time load note (meaning p) }
    {
        let code = lift::stored(load);
        let page = self.recorded(nand, slots, time, code, note);
        let section = self.indexed(nor, code, p);
        let buckets = grow::buckets_after(p, self.buckets);
        self.counted(time, load, buckets, page, section)
    }

    pub fn append(
        self,
        nand: &mut [u8],
        nor: &mut [u8],
        slots: u64,
        time: u64,
        load: i32,
        note: [u8; NOTE_BYTES],
    ) -> Result<State, Ground>
        ensures { returned (number_in result) nand.new nor.new (next_state self result)
            ≡ append_outcome (world nand.old nor.old self) slots time load note }
    {
        let planned = pieces::plan_append(self, nand, nor, slots, time, load);
        let is_refused = grounds::number_in(&planned) != 0;
        if is_refused {
            return planned.and(Ok(self));
        }
        let p = planned?;
        Ok(pieces::carried_out(self, nand, nor, slots, time, load, note, p))
    }
}
