// The fields of a state that an append's plan and its grounds 10 and 11 go by: no times, no heads, no buffers, so that a caller who keeps
// the state as bytes reads no more of it. What is promised holds of every state with these fields.
ghost use Rattle.std.specs.Prelude.{◌≡◌, true, false, [], ◌-◌, ◌^◌, ◌≤◌, ◌<◌, ℤ, length};
ghost use Rattle.grounds.specs.Numbers.{number_in};
ghost use Rattle.tree.specs.Rules.{buckets_most};
ghost use Rattle.lift.specs.Rows.{lifts_most};
ghost use Rattle.flash.specs.Chip.{nor_width};
ghost use Rattle.lift.specs.Limits.{load_ok, stored};
ghost use Rattle.tree.specs.Plan.{no_room, is_damaged, is_no_room};
ghost use Rattle.grow.specs.Inner.Meaning.{meaning, Fitting};
ghost use Rattle.bounds.specs.Bounds.{loads_ok};
ghost use Rattle.store.specs.declared.State as Whole;
ghost use Rattle.store.specs.World.{World, world};
ghost use Rattle.store.specs.Calls.{plan_of, nor_clear, room_world, drops_first};
ghost use Rattle.store.specs.Inner.Fields.{fields_of, Sized};
ghost use Rattle.store.specs.Inner.Pieces.{Suits, later_ground, is_plain};

use grounds::Ground;
use grow::Plan;
use lift::LOADS_KEPT;

#[derive(Clone, Copy)]
pub struct Fields {
    // oldest retained serial, open serial; its count and bucket count
    pub oldest: u32,
    pub current: u32,
    pub count: u16,
    pub buckets: u8,
    // last 13 loads
    pub loads: [i32; LOADS_KEPT],
}

impl Fields {
    // Where the load goes, by the buckets on its path.
    pub fn plan(self, nor: &[u8], code: u32) -> Plan
        requires { (length nor.now ≡ nor_width) × (self.buckets ≤ buckets_most) × (self.count ≤ lifts_most) × (loads_ok self.loads ≡ true) }
        ensures is { (s : Whole.State) (load : ℤ) → fields_of s ≡ self → code ≡ stored load
            → meaning result ≡ plan_of (world [] nor.now s) load }
        ensures suits { Suits self.buckets self.count result }
    {
        let loads = self.loads;
        let codes = bounds::stored_loads(loads);
        let tree = flash::nor_tree(nor);
        grow::plan_for(tree, self.buckets, self.count, codes, code)
    }

    // Grounds 10 and 11 of an append that closes first: the close erases NOR, so there is no damage.
    fn blocked_closing(self, nand: &[u8], nor: &[u8], slots: u64) -> Result<(), Ground>
        requires { Sized nand.now nor.now slots self }
        ensures { (s : Whole.State) (load : ℤ) → fields_of s ≡ self → number_in result
            ≡ later_ground (world nand.now nor.now s) slots load no_room }
    {
        let slot = flash::slot_of(self.current, slots);
        if !segment::pages_erased(nand, slot, self.count, self.buckets) {
            return Err(Ground::NotErased);
        }
        Ok(())
    }

    // All NOR bytes due for writing are 255.
    fn is_clear(self, nor: &[u8], code: u32, p: Plan) -> bool
        requires { (length nor.now ≡ nor_width) × (self.buckets ≤ buckets_most) × (self.count ≤ lifts_most) × Fitting self.buckets p }
        ensures { (s : Whole.State) (load : ℤ) → fields_of s ≡ self → code ≡ stored load
            → result ≡ nor_clear (world [] nor.now s) load (meaning p) }
    {
        let w = grow::writes_of(p, self.buckets, code, self.count);
        grow::clear(nor, w) & append_parts::section_clear(nor, self.count)
    }

    // Grounds 10 and 11 of an append into the open segment as it is.
    fn blocked_put(
        self,
        nand: &[u8],
        nor: &[u8],
        slots: u64,
        code: u32,
        p: Plan,
    ) -> Result<(), Ground>
        requires sized { Sized nand.now nor.now slots self × Fitting self.buckets p }
        requires p_value { (is_damaged (meaning p) ≡ false) × (is_no_room (meaning p) ≡ false) }
        ensures { (s : Whole.State) (load : ℤ) → fields_of s ≡ self → code ≡ stored load → number_in result
            ≡ later_ground (world nand.now nor.now s) slots load (meaning p) }
    {
        if !self.is_clear(nor, code, p) {
            return Err(Ground::Damage);
        }
        let slot = flash::slot_of(self.current, slots);
        if !append_parts::page_free(nand, slot, self.count) {
            return Err(Ground::NotErased);
        }
        Ok(())
    }

    // Grounds 10 and 11.
    pub fn blocked(
        self,
        nand: &[u8],
        nor: &[u8],
        slots: u64,
        code: u32,
        p: Plan,
    ) -> Result<(), Ground>
        requires { Sized nand.now nor.now slots self × Fitting self.buckets p }
        ensures { (s : Whole.State) (load : ℤ) → fields_of s ≡ self → code ≡ stored load → number_in result
            ≡ later_ground (world nand.now nor.now s) slots load (meaning p) }
    {
        if append_parts::is_damaged_plan(p) {
            return Err(Ground::Damage);
        }
        if append_parts::is_full(p) {
            return self.blocked_closing(nand, nor, slots);
        }
        self.blocked_put(nand, nor, slots, code, p)
    }

    // The lift goes into the open segment as it is: no close and no drop comes first.
    pub fn is_plain(self, slots: u64, p: Plan) -> bool
        requires { self.oldest ≤ self.current }
        ensures { (s : Whole.State) → fields_of s ≡ self → result ≡ is_plain s slots (meaning p) }
    {
        let full = append_parts::is_full(p);
        let drops = append_parts::drops_first(self.oldest, self.current, self.count, slots);
        !(full | drops)
    }

    // A drop comes first, behind a close if that is due.
    pub fn sheds(self, slots: u64, p: Plan) -> bool
        requires { (self.oldest ≤ self.current) × (self.current < 2 ^ 32 - 1) }
        ensures { (w : World) → fields_of w.state ≡ self → result ≡ drops_first (room_world w slots (meaning p)).state slots }
    {
        if append_parts::is_full(p) {
            return append_parts::drops_first(self.oldest, self.current + 1, 0, slots);
        }
        append_parts::drops_first(self.oldest, self.current, self.count, slots)
    }
}
