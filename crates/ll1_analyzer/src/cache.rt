//! A cache over any lookahead.
ghost use Rattle.std.specs.Prelude.{◌≡◌, ◌≢◌, ℕ, ◌%◌, length, Some, None, slice_index_or};
ghost use Rattle.atn.specs.Checked.{net_of};
ghost use Rattle.ll1_analyzer.specs.declared.cache.Slot.{Slot};
ghost use Rattle.ll1_analyzer.specs.declared.cache.TheConstants.{SLOTS};
ghost use Rattle.ll1_analyzer.specs.Answers.{HoldsExactly, KeepsNet};
ghost use Rattle.ll1_analyzer.specs.Kept.{SlotsWithin};
ghost use Rattle.ll1_analyzer.specs.Sets.{Within};

use crate::lookahead::Lookahead;
use atn::Atn;
use interval_set::IntervalSet;

/// How many sets a cache keeps.
pub const SLOTS: usize = 16;

/// The set that was answered for a state.
#[derive(Clone, Copy)]
pub struct Slot {
    pub state: usize,
    pub set: IntervalSet,
}

/// Keeps up to 16 of the sets that the lookahead below has answered, each in the slot of its state.
#[derive(Drop)]
pub struct Cache<L> {
    below: L,
    slots: [Option<Slot>; SLOTS],
    ghost places: { length slots ≡ SLOTS },
}

impl<L: Lookahead> Cache<L> {
    /// A cache that keeps nothing yet.
    pub fn new(below: L) -> Cache<L>
        ensures below { result.below ≡ below }
        ensures agrees { L.agrees below → ⟦<Cache<L> as Lookahead>⟧.agrees result }
    {
        Cache {
            below,
            slots: [None; SLOTS],
        }
    }
}

impl<L: Lookahead> Lookahead for Cache<L> {
    ghost atn = { λ c. L.atn c.below };

    ghost agrees = { λ c. L.agrees c.below × SlotsWithin (net_of (L.atn c.below)) c.slots };

    fn atn(&self) -> &Atn {
        self.below.atn()
    }

    // A set that its slot has is answered from there, and nothing is asked below; else the answer
    // from below takes the slot.
    fn within(&mut self, s: usize) -> IntervalSet
        ensures keeps { KeepsNet
            ⟦<Cache<L> as Lookahead>⟧.atn ⟦<Cache<L> as Lookahead>⟧.agrees self.old self.new }
        ensures answers { ⟦<Cache<L> as Lookahead>⟧.agrees self.old →
            HoldsExactly result (Within (net_of (L.atn self.old.below)) s) }
        ensures hit { (slot : Slot) → slice_index_or self.old.slots (s % SLOTS) None ≡ Some slot →
            slot.state ≡ s → (result ≡ slot.set) × (self.new ≡ self.old) }
        ensures keeps_answer { slice_index_or self.new.slots (s % SLOTS) None ≡
            Some (record { state = s; set = result }) }
        ensures keeps_other_slots { (i : ℕ) → i ≢ s % SLOTS →
            slice_index_or self.new.slots i None ≡ slice_index_or self.old.slots i None }
    {
        let i = s % SLOTS;
        let kept = self.slots[i];
        if let Some(slot) = kept
            && slot.state == s
        {
            return slot.set;
        }
        let set = self.below.within(s);
        self.slots[i] = Some(Slot { state: s, set });
        set
    }
}
