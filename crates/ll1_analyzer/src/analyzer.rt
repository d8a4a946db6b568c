//! The walker.
ghost use Rattle.std.specs.Prelude.{◌≡◌, ⊤};
ghost use Rattle.atn.specs.Checked.{net_of};
ghost use Rattle.atn.specs.Found.{found};
ghost use Rattle.atn.specs.Reach.{KnowsNullable};
ghost use Rattle.ll1_analyzer.specs.Answers.{HoldsExactly, KeepsNet};
ghost use Rattle.ll1_analyzer.specs.Sets.{Within};

use crate::lookahead::{EPSILON, Lookahead};
use atn::{Atn, NullableStates};
use interval_set::IntervalSet;
use std::alloc::AllocError;

/// Works each answer out by walks over the net. It keeps the nullable states alone: those from
/// which a walk on an empty stack can end on a stop state.
#[derive(Drop)]
pub struct LL1Analyzer<'a> {
    atn: &'a Atn,
    nullables: NullableStates<'a>,
    ghost of_the_net: { nullables.graph.now ≡ atn.now.graph },
}

impl<'a> LL1Analyzer<'a> {
    /// A walker over this net.
    pub fn new(atn: &'a Atn) -> LL1Analyzer<'a>
        ensures net { result.atn.now ≡ atn.now }
        ensures agrees { ⟦<LL1Analyzer<'a> as Lookahead>⟧.agrees result }
    {
        LL1Analyzer {
            atn,
            nullables: NullableStates::of(&atn.graph),
        }
    }

    /// The within-rule set of s: the types at the states that it reaches, and EPSILON if it is
    /// nullable.
    // That the nullable states are right is a premise: a ghost field would not give the walks that
    // show it.
    pub fn look(&self, s: usize) -> IntervalSet
        ensures { let n = net_of self.now.atn.now in
            KnowsNullable n (found self.now.nullables.states) → HoldsExactly result (Within n s) }
    {
        let mut set = IntervalSet::new();
        let reached = self.nullables.reach(s);
        for k in reached.states() {
            self.atn.add_labels(*k, &mut set);
        }
        if self.nullables.has(s) {
            // it is one of the numbers of sets, so it is not denied
            let _ = set.add_one(EPSILON);
        }
        set
    }
}

impl<'a> Lookahead for LL1Analyzer<'a> {
    ghost atn = { λ w. w.atn.now };

    ghost agrees = { λ w. KnowsNullable (net_of w.atn.now) (found w.nullables.states) };

    fn atn(&self) -> &Atn {
        self.atn
    }

    fn within(&mut self, s: usize) -> IntervalSet
        ensures keeps { KeepsNet
            ⟦<LL1Analyzer<'a> as Lookahead>⟧.atn ⟦<LL1Analyzer<'a> as Lookahead>⟧.agrees
            self.old self.new }
        ensures answers { ⟦<LL1Analyzer<'a> as Lookahead>⟧.agrees self.old →
            HoldsExactly result (Within (net_of self.old.atn.now) s) }
        ensures alters_nothing { self.new ≡ self.old }
    {
        self.look(s)
    }
}

impl<'a> Clone for LL1Analyzer<'a> {
    ghost is_clone = { λ v w. w ≡ v };

    ghost is_infallible = { λ _. ⊤ };

    fn clone(&self) -> Result<LL1Analyzer<'a>, AllocError> {
        Ok(LL1Analyzer {
            atn: self.atn,
            nullables: self.nullables,
        })
    }
}
