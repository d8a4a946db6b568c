//! The table of all within-rule sets.
ghost use Rattle.std.specs.Prelude.{◌≡◌, IfOk};
ghost use Rattle.ll1_analyzer.specs.Kept.{AreWithin};
ghost use Rattle.ll1_analyzer.specs.Answers.{HoldsExactly, KeepsNet};
ghost use Rattle.ll1_analyzer.specs.Sets.{Within};
ghost use Rattle.atn.specs.Checked.{net_of};

use crate::analyzer::LL1Analyzer;
use crate::lookahead::Lookahead;
use atn::Atn;
use interval_set::IntervalSet;
use std::alloc::{AllocError, Global};

/// Keeps the set of each state, worked out beforehand.
#[derive(Drop)]
pub struct Table<'a> {
    atn: &'a Atn,
    sets: Vec<IntervalSet>,
}

impl<'a> Table<'a> {
    /// The table of this net. Want of memory is the only error.
    pub fn new(alloc: Global, atn: &'a Atn) -> Result<Table<'a>, AllocError>
        ensures net { IfOk result (λ t. t.atn.now ≡ atn.now) }
        ensures agrees { IfOk result ⟦<Table<'a> as Lookahead>⟧.agrees }
    {
        let analyzer = LL1Analyzer::new(atn);
        let mut sets = Vec::new(alloc);
        for s in 0..atn.state_count() {
            sets.push(analyzer.look(s))?;
        }
        Ok(Table { atn, sets })
    }
}

impl<'a> Lookahead for Table<'a> {
    ghost atn = { λ t. t.atn.now };

    ghost agrees = { λ t. AreWithin (net_of t.atn.now) t.sets.items };

    fn atn(&self) -> &Atn {
        self.atn
    }

    fn within(&mut self, s: usize) -> IntervalSet
        ensures keeps { KeepsNet
            ⟦<Table<'a> as Lookahead>⟧.atn ⟦<Table<'a> as Lookahead>⟧.agrees self.old self.new }
        ensures answers { ⟦<Table<'a> as Lookahead>⟧.agrees self.old →
            HoldsExactly result (Within (net_of self.old.atn.now) s) }
        ensures alters_nothing { self.new ≡ self.old }
    {
        self.sets.get(s).copied().unwrap_or_else(IntervalSet::new)
    }
}
