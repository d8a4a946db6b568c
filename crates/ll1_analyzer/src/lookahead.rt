//! What is asked of a net while a parser runs.
ghost use Rattle.std.specs.Prelude.{◌≡◌};
ghost use Rattle.atn.specs.declared.atn.Atn.{Atn};
ghost use Rattle.atn.specs.Checked.{net_of, kind_of, kind_number, kind_number_at};
ghost use Rattle.atn.specs.Checked.{start_of, start_number, start_number_at};
ghost use Rattle.atn_graph.specs.Net.{state_at, edges_of};
ghost use Rattle.ll1_analyzer.specs.Answers.{HoldsExactly, KeepsNet};
ghost use Rattle.ll1_analyzer.specs.Sets.{Within};

use atn::Atn;
use atn_graph::{StateKind, Transition};
use interval_set::IntervalSet;

/// The end of the input.
pub const EOF: i32 = -1;

/// What stands in a set for the end of a walk on a stop state.
pub const EPSILON: i32 = -2;

/// A lookahead speaks of a checked net, and answers from it. A state outside the net has no kind,
/// rule 0 and no edges; a rule past the last has no start. If what it keeps agrees with the net,
/// its sets are those of the net, and empty outside it. No question changes the net, or makes what
/// is kept disagree.
pub trait Lookahead {
    ghost atn: { Self → Atn };

    ghost agrees: { Self → Type 0 };

    /// The net that it speaks of.
    fn atn(&self) -> &Atn
        ensures { result.now ≡ atn self.now };

    /// The within-rule set of s.
    fn within(&mut self, s: usize) -> IntervalSet
        ensures keeps { KeepsNet atn agrees self.old self.new }
        ensures answers { agrees self.old →
            HoldsExactly result (Within (net_of (atn self.old)) s) };

    /// The kind of a state; none outside the net.
    fn kind(&self, s: usize) -> Option<StateKind>
        ensures kind { result ≡ kind_of (net_of (atn self.now)) s }
        ensures number { kind_number result ≡ kind_number_at (net_of (atn self.now)) s }
    {
        self.atn().state_kind(s)
    }

    /// The rule of a state; 0 outside the net.
    fn rule(&self, s: usize) -> usize
        ensures { result ≡ (state_at (net_of (atn self.now)) s).rule }
    {
        self.atn().state_rule(s)
    }

    /// The edges of a state; none outside the net.
    fn edges(&self, s: usize) -> &[Transition]
        ensures { result.now ≡ edges_of (net_of (atn self.now)) s }
    {
        self.atn().edges(s)
    }

    /// The start state of a rule; none past the last rule.
    fn start(&self, r: usize) -> Option<usize>
        ensures start { result ≡ start_of (net_of (atn self.now)) r }
        ensures number { start_number result ≡ start_number_at (net_of (atn self.now)) r }
    {
        self.atn().rule_start(r)
    }
}
