//! The labels of edges: the token types that an edge takes.
ghost use Rattle.std.specs.Prelude.{◌≡◌, true, not, ◌&&◌, ◌||◌, ℤ, ◌⊎◌, Decides};
ghost use Rattle.interval_set.specs.Intervals.{inside, has};
ghost use Rattle.interval_set.specs.Members.{holds};
ghost use Rattle.atn_graph.specs.Rules.{part, interval_fits, set_fits, LabelFits};
ghost use Rattle.atn.specs.Checked.{net_of};
ghost use Rattle.atn.specs.Labels.{is_net_type, takes, Labels, TakesAt};

use crate::atn::Atn;
use atn_graph::TransitionKind;
use interval_set::{Interval, IntervalSet};

impl Atn {
    // Adds the numbers of an interval that fits the net.
    fn add_interval(&self, i: Interval, set: &mut IntervalSet)
        requires { interval_fits (net_of self.now) i ≡ true }
        ensures { (x : ℤ) → holds set.new x ≡ (holds set.old x || inside i x) }
    {
        // it lies within -1..255, so it is not denied
        let _ = set.add_interval(i);
    }

    // Adds the numbers of count intervals from number first on.
    fn add_part(&self, first: usize, count: usize, set: &mut IntervalSet)
        requires { set_fits (net_of self.now) first count ≡ true }
        ensures { (x : ℤ)
            → holds set.new x ≡ (holds set.old x || has (part (net_of self.now) first count) x) }
    {
        for i in &self.graph.lists.intervals[first..first + count] {
            // each lies within -1..255, so none is denied
            let _ = set.add_interval(*i);
        }
    }

    // Adds every type of the net.
    fn add_types(&self, set: &mut IntervalSet)
        ensures { (x : ℤ)
            → holds set.new x ≡ (holds set.old x || is_net_type (net_of self.now) x) }
    {
        let types = Interval {
            a: 1,
            b: self.graph.lists.max_token_type,
        };
        self.add_interval(types, set);
    }

    // Every type of the net but the numbers of count intervals from number first on.
    fn types_but(&self, first: usize, count: usize) -> IntervalSet
        requires { set_fits (net_of self.now) first count ≡ true }
        ensures { (x : ℤ) → holds result x
            ≡ (is_net_type (net_of self.now) x && not (has (part (net_of self.now) first count) x)) }
    {
        let mut types = IntervalSet::new();
        self.add_types(&mut types);
        for i in &self.graph.lists.intervals[first..first + count] {
            types.remove_interval(*i);
        }
        types
    }

    // Adds the types that an edge of the kind takes.
    fn add_label(&self, kind: TransitionKind, set: &mut IntervalSet)
        requires { LabelFits (net_of self.now) kind }
        ensures { (x : ℤ) → holds set.new x ≡ (holds set.old x || takes (net_of self.now) kind x) }
    {
        match kind {
            TransitionKind::Range(i) => self.add_interval(i, set),
            TransitionKind::Atom(t) => self.add_interval(Interval { a: t, b: t }, set),
            TransitionKind::Set { first, count } => self.add_part(first, count, set),
            TransitionKind::NotSet { first, count } => set.add_set(&self.types_but(first, count)),
            TransitionKind::Wildcard => self.add_types(set),
            TransitionKind::Epsilon
            | TransitionKind::Rule { .. }
            | TransitionKind::Predicate
            | TransitionKind::Action
            | TransitionKind::Precedence => {}
        }
    }

    /// The types that edge number j takes, None past the last edge.
    pub fn label(&self, j: usize) -> Option<IntervalSet>
        ensures { Labels (net_of self.now) j result }
    {
        let edge = self.edge(j)?;
        let mut set = IntervalSet::new();
        self.add_label(edge.kind, &mut set);
        Some(set)
    }

    /// Adds the types that the edges of state number s take, none past the last state.
    pub fn add_labels(&self, s: usize, set: &mut IntervalSet)
        ensures { (x : ℤ)
            → Decides (holds set.new x) ((holds set.old x ≡ true) ⊎ TakesAt (net_of self.now) s x) }
    {
        for e in self.edges(s) {
            self.add_label(e.kind, set);
        }
    }
}
