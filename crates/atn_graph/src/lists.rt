//! The lists of a net, and the check of their rules.
ghost use Rattle.std.specs.Prelude.{◌≡◌, Decides, MatchResult};
ghost use Rattle.errors.specs.declared.denial.Denial.TheVariants.{BrokenRule};
ghost use Rattle.atn_graph.specs.Net.{Runs, net, rule_at, state_at};
ghost use Rattle.atn_graph.specs.Rules.{in_rule, range_fits, interval_fits, all_fit, set_fits};
ghost use Rattle.atn_graph.specs.Rules.{kind_fits, RuleFits, PlaceFits, IsSoundNet};

use crate::atn_state::AtnState;
use crate::limits::{MAX_EDGES, MAX_INTERVALS, MAX_RULES, MAX_STATES};
use crate::transition::{Transition, TransitionKind};
use errors::Denial;
use fixed_vec::FixedVec;
use interval_set::Interval;

/// A rule, by the numbers of its start and its stop state.
#[derive(Clone, Copy, Default)]
pub struct Rule {
    pub start: usize,
    pub stop: usize,
}

/// The rows of a net with their numbers read, kinds by their names and indexes as indexes. That
/// they keep the rules of a net is not said. They are about 90 KB large: hand them on by reference.
#[derive(Clone, Drop)]
pub struct Lists {
    pub max_token_type: i32,
    pub rules: FixedVec<Rule, MAX_RULES>,
    pub states: FixedVec<AtnState, MAX_STATES>,
    pub edges: FixedVec<Transition, MAX_EDGES>,
    pub intervals: FixedVec<Interval, MAX_INTERVALS>,
}

impl Lists {
    // Whether t is a state of rule r.
    fn in_rule(&self, t: usize, r: usize) -> bool
        ensures { result ≡ in_rule (net self.now) t r }
    {
        self.states.get(t).is_some_and(|state| state.rule == r)
    }

    // Whether the interval lies within 1 to the largest type, low end first.
    fn range_fits(&self, i: Interval) -> bool
        ensures { result ≡ range_fits (net self.now) i }
    {
        1 <= i.a && i.a <= i.b && i.b <= self.max_token_type
    }

    // Whether the interval is such a range, or just EOF.
    fn interval_fits(&self, i: Interval) -> bool
        ensures { result ≡ interval_fits (net self.now) i }
    {
        (i.a == -1 && i.b == -1) || self.range_fits(i)
    }

    // Whether the count intervals from number first on are a set: one interval or more, all there.
    fn set_fits(&self, first: usize, count: usize) -> bool
        ensures { result ≡ set_fits (net self.now) first count }
    {
        count >= 1
            && first <= self.intervals.len()
            && count <= self.intervals.len() - first
            && self.all_fit(&self.intervals[first..first + count])
    }

    fn all_fit(&self, set: &[Interval]) -> bool
        ensures { result ≡ all_fit (net self.now) set.now }
    {
        set.iter().all(|i| self.interval_fits(*i))
    }

    // Whether an edge of the state keeps the rules of its kind.
    fn edge_fits(&self, state: AtnState, e: Transition) -> bool
        ensures { result ≡ kind_fits (net self.now) state e.target e.kind }
    {
        match e.kind {
            TransitionKind::Rule { rule, follow } => {
                state.first < state.end
                    && state.end - state.first == 1
                    && self.rules.get(rule).is_some_and(|r| r.start == e.target)
                    && self.in_rule(follow, state.rule)
            }
            TransitionKind::Epsilon
            | TransitionKind::Predicate
            | TransitionKind::Action
            | TransitionKind::Wildcard
            | TransitionKind::Precedence => self.in_rule(e.target, state.rule),
            TransitionKind::Range(i) => self.in_rule(e.target, state.rule) && self.range_fits(i),
            TransitionKind::Atom(label) => {
                self.in_rule(e.target, state.rule)
                    && self.interval_fits(Interval { a: label, b: label })
            }
            TransitionKind::Set { first, count } | TransitionKind::NotSet { first, count } => {
                self.in_rule(e.target, state.rule) && self.set_fits(first, count)
            }
        }
    }

    // Whether the start and the stop state of rule number r lie in it.
    fn rule_fits(&self, r: usize, rule: Rule) -> bool
        requires { rule ≡ rule_at (net self.now) r }
        ensures { Decides result (RuleFits (net self.now) r) }
    {
        self.in_rule(rule.start, r) && self.in_rule(rule.stop, r)
    }

    // Whether state number s keeps the rules of states, its edges apart.
    fn place_fits(&self, s: usize, state: AtnState) -> bool
        requires { state ≡ state_at (net self.now) s }
        ensures { Decides result (PlaceFits (net self.now) s) }
    {
        if state.rule >= self.rules.len() {
            return false;
        }
        let rule = self.rules[state.rule];
        let is_stop = state.kind.is_stop();
        state.kind.is_start() == (s == rule.start)
            && is_stop == (s == rule.stop)
            && is_stop == (state.first == state.end)
    }

    /// Denied with `BrokenRule` where a rule of a net is broken, left recursion apart.
    pub(crate) fn check_rules(&self) -> Result<(), Denial>
        requires { Runs (net self.now) }
        ensures { MatchResult result
            (λ _. IsSoundNet (net self.now))
            (λ d. (d ≡ BrokenRule) × (IsSoundNet (net self.now) → ⊥)) }
    {
        for (r, rule) in self.rules.iter().enumerate() {
            if !self.rule_fits(r, *rule) {
                return Err(Denial::BrokenRule);
            }
        }
        if self.states.last().map_or(0, |state| state.end) != self.edges.len() {
            return Err(Denial::BrokenRule);
        }
        // one way out of both loops, with the denial
        'check: {
            for (s, state) in self.states.iter().enumerate() {
                if !self.place_fits(s, *state) {
                    break 'check Err(Denial::BrokenRule);
                }
                for edge in &self.edges[state.first..state.end] {
                    if !self.edge_fits(*state, *edge) {
                        break 'check Err(Denial::BrokenRule);
                    }
                }
            }
            Ok(())
        }
    }
}
