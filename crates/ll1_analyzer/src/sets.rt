//! The four sets of token types that may come next, over any lookahead.
ghost use Rattle.std.specs.Prelude.{◌≡◌, ◌∷◌, IfOk, OnErr};
ghost use Rattle.errors.specs.Denials.{DeniesFirst};
ghost use Rattle.atn.specs.Checked.{net_of};
ghost use Rattle.ll1_analyzer.specs.Answers.{HoldsExactly, KeepsNet};
ghost use Rattle.ll1_analyzer.specs.Chains.{follow_states, StateFault, ChainFault, QuestionFault};
ghost use Rattle.ll1_analyzer.specs.Sets.{Within, InContext, Joined, Expected, Recovery};

use crate::chain::follow_list;
use crate::lookahead::{EOF, EPSILON, Lookahead};
use errors::Denial;
use interval_set::IntervalSet;

/// The within-rule set of s. Denied with `StateOutside` if s lies outside the net.
pub fn next_tokens<L: Lookahead>(l: &mut L, s: usize) -> Result<IntervalSet, Denial>
    ensures keeps { KeepsNet L.atn L.agrees l.old l.new }
    ensures denied_alters_nothing { OnErr result (l.new ≡ l.old) }
    ensures verdict { DeniesFirst (StateFault (net_of (L.atn l.old)) s) result }
    ensures holds { L.agrees l.old → let n = net_of (L.atn l.old) in
        IfOk result (λ set. HoldsExactly set (Within n s)) }
{
    l.kind(s).ok_or(Denial::StateOutside)?;
    Ok(l.within(s))
}

// The within-rule sets of s and of the follow states in their order, as far as each holds EPSILON;
// EOF if the last of all holds it.
fn join<L: Lookahead>(l: &mut L, s: usize, follows: &[usize]) -> IntervalSet
    ensures keeps { KeepsNet L.atn L.agrees l.old l.new }
    ensures joins { L.agrees l.old →
        HoldsExactly result (Joined (net_of (L.atn l.old)) (s ∷ follows.now)) }
{
    let mut set = l.within(s);
    for f in follows {
        if !set.contains(EPSILON) {
            return set;
        }
        set.remove_one(EPSILON);
        set.add_set(&l.within(*f));
    }
    if set.contains(EPSILON) {
        set.remove_one(EPSILON);
        // it is one of the numbers of sets, so it is not denied
        let _ = set.add_one(EOF);
    }
    set
}

/// The expected set of s with the follow states of the chain. Denied with `FaultyChain` if the
/// chain is faulty, else with `StateOutside` if s lies outside the net.
pub fn get_expected_tokens<L: Lookahead>(
    l: &mut L,
    s: usize,
    chain: &[usize],
) -> Result<IntervalSet, Denial>
    ensures keeps { KeepsNet L.atn L.agrees l.old l.new }
    ensures denied_alters_nothing { OnErr result (l.new ≡ l.old) }
    ensures verdict { DeniesFirst (QuestionFault (net_of (L.atn l.old)) s chain.now) result }
    ensures holds { L.agrees l.old → let n = net_of (L.atn l.old) in
        IfOk result (λ set. HoldsExactly set (Expected n s (follow_states n chain.now))) }
{
    let follows = follow_list(l, chain)?;
    l.kind(s).ok_or(Denial::StateOutside)?;
    Ok(join(l, s, follows.as_slice()))
}

/// The in-context set of s: walks that begin with the follow states stacked end with the types that
/// the within-rule sets join to. Denied as the expected set is.
pub fn next_tokens_in_ctx<L: Lookahead>(
    l: &mut L,
    s: usize,
    chain: &[usize],
) -> Result<IntervalSet, Denial>
    ensures keeps { KeepsNet L.atn L.agrees l.old l.new }
    ensures denied_alters_nothing { OnErr result (l.new ≡ l.old) }
    ensures verdict { DeniesFirst (QuestionFault (net_of (L.atn l.old)) s chain.now) result }
    ensures holds { L.agrees l.old → let n = net_of (L.atn l.old) in
        IfOk result (λ set. HoldsExactly set (InContext n s (follow_states n chain.now))) }
{
    get_expected_tokens(l, s, chain)
}

/// The recovery set of the chain. Denied with `FaultyChain` if the chain is faulty.
pub fn get_error_recovery_set<L: Lookahead>(
    l: &mut L,
    chain: &[usize],
) -> Result<IntervalSet, Denial>
    ensures keeps { KeepsNet L.atn L.agrees l.old l.new }
    ensures denied_alters_nothing { OnErr result (l.new ≡ l.old) }
    ensures verdict { DeniesFirst (ChainFault (net_of (L.atn l.old)) chain.now) result }
    ensures holds { L.agrees l.old → let n = net_of (L.atn l.old) in
        IfOk result (λ set. HoldsExactly set (Recovery n (follow_states n chain.now))) }
{
    let follows = follow_list(l, chain)?;
    let mut set = IntervalSet::new();
    for f in follows.as_slice() {
        set.add_set(&l.within(*f));
    }
    set.remove_one(EPSILON);
    Ok(set)
}
