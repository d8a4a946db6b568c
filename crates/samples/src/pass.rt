//! The pass net: any number of calls of a rule that takes the types 1, 2 and 3, and then the end of the input.
ghost use Rattle.std.specs.Prelude.{◌≡◌, IsOk, IfOk};
ghost use Rattle.errors.specs.Denials.{DeniesFirst};
ghost use Rattle.atn.specs.Checked.{net_of};
ghost use Rattle.ll1_analyzer.specs.Answers.{HoldsExactly};
ghost use Rattle.ll1_analyzer.specs.Chains.{StateFault};
ghost use Rattle.ll1_analyzer.specs.Sets.{Within};
ghost use Rattle.samples.specs.Pass.{pass, PassSets};

use crate::rows::{EDGES, RULES, STATES};
use atn::Atn;
use atn_graph::{Counts, Tables};
use errors::Denial;
use interval_set::IntervalSet;
use ll1_analyzer::{LL1Analyzer, next_tokens};

/// The pass net, read from its rows and checked. It is never denied, and the within-rule sets of four
/// of its states are known.
pub fn pass_net() -> Result<Atn, Denial>
    ensures accepted { IsOk result }
    ensures net { IfOk result (λ a. net_of a ≡ pass) }
    ensures sets { PassSets }
{
    Atn::check(&Tables {
        max_token_type: 3,
        counts: Counts {
            rules: 2,
            states: 11,
            edges: 10,
            intervals: 0,
        },
        rules: &RULES,
        states: &STATES,
        edges: &EDGES,
        intervals: &[],
    })
}

/// The within-rule set of a state of the pass net. A state past the last is denied.
pub fn pass_next_tokens(s: usize) -> Result<IntervalSet, Denial>
    ensures verdict { DeniesFirst (StateFault pass s) result }
    ensures holds { IfOk result (λ set. HoldsExactly set (Within pass s)) }
{
    let atn = pass_net()?;
    let mut analyzer = LL1Analyzer::new(&atn);
    next_tokens(&mut analyzer, s)
}
