//! Theorems about runs of calls, the sets that they look at, and the leaves that they add.
ghost use Rattle.std.specs.Prelude.{List};
ghost use Rattle.recovery_model.specs.TapeLaw.{TapeLaw, StrategyMatches, SetsAreWalks};
ghost use Rattle.recovery_model.specs.Sets.{WithinSets, Agree};
ghost use Rattle.recovery_model.specs.Existing.{SetsExist, SetsOnce};
ghost use Rattle.recovery_model.specs.Views.{View};
ghost use Rattle.recovery_model.specs.Coherent.{ViewsCohere};
ghost use Rattle.recovery_model.specs.Questions.{OwnSets};
ghost use Rattle.recovery_model.specs.Denials.{DeniedWithFirst};
ghost use Rattle.recovery_model.specs.Steps.{DeniedLeavesAll};
ghost use Rattle.recovery_model.specs.declared.call.Call.{Call};
ghost use Rattle.recovery_model.specs.LeafLimits.{ShownFits, MissingSymbolFits};
ghost use Rattle.atn.specs.declared.atn.Atn.{Atn};
ghost use Rattle.atn.specs.Checked.{net_of};
ghost use Rattle.atn_graph.specs.Net.{Net};
ghost use Rattle.token.specs.Tokens.{Fields};
ghost use Rattle.token_stream.specs.Streams.{Shows};

/// Every list of calls of a new parser keeps the tape law; and the strategy's state, by which it recovers, is
/// what the law's words say.
pub fn tape_law()
    ensures sets { (a : Atn) (w : WithinSets) → Agree (net_of a) w → SetsAreWalks a w }
    ensures law { TapeLaw }
    ensures notes { StrategyMatches }
{}

/// Every checked net has within-rule sets, as tests that agree with its walks; and no two that differ agree.
pub fn sets_exist()
    ensures exist { (a : Atn) → SetsExist a }
    ensures once { (n : Net) → SetsOnce n }
{}

/// A leaf can be made of every token that a stream shows, and of a missing symbol in the place of a token of the tape.
pub fn leaves_fit()
    ensures shown_leaves { (tape shown : List Fields) → Shows tape shown → ShownFits shown }
    ensures missing_symbols { (tape shown : List Fields) → Shows tape shown
        → MissingSymbolFits tape }
{}

/// Each view that the calls of a new parser lead to is coherent, so no question that a parser asks is denied; and the sets
/// that it asks for of itself are those that the steps look at.
pub fn views_cohere()
    ensures cohere { (a : Atn) → ViewsCohere a }
    ensures own_sets { (a : Atn) (w : WithinSets) (v : View) → Agree (net_of a) w
        → OwnSets (net_of a) w v }
{}

/// What a call is denied with is the first denial that it meets, and then it leaves the whole view.
pub fn denials_are_first()
    ensures first { (n : Net) (w : WithinSets) (c : Call) (v : View) → DeniedWithFirst n w c v }
    ensures leave_all { (n : Net) (w : WithinSets) (c : Call) (v : View) → DeniedLeavesAll n w c v }
{}
