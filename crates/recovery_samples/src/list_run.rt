//! A run in the list net, in which a pair is saved and a report kept back.
ghost use Rattle.std.specs.Prelude.{◌≡◌};
ghost use Rattle.recovery_samples.specs.ListRun.{list_tape, list_calls, ListRun};

use recovery_model::Call;

/// The types of the tape before EOF.
pub fn types() -> &'static [u8]
    ensures { result.now ≡ list_tape }
{
    &[2, 1, 1]
}

/// The calls of a new parser, one after the other. What each answers and does is known.
#[tactic(auto, using(crate::proofs::Listed::list_run))]
pub fn calls() -> &'static [Call]
    ensures calls { result.now ≡ list_calls }
    ensures run { ListRun }
{
    &[
        Call::Enter { rule: 0 },
        Call::State { state: 1 },
        Call::Enter { rule: 1 },
        Call::State { state: 6 },
        Call::Sync,
        Call::State { state: 5 },
        Call::Sync,
        Call::State { state: 7 },
        Call::Sync,
        Call::Report { kind: 1 },
        Call::Report { kind: 3 },
        Call::State { state: 6 },
        Call::Sync,
        Call::Leave,
        Call::State { state: 2 },
        Call::Match { token_type: 2 },
        Call::Match { token_type: 2 },
        Call::State { state: 1 },
        Call::Sync,
        Call::Report { kind: 2 },
    ]
}
