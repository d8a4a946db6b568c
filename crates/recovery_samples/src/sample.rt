//! The worked examples in the pass net: the tape, the calls that open it, and the calls in question.
ghost use Rattle.std.specs.Prelude.{◌≡◌};
ghost use Rattle.recovery_samples.specs.Examples.{types_of, opening_of, calls_of};
ghost use Rattle.recovery_samples.specs.Samples.{Samples};

use recovery_model::Call;

#[derive(Clone, Copy, PartialEq, Eq, Debug)]
pub enum Sample {
    /// a token is unwanted
    Extra,
    /// a token is missing
    Missing,
    /// a token is missing before the end of the input
    MissingLast,
    /// neither deletion nor insertion helps
    Mismatch,
    /// the same, and it is reported
    MismatchReported,
    /// no type that may follow is left
    ToTheEnd,
    /// no rule called the open one, so no type may follow it
    Outermost,
    /// a token is unwanted where a loop begins
    LoopEntry,
    /// tokens do not fit on the way back of a loop
    LoopBack,
}

impl Sample {
    /// The types of the tape before EOF.
    pub fn types(self) -> &'static [u8]
        ensures { result.now ≡ types_of self }
    {
        match self {
            Sample::Extra => &[1, 1, 2, 3],
            Sample::Missing => &[1, 3],
            Sample::MissingLast => &[1, 2],
            Sample::Mismatch | Sample::MismatchReported => &[1, 1, 1, 2, 3],
            Sample::ToTheEnd => &[2, 2, 3],
            Sample::Outermost => &[1, 1],
            Sample::LoopEntry => &[2, 1, 2, 3],
            Sample::LoopBack => &[1, 2, 3, 3, 2, 1, 2, 3],
        }
    }

    /// The calls that bring a new parser to where the example begins.
    pub fn opening(self) -> &'static [Call]
        ensures { result.now ≡ opening_of self }
    {
        match self {
            Sample::Extra | Sample::Missing | Sample::Mismatch | Sample::MismatchReported => &[
                Call::Enter { rule: 0 },
                Call::State { state: 2 },
                Call::Enter { rule: 1 },
                Call::State { state: 7 },
                Call::Match { token_type: 1 },
                Call::State { state: 8 },
            ],
            Sample::MissingLast => &[
                Call::Enter { rule: 0 },
                Call::State { state: 2 },
                Call::Enter { rule: 1 },
                Call::State { state: 7 },
                Call::Match { token_type: 1 },
                Call::State { state: 8 },
                Call::Match { token_type: 2 },
                Call::State { state: 9 },
            ],
            Sample::ToTheEnd => &[
                Call::Enter { rule: 0 },
                Call::State { state: 2 },
                Call::Enter { rule: 1 },
                Call::State { state: 7 },
            ],
            Sample::Outermost => &[Call::Enter { rule: 1 }, Call::State { state: 7 }],
            Sample::LoopEntry => &[Call::Enter { rule: 0 }, Call::State { state: 1 }],
            Sample::LoopBack => &[
                Call::Enter { rule: 0 },
                Call::State { state: 2 },
                Call::Enter { rule: 1 },
                Call::State { state: 7 },
                Call::Match { token_type: 1 },
                Call::State { state: 8 },
                Call::Match { token_type: 2 },
                Call::State { state: 9 },
                Call::Match { token_type: 3 },
                Call::Leave,
                Call::State { state: 3 },
            ],
        }
    }

    /// The calls of the example, one after the other. Where it begins, and what they answer and do, is known.
    #[tactic(auto, using(crate::proofs::Repaired::samples))]
    pub fn calls(self) -> &'static [Call]
        ensures calls { result.now ≡ calls_of self }
        ensures samples { Samples }
    {
        match self {
            Sample::Extra => &[Call::Match { token_type: 2 }, Call::Leave],
            Sample::Missing => &[Call::Match { token_type: 2 }],
            Sample::MissingLast => &[Call::Match { token_type: 3 }],
            Sample::Mismatch => &[Call::Match { token_type: 2 }, Call::Recover, Call::Recover],
            Sample::MismatchReported => &[
                Call::Match { token_type: 2 },
                Call::Report { kind: 2 },
                Call::Recover,
                Call::Recover,
            ],
            Sample::ToTheEnd => &[
                Call::Report { kind: 1 },
                Call::Recover,
                Call::Recover,
                Call::Recover,
            ],
            Sample::Outermost => &[Call::Report { kind: 3 }, Call::Recover],
            Sample::LoopEntry => &[Call::Sync],
            Sample::LoopBack => &[Call::Sync, Call::Sync],
        }
    }
}
