//! Runs on which steps that are at fault break the tape law.
ghost use Rattle.std.specs.Prelude.{◌≡◌};
ghost use Rattle.recovery_samples.specs.Faulty.{types_of, opening as opening_calls, calls_of, Faulty};

use recovery_model::Call;

#[derive(Clone, Copy, PartialEq, Eq, Debug)]
pub enum Run {
    /// recovers, one after the other
    Recovers,
    /// a recover and a match, again and again
    Rounds,
}

const SEEK: Call = Call::Recover;

const TAKE: Call = Call::Match { token_type: 1 };

/// The calls with which every run begins.
pub fn opening() -> &'static [Call]
    ensures { result.now ≡ opening_calls }
{
    &[
        Call::Enter { rule: 0 },
        Call::State { state: 2 },
        Call::Enter { rule: 1 },
        Call::State { state: 7 },
    ]
}

impl Run {
    /// The types of the tape before EOF.
    pub fn types(self) -> &'static [u8]
        ensures { result.now ≡ types_of self }
    {
        match self {
            Run::Recovers => &[2, 1, 2, 3],
            Run::Rounds => &[1, 2, 3],
        }
    }

    /// The calls of the run, one after the other. The step keeps the law on them, and each of seven faulty ones breaks it on one.
    #[tactic(auto, using(crate::proofs::Broken::faulty))]
    pub fn calls(self) -> &'static [Call]
        ensures calls { result.now ≡ calls_of self }
        ensures each_breaks { Faulty }
    {
        match self {
            Run::Recovers => &[SEEK, SEEK, SEEK],
            Run::Rounds => &[
                SEEK, TAKE, SEEK, TAKE, SEEK, TAKE, SEEK, TAKE, SEEK, TAKE, SEEK, TAKE, SEEK, TAKE,
                SEEK, TAKE, SEEK, TAKE, SEEK, TAKE, SEEK, TAKE, SEEK, TAKE, SEEK, TAKE,
            ],
        }
    }
}
