//! The calls of a parser.
ghost use Rattle.std.specs.Prelude.{◌≡◌};
ghost use Rattle.recovery_model.specs.Calls.{call_number};

/// A call, with the numbers that it is given: these may be any, and are judged by the call.
#[derive(Clone, Copy, PartialEq, Eq, Debug)]
pub enum Call {
    State { state: u32 },
    Enter { rule: u32 },
    Leave,
    Match { token_type: i32 },
    Wildcard,
    Sync,
    Report { kind: u32 },
    Recover,
}

impl Call {
    /// The call's number, from 1, in the order in which they stand here.
    pub fn number(self) -> u8
        ensures { result ≡ call_number self }
    {
        match self {
            Call::State { .. } => 1,
            Call::Enter { .. } => 2,
            Call::Leave => 3,
            Call::Match { .. } => 4,
            Call::Wildcard => 5,
            Call::Sync => 6,
            Call::Report { .. } => 7,
            Call::Recover => 8,
        }
    }
}
