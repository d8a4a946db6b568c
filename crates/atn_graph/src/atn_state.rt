//! States and their kinds.
ghost use Rattle.std.specs.Prelude.{◌≡◌, pos};
ghost use Rattle.atn_graph.specs.Kinds.{KindNumbered, state_kind_number, is_start, is_stop};

use errors::Denial;

/// The kinds of states, by the names and numbers of ANTLR's serialized networks.
#[derive(Clone, Copy, PartialEq, Eq, Default, Debug)]
pub enum StateKind {
    #[default]
    Basic = 1,
    RuleStart = 2,
    BlockStart = 3,
    PlusBlockStart = 4,
    StarBlockStart = 5,
    RuleStop = 7,
    BlockEnd = 8,
    StarLoopBack = 9,
    StarLoopEntry = 10,
    PlusLoopBack = 11,
    LoopEnd = 12,
}

impl StateKind {
    /// Its number in ANTLR's serialized networks.
    pub fn number(self) -> i32
        ensures { result ≡ pos (state_kind_number self) }
    {
        self as i32
    }

    /// Whether it is the kind of a rule's start state.
    pub fn is_start(self) -> bool
        ensures { result ≡ is_start self }
    {
        matches!(self, StateKind::RuleStart)
    }

    /// Whether it is the kind of a rule's stop state.
    pub fn is_stop(self) -> bool
        ensures { result ≡ is_stop self }
    {
        matches!(self, StateKind::RuleStop)
    }
}

/// The kind with that number. Denied with `BrokenRule` where no kind has it.
impl TryFrom<i32> for StateKind {
    type Error = Denial;

    ghost try_from_gives = { KindNumbered };

    fn try_from(n: i32) -> Result<StateKind, Denial> {
        match n {
            1 => Ok(StateKind::Basic),
            2 => Ok(StateKind::RuleStart),
            3 => Ok(StateKind::BlockStart),
            4 => Ok(StateKind::PlusBlockStart),
            5 => Ok(StateKind::StarBlockStart),
            7 => Ok(StateKind::RuleStop),
            8 => Ok(StateKind::BlockEnd),
            9 => Ok(StateKind::StarLoopBack),
            10 => Ok(StateKind::StarLoopEntry),
            11 => Ok(StateKind::PlusLoopBack),
            12 => Ok(StateKind::LoopEnd),
            _ => Err(Denial::BrokenRule),
        }
    }
}

/// A state of rule number `rule`. Its edges are those numbered from `first` up to `end`, `end`
/// excluded, among the edges of the net.
#[derive(Clone, Copy, Default)]
pub struct AtnState {
    pub rule: usize,
    pub kind: StateKind,
    pub first: usize,
    pub end: usize,
}
