//! Reports of faults.
ghost use Rattle.std.specs.Prelude.{◌≡◌, ◌≤◌, false};
ghost use Rattle.interval_set.specs.Intervals.{smallest};
ghost use Rattle.interval_set.specs.Members.{holds};
ghost use Rattle.reports.specs.Reports.{report_number, expects, report_at, smallest_type, types_in};

use interval_set::IntervalSet;
use token::TokenType;

/// What the fault was.
#[derive(Clone, Copy, PartialEq, Eq, Debug)]
pub enum ReportKind {
    NoViableAlternative = 1,
    InputMismatch = 2,
    FailedPredicate = 3,
    UnwantedToken = 4,
    MissingToken = 5,
}

impl ReportKind {
    /// The kind's number, 1 to 5.
    pub fn number(self) -> u8
        ensures { result ≡ report_number self }
    {
        self as u8
    }
}

/// A fault at a token, and what would have fitted there.
#[derive(Clone, Copy, PartialEq, Eq, Debug)]
pub struct Report {
    pub kind: ReportKind,
    /// The token index, none if the token was made up.
    pub index: Option<u16>,
    pub line: u32,
    pub column: u32,
    /// How many types were expected: at most 257.
    pub expected: u16,
    /// The smallest of them; type 0 if there is none.
    pub smallest: TokenType,
}

// The set without -2, which is the number of no type.
fn types_of(expected: &IntervalSet) -> IntervalSet
    ensures types { holds result ≡ expects expected.now }
    ensures no_epsilon { holds result smallest ≡ false }
{
    let mut types = *expected;
    types.remove_one(-2);
    types
}

// How many types the set holds.
fn count_of(types: &IntervalSet) -> u16
    requires { holds types.now smallest ≡ false }
    ensures count { result ≡ types_in (holds types.now) }
    ensures bounded { result ≤ 257 }
{
    types.length() as u16
}

// The smallest type of the set, or type 0.
fn smallest_of(types: &IntervalSet) -> TokenType
    requires { holds types.now smallest ≡ false }
    ensures { result ≡ smallest_type (holds types.now) }
{
    let Some(smallest) = types.get_min() else {
        return TokenType::Of(0);
    };
    match u8::try_from(smallest) {
        Ok(t) => TokenType::Of(t),
        Err(_) => TokenType::Eof,
    }
}

impl Report {
    /// The report of a token where these types were expected; -2, which is no type, does not count.
    pub fn new(
        kind: ReportKind,
        index: Option<u16>,
        position: (u32, u32),
        expected: &IntervalSet,
    ) -> Report
        ensures report { result ≡ report_at kind index position (expects expected.now) }
        ensures bounded { result.expected ≤ 257 }
    {
        let types = types_of(expected);
        let (line, column) = position;
        Report {
            kind,
            index,
            line,
            column,
            expected: count_of(&types),
            smallest: smallest_of(&types),
        }
    }
}
