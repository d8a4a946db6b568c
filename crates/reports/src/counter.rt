//! A counter of reports.
ghost use Rattle.std.specs.Prelude.{◌≡◌, [], None};

use crate::listener::Listener;
use crate::report::Report;
use interval_set::IntervalSet;

/// Counts reports, and keeps the latest.
#[derive(Clone, Copy, PartialEq, Eq, Debug)]
pub struct Counter {
    heard: u32,
    latest: Option<Report>,
}

impl Counter {
    /// A counter that has heard nothing.
    pub fn new() -> Counter
        ensures heard { result.heard ≡ 0 }
        ensures latest { result.latest ≡ None }
    {
        Counter {
            heard: 0,
            latest: None,
        }
    }

    /// How many reports were heard, or 4,294,967,295 if they were more.
    pub fn heard(&self) -> u32
        ensures { result ≡ self.now.heard }
    {
        self.heard
    }

    /// The latest report.
    pub fn latest(&self) -> Option<Report>
        ensures { result ≡ self.now.latest }
    {
        self.latest
    }
}

impl Listener for Counter {
    ghost heard = { λ c. record { count = c.heard; latest = c.latest } };

    ghost Kept = { Unit {0} };

    ghost kept = { λ _. tt };

    ghost keeps = { λ _ k. k };

    ghost lent = { λ _. [] };

    fn report(&mut self, report: Report, _expected: &IntervalSet) {
        *self = Counter {
            heard: self.heard.saturating_add(1),
            latest: Some(report),
        };
    }
}
