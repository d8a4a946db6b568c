//! Listeners to reports.
ghost use Rattle.std.specs.Prelude.{◌≡◌, List, [], ◌∷◌};
ghost use Rattle.std.specs.Borrow.{GName};
ghost use Rattle.reports.specs.Heard.{Told, Heard, Hears, told_at, told_of};
ghost use Rattle.reports.specs.Reports.{expects};

use crate::report::{Report, ReportKind};
use interval_set::IntervalSet;

/// Hears each report, with the set of the types that were expected, and never refuses one.
pub trait Listener {
    ghost heard: { Self → Heard };

    // What it keeps of all that it was told, beside that, and what it keeps of one report.
    ghost Kept: { Type 0 };

    ghost kept: { Self → Kept };

    ghost keeps: { Told → Kept → Kept };

    // The loans of the memory in which it lists reports.
    ghost lent: { Self → List GName };

    /// Is told of a report, and of the set of the types that were expected.
    fn report(&mut self, report: Report, expected: &IntervalSet)
        ensures hears { let told = told_of report (expects expected.now) in
            Hears heard kept keeps (told ∷ []) self.old self.new }
        ensures same_memory { lent self.new ≡ lent self.old };
}

/// Tells the listener of a fault at a token, with the types that were expected there.
pub fn notify_error_listeners<H: Listener>(
    listener: &mut H,
    kind: ReportKind,
    index: Option<u16>,
    position: (u32, u32),
    expected: &IntervalSet,
)
    ensures hears { let told = told_at kind index position (expects expected.now) in
        Hears H.heard H.kept H.keeps (told ∷ []) listener.old listener.new }
    ensures same_memory { H.lent listener.new ≡ H.lent listener.old }
{
    let report = Report::new(kind, index, position, expected);
    listener.report(report, expected);
}
