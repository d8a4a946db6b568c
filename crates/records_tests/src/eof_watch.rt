//! A listener that keeps something of the types expected.
ghost use Rattle.std.specs.Prelude.{◌≡◌, Bool, false, ◌||◌, negsuc};

use interval_set::IntervalSet;
use reports::{Counter, Listener, Report};

// Keeps whether EOF was expected at any fault so far.
#[derive(Clone, Copy)]
pub(crate) struct EofWatch {
    counter: Counter,
    eof: bool,
}

impl EofWatch {
    pub(crate) fn new() -> EofWatch
        ensures { ⟦<EofWatch as Listener>⟧.kept result ≡ false }
    {
        EofWatch {
            counter: Counter::new(),
            eof: false,
        }
    }

    pub(crate) fn eof(&self) -> bool
        ensures { result ≡ ⟦<EofWatch as Listener>⟧.kept self.now }
    {
        self.eof
    }
}

impl Listener for EofWatch {
    ghost heard = { λ w. ⟦<Counter as Listener>⟧.heard w.counter };

    ghost Kept = { Bool };

    ghost kept = { λ w. w.eof };

    ghost keeps = { λ t eof. eof || t.types (negsuc 0) };

    ghost lent = { λ w. ⟦<Counter as Listener>⟧.lent w.counter };

    fn report(&mut self, report: Report, expected: &IntervalSet) {
        self.counter.report(report, expected);
        self.eof |= expected.contains(-1);
    }
}
