//! A recorder of reports.
ghost use Rattle.std.specs.Prelude.{◌≡◌, ◌-◌, ◌≤◌, ◌++◌, [], ◌∷◌, None, length, take, drop};
ghost use Rattle.reports.specs.Heard.{Listing, lists};

use crate::counter::Counter;
use crate::listener::Listener;
use crate::report::Report;
use fixed_vec::BoundedList;
use interval_set::IntervalSet;

/// Lists the first reports, in the first `len` places of the memory, and counts all of them.
// It holds the memory and no `BoundedList`, so that whoever lent the memory knows what is in it.
#[derive(Drop)]
pub struct Recorder<'a> {
    slots: &'a mut [Report],
    len: usize,
    counter: Counter,
    ghost bounded: { len ≤ length slots.now },
}

impl<'a> Recorder<'a> {
    /// A recorder that has heard nothing.
    pub fn new(slots: &'a mut [Report]) -> Recorder<'a>
        ensures same_memory { result.slots.ghost_name ≡ slots.entry.ghost_name }
        ensures untouched { result.slots.now ≡ slots.old }
        ensures empty { result.len ≡ 0 }
        ensures heard { result.counter.heard ≡ 0 }
        ensures latest { result.counter.latest ≡ None }
    {
        Recorder {
            slots,
            len: 0,
            counter: Counter::new(),
        }
    }

    /// How many reports were heard, or 4,294,967,295 if they were more.
    pub fn heard(&self) -> u32
        ensures { result ≡ self.now.counter.heard }
    {
        self.counter.heard()
    }

    /// The latest report, whether it is listed or not.
    pub fn latest(&self) -> Option<Report>
        ensures { result ≡ self.now.counter.latest }
    {
        self.counter.latest()
    }

    /// The reports that are listed, in their order.
    pub fn reports(&self) -> &[Report]
        ensures { result.now ≡ take self.now.len self.now.slots.now }
    {
        &self.slots[..self.len]
    }
}

impl<'a> Listener for Recorder<'a> {
    ghost heard = { λ r. record { count = r.counter.heard; latest = r.counter.latest } };

    ghost Kept = { Listing };

    ghost kept = { λ r. record { listed = take r.len r.slots.now; free = drop r.len r.slots.now } };

    ghost keeps = { lists };

    ghost lent = { λ r. r.slots.ghost_name ∷ [] };

    fn report(&mut self, report: Report, expected: &IntervalSet) {
        self.counter.report(report, expected);
        self.len = list_report(self.slots, self.len, report);
    }
}

// One report more in the list of the first `len` places, if one is free. Says how many it has then.
fn list_report(slots: &mut [Report], len: usize, report: Report) -> usize
    requires { len ≤ length slots.old }
    ensures bounded { result ≤ length slots.new }
    ensures listed { take result slots.new ≡
        take len slots.old ++ take (length slots.old - len) (report ∷ []) }
    ensures free { drop result slots.new ≡ drop 1 (drop len slots.old) }
{
    let mut list = BoundedList::resume(slots, len);
    // a full list stays as it is
    let _ = list.push(report);
    list.len()
}
