//! What the owner of a lent table knows once code that is generic has written to it.
ghost use Rattle.std.specs.Prelude.{◌≡◌, ◌<◌, ◌≤◌, [], ◌∷◌, ◌++◌, drop, length, None, ◌||◌, negsuc};
ghost use Rattle.leaves.specs.Adding.{Grown};
ghost use Rattle.leaves.specs.LeafLines.{leaf_line};
ghost use Rattle.reports.specs.Heard.{Told, Hears, told_at, told_of};
ghost use Rattle.reports.specs.Reports.{expects};

use crate::eof_watch::EofWatch;
use fixed_vec::BoundedList;
use interval_set::IntervalSet;
use leaves::{Leaf, LeafList, LeafTable, LeafWriter};
use reports::{Counter, Listener, Recorder, Report, ReportKind, notify_error_listeners};

pub(crate) fn add_two<L: LeafList>(l: &mut L, a: Leaf, b: Leaf)
    ensures same_memory { L.lent l.new ≡ L.lent l.old }
    ensures two { 1 < L.free l.old → Grown L.leaves L.free L.rest L.size l.old (a ∷ b ∷ []) l.new }
{
    let _ = l.add(a);
    let _ = l.add(b);
}

pub(crate) fn fill(table: &mut [Leaf], a: Leaf, b: Leaf)
    requires { 1 < length table.old }
    ensures { table.new ≡ a ∷ b ∷ drop 2 table.old }
{
    let mut t: LeafTable = BoundedList::new(table);
    add_two(&mut t, a, b);
}

pub(crate) fn write_two(table: &mut [u8], a: Leaf, b: Leaf)
    requires { 114 ≤ length table.old }
    ensures { table.new ≡ leaf_line a ++ leaf_line b ++ drop 114 table.old }
{
    let mut w = LeafWriter::new(table);
    add_two(&mut w, a, b);
}

pub(crate) fn report_two<L: Listener>(l: &mut L, a: Report, b: Report, expected: &IntervalSet)
    ensures same_memory { L.lent l.new ≡ L.lent l.old }
    ensures two { let told : Report → Told = λ r. told_of r (expects expected.now) in
        Hears L.heard L.kept L.keeps (told a ∷ told b ∷ []) l.old l.new }
{
    l.report(a, expected);
    l.report(b, expected);
}

pub(crate) fn record_two(table: &mut [Report], a: Report, b: Report, expected: &IntervalSet)
    requires { length table.old ≡ 1 }
    ensures { table.new ≡ a ∷ [] }
{
    let mut r = Recorder::new(table);
    report_two(&mut r, a, b, expected);
}

pub(crate) fn count_two(a: Report, b: Report, expected: &IntervalSet) -> u32
    ensures { result ≡ 2 }
{
    let mut c = Counter::new();
    report_two(&mut c, a, b, expected);
    c.heard()
}

// Two faults, at which these types were expected.
pub(crate) fn notify_two<L: Listener>(l: &mut L, first: &IntervalSet, second: &IntervalSet)
    ensures same_memory { L.lent l.new ≡ L.lent l.old }
    ensures two { let told : IntervalSet → Told = λ s. told_at ReportKind.InputMismatch None (1, 0) (expects s) in
        Hears L.heard L.kept L.keeps (told first.now ∷ told second.now ∷ []) l.old l.new }
{
    notify_error_listeners(l, ReportKind::InputMismatch, None, (1, 0), first);
    notify_error_listeners(l, ReportKind::InputMismatch, None, (1, 0), second);
}

// Whether EOF was expected at either fault, by a listener that keeps that.
pub(crate) fn eof_at_either(first: &IntervalSet, second: &IntervalSet) -> bool
    ensures { result ≡ (expects first.now (negsuc 0) || expects second.now (negsuc 0)) }
{
    let mut w = EofWatch::new();
    notify_two(&mut w, first, second);
    w.eof()
}
