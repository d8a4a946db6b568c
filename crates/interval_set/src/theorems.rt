//! What holds of all sets.
ghost use Rattle.interval_set.specs.declared.set.IntervalSet.{IntervalSet};
ghost use Rattle.interval_set.specs.Members.{intervals, same_ends, Canonical, Equal};
ghost use Rattle.std.specs.Cmp.Lexicographic.{pointwise};

/// Two sets that hold the same numbers have the same list of intervals, and what `==` computes
/// tells whether they do.
pub fn sets_are_canonical()
    ensures canonical { Canonical }
    ensures equal { (s t : IntervalSet)
        → Equal s t (pointwise same_ends (intervals s) (intervals t)) }
{}
