//! Sets of the numbers -2 to 255.
ghost use Rattle.std.specs.Prelude.{◌≡◌, true, not, ◌&&◌, ◌||◌, [], ◌∷◌, ◌++◌, ℤ};
ghost use Rattle.fixed_vec.specs.Items.{items};
ghost use Rattle.interval_set.specs.Intervals.{from_to, inside, numbers, rising};

use crate::interval::{EPSILON, Interval, MAX_TYPE};
use errors::Denial;
use fixed_vec::FixedVec;

// The places for intervals: a set that holds every second number has the most, 129.
const MAX_INTERVALS: usize = 130;

/// Numbers from -2 to 255, as rising intervals of which no two touch or overlap.
#[derive(Clone, Copy)]
pub struct IntervalSet {
    intervals: FixedVec<Interval, MAX_INTERVALS>,
    ghost rising: { rising (items intervals) ≡ true },
}

impl IntervalSet {
    ghost use Rattle.interval_set.specs.Members.{intervals, holds, how_many};
    ghost use Rattle.interval_set.specs.Members.{Added, Complement, Smallest};

    /// A set with no numbers.
    pub fn new() -> IntervalSet
        ensures empty { intervals result ≡ [] }
    {
        IntervalSet {
            intervals: FixedVec::new(),
        }
    }

    /// The smallest number, None of an empty set.
    pub fn get_min(&self) -> Option<i32>
        ensures { Smallest self.now result }
    {
        self.intervals.first().map(|i| i.a)
    }

    /// Adds a number. Denied with `SetValue` where it is not one of -2 to 255.
    pub fn add_one(&mut self, v: i32) -> Result<(), Denial>
        ensures { Added self.old (from_to v v) result self.new }
    {
        self.add_range(v, v)
    }

    /// Adds the numbers from low to high, none where low is above high. Denied with `SetValue`
    /// where one of them is not one of -2 to 255.
    pub fn add_range(&mut self, low: i32, high: i32) -> Result<(), Denial>
        ensures { Added self.old (from_to low high) result self.new }
    {
        self.add_interval(Interval { a: low, b: high })
    }

    /// Adds the numbers of an interval. Denied with `SetValue` where one of them is not one of
    /// -2 to 255.
    pub fn add_interval(&mut self, added: Interval) -> Result<(), Denial>
        ensures { Added self.old added result self.new }
    {
        if added.b < added.a {
            return Ok(());
        }
        if added.a < EPSILON || added.b > MAX_TYPE {
            return Err(Denial::SetValue);
        }
        self.merge(added);
        Ok(())
    }

    // Adds an interval that is not empty and lies within -2..255. `joined` is what is still to be
    // written: an interval left of it and apart goes before it, one right of it and apart takes its
    // place, and one that touches it is joined with it.
    fn merge(&mut self, added: Interval)
        requires { rising (added ∷ []) ≡ true }
        ensures { (x : ℤ) → holds self.new x ≡ (holds self.old x || inside added x) }
    {
        let mut out = IntervalSet::new();
        let mut joined = added;
        for i in self.intervals() {
            if i.b + 1 < joined.a {
                out.append(*i);
            } else if joined.b + 1 < i.a {
                out.append(joined);
                joined = *i;
            } else {
                joined = joined.union(*i);
            }
        }
        out.append(joined);
        *self = out;
    }

    // One interval more, past all that the set holds.
    fn append(&mut self, i: Interval)
        requires { rising (intervals self.old ++ (i ∷ [])) ≡ true }
        ensures { intervals self.new ≡ intervals self.old ++ (i ∷ []) }
    {
        // a rising list always leaves room
        let _ = self.intervals.push(i);
    }

    /// Adds the numbers of the other set.
    pub fn add_set(&mut self, other: &IntervalSet)
        ensures { (x : ℤ) → holds self.new x ≡ (holds self.old x || holds other.now x) }
    {
        for i in other.intervals() {
            self.merge(*i);
        }
    }

    /// The numbers from start to stop that the set does not hold. Denied with `SetValue` where one
    /// of the numbers from start to stop is not one of -2 to 255.
    pub fn complement(&self, start: i32, stop: i32) -> Result<IntervalSet, Denial>
        ensures { Complement self.now (from_to start stop) result }
    {
        let mut vocabulary = IntervalSet::new();
        vocabulary.add_range(start, stop)?;
        vocabulary.subtract(self);
        Ok(vocabulary)
    }

    /// Removes the numbers of the other set.
    pub fn subtract(&mut self, right: &IntervalSet)
        ensures { (x : ℤ) → holds self.new x ≡ (holds self.old x && not (holds right.now x)) }
    {
        for i in right.intervals() {
            self.remove_interval(*i);
        }
    }

    /// Removes the numbers of an interval.
    pub fn remove_interval(&mut self, removed: Interval)
        ensures { (x : ℤ) → holds self.new x ≡ (holds self.old x && not (inside removed x)) }
    {
        if removed.b < removed.a {
            return;
        }
        // of each interval stays what lies below the removed one and what lies above it
        let mut out = IntervalSet::new();
        for i in self.intervals() {
            if i.a < removed.a {
                out.append(i.below(removed));
            }
            if removed.b < i.b {
                out.append(i.above(removed));
            }
        }
        *self = out;
    }

    /// Removes a number.
    pub fn remove_one(&mut self, el: i32)
        ensures { (x : ℤ) → holds self.new x
            ≡ (holds self.old x && not (inside (from_to el el) x)) }
    {
        self.remove_interval(Interval { a: el, b: el });
    }

    /// Whether the set holds the number.
    pub fn contains(&self, item: i32) -> bool
        ensures { result ≡ holds self.now item }
    {
        self.intervals().iter().any(|i| i.contains(item))
    }

    /// How many numbers the set holds: at most 258.
    pub fn length(&self) -> usize
        ensures { result ≡ how_many numbers (holds self.now) }
    {
        let mut n = 0;
        for i in self.intervals() {
            n += (i.b - i.a + 1) as usize;
        }
        n
    }

    /// The intervals, rising, no two touching or overlapping.
    pub fn intervals(&self) -> &[Interval]
        ensures { result.now ≡ intervals self.now }
    {
        self.intervals.as_slice()
    }
}

/// Whether two sets hold the same numbers. A derived `==` would compare the places past the
/// intervals too.
impl PartialEq for IntervalSet {
    ghost use Rattle.std.specs.Cmp.{on_per};
    ghost use Rattle.std.specs.Cmp.Lexicographic.{pointwise, lists_per};
    ghost use Rattle.interval_set.specs.Members.{intervals, same_ends, same_ends_laws, Equal};

    ghost eq = { λ s t. pointwise same_ends (intervals s) (intervals t) };

    ghost laws = { on_per intervals (lists_per same_ends_laws) };

    fn eq(&self, other: &IntervalSet) -> bool
        ensures answers { result
            ≡ pointwise same_ends (intervals self.now) (intervals other.now) }
        ensures equal { Equal self.now other.now result }
    {
        self.intervals() == other.intervals()
    }
}
