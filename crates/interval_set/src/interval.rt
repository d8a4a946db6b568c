//! Intervals of numbers.
ghost use Rattle.std.specs.Prelude.{◌≡◌, pos, ◌+ℤ◌, ◌-ℤ◌, ◌<ℤ◌};
ghost use Rattle.std.specs.Int.{int_min, int_max};
ghost use Rattle.interval_set.specs.Intervals.{inside};

/// What a set holds in place of a token type where a walk can end with no token.
pub const EPSILON: i32 = -2;

/// The largest token type.
pub const MAX_TYPE: i32 = 255;

/// The numbers from a to b, both included, none where b is below a.
#[derive(Clone, Copy, PartialEq, Eq, Default, Debug)]
pub struct Interval {
    pub a: i32,
    pub b: i32,
}

impl Interval {
    /// The smallest interval that holds both.
    pub fn union(self, another: Interval) -> Interval
        ensures low { result.a ≡ int_min self.a another.a }
        ensures high { result.b ≡ int_max self.b another.b }
    {
        Interval {
            a: self.a.min(another.a),
            b: self.b.max(another.b),
        }
    }

    /// Whether x is one of its numbers.
    pub(crate) fn contains(self, x: i32) -> bool
        ensures { result ≡ inside self x }
    {
        self.a <= x && x <= self.b
    }

    /// What lies below the other, of an interval that begins below it.
    pub(crate) fn below(self, other: Interval) -> Interval
        requires { self.a <ℤ other.a }
        ensures low { result.a ≡ self.a }
        ensures high { result.b ≡ int_min self.b (other.a -ℤ pos 1) }
    {
        Interval {
            a: self.a,
            b: self.b.min(other.a - 1),
        }
    }

    /// What lies above the other, of an interval that ends above it.
    pub(crate) fn above(self, other: Interval) -> Interval
        requires { other.b <ℤ self.b }
        ensures low { result.a ≡ int_max self.a (other.b +ℤ pos 1) }
        ensures high { result.b ≡ self.b }
    {
        Interval {
            a: self.a.max(other.b + 1),
            b: self.b,
        }
    }
}
