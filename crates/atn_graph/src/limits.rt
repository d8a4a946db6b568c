//! Tables that are too short, and counts outside their limits.
ghost use Rattle.std.specs.Prelude.{◌≡◌};
ghost use Rattle.atn_graph.specs.Tables.{rows, shorter, short_table};
ghost use Rattle.atn_graph.specs.Tables.{outside, counts_outside, outside_limits};

use crate::tables::{Counts, Tables};
use interval_set::MAX_TYPE;

/// How many rules a net has at most.
pub const MAX_RULES: usize = 64;

/// How many states a net has at most.
pub const MAX_STATES: usize = 512;

/// How many edges a net has at most.
pub const MAX_EDGES: usize = 2_048;

/// How many intervals the sets of a net have together at most.
pub const MAX_INTERVALS: usize = 1_024;

// Whether a table of len rows is shorter than its count.
fn is_shorter(len: usize, count: i32) -> bool
    ensures { result ≡ shorter len count }
{
    usize::try_from(count).is_ok_and(|count| len < count)
}

/// Whether a table has fewer rows than its count.
pub fn is_short(t: &Tables<'_>) -> bool
    ensures { result ≡ short_table (rows t.now) }
{
    is_shorter(t.rules.len(), t.counts.rules)
        || is_shorter(t.states.len(), t.counts.states)
        || is_shorter(t.edges.len(), t.counts.edges)
        || is_shorter(t.intervals.len(), t.counts.intervals)
}

// Whether a number is not one of low to high.
fn is_beyond(n: i32, low: usize, high: usize) -> bool
    ensures { result ≡ outside low high n }
{
    !usize::try_from(n).is_ok_and(|n| low <= n && n <= high)
}

// A net has a rule, and a rule has a start and a stop state.
fn are_outside(c: Counts) -> bool
    ensures { result ≡ counts_outside c }
{
    is_beyond(c.rules, 1, MAX_RULES)
        || is_beyond(c.states, 2, MAX_STATES)
        || is_beyond(c.edges, 0, MAX_EDGES)
        || is_beyond(c.intervals, 0, MAX_INTERVALS)
}

/// Whether a count, or the largest token type, is outside its limits.
pub fn is_outside(t: &Tables<'_>) -> bool
    ensures { result ≡ outside_limits (rows t.now) }
{
    are_outside(t.counts) || is_beyond(t.max_token_type, 1, MAX_TYPE as usize)
}
