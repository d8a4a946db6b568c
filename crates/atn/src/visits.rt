//! The states that a search has found, in the order in which it found them.
ghost use Rattle.std.specs.Prelude.{◌≡◌, ℕ, ◌+◌, ◌<◌, false, [], length, slice_index_or};
ghost use Rattle.fixed_vec.specs.Items.{items};
ghost use Rattle.atn_graph.specs.Tables.{max_states};
ghost use Rattle.atn.specs.Marks.{elem, unmarked};

use atn_graph::MAX_STATES;
use fixed_vec::FixedVec;

/// States, each once, by their numbers, which are below 512. Marks beside the list tell at once
/// whether a state is found.
#[derive(Clone, Copy)]
pub struct Visits {
    seen: [bool; MAX_STATES],
    order: FixedVec<usize, MAX_STATES>,
    ghost long: { length seen ≡ max_states },
    ghost counted: { length (items order) + unmarked seen ≡ max_states },
    ghost agree: { (k : ℕ) → slice_index_or seen k false ≡ elem k (items order) },
}

impl Visits {
    ghost use Rattle.atn.specs.Found.{found, with_state};

    /// No state is found.
    pub(crate) fn new() -> Visits
        ensures empty { found result ≡ [] }
    {
        Visits {
            seen: [false; MAX_STATES],
            order: FixedVec::new(),
        }
    }

    /// How many states are found.
    pub(crate) fn len(&self) -> usize
        ensures { result ≡ length (found self.now) }
    {
        self.order.len()
    }

    /// Whether state number k is found.
    pub fn has(&self, k: usize) -> bool
        ensures { result ≡ elem k (found self.now) }
    {
        k < MAX_STATES && self.seen[k]
    }

    /// The states found, in the order of finding.
    pub fn states(&self) -> &[usize]
        ensures { result.now ≡ found self.now }
    {
        self.order.as_slice()
    }

    /// Adds state number k unless it is found already.
    pub(crate) fn note(&mut self, k: usize)
        requires { k < max_states }
        ensures { found self.new ≡ with_state k (found self.old) }
    {
        if !self.seen[k] {
            self.seen[k] = true;
            // a state that is not marked leaves room in the list
            let _ = self.order.push(k);
        }
    }
}
