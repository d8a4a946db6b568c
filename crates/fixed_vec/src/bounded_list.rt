//! A list in lent memory.
ghost use Rattle.std.specs.Prelude.{◌≡◌, ◌<◌, ◌≤◌, ◌++◌, [], ◌∷◌, length, take, drop, Ok, Err};

/// No place is free.
#[derive(Clone, Copy, PartialEq, Eq, Debug)]
pub struct Full;

/// The first `len` places of the memory hold the items; the others are free.
#[derive(Drop)]
pub struct BoundedList<'a, T> {
    slots: &'a mut [T],
    len: usize,
    ghost bounded: { len ≤ length slots.now },
}

impl<'a, T: Copy> BoundedList<'a, T> {
    ghost use Rattle.fixed_vec.specs.Lists.{listed, spare};

    /// An empty list, with a place for each value of the memory.
    pub fn new(slots: &'a mut [T]) -> BoundedList<'a, T>
        ensures same_memory { result.slots.ghost_name ≡ slots.entry.ghost_name }
        ensures empty { listed result ≡ [] }
        ensures untouched { spare result ≡ slots.old }
    {
        BoundedList { slots, len: 0 }
    }

    /// A list whose first `len` places hold its items already; all of them, where there are not more.
    pub fn resume(slots: &'a mut [T], len: usize) -> BoundedList<'a, T>
        ensures same_memory { result.slots.ghost_name ≡ slots.entry.ghost_name }
        ensures items { listed result ≡ take len slots.old }
        ensures free { spare result ≡ drop len slots.old }
    {
        let len = len.min(slots.len());
        BoundedList { slots, len }
    }

    /// How many items it holds.
    pub fn len(&self) -> usize
        ensures { result ≡ length (listed self.now) }
    {
        self.as_slice().len()
    }

    /// How many places are free.
    pub fn free(&self) -> usize
        ensures { result ≡ length (spare self.now) }
    {
        self.slots.len() - self.len
    }

    /// The items, in their order.
    pub fn as_slice(&self) -> &[T]
        ensures { result.now ≡ listed self.now }
    {
        &self.slots[..self.len]
    }

    /// Adds an item, in the first free place. Denied where no place is free.
    pub fn push(&mut self, x: T) -> Result<(), Full>
        ensures same_memory { self.new.slots.ghost_name ≡ self.old.slots.ghost_name }
        ensures room { 0 < length (spare self.old)
            → (result ≡ Ok tt)
            × (listed self.new ≡ listed self.old ++ x ∷ [])
            × (spare self.new ≡ drop 1 (spare self.old)) }
        ensures full { spare self.old ≡ []
            → (result ≡ Err (record {})) × (self.new ≡ self.old) }
    {
        if self.len == self.slots.len() {
            return Err(Full);
        }
        self.slots[self.len] = x;
        self.len += 1;
        Ok(())
    }

    /// Adds all of the items, or, where too few places are free, none of them.
    pub fn extend_from_slice(&mut self, xs: &[T]) -> Result<(), Full>
        ensures same_memory { self.new.slots.ghost_name ≡ self.old.slots.ghost_name }
        ensures room { length xs.now ≤ length (spare self.old)
            → (result ≡ Ok tt)
            × (listed self.new ≡ listed self.old ++ xs.now)
            × (spare self.new ≡ drop (length xs.now) (spare self.old)) }
        ensures full { length (spare self.old) < length xs.now
            → (result ≡ Err (record {})) × (self.new ≡ self.old) }
    {
        if self.free() < xs.len() {
            return Err(Full);
        }
        let end = self.len + xs.len();
        self.slots[self.len..end].copy_from_slice(xs);
        self.len = end;
        Ok(())
    }
}
