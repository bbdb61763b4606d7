// Pairs of names, one of the old definitions and one of the new.
ghost use Rattle.borsh_compare.specs.Indexed.{AddsOnly, HasIndices, HasIndices-prop, LacksPair, index_in};
ghost use Rattle.borsh_compare.specs.Walks.{HasPair, Keeps};
ghost use Rattle.std.specs.Prelude.{IfOk, OnOk, Some, [], false, length, true, ◌≡◌, ◌≤◌, slice_get};

use std::alloc::{AllocError, Global};
use std::collections::BTreeMap;

/// At most so many pairs are compared.
pub(crate) const MOST_PAIRS: usize = 1048576;

/// Two names, by their places, and which part of another pair the old one is.
#[derive(Clone, Copy, Debug)]
pub struct Pair {
    pub old: usize,
    pub new: usize,
    /// The index of the pair that led here.
    pub from: usize,
    /// The place of the old name that has the part, and the part's index.
    pub owner: usize,
    pub index: usize,
}

/// The pair of the two roots.
pub(crate) const ROOTS: Pair = Pair {
    old: 0,
    new: 0,
    from: 0,
    owner: 0,
    index: 0,
};

/// The pairs that were met, each once.
#[derive(Drop)]
pub struct Pairs {
    pub(crate) list: Vec<Pair>,
    // The index of each.
    pub(crate) table: BTreeMap<(usize, usize), usize>,
    pub ghost indexed: { HasIndices list.items table } by { HasIndices-prop list.items table },
}

impl Pairs {
    pub fn new(alloc: Global) -> Pairs
        ensures { result.list.items ≡ [] }
    {
        Pairs {
            list: Vec::new(alloc),
            table: BTreeMap::new(alloc),
        }
    }

    pub fn len(&self) -> usize
        ensures { result ≡ length self.now.list.items }
    {
        self.list.len()
    }

    /// The pair at an index.
    pub fn get(&self, index: usize) -> Option<Pair>
        ensures { result ≡ slice_get self.now.list.items index }
    {
        self.list.as_slice().get(index).copied()
    }

    // Whether the pair at an index is of these places.
    fn is_at(&self, index: usize, old: usize, new: usize) -> bool
        ensures is { result ≡ true → HasPair self.now.list.items old new }
        ensures isnt { result ≡ false → (p : Pair) → slice_get self.now.list.items index ≡ Some p
            → p.old ≡ old → p.new ≡ new → ⊥ }
    {
        match self.get(index) {
            Some(pair) => pair.old == old && pair.new == new,
            None => false,
        }
    }

    // The index that the table has for a pair.
    fn index_of(&self, old: usize, new: usize) -> Option<usize>
        ensures { result ≡ index_in self.now.table old new }
    {
        self.table.get(&(old, new)).copied()
    }

    /// Whether there is a pair of these places.
    pub fn has(&self, old: usize, new: usize) -> bool
        ensures is { result ≡ true → HasPair self.now.list.items old new }
        ensures isnt { result ≡ false → LacksPair self.now.list.items old new }
    {
        match self.index_of(old, new) {
            Some(index) => self.is_at(index, old, new),
            None => false,
        }
    }

    /// Adds a pair, unless it is there. `false` if there are too many.
    pub fn add(&mut self, pair: Pair) -> Result<bool, AllocError>
        ensures kept { OnOk result (Keeps self.old.list.items self.new.list.items) }
        ensures added { IfOk result (λ b. b ≡ true → HasPair self.new.list.items pair.old pair.new) }
        ensures full { IfOk result (λ b. b ≡ false → 1048576 ≤ length self.new.list.items) }
        ensures only { OnOk result (AddsOnly pair self.old.list.items self.new.list.items) }
    {
        if self.has(pair.old, pair.new) {
            return Ok(true);
        }
        let index = self.list.len();
        if index >= MOST_PAIRS {
            return Ok(false);
        }
        self.table.insert((pair.old, pair.new), index)?;
        self.list.push(pair)?;
        Ok(true)
    }
}
