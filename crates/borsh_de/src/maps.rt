// Maps and sets: the list of entries is read, and the map is made of it. Of entries with one key the last gives the value.
ghost use Rattle.std.specs.Prelude.{List, IfOk};

use super::deserialize::BorshDeserialize;
use super::entries::{read_entries, read_keys, read_pairs};
use super::lists::read_list;
use borsh_io::{Read, Result};
use borsh_types::BorshKey;
use indexmap::{IndexMap, IndexSet};
use std::alloc::{AllocError, Global};
use std::collections::{BTreeMap, BTreeSet, HashMap, HashSet};
use std::hash::{BuildHasher, Hash};
use std::result;

/// The collection of the items.
#[inline]
fn collected<A: Drop, C: FromIterator<A, Alloc = Global>>(
    alloc: Global,
    items: Vec<A>,
) -> result::Result<C, AllocError>
    requires { (xs : List A) → C.can_from_iter xs }
    ensures { IfOk result (λ v. C.is_complete v → C.from_iter_gives items.items v) }
{
    items.into_iter().collect(alloc)
}

impl<K: BorshKey + BorshDeserialize + Ord, V: BorshDeserialize> BorshDeserialize
    for BTreeMap<K, V> {
    #[inline]
    fn deserialize_reader<R: Read>(alloc: Global, reader: &mut R) -> Result<BTreeMap<K, V>> {
        let read = read_entries(alloc, reader)?;
        Ok(collected(alloc, read)?)
    }
}

impl<K: BorshKey + BorshDeserialize + Ord> BorshDeserialize for BTreeSet<K> {
    #[inline]
    fn deserialize_reader<R: Read>(alloc: Global, reader: &mut R) -> Result<BTreeSet<K>> {
        let read = read_keys(alloc, reader)?;
        Ok(collected(alloc, read)?)
    }
}

impl<
    K: BorshKey + BorshDeserialize + Ord + Hash,
    V: BorshDeserialize,
    S: BuildHasher + Default + Drop,
> BorshDeserialize for HashMap<K, V, S> {
    #[inline]
    fn deserialize_reader<R: Read>(alloc: Global, reader: &mut R) -> Result<HashMap<K, V, S>> {
        let read = read_entries(alloc, reader)?;
        Ok(collected(alloc, read)?)
    }
}

impl<K: BorshKey + BorshDeserialize + Ord + Hash, S: BuildHasher + Default + Drop> BorshDeserialize
    for HashSet<K, S> {
    #[inline]
    fn deserialize_reader<R: Read>(alloc: Global, reader: &mut R) -> Result<HashSet<K, S>> {
        let read = read_keys(alloc, reader)?;
        Ok(collected(alloc, read)?)
    }
}

impl<
    K: BorshKey + BorshDeserialize + Hash,
    V: BorshDeserialize,
    S: BuildHasher + Default + Drop,
> BorshDeserialize for IndexMap<K, V, S> {
    #[inline]
    fn deserialize_reader<R: Read>(alloc: Global, reader: &mut R) -> Result<IndexMap<K, V, S>> {
        let read = read_pairs(alloc, reader)?;
        Ok(collected(alloc, read)?)
    }
}

impl<K: BorshKey + BorshDeserialize + Hash, S: BuildHasher + Default + Drop> BorshDeserialize
    for IndexSet<K, S> {
    #[inline]
    fn deserialize_reader<R: Read>(alloc: Global, reader: &mut R) -> Result<IndexSet<K, S>> {
        let read = read_list(alloc, reader)?;
        Ok(collected(alloc, read)?)
    }
}
