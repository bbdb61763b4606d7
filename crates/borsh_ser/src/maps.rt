// Maps and sets that hold their entries in the order in which they are written: a count of four bytes and the entries.
use super::each::write_items;
use super::lengths::keyed_length;
use super::serialize::BorshSerialize;
use borsh_io::{Result, Write};
use borsh_types::{BorshKey, refuse_empty};
use indexmap::{IndexMap, IndexSet};
use std::alloc::Global;
use std::collections::{BTreeMap, BTreeSet};
use std::hash::{BuildHasher, Hash};

impl<K: BorshKey + BorshSerialize + Ord, V: BorshSerialize> BorshSerialize for BTreeMap<K, V> {
    #[inline]
    fn serialize<W: Write>(&self, alloc: Global, writer: &mut W) -> Result<()> {
        refuse_empty::<K>()?;
        write_items(self.len(), self.iter(), alloc, writer)
    }

    #[inline]
    fn encoded_length(&self) -> Option<u32> {
        keyed_length::<K, _>(self.len(), self.iter())
    }
}

impl<K: BorshKey + BorshSerialize + Ord> BorshSerialize for BTreeSet<K> {
    #[inline]
    fn serialize<W: Write>(&self, alloc: Global, writer: &mut W) -> Result<()> {
        refuse_empty::<K>()?;
        write_items(self.len(), self.iter(), alloc, writer)
    }

    #[inline]
    fn encoded_length(&self) -> Option<u32> {
        keyed_length::<K, _>(self.len(), self.iter())
    }
}

impl<K: BorshKey + BorshSerialize + Hash, V: BorshSerialize, S: BuildHasher> BorshSerialize
    for IndexMap<K, V, S> {
    #[inline]
    fn serialize<W: Write>(&self, alloc: Global, writer: &mut W) -> Result<()> {
        refuse_empty::<K>()?;
        write_items(self.len(), self.iter(), alloc, writer)
    }

    #[inline]
    fn encoded_length(&self) -> Option<u32> {
        keyed_length::<K, _>(self.len(), self.iter())
    }
}

impl<K: BorshKey + BorshSerialize + Hash, S: BuildHasher> BorshSerialize for IndexSet<K, S> {
    #[inline]
    fn serialize<W: Write>(&self, alloc: Global, writer: &mut W) -> Result<()> {
        refuse_empty::<K>()?;
        write_items(self.len(), self.iter(), alloc, writer)
    }

    #[inline]
    fn encoded_length(&self) -> Option<u32> {
        keyed_length::<K, _>(self.len(), self.iter())
    }
}
