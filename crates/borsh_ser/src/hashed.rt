// Hashed maps and sets: references to the entries are collected, sorted by key and written, so
// that the bytes depend on the entries alone.
ghost use Rattle.borsh_codec.specs.Maps.{unit_entries, sorted_by_key};
ghost use Rattle.std.specs.Map.Iter.{deref_pair};
ghost use Rattle.std.specs.Prelude.{◌≡◌, IfOk, map};

use super::each::write_items;
use super::lengths::keyed_length;
use super::lists::write_counted;
use super::serialize::BorshSerialize;
use borsh_io::{Result, Write};
use borsh_types::{BorshKey, refuse_empty};
use std::alloc::{AllocError, Global};
use std::collections::{HashMap, HashSet};
use std::hash::{BuildHasher, Hash};
use std::result;

/// References to the entries of the map, by ascending key.
#[inline]
fn sorted_entries<'a, K: Ord + Hash, V, S: BuildHasher>(
    alloc: Global,
    table: &'a HashMap<K, V, S>,
) -> result::Result<Vec<(&'a K, &'a V)>, AllocError>
    ensures { IfOk result (λ v. map deref_pair v.items ≡ sorted_by_key K.cmp table.now.entries) }
{
    let mut all: Vec<(&'a K, &'a V)> = table.iter().collect(alloc)?;
    all.sort_unstable_by(|a, b| a.0.cmp(b.0));
    Ok(all)
}

/// References to the keys of the set, ascending.
#[inline]
fn sorted_keys<'a, K: Ord + Hash, S: BuildHasher>(
    alloc: Global,
    set: &'a HashSet<K, S>,
) -> result::Result<Vec<&'a K>, AllocError>
    ensures { IfOk result (λ v.
        map (λ r. (r.now, tt)) v.items ≡ sorted_by_key K.cmp (unit_entries set.now.keys)) }
{
    let mut all: Vec<&'a K> = set.iter().collect(alloc)?;
    all.sort_unstable();
    Ok(all)
}

/// The entries that are left. An iterator over the slice names several lifetimes, and the borrow checker refuses that as
/// a type argument.
#[derive(Drop)]
struct Entries<'a, K, V> {
    left: &'a [(&'a K, &'a V)],
}

impl<'a, K, V> Iterator for Entries<'a, K, V> {
    type Item = (&'a K, &'a V);

    ghost use Rattle.std.specs.Prelude.{length};
    ghost use Rattle.std.specs.Iterator.{at_most};
    ghost use Rattle.std.specs.Map.Iter.{TakesFirst};

    ghost next_gives = { λ s r t. TakesFirst (λ e. e) s.left.now r t.left.now };

    ghost remaining = { λ s. at_most (length s.left.now) };

    fn next(&mut self) -> Option<(&'a K, &'a V)> {
        let left = self.left;
        if left.is_empty() {
            return None;
        }
        self.left = &left[1..];
        Some(left[0])
    }
}

impl<K: BorshKey + BorshSerialize + Ord + Hash, V: BorshSerialize, S: BuildHasher> BorshSerialize
    for HashMap<K, V, S> {
    #[inline]
    fn serialize<W: Write>(&self, alloc: Global, writer: &mut W) -> Result<()> {
        refuse_empty::<K>()?;
        let entries = sorted_entries(alloc, self)?;
        write_items(
            entries.len(),
            Entries {
                left: entries.as_slice(),
            },
            alloc,
            writer,
        )
    }

    #[inline]
    fn encoded_length(&self) -> Option<u32> {
        keyed_length::<K, _>(self.len(), self.iter())
    }
}

impl<K: BorshKey + BorshSerialize + Ord + Hash, S: BuildHasher> BorshSerialize for HashSet<K, S> {
    #[inline]
    fn serialize<W: Write>(&self, alloc: Global, writer: &mut W) -> Result<()> {
        refuse_empty::<K>()?;
        let keys = sorted_keys(alloc, self)?;
        write_counted(keys.as_slice(), alloc, writer)
    }

    #[inline]
    fn encoded_length(&self) -> Option<u32> {
        keyed_length::<K, _>(self.len(), self.iter())
    }
}
