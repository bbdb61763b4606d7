// Entries of maps and keys of sets that are read: the whole list first, and then the order of the keys.
ghost use Rattle.borsh_io.specs.Errors.{error_kind};
ghost use Rattle.borsh_codec.specs.Maps.{IsOutOfOrder, key_only, unit_entries, entries};
ghost use Rattle.borsh_codec.specs.Reading.{DecodesAs, DecodesVec};
ghost use Rattle.borsh_codec.specs.Shapes.{length_prefixed, pair, refused_if};
ghost use Rattle.std.specs.List.Sorted.{IsStrictlySortedBy};
ghost use Rattle.std.specs.Map.{keys_of};
ghost use Rattle.std.specs.Prelude.{◌≡◌, ◌↔◌, true, IsTrue, MatchResult};

use super::deserialize::BorshDeserialize;
use super::lists::{read_counted, read_list};
use super::refusals::wrong_order;
use borsh_io::{ErrorKind, Read, Result};
use borsh_types::{BorshKey, refuse_empty};
use std::alloc::Global;

/// Whether the keys of the entries strictly ascend.
#[inline]
fn entries_ascend<K: Ord, V>(entries: &[(K, V)]) -> bool
    ensures { IsTrue result ↔ IsStrictlySortedBy K.cmp (keys_of entries.now) }
{
    entries.is_sorted_by(|a, b| a.0.cmp(&b.0).is_lt())
}

/// Whether the keys strictly ascend.
#[inline]
fn keys_ascend<K: Ord>(keys: &[K]) -> bool
    ensures { IsTrue result ↔ IsStrictlySortedBy K.cmp keys.now }
{
    keys.is_sorted_by(|a, b| a.cmp(b).is_lt())
}

/// Refuses entries whose keys don't strictly ascend, where order is wanted: `InvalidData`, "keys were
/// not serialized in ascending order".
#[inline]
fn check_entries<K: Ord, V>(strict: bool, entries: &[(K, V)]) -> Result<()>
    ensures { MatchResult result
        (λ _. strict ≡ true → IsStrictlySortedBy K.cmp (keys_of entries.now))
        (λ e. (error_kind e ≡ ErrorKind.InvalidData) × IsOutOfOrder K.cmp strict entries.now) }
{
    if strict && !entries_ascend(entries) {
        return Err(wrong_order());
    }
    Ok(())
}

/// As [`check_entries`].
#[inline]
fn check_keys<K: Ord>(strict: bool, keys: &[K]) -> Result<()>
    ensures { MatchResult result
        (λ _. strict ≡ true → IsStrictlySortedBy K.cmp keys.now)
        (λ e. (error_kind e ≡ ErrorKind.InvalidData)
        × IsOutOfOrder K.cmp strict (unit_entries keys.now)) }
{
    if strict && !keys_ascend(keys) {
        return Err(wrong_order());
    }
    Ok(())
}

/// Reads a count and that many entries in any order. Keys whose encodings are empty are refused before anything is read.
#[inline]
pub(crate) fn read_pairs<K: BorshDeserialize, V: BorshDeserialize, R: Read>(
    alloc: Global,
    reader: &mut R,
) -> Result<Vec<(K, V)>>
    ensures { DecodesVec (refused_if K.codec.is_zero_width (length_prefixed (pair K.codec V.codec)))
        R.stream reader.old reader.new result }
{
    refuse_empty::<K>()?;
    read_counted(alloc, reader)
}

/// As [`read_pairs`], but the keys have to ascend strictly where the reader wants order.
#[inline]
pub(crate) fn read_entries<K: BorshKey + BorshDeserialize + Ord, V: BorshDeserialize, R: Read>(
    alloc: Global,
    reader: &mut R,
) -> Result<Vec<(K, V)>>
    ensures { DecodesVec (refused_if K.codec.is_zero_width (entries K.cmp (pair K.codec V.codec)))
        R.stream reader.old reader.new result }
{
    let read = read_pairs(alloc, reader)?;
    check_entries(reader.strict_order(), &read)?;
    Ok(read)
}

/// Reads a count and that many keys, which have to ascend strictly where the reader wants order. Keys
/// whose encodings are empty are refused before anything is read.
#[inline]
pub(crate) fn read_keys<K: BorshKey + BorshDeserialize + Ord, R: Read>(
    alloc: Global,
    reader: &mut R,
) -> Result<Vec<K>>
    ensures { DecodesAs (λ v. unit_entries v.items)
        (refused_if K.codec.is_zero_width (entries K.cmp (key_only K.codec)))
        R.stream reader.old reader.new result }
{
    let read = read_list(alloc, reader)?;
    check_keys(reader.strict_order(), &read)?;
    Ok(read)
}
