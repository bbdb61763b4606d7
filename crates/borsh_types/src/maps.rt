// Maps and sets: a count of four bytes and the entries, by ascending key or in the order of insertion.
ghost use Rattle.borsh_codec.proofs.Laws.Exact.{contramap-lawful};
ghost use Rattle.borsh_codec.proofs.Laws.Maps.Types.{index_map-lawful, index_set-lawful, btree_map-lawful, btree_set-lawful, hash_map-lawful, hash_set-lawful};
ghost use Rattle.borsh_codec.proofs.Laws.Conditional.{assumed, from_two, from_three};
ghost use Rattle.borsh_codec.proofs.Laws.OrderedKeys.{IsKey, IsIndexKey};
ghost use Rattle.borsh_codec.specs.Maps.{index_map, index_set, btree_map, btree_set, hash_map, hash_set};
ghost use Rattle.borsh_codec.specs.Shapes.{contramap};

use super::keys::BorshKey;
use super::types::BorshType;
use indexmap::{IndexMap, IndexSet};
use std::collections::{BTreeMap, BTreeSet, HashMap, HashSet};
use std::hash::{BuildHasher, Hash};

impl<K: BorshKey + Ord, V: BorshType> BorshType for BTreeMap<K, V> {
    ghost codec = { contramap (λ m. m.entries) (btree_map K.cmp K.codec V.codec) };

    ghost lawful_if = { from_three
        (λ k l v. contramap-lawful (λ m. m.entries) (btree_map-lawful l k.key k.total k.matches v))
        (assumed (IsKey K.ordered K.cmp K.eq K.codec))
        K.lawful_if V.lawful_if };

    ghost premises = { (record { key = K.key; total = K.total; matches = K.matches_eq }, K.premises, V.premises) };

    fn encodes_empty() -> bool {
        false
    }

    fn element_size() -> usize {
        24
    }
}

impl<K: BorshKey + Ord> BorshType for BTreeSet<K> {
    ghost codec = { contramap (λ s. s.keys) (btree_set K.cmp K.codec) };

    ghost lawful_if = { from_two
        (λ k l. contramap-lawful (λ s. s.keys) (btree_set-lawful l k.key k.total k.matches))
        (assumed (IsKey K.ordered K.cmp K.eq K.codec))
        K.lawful_if };

    ghost premises = { (record { key = K.key; total = K.total; matches = K.matches_eq }, K.premises) };

    fn encodes_empty() -> bool {
        false
    }

    fn element_size() -> usize {
        24
    }
}

impl<K: BorshKey + Ord + Hash, V: BorshType, S: BuildHasher> BorshType for HashMap<K, V, S> {
    ghost codec = { contramap (λ m. m.entries) (hash_map K.cmp K.codec V.codec) };

    ghost lawful_if = { from_three
        (λ k l v. contramap-lawful (λ m. m.entries) (hash_map-lawful l k.key k.total k.matches v))
        (assumed (IsKey K.ordered K.cmp K.eq K.codec))
        K.lawful_if V.lawful_if };

    ghost premises = { (record { key = K.key; total = K.total; matches = K.matches_eq }, K.premises, V.premises) };

    fn encodes_empty() -> bool {
        false
    }

    fn element_size() -> usize {
        48
    }
}

impl<K: BorshKey + Ord + Hash, S: BuildHasher> BorshType for HashSet<K, S> {
    ghost codec = { contramap (λ s. s.keys) (hash_set K.cmp K.codec) };

    ghost lawful_if = { from_two
        (λ k l. contramap-lawful (λ s. s.keys) (hash_set-lawful l k.key k.total k.matches))
        (assumed (IsKey K.ordered K.cmp K.eq K.codec))
        K.lawful_if };

    ghost premises = { (record { key = K.key; total = K.total; matches = K.matches_eq }, K.premises) };

    fn encodes_empty() -> bool {
        false
    }

    fn element_size() -> usize {
        48
    }
}

impl<K: BorshKey + Hash, V: BorshType, S: BuildHasher> BorshType for IndexMap<K, V, S> {
    ghost codec = { contramap (λ m. m.entries) (index_map K.eq K.codec V.codec) };

    ghost lawful_if = { from_three
        (λ k l v. contramap-lawful (λ m. m.entries) (index_map-lawful l k.key k.equivalence v))
        (assumed (IsIndexKey K.ordered K.eq K.codec))
        K.lawful_if V.lawful_if };

    ghost premises = { (record { key = K.key; equivalence = K.Eq.laws }, K.premises, V.premises) };

    fn encodes_empty() -> bool {
        false
    }

    fn element_size() -> usize {
        72
    }
}

impl<K: BorshKey + Hash, S: BuildHasher> BorshType for IndexSet<K, S> {
    ghost codec = { contramap (λ s. s.keys) (index_set K.eq K.codec) };

    ghost lawful_if = { from_two
        (λ k l. contramap-lawful (λ s. s.keys) (index_set-lawful l k.key k.equivalence))
        (assumed (IsIndexKey K.ordered K.eq K.codec))
        K.lawful_if };

    ghost premises = { (record { key = K.key; equivalence = K.Eq.laws }, K.premises) };

    fn encodes_empty() -> bool {
        false
    }

    fn element_size() -> usize {
        72
    }
}
