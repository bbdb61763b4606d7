// Written by borsh_derive.py from generics.rt: edit that file, and run the program again.
ghost use Rattle.borsh.specs.Derived.{IsKey, all_more, all_one, contramap, contramap-lawful};
ghost use Rattle.borsh.specs.Derived.{describes_contramap, describes_ordered, describes_parts};
ghost use Rattle.borsh.specs.Derived.{describes_refused_if, describes_sorted, from, key_facts};
ghost use Rattle.borsh.specs.Derived.{name_with, named_described, struct_parts, unit_entries};
ghost use Rattle.std.specs.Prelude.{codes, refl, ⊤, ◌∷◌, []};

use super::generics::Hashed;
use borsh::derived::*;
use std::collections::{BTreeSet, HashMap, HashSet};
use std::hash::Hash;

/// The fields of [`Hashed`], in order.
type Fields<K, V> = (HashMap<K, V>, HashSet<K>, BTreeSet<K>);

impl<K: BorshKey + Ord + Hash + Eq + BorshType, V: BorshType> BorshType for Hashed<K, V> {
    ghost codec = { contramap (λ v. (v.map, v.keys, v.set)) ⟦<Fields<K, V> as BorshType>⟧.codec };

    ghost lawful_if = { from (contramap-lawful (λ v. (v.map, v.keys, v.set)))
        ⟦<Fields<K, V> as BorshType>⟧.lawful_if };

    ghost premises = { let k_key : IsKey K.ordered K.cmp K.eq K.codec =
        record { key = K.key; total = K.total; matches = K.matches_eq } in
        Prim.search (key_facts, k_key, K.premises, V.premises) };

    fn encodes_empty() -> bool {
        <Fields<K, V>>::encodes_empty()
    }

    fn element_size() -> usize {
        <Fields<K, V>>::element_size()
    }
}

impl<K: BorshKey + Ord + Hash + Eq + BorshSerialize, V: BorshSerialize> BorshSerialize
    for Hashed<K, V> {
    fn serialize<W: Write>(&self, alloc: Global, writer: &mut W) -> Result<()> {
        write_three(&self.map, &self.keys, &self.set, alloc, writer)
    }
}

impl<K: BorshKey + Ord + Hash + Eq + BorshDeserialize, V: BorshDeserialize> FromParts
    for Hashed<K, V> {
    type Parts = Fields<K, V>;

    ghost view = { λ v. (v.map, v.keys, v.set) };

    fn from_parts((map, keys, set): Fields<K, V>) -> Hashed<K, V> {
        Hashed { map, keys, set }
    }
}

impl<K: BorshKey + Ord + Hash + Eq + BorshDeserialize, V: BorshDeserialize> BorshDeserialize
    for Hashed<K, V> {
    fn deserialize_reader<R: Read>(alloc: Global, reader: &mut R) -> Result<Hashed<K, V>> {
        read_parts(alloc, reader)
    }
}

impl<K: BorshKey + Ord + Hash + Eq + BorshSchema, V: BorshSchema> BorshSchema for Hashed<K, V> {
    ghost name = { name_with (codes "Hashed") K.name (V.name ∷ []) };

    ghost parts = { struct_parts (name_with (codes "Hashed") K.name (V.name ∷ []))
        (codes "map" ∷ codes "keys" ∷ codes "set" ∷ [])
        ⟦<Chain<Fields<K, V>> as FieldTypes>⟧.described };

    ghost described = { named_described (λ v. (v.map, (v.keys, (v.set, tt))))
        (codes "map" ∷ codes "keys" ∷ codes "set" ∷ [])
        ⟦<Chain<Fields<K, V>> as FieldTypes>⟧.described refl };

    fn declaration(alloc: Global) -> SchemaResult<Declaration> {
        declared_with::<K, (V, ())>(alloc, "Hashed")
    }

    fn add_definitions_recursively(alloc: Global, map: &mut DefinitionMap) -> SchemaResult<()> {
        const NAMES: &[&str] = &["map", "keys", "set"];
        add_named_with::<K, (V, ()), Chain<Fields<K, V>>>(alloc, "Hashed", NAMES, map)
    }

    ghost describes = { λ defs held. describes_contramap (λ v. (v.map, (v.keys, v.set)))
        (describes_parts held.0 (all_more (describes_contramap (λ map. map.entries)
        (describes_refused_if K.codec.is_zero_width (describes_sorted K.cmp V.codec.equivalent
        held.1.0.0 (describes_parts held.1.0.1.0.0 (all_more (K.describes defs held.1.0.1.0.1.0)
        (all_one (V.describes defs held.1.0.1.0.1.1.0))))))) (all_more (describes_contramap
        (λ set. set.keys) (describes_contramap unit_entries (describes_refused_if
        K.codec.is_zero_width (describes_sorted K.cmp (λ _ _. ⊤) held.1.1.0.0 (describes_contramap
        (λ entry. entry.0) (K.describes defs held.1.1.0.1.0)))))) (all_one (describes_contramap
        (λ set. set.keys) (describes_contramap unit_entries (describes_refused_if
        K.codec.is_zero_width (describes_ordered K.cmp held.1.1.1.0.0 (describes_contramap
        (λ entry. entry.0) (K.describes defs held.1.1.1.0.1.0)))))))))) };
}
