// Maps and sets: a count of four bytes and the entries.
ghost use Rattle.std.specs.Prelude.{codes, ⊤};
ghost use Rattle.borsh_codec.specs.Maps.{unit_entries};
ghost use Rattle.borsh_definitions.proofs.Laws.Members.{describes_contramap, describes_ordered, describes_parts, describes_refused_if, describes_sorted, all_one, all_more};
ghost use Rattle.borsh_definitions.specs.Names.{applied, applied_to_two};
ghost use Rattle.borsh_definitions.specs.Types.{list_definitions, map_definitions};
ghost use Rattle.borsh_definitions.proofs.Laws.Quoted.{btree_map_described, btree_set_described, contramap_described, hash_map_described, hash_set_described};

use super::definitions::{DefinitionMap, SchemaResult};
use super::parts::add_list;
use super::schema::BorshSchema;
use borsh_types::BorshKey;
use borsh_walks::Declaration;
use std::alloc::Global;
use std::collections::{BTreeMap, BTreeSet, HashMap, HashSet};
use std::hash::{BuildHasher, Hash};

impl<K: BorshSchema + BorshKey + Ord, V: BorshSchema> BorshSchema for BTreeMap<K, V> {
    ghost name = { applied_to_two (codes "BTreeMap<") K.name V.name };

    ghost parts = { map_definitions (codes "BTreeMap<") K.name V.name K.parts V.parts };

    ghost described = { contramap_described (λ m. m.entries)
        (btree_map_described (codes "BTreeMap<") K.cmp K.described V.described) };

    fn declaration(alloc: Global) -> SchemaResult<Declaration> {
        let key = K::declaration(alloc)?;
        let value = V::declaration(alloc)?;
        Ok(format!(in alloc; "BTreeMap<{key}, {value}>")?)
    }

    fn add_definitions_recursively(alloc: Global, map: &mut DefinitionMap) -> SchemaResult<()> {
        add_list::<(K, V)>(alloc, Self::declaration(alloc)?, map)
    }

    ghost describes = { λ C h. describes_contramap (λ m. m.entries)
        (describes_refused_if K.codec.is_zero_width
        (describes_ordered K.cmp h.0
        (describes_parts h.1.0.0
        (all_more (K.describes C h.1.0.1.0) (all_one (V.describes C h.1.0.1.1.0)))))) };
}

impl<K: BorshSchema + BorshKey + Ord> BorshSchema for BTreeSet<K> {
    ghost name = { applied (codes "BTreeSet<") K.name };

    ghost parts = { list_definitions (codes "BTreeSet<") K.name K.parts };

    ghost described = { contramap_described (λ s. s.keys)
        (btree_set_described (codes "BTreeSet<") K.cmp K.described) };

    fn declaration(alloc: Global) -> SchemaResult<Declaration> {
        let key = K::declaration(alloc)?;
        Ok(format!(in alloc; "BTreeSet<{key}>")?)
    }

    fn add_definitions_recursively(alloc: Global, map: &mut DefinitionMap) -> SchemaResult<()> {
        add_list::<K>(alloc, Self::declaration(alloc)?, map)
    }

    ghost describes = { λ C h. describes_contramap (λ s. s.keys)
        (describes_contramap unit_entries
        (describes_refused_if K.codec.is_zero_width
        (describes_ordered K.cmp h.0 (describes_contramap (λ e. e.0) (K.describes C h.1.0))))) };
}

impl<K: BorshSchema + BorshKey + Ord + Hash, V: BorshSchema, S: BuildHasher> BorshSchema
    for HashMap<K, V, S> {
    ghost name = { applied_to_two (codes "HashMap<") K.name V.name };

    ghost parts = { map_definitions (codes "HashMap<") K.name V.name K.parts V.parts };

    ghost described = { contramap_described (λ m. m.entries)
        (hash_map_described (codes "HashMap<") K.cmp K.described V.described) };

    fn declaration(alloc: Global) -> SchemaResult<Declaration> {
        let key = K::declaration(alloc)?;
        let value = V::declaration(alloc)?;
        Ok(format!(in alloc; "HashMap<{key}, {value}>")?)
    }

    fn add_definitions_recursively(alloc: Global, map: &mut DefinitionMap) -> SchemaResult<()> {
        add_list::<(K, V)>(alloc, Self::declaration(alloc)?, map)
    }

    ghost describes = { λ C h. describes_contramap (λ m. m.entries)
        (describes_refused_if K.codec.is_zero_width
        (describes_sorted K.cmp V.codec.equivalent h.0
        (describes_parts h.1.0.0
        (all_more (K.describes C h.1.0.1.0) (all_one (V.describes C h.1.0.1.1.0)))))) };
}

impl<K: BorshSchema + BorshKey + Ord + Hash, S: BuildHasher> BorshSchema for HashSet<K, S> {
    ghost name = { applied (codes "HashSet<") K.name };

    ghost parts = { list_definitions (codes "HashSet<") K.name K.parts };

    ghost described = { contramap_described (λ s. s.keys)
        (hash_set_described (codes "HashSet<") K.cmp K.described) };

    fn declaration(alloc: Global) -> SchemaResult<Declaration> {
        let key = K::declaration(alloc)?;
        Ok(format!(in alloc; "HashSet<{key}>")?)
    }

    fn add_definitions_recursively(alloc: Global, map: &mut DefinitionMap) -> SchemaResult<()> {
        add_list::<K>(alloc, Self::declaration(alloc)?, map)
    }

    ghost describes = { λ C h. describes_contramap (λ s. s.keys)
        (describes_contramap unit_entries
        (describes_refused_if K.codec.is_zero_width
        (describes_sorted K.cmp (λ v w. ⊤) h.0
        (describes_contramap (λ e. e.0) (K.describes C h.1.0))))) };
}
