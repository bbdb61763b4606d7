// Written by borsh_derive.py from keys.rt: edit that file, and run the program again.
ghost use Rattle.borsh.specs.Derived.{contramap, contramap-lawful, from, key_facts};
ghost use Rattle.borsh.specs.Derived.{named_described, struct_parts};
ghost use Rattle.std.specs.Prelude.{codes, refl, ◌∷◌, []};

use super::keys::{Place, Visits};
use borsh::derived::*;
use borsh_samples::A;
use std::collections::{BTreeMap, BTreeSet};

/// The fields of [`Visits`], in order.
type Fields = (BTreeMap<Place, u32>, BTreeSet<Place>, A);

impl BorshType for Visits {
    ghost codec = { contramap ⟦<Visits as FromParts>⟧.view ⟦<Fields as BorshType>⟧.codec };

    ghost lawful_if = { from (contramap-lawful ⟦<Visits as FromParts>⟧.view)
        ⟦<Fields as BorshType>⟧.lawful_if };

    ghost premises = { Prim.search key_facts };

    fn encodes_empty() -> bool {
        <Fields>::encodes_empty()
    }

    fn element_size() -> usize {
        size_of::<Visits>()
    }
}

impl BorshSerialize for Visits {
    fn serialize<W: Write>(&self, alloc: Global, writer: &mut W) -> Result<()> {
        write_three(&self.counts, &self.closed, &self.book, alloc, writer)
    }
}

impl FromParts for Visits {
    type Parts = Fields;

    ghost view = { λ v. (v.counts, v.closed, v.book) };

    fn from_parts((counts, closed, book): Fields) -> Visits {
        Visits {
            counts,
            closed,
            book,
        }
    }
}

impl BorshDeserialize for Visits {
    fn deserialize_reader<R: Read>(alloc: Global, reader: &mut R) -> Result<Visits> {
        read_parts(alloc, reader)
    }
}

impl BorshSchema for Visits {
    ghost name = { codes "Visits" };

    ghost parts = { struct_parts (codes "Visits")
        (codes "counts" ∷ codes "closed" ∷ codes "book" ∷ [])
        ⟦<Chain<Fields> as FieldTypes>⟧.described };

    ghost described = { named_described (λ v. (v.counts, (v.closed, (v.book, tt))))
        (codes "counts" ∷ codes "closed" ∷ codes "book" ∷ [])
        ⟦<Chain<Fields> as FieldTypes>⟧.described refl };

    fn declaration(alloc: Global) -> SchemaResult<Declaration> {
        declared(alloc, "Visits")
    }

    fn add_definitions_recursively(alloc: Global, map: &mut DefinitionMap) -> SchemaResult<()> {
        const NAMES: &[&str] = &["counts", "closed", "book"];
        add_named::<Chain<Fields>>(alloc, "Visits", NAMES, map)
    }

    ghost describes = { Self.described.describes };
}
