// Written by borsh_derive.py from readme.rt: edit that file, and run the program again.
ghost use Rattle.borsh.specs.Derived.{contramap, contramap-lawful, from, key_facts};
ghost use Rattle.borsh.specs.Derived.{named_described, struct_parts};
ghost use Rattle.std.specs.Prelude.{codes, refl, ◌∷◌, []};

use super::readme::Stock;
use borsh::derived::*;
use std::collections::BTreeMap;

/// The fields of [`Stock`], in order.
type Fields = (BTreeMap<String, u32>, Option<String>);

impl BorshType for Stock {
    ghost codec = { contramap ⟦<Stock as FromParts>⟧.view ⟦<Fields as BorshType>⟧.codec };

    ghost lawful_if = { from (contramap-lawful ⟦<Stock as FromParts>⟧.view)
        ⟦<Fields as BorshType>⟧.lawful_if };

    ghost premises = { Prim.search key_facts };

    fn encodes_empty() -> bool {
        false
    }

    fn element_size() -> usize {
        size_of::<Stock>()
    }
}

impl BorshSerialize for Stock {
    fn serialize<W: Write>(&self, alloc: Global, writer: &mut W) -> Result<()> {
        write_two(&self.pieces, &self.note, alloc, writer)
    }
}

impl FromParts for Stock {
    type Parts = Fields;

    ghost view = { λ v. (v.pieces, v.note) };

    fn from_parts((pieces, note): Fields) -> Stock {
        Stock { pieces, note }
    }
}

impl BorshDeserialize for Stock {
    fn deserialize_reader<R: Read>(alloc: Global, reader: &mut R) -> Result<Stock> {
        read_parts(alloc, reader)
    }
}

impl BorshSchema for Stock {
    ghost name = { codes "Stock" };

    ghost parts = { struct_parts (codes "Stock") (codes "pieces" ∷ codes "note" ∷ [])
        ⟦<Chain<Fields> as FieldTypes>⟧.described };

    ghost described = { named_described (λ v. (v.pieces, (v.note, tt)))
        (codes "pieces" ∷ codes "note" ∷ []) ⟦<Chain<Fields> as FieldTypes>⟧.described refl };

    fn declaration(alloc: Global) -> SchemaResult<Declaration> {
        declared(alloc, "Stock")
    }

    fn add_definitions_recursively(alloc: Global, map: &mut DefinitionMap) -> SchemaResult<()> {
        const NAMES: &[&str] = &["pieces", "note"];
        add_named::<Chain<Fields>>(alloc, "Stock", NAMES, map)
    }

    ghost describes = { Self.described.describes };
}
