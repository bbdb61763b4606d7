// Written by borsh_derive.py from records.rt: edit that file, and run the program again.
ghost use Rattle.borsh.specs.Derived.{contramap, contramap-lawful, from, key_facts};
ghost use Rattle.borsh.specs.Derived.{no_fields_described, struct_described, unit_struct};
ghost use Rattle.std.specs.Prelude.{codes, refl};

use super::records::Marker;
use borsh::derived::*;

/// The fields of [`Marker`], in order.
type Fields = ();

impl BorshType for Marker {
    ghost codec = { contramap ⟦<Marker as FromParts>⟧.view ⟦<Fields as BorshType>⟧.codec };

    ghost lawful_if = { from (contramap-lawful ⟦<Marker as FromParts>⟧.view)
        ⟦<Fields as BorshType>⟧.lawful_if };

    ghost premises = { Prim.search key_facts };

    fn encodes_empty() -> bool {
        <Fields>::encodes_empty()
    }

    fn element_size() -> usize {
        size_of::<Marker>()
    }
}

impl BorshSerialize for Marker {
    fn serialize<W: Write>(&self, _alloc: Global, writer: &mut W) -> Result<()> {
        write_bytes(&[], writer)
    }
}

impl FromParts for Marker {
    type Parts = Fields;

    ghost view = { λ _. tt };

    fn from_parts(_fields: Fields) -> Marker {
        Marker
    }
}

impl BorshDeserialize for Marker {
    fn deserialize_reader<R: Read>(alloc: Global, reader: &mut R) -> Result<Marker> {
        read_parts(alloc, reader)
    }
}

impl BorshSchema for Marker {
    ghost name = { codes "Marker" };

    ghost parts = { unit_struct (codes "Marker") };

    ghost described = { struct_described (λ _. tt) no_fields_described refl };

    fn declaration(alloc: Global) -> SchemaResult<Declaration> {
        declared(alloc, "Marker")
    }

    fn add_definitions_recursively(alloc: Global, map: &mut DefinitionMap) -> SchemaResult<()> {
        add_unit(alloc, "Marker", map)
    }

    ghost describes = { Self.described.describes };
}
