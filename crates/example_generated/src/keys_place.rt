// Written by borsh_derive.py from keys.rt: edit that file, and run the program again.
ghost use Rattle.borsh.specs.Derived.{contramap, contramap-lawful, contramap_ordered, from};
ghost use Rattle.borsh.specs.Derived.{key_facts, named_described, struct_parts};
ghost use Rattle.std.specs.Prelude.{codes, refl, ◌∷◌, []};

use super::keys::Place;
use borsh::derived::*;

/// The fields of [`Place`], in order.
type Fields = (u8, String);

impl BorshType for Place {
    ghost codec = { contramap ⟦<Place as FromParts>⟧.view ⟦<Fields as BorshType>⟧.codec };

    ghost lawful_if = { from (contramap-lawful ⟦<Place as FromParts>⟧.view)
        ⟦<Fields as BorshType>⟧.lawful_if };

    ghost premises = { Prim.search key_facts };

    fn encodes_empty() -> bool {
        false
    }

    fn element_size() -> usize {
        size_of::<Place>()
    }
}

impl BorshSerialize for Place {
    fn serialize<W: Write>(&self, alloc: Global, writer: &mut W) -> Result<()> {
        let mut room = [0u8; 256];
        if let Some(n) = self.put(&mut room) {
            return write_bytes(&room[..n], writer);
        }
        write_two(&self.zone, &self.street, alloc, writer)
    }

    fn put(&self, room: &mut [u8]) -> Option<usize> {
        put_two(&self.zone, &self.street, room)
    }

    fn encoded_length(&self) -> Option<u32> {
        let fields = (&self.zone, &self.street);
        fields.encoded_length()
    }
}

impl FromParts for Place {
    type Parts = Fields;

    ghost view = { λ v. (v.zone, v.street) };

    fn from_parts((zone, street): Fields) -> Place {
        Place { zone, street }
    }
}

impl BorshDeserialize for Place {
    fn deserialize_reader<R: Read>(alloc: Global, reader: &mut R) -> Result<Place> {
        read_parts(alloc, reader)
    }
}

impl BorshKey for Place {
    ghost ordered = { contramap_ordered (λ v. (v.zone, v.street))
        ⟦<(u8, String) as BorshKey>⟧.ordered };

    ghost key = { Self.ordered.key };
}

impl BorshSchema for Place {
    ghost name = { codes "Place" };

    ghost parts = { struct_parts (codes "Place") (codes "zone" ∷ codes "street" ∷ [])
        ⟦<Chain<Fields> as FieldTypes>⟧.described };

    ghost described = { named_described (λ v. (v.zone, (v.street, tt)))
        (codes "zone" ∷ codes "street" ∷ []) ⟦<Chain<Fields> as FieldTypes>⟧.described refl };

    fn declaration(alloc: Global) -> SchemaResult<Declaration> {
        declared(alloc, "Place")
    }

    fn add_definitions_recursively(alloc: Global, map: &mut DefinitionMap) -> SchemaResult<()> {
        const NAMES: &[&str] = &["zone", "street"];
        add_named::<Chain<Fields>>(alloc, "Place", NAMES, map)
    }

    ghost describes = { Self.described.describes };
}
