// Written by borsh_derive.py from records.rt: edit that file, and run the program again.
ghost use Rattle.borsh.specs.Derived.{contramap, contramap-lawful, from, key_facts};
ghost use Rattle.borsh.specs.Derived.{named_described, struct_parts};
ghost use Rattle.std.specs.Prelude.{codes, refl, ◌∷◌, []};

use super::records::Session;
use borsh::derived::*;

/// The fields of [`Session`] that are encoded, in order.
type Fields = (u32, [u8; 4]);

impl BorshType for Session {
    ghost codec = { contramap ⟦<Session as FromParts>⟧.view ⟦<Fields as BorshType>⟧.codec };

    ghost lawful_if = { from (contramap-lawful ⟦<Session as FromParts>⟧.view)
        ⟦<Fields as BorshType>⟧.lawful_if };

    ghost premises = { Prim.search key_facts };

    fn encodes_empty() -> bool {
        false
    }

    fn element_size() -> usize {
        size_of::<Session>()
    }
}

impl BorshSerialize for Session {
    fn serialize<W: Write>(&self, alloc: Global, writer: &mut W) -> Result<()> {
        write_two(&self.user, &self.token, alloc, writer)
    }

    fn put(&self, room: &mut [u8]) -> Option<usize> {
        put_two(&self.user, &self.token, room)
    }

    fn encoded_length(&self) -> Option<u32> {
        let fields = (&self.user, &self.token);
        fields.encoded_length()
    }
}

impl FromParts for Session {
    type Parts = Fields;

    ghost view = { λ v. (v.user, v.token) };

    fn from_parts((user, token): Fields) -> Session {
        Session {
            user,
            hits: Default::default(),
            token,
        }
    }
}

impl BorshDeserialize for Session {
    fn deserialize_reader<R: Read>(alloc: Global, reader: &mut R) -> Result<Session> {
        read_parts(alloc, reader)
    }
}

impl BorshSchema for Session {
    ghost name = { codes "Session" };

    ghost parts = { struct_parts (codes "Session") (codes "user" ∷ codes "token" ∷ [])
        ⟦<Chain<Fields> as FieldTypes>⟧.described };

    ghost described = { named_described (λ v. (v.user, (v.token, tt)))
        (codes "user" ∷ codes "token" ∷ []) ⟦<Chain<Fields> as FieldTypes>⟧.described refl };

    fn declaration(alloc: Global) -> SchemaResult<Declaration> {
        declared(alloc, "Session")
    }

    fn add_definitions_recursively(alloc: Global, map: &mut DefinitionMap) -> SchemaResult<()> {
        const NAMES: &[&str] = &["user", "token"];
        add_named::<Chain<Fields>>(alloc, "Session", NAMES, map)
    }

    ghost describes = { Self.described.describes };
}
