// Written by borsh_derive.py from records.rt: edit that file, and run the program again.
ghost use Rattle.borsh.specs.Derived.{contramap, contramap-lawful, from, key_facts};
ghost use Rattle.borsh.specs.Derived.{named_described, struct_parts};
ghost use Rattle.std.specs.Prelude.{codes, refl, ◌∷◌, []};

use super::records::{Block, Code, Marker};
use borsh::derived::*;

/// The fields of [`Block`], in order.
type Fields = ([u8; 32], [[u16; 3]; 2], Vec<Code>, Option<(Code, Marker)>);

impl BorshType for Block {
    ghost codec = { contramap ⟦<Block as FromParts>⟧.view ⟦<Fields as BorshType>⟧.codec };

    ghost lawful_if = { from (contramap-lawful ⟦<Block as FromParts>⟧.view)
        ⟦<Fields as BorshType>⟧.lawful_if };

    ghost premises = { Prim.search key_facts };

    fn encodes_empty() -> bool {
        false
    }

    fn element_size() -> usize {
        size_of::<Block>()
    }
}

impl BorshSerialize for Block {
    fn serialize<W: Write>(&self, alloc: Global, writer: &mut W) -> Result<()> {
        let mut room = [0u8; 256];
        if let Some(n) = self.put(&mut room) {
            return write_bytes(&room[..n], writer);
        }
        write_four(
            &self.hash,
            &self.rows,
            &self.signers,
            &self.origin,
            alloc,
            writer,
        )
    }

    fn put(&self, room: &mut [u8]) -> Option<usize> {
        put_four(&self.hash, &self.rows, &self.signers, &self.origin, room)
    }

    fn encoded_length(&self) -> Option<u32> {
        let fields = (&self.hash, &self.rows, &self.signers, &self.origin);
        fields.encoded_length()
    }
}

impl FromParts for Block {
    type Parts = Fields;

    ghost view = { λ v. (v.hash, v.rows, v.signers, v.origin) };

    fn from_parts((hash, rows, signers, origin): Fields) -> Block {
        Block {
            hash,
            rows,
            signers,
            origin,
        }
    }
}

impl BorshDeserialize for Block {
    fn deserialize_reader<R: Read>(alloc: Global, reader: &mut R) -> Result<Block> {
        read_parts(alloc, reader)
    }
}

impl BorshSchema for Block {
    ghost name = { codes "Block" };

    ghost parts = { struct_parts (codes "Block")
        (codes "hash" ∷ codes "rows" ∷ codes "signers" ∷ codes "origin" ∷ [])
        ⟦<Chain<Fields> as FieldTypes>⟧.described };

    ghost described = { named_described (λ v. (v.hash, (v.rows, (v.signers, (v.origin, tt)))))
        (codes "hash" ∷ codes "rows" ∷ codes "signers" ∷ codes "origin" ∷ [])
        ⟦<Chain<Fields> as FieldTypes>⟧.described refl };

    fn declaration(alloc: Global) -> SchemaResult<Declaration> {
        declared(alloc, "Block")
    }

    fn add_definitions_recursively(alloc: Global, map: &mut DefinitionMap) -> SchemaResult<()> {
        const NAMES: &[&str] = &["hash", "rows", "signers", "origin"];
        add_named::<Chain<Fields>>(alloc, "Block", NAMES, map)
    }

    ghost describes = { Self.described.describes };
}
