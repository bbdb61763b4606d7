// Written by borsh_derive.py from records.rt: edit that file, and run the program again.
ghost use Rattle.borsh.specs.Derived.{contramap, contramap-lawful, from, key_facts};
ghost use Rattle.borsh.specs.Derived.{unnamed_described, unnamed_struct};
ghost use Rattle.std.specs.Prelude.{codes};

use super::records::Code;
use borsh::derived::*;

/// The fields of [`Code`], in order.
type Fields = u8;

impl BorshType for Code {
    ghost codec = { contramap ⟦<Code as FromParts>⟧.view ⟦<Fields as BorshType>⟧.codec };

    ghost lawful_if = { from (contramap-lawful ⟦<Code as FromParts>⟧.view)
        ⟦<Fields as BorshType>⟧.lawful_if };

    ghost premises = { Prim.search key_facts };

    fn encodes_empty() -> bool {
        false
    }

    fn element_size() -> usize {
        size_of::<Code>()
    }
}

impl BorshSerialize for Code {
    fn serialize<W: Write>(&self, alloc: Global, writer: &mut W) -> Result<()> {
        self.0.serialize(alloc, writer)
    }

    fn put(&self, room: &mut [u8]) -> Option<usize> {
        self.0.put(room)
    }

    fn encoded_length(&self) -> Option<u32> {
        self.0.encoded_length()
    }
}

impl FromParts for Code {
    type Parts = Fields;

    ghost view = { λ v. v.0 };

    fn from_parts(part0: Fields) -> Code {
        Code(part0)
    }
}

impl BorshDeserialize for Code {
    fn deserialize_reader<R: Read>(alloc: Global, reader: &mut R) -> Result<Code> {
        read_parts(alloc, reader)
    }
}

impl BorshSchema for Code {
    ghost name = { codes "Code" };

    ghost parts = { unnamed_struct (codes "Code") ⟦<(Fields, ()) as FieldTypes>⟧.described.names
        ⟦<(Fields, ()) as FieldTypes>⟧.described.parts };

    ghost described = { unnamed_described (λ v. (v.0, tt))
        ⟦<(Fields, ()) as FieldTypes>⟧.described };

    fn declaration(alloc: Global) -> SchemaResult<Declaration> {
        declared(alloc, "Code")
    }

    fn add_definitions_recursively(alloc: Global, map: &mut DefinitionMap) -> SchemaResult<()> {
        add_unnamed::<(Fields, ())>(alloc, "Code", map)
    }

    ghost describes = { Self.described.describes };
}
