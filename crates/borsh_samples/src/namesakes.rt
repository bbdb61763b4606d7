// Two types that go by one name: no container can have the schemas of both. A list of them is written and read one by one.
ghost use Rattle.borsh.specs.Laws.OfParts.{contramap, contramap-lawful, from, key_facts};
ghost use Rattle.std.specs.Prelude.{codes};
ghost use Rattle.borsh.specs.Schema.Laws.Quoted.{contramap_described, number_described};
ghost use Rattle.borsh.specs.Schema.Types.{primitive_definitions};

use borsh::io::{Read, Result, Write};
use borsh::schema::{
    Declaration, Definition, DefinitionMap, SchemaResult, add_with_parts, declared,
};
use borsh::{BorshDeserialize, BorshSchema, BorshSerialize, BorshType};
use std::alloc::Global;

/// One byte, declared as `A`.
#[derive(Clone, Copy)]
pub struct ShortA(pub u8);

/// Two bytes, declared as `A`.
#[derive(Clone, Copy)]
pub struct LongA(pub u16);

impl BorshType for ShortA {
    ghost codec = { contramap (λ v. v.0) ⟦<u8 as BorshType>⟧.codec };

    ghost lawful_if = { from (contramap-lawful (λ v. v.0)) ⟦<u8 as BorshType>⟧.lawful_if };

    ghost premises = { Prim.search key_facts };

    fn encodes_empty() -> bool {
        false
    }

    fn element_size() -> usize {
        1
    }
}

impl BorshType for LongA {
    ghost codec = { contramap (λ v. v.0) ⟦<u16 as BorshType>⟧.codec };

    ghost lawful_if = { from (contramap-lawful (λ v. v.0)) ⟦<u16 as BorshType>⟧.lawful_if };

    ghost premises = { Prim.search key_facts };

    fn encodes_empty() -> bool {
        false
    }

    fn element_size() -> usize {
        2
    }
}

impl BorshSerialize for ShortA {
    fn serialize<W: Write>(&self, alloc: Global, writer: &mut W) -> Result<()> {
        self.0.serialize(alloc, writer)
    }
}

impl BorshSerialize for LongA {
    fn serialize<W: Write>(&self, alloc: Global, writer: &mut W) -> Result<()> {
        self.0.serialize(alloc, writer)
    }
}

impl BorshDeserialize for ShortA {
    fn deserialize_reader<R: Read>(alloc: Global, reader: &mut R) -> Result<ShortA> {
        Ok(ShortA(u8::deserialize_reader(alloc, reader)?))
    }
}

impl BorshDeserialize for LongA {
    fn deserialize_reader<R: Read>(alloc: Global, reader: &mut R) -> Result<LongA> {
        Ok(LongA(u16::deserialize_reader(alloc, reader)?))
    }
}

impl BorshSchema for ShortA {
    ghost name = { codes "A" };

    ghost parts = { primitive_definitions (codes "A") 1 };

    ghost described = { contramap_described (λ v. v.0) (number_described (codes "A") 1) };

    fn declaration(alloc: Global) -> SchemaResult<Declaration> {
        declared(alloc, "A")
    }

    fn add_definitions_recursively(alloc: Global, map: &mut DefinitionMap) -> SchemaResult<()> {
        let name = Self::declaration(alloc)?;
        add_with_parts::<()>(alloc, name, Definition::Primitive(1), map)
    }

    ghost describes = { Self.described.describes };
}

impl BorshSchema for LongA {
    ghost name = { codes "A" };

    ghost parts = { primitive_definitions (codes "A") 2 };

    ghost described = { contramap_described (λ v. v.0) (number_described (codes "A") 2) };

    fn declaration(alloc: Global) -> SchemaResult<Declaration> {
        declared(alloc, "A")
    }

    fn add_definitions_recursively(alloc: Global, map: &mut DefinitionMap) -> SchemaResult<()> {
        let name = Self::declaration(alloc)?;
        add_with_parts::<()>(alloc, name, Definition::Primitive(2), map)
    }

    ghost describes = { Self.described.describes };
}
