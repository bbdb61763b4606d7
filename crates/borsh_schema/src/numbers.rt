// Whole numbers: so many bytes.
ghost use Rattle.std.specs.Prelude.{codes};
ghost use Rattle.borsh_definitions.specs.Types.{primitive_definitions};
ghost use Rattle.borsh_definitions.proofs.Laws.Members.{describes_number, describes_signed};
ghost use Rattle.borsh_definitions.proofs.Laws.Quoted.{number_described, signed_described};

use super::definitions::{DefinitionMap, SchemaResult};
use super::parts::{add_primitive, declared};
use super::schema::BorshSchema;
use borsh_walks::Declaration;
use std::alloc::Global;

impl BorshSchema for u8 {
    ghost name = { codes "u8" };

    ghost parts = { primitive_definitions (codes "u8") 1 };

    ghost described = { number_described (codes "u8") 1 };

    fn declaration(alloc: Global) -> SchemaResult<Declaration> {
        declared(alloc, "u8")
    }

    fn add_definitions_recursively(alloc: Global, map: &mut DefinitionMap) -> SchemaResult<()> {
        add_primitive(alloc, "u8", 1, map)
    }

    ghost describes = { Self.described.describes };
}

impl BorshSchema for u16 {
    ghost name = { codes "u16" };

    ghost parts = { primitive_definitions (codes "u16") 2 };

    ghost described = { number_described (codes "u16") 2 };

    fn declaration(alloc: Global) -> SchemaResult<Declaration> {
        declared(alloc, "u16")
    }

    fn add_definitions_recursively(alloc: Global, map: &mut DefinitionMap) -> SchemaResult<()> {
        add_primitive(alloc, "u16", 2, map)
    }

    ghost describes = { Self.described.describes };
}

impl BorshSchema for u32 {
    ghost name = { codes "u32" };

    ghost parts = { primitive_definitions (codes "u32") 4 };

    ghost described = { number_described (codes "u32") 4 };

    fn declaration(alloc: Global) -> SchemaResult<Declaration> {
        declared(alloc, "u32")
    }

    fn add_definitions_recursively(alloc: Global, map: &mut DefinitionMap) -> SchemaResult<()> {
        add_primitive(alloc, "u32", 4, map)
    }

    ghost describes = { Self.described.describes };
}

impl BorshSchema for u64 {
    ghost name = { codes "u64" };

    ghost parts = { primitive_definitions (codes "u64") 8 };

    ghost described = { number_described (codes "u64") 8 };

    fn declaration(alloc: Global) -> SchemaResult<Declaration> {
        declared(alloc, "u64")
    }

    fn add_definitions_recursively(alloc: Global, map: &mut DefinitionMap) -> SchemaResult<()> {
        add_primitive(alloc, "u64", 8, map)
    }

    ghost describes = { Self.described.describes };
}

impl BorshSchema for u128 {
    ghost name = { codes "u128" };

    ghost parts = { primitive_definitions (codes "u128") 16 };

    ghost described = { number_described (codes "u128") 16 };

    fn declaration(alloc: Global) -> SchemaResult<Declaration> {
        declared(alloc, "u128")
    }

    fn add_definitions_recursively(alloc: Global, map: &mut DefinitionMap) -> SchemaResult<()> {
        add_primitive(alloc, "u128", 16, map)
    }

    ghost describes = { Self.described.describes };
}

impl BorshSchema for usize {
    ghost name = { codes "u64" };

    ghost parts = { primitive_definitions (codes "u64") 8 };

    ghost described = { number_described (codes "u64") 8 };

    fn declaration(alloc: Global) -> SchemaResult<Declaration> {
        declared(alloc, "u64")
    }

    fn add_definitions_recursively(alloc: Global, map: &mut DefinitionMap) -> SchemaResult<()> {
        add_primitive(alloc, "u64", 8, map)
    }

    ghost describes = { Self.described.describes };
}

impl BorshSchema for i8 {
    ghost name = { codes "i8" };

    ghost parts = { primitive_definitions (codes "i8") 1 };

    ghost described = { signed_described (codes "i8") 1 };

    fn declaration(alloc: Global) -> SchemaResult<Declaration> {
        declared(alloc, "i8")
    }

    fn add_definitions_recursively(alloc: Global, map: &mut DefinitionMap) -> SchemaResult<()> {
        add_primitive(alloc, "i8", 1, map)
    }

    ghost describes = { Self.described.describes };
}

impl BorshSchema for i16 {
    ghost name = { codes "i16" };

    ghost parts = { primitive_definitions (codes "i16") 2 };

    ghost described = { signed_described (codes "i16") 2 };

    fn declaration(alloc: Global) -> SchemaResult<Declaration> {
        declared(alloc, "i16")
    }

    fn add_definitions_recursively(alloc: Global, map: &mut DefinitionMap) -> SchemaResult<()> {
        add_primitive(alloc, "i16", 2, map)
    }

    ghost describes = { Self.described.describes };
}

impl BorshSchema for i32 {
    ghost name = { codes "i32" };

    ghost parts = { primitive_definitions (codes "i32") 4 };

    ghost described = { signed_described (codes "i32") 4 };

    fn declaration(alloc: Global) -> SchemaResult<Declaration> {
        declared(alloc, "i32")
    }

    fn add_definitions_recursively(alloc: Global, map: &mut DefinitionMap) -> SchemaResult<()> {
        add_primitive(alloc, "i32", 4, map)
    }

    ghost describes = { Self.described.describes };
}

impl BorshSchema for i64 {
    ghost name = { codes "i64" };

    ghost parts = { primitive_definitions (codes "i64") 8 };

    ghost described = { signed_described (codes "i64") 8 };

    fn declaration(alloc: Global) -> SchemaResult<Declaration> {
        declared(alloc, "i64")
    }

    fn add_definitions_recursively(alloc: Global, map: &mut DefinitionMap) -> SchemaResult<()> {
        add_primitive(alloc, "i64", 8, map)
    }

    ghost describes = { Self.described.describes };
}

impl BorshSchema for i128 {
    ghost name = { codes "i128" };

    ghost parts = { primitive_definitions (codes "i128") 16 };

    ghost described = { signed_described (codes "i128") 16 };

    fn declaration(alloc: Global) -> SchemaResult<Declaration> {
        declared(alloc, "i128")
    }

    fn add_definitions_recursively(alloc: Global, map: &mut DefinitionMap) -> SchemaResult<()> {
        add_primitive(alloc, "i128", 16, map)
    }

    ghost describes = { Self.described.describes };
}

impl BorshSchema for isize {
    ghost name = { codes "i64" };

    ghost parts = { primitive_definitions (codes "i64") 8 };

    ghost described = { signed_described (codes "i64") 8 };

    fn declaration(alloc: Global) -> SchemaResult<Declaration> {
        declared(alloc, "i64")
    }

    fn add_definitions_recursively(alloc: Global, map: &mut DefinitionMap) -> SchemaResult<()> {
        add_primitive(alloc, "i64", 8, map)
    }

    ghost describes = { Self.described.describes };
}
