// Numbers that are never zero: so many bytes, as those of the number.
ghost use Rattle.std.specs.Prelude.{codes};
ghost use Rattle.std.specs.Int.NonZero.{non_zero_u8_get, non_zero_u16_get, non_zero_u32_get, non_zero_u64_get, non_zero_u128_get, non_zero_usize_get, non_zero_i8_get, non_zero_i16_get, non_zero_i32_get, non_zero_i64_get, non_zero_i128_get};
ghost use Rattle.borsh_definitions.specs.Types.{primitive_definitions};
ghost use Rattle.borsh_definitions.proofs.Laws.Members.{describes_contramap, describes_number, describes_signed};
ghost use Rattle.borsh_definitions.proofs.Laws.Quoted.{contramap_described, number_described, signed_described};

use super::definitions::{DefinitionMap, SchemaResult};
use super::parts::{add_primitive, declared};
use super::schema::BorshSchema;
use borsh_walks::Declaration;
use std::alloc::Global;
use std::num::{
    NonZeroI8, NonZeroI16, NonZeroI32, NonZeroI64, NonZeroI128, NonZeroU8, NonZeroU16, NonZeroU32,
    NonZeroU64, NonZeroU128, NonZeroUsize,
};

impl BorshSchema for NonZeroU8 {
    ghost name = { codes "NonZeroU8" };

    ghost parts = { primitive_definitions (codes "NonZeroU8") 1 };

    ghost described = { contramap_described non_zero_u8_get (number_described (codes "NonZeroU8") 1) };

    fn declaration(alloc: Global) -> SchemaResult<Declaration> {
        declared(alloc, "NonZeroU8")
    }

    fn add_definitions_recursively(alloc: Global, map: &mut DefinitionMap) -> SchemaResult<()> {
        add_primitive(alloc, "NonZeroU8", 1, map)
    }

    ghost describes = { Self.described.describes };
}

impl BorshSchema for NonZeroU16 {
    ghost name = { codes "NonZeroU16" };

    ghost parts = { primitive_definitions (codes "NonZeroU16") 2 };

    ghost described = { contramap_described non_zero_u16_get (number_described (codes "NonZeroU16") 2) };

    fn declaration(alloc: Global) -> SchemaResult<Declaration> {
        declared(alloc, "NonZeroU16")
    }

    fn add_definitions_recursively(alloc: Global, map: &mut DefinitionMap) -> SchemaResult<()> {
        add_primitive(alloc, "NonZeroU16", 2, map)
    }

    ghost describes = { Self.described.describes };
}

impl BorshSchema for NonZeroU32 {
    ghost name = { codes "NonZeroU32" };

    ghost parts = { primitive_definitions (codes "NonZeroU32") 4 };

    ghost described = { contramap_described non_zero_u32_get (number_described (codes "NonZeroU32") 4) };

    fn declaration(alloc: Global) -> SchemaResult<Declaration> {
        declared(alloc, "NonZeroU32")
    }

    fn add_definitions_recursively(alloc: Global, map: &mut DefinitionMap) -> SchemaResult<()> {
        add_primitive(alloc, "NonZeroU32", 4, map)
    }

    ghost describes = { Self.described.describes };
}

impl BorshSchema for NonZeroU64 {
    ghost name = { codes "NonZeroU64" };

    ghost parts = { primitive_definitions (codes "NonZeroU64") 8 };

    ghost described = { contramap_described non_zero_u64_get (number_described (codes "NonZeroU64") 8) };

    fn declaration(alloc: Global) -> SchemaResult<Declaration> {
        declared(alloc, "NonZeroU64")
    }

    fn add_definitions_recursively(alloc: Global, map: &mut DefinitionMap) -> SchemaResult<()> {
        add_primitive(alloc, "NonZeroU64", 8, map)
    }

    ghost describes = { Self.described.describes };
}

impl BorshSchema for NonZeroU128 {
    ghost name = { codes "NonZeroU128" };

    ghost parts = { primitive_definitions (codes "NonZeroU128") 16 };

    ghost described = { contramap_described non_zero_u128_get (number_described (codes "NonZeroU128") 16) };

    fn declaration(alloc: Global) -> SchemaResult<Declaration> {
        declared(alloc, "NonZeroU128")
    }

    fn add_definitions_recursively(alloc: Global, map: &mut DefinitionMap) -> SchemaResult<()> {
        add_primitive(alloc, "NonZeroU128", 16, map)
    }

    ghost describes = { Self.described.describes };
}

impl BorshSchema for NonZeroUsize {
    ghost name = { codes "NonZeroUsize" };

    ghost parts = { primitive_definitions (codes "NonZeroUsize") 8 };

    ghost described = { contramap_described non_zero_usize_get (number_described (codes "NonZeroUsize") 8) };

    fn declaration(alloc: Global) -> SchemaResult<Declaration> {
        declared(alloc, "NonZeroUsize")
    }

    fn add_definitions_recursively(alloc: Global, map: &mut DefinitionMap) -> SchemaResult<()> {
        add_primitive(alloc, "NonZeroUsize", 8, map)
    }

    ghost describes = { Self.described.describes };
}

impl BorshSchema for NonZeroI8 {
    ghost name = { codes "NonZeroI8" };

    ghost parts = { primitive_definitions (codes "NonZeroI8") 1 };

    ghost described = { contramap_described non_zero_i8_get (signed_described (codes "NonZeroI8") 1) };

    fn declaration(alloc: Global) -> SchemaResult<Declaration> {
        declared(alloc, "NonZeroI8")
    }

    fn add_definitions_recursively(alloc: Global, map: &mut DefinitionMap) -> SchemaResult<()> {
        add_primitive(alloc, "NonZeroI8", 1, map)
    }

    ghost describes = { Self.described.describes };
}

impl BorshSchema for NonZeroI16 {
    ghost name = { codes "NonZeroI16" };

    ghost parts = { primitive_definitions (codes "NonZeroI16") 2 };

    ghost described = { contramap_described non_zero_i16_get (signed_described (codes "NonZeroI16") 2) };

    fn declaration(alloc: Global) -> SchemaResult<Declaration> {
        declared(alloc, "NonZeroI16")
    }

    fn add_definitions_recursively(alloc: Global, map: &mut DefinitionMap) -> SchemaResult<()> {
        add_primitive(alloc, "NonZeroI16", 2, map)
    }

    ghost describes = { Self.described.describes };
}

impl BorshSchema for NonZeroI32 {
    ghost name = { codes "NonZeroI32" };

    ghost parts = { primitive_definitions (codes "NonZeroI32") 4 };

    ghost described = { contramap_described non_zero_i32_get (signed_described (codes "NonZeroI32") 4) };

    fn declaration(alloc: Global) -> SchemaResult<Declaration> {
        declared(alloc, "NonZeroI32")
    }

    fn add_definitions_recursively(alloc: Global, map: &mut DefinitionMap) -> SchemaResult<()> {
        add_primitive(alloc, "NonZeroI32", 4, map)
    }

    ghost describes = { Self.described.describes };
}

impl BorshSchema for NonZeroI64 {
    ghost name = { codes "NonZeroI64" };

    ghost parts = { primitive_definitions (codes "NonZeroI64") 8 };

    ghost described = { contramap_described non_zero_i64_get (signed_described (codes "NonZeroI64") 8) };

    fn declaration(alloc: Global) -> SchemaResult<Declaration> {
        declared(alloc, "NonZeroI64")
    }

    fn add_definitions_recursively(alloc: Global, map: &mut DefinitionMap) -> SchemaResult<()> {
        add_primitive(alloc, "NonZeroI64", 8, map)
    }

    ghost describes = { Self.described.describes };
}

impl BorshSchema for NonZeroI128 {
    ghost name = { codes "NonZeroI128" };

    ghost parts = { primitive_definitions (codes "NonZeroI128") 16 };

    ghost described = { contramap_described non_zero_i128_get (signed_described (codes "NonZeroI128") 16) };

    fn declaration(alloc: Global) -> SchemaResult<Declaration> {
        declared(alloc, "NonZeroI128")
    }

    fn add_definitions_recursively(alloc: Global, map: &mut DefinitionMap) -> SchemaResult<()> {
        add_primitive(alloc, "NonZeroI128", 16, map)
    }

    ghost describes = { Self.described.describes };
}
