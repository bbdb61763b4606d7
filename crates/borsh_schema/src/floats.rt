// Floating-point numbers: so many bytes.
ghost use Rattle.std.specs.Prelude.{codes};
ghost use Rattle.borsh_definitions.specs.Types.{primitive_definitions};
ghost use Rattle.borsh_definitions.proofs.Laws.Quoted.{float32_described, float64_described};

use super::definitions::{DefinitionMap, SchemaResult};
use super::parts::{add_primitive, declared};
use super::schema::BorshSchema;
use borsh_walks::Declaration;
use std::alloc::Global;

impl BorshSchema for f32 {
    ghost name = { codes "f32" };

    ghost parts = { primitive_definitions (codes "f32") 4 };

    ghost described = { float32_described };

    fn declaration(alloc: Global) -> SchemaResult<Declaration> {
        declared(alloc, "f32")
    }

    fn add_definitions_recursively(
        alloc: Global,
        definitions: &mut DefinitionMap,
    ) -> SchemaResult<()> {
        add_primitive(alloc, "f32", 4, definitions)
    }

    ghost describes = { Self.described.describes };
}

impl BorshSchema for f64 {
    ghost name = { codes "f64" };

    ghost parts = { primitive_definitions (codes "f64") 8 };

    ghost described = { float64_described };

    fn declaration(alloc: Global) -> SchemaResult<Declaration> {
        declared(alloc, "f64")
    }

    fn add_definitions_recursively(
        alloc: Global,
        definitions: &mut DefinitionMap,
    ) -> SchemaResult<()> {
        add_primitive(alloc, "f64", 8, definitions)
    }

    ghost describes = { Self.described.describes };
}
