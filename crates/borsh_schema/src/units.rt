// Types whose encodings are empty.
ghost use Rattle.std.specs.Prelude.{codes, refl};
ghost use Rattle.borsh_definitions.specs.Described.{defined, no_fields, none};
ghost use Rattle.borsh_definitions.proofs.Laws.Members.{describes_contramap, describes_unit, describes_parts, all_none};
ghost use Rattle.borsh_definitions.specs.Types.{unit_definitions};
ghost use Rattle.borsh_definitions.proofs.Laws.Quoted.{contramap_described, no_fields_described, struct_described, unit_described};

use super::definitions::{DefinitionMap, SchemaResult};
use super::parts::{add_primitive, add_with_parts, declared};
use super::schema::BorshSchema;
use borsh_walks::{Declaration, Definition, Fields};
use std::alloc::Global;
use std::marker::PhantomData;
use std::ops::RangeFull;

impl BorshSchema for () {
    ghost name = { codes "()" };

    ghost parts = { unit_definitions };

    ghost described = { unit_described };

    fn declaration(alloc: Global) -> SchemaResult<Declaration> {
        declared(alloc, "()")
    }

    fn add_definitions_recursively(alloc: Global, map: &mut DefinitionMap) -> SchemaResult<()> {
        add_primitive(alloc, "()", 0, map)
    }

    ghost describes = { Self.described.describes };
}

impl<T> BorshSchema for PhantomData<T> {
    ghost name = { codes "()" };

    ghost parts = { unit_definitions };

    ghost described = { contramap_described (λ _. tt) unit_described };

    fn declaration(alloc: Global) -> SchemaResult<Declaration> {
        declared(alloc, "()")
    }

    fn add_definitions_recursively(alloc: Global, map: &mut DefinitionMap) -> SchemaResult<()> {
        add_primitive(alloc, "()", 0, map)
    }

    ghost describes = { Self.described.describes };
}

impl BorshSchema for RangeFull {
    ghost name = { codes "RangeFull" };

    ghost parts = { defined (codes "RangeFull") no_fields none };

    ghost described = { struct_described (λ _. tt) no_fields_described refl };

    fn declaration(alloc: Global) -> SchemaResult<Declaration> {
        declared(alloc, "RangeFull")
    }

    fn add_definitions_recursively(alloc: Global, map: &mut DefinitionMap) -> SchemaResult<()> {
        let definition = Definition::Struct {
            fields: Fields::Empty,
        };
        add_with_parts::<()>(alloc, Self::declaration(alloc)?, definition, map)
    }

    ghost describes = { Self.described.describes };
}
