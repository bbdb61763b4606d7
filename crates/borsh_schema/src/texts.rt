// Texts: a count of four bytes and the bytes of the characters.
ghost use Rattle.std.specs.Prelude.{◌≡◌, IfOk, IfErr, codes};
ghost use Rattle.std.specs.Arc.{arc_str_bytes};
ghost use Rattle.std.specs.Box.{boxed_str_bytes};
ghost use Rattle.std.specs.Cow.{cow_str_bytes};
ghost use Rattle.std.specs.Rc.{rc_str_bytes};
ghost use Rattle.std.specs.String.{string_bytes};
ghost use Rattle.borsh_schema.specs.declared.definitions.SchemaBuildError.TheVariants.{OutOfMemory};
ghost use Rattle.borsh_schema.specs.Joined.{AddsDefinitions};
ghost use Rattle.borsh_definitions.proofs.Laws.Members.{describes_contramap, describes_text};
ghost use Rattle.borsh_definitions.specs.Types.{text_definitions};
ghost use Rattle.borsh_definitions.proofs.Laws.Quoted.{contramap_described, text_described};

use super::definitions::{DefinitionMap, SchemaResult};
use super::parts::{add_list, declared};
use super::schema::BorshSchema;
use borsh_walks::Declaration;
use std::alloc::Global;
use std::borrow::CowStr;
use std::boxed::BoxedStr;
use std::rc::RcStr;
use std::sync::ArcStr;

impl BorshSchema for String {
    ghost name = { codes "String" };

    ghost parts = { text_definitions };

    ghost described = { contramap_described string_bytes text_described };

    fn declaration(alloc: Global) -> SchemaResult<Declaration> {
        declared(alloc, "String")
    }

    fn add_definitions_recursively(alloc: Global, map: &mut DefinitionMap) -> SchemaResult<()> {
        add_list::<u8>(alloc, Self::declaration(alloc)?, map)
    }

    ghost describes = { Self.described.describes };
}

impl BorshSchema for &str {
    ghost name = { codes "String" };

    ghost parts = { text_definitions };

    ghost described = { contramap_described (λ r. r.now) text_described };

    fn declaration(alloc: Global) -> SchemaResult<Declaration>
        ensures ok { IfOk result (λ d. string_bytes d ≡ codes "String") }
        ensures err { IfErr result (λ e. e ≡ OutOfMemory) }
    {
        declared(alloc, "String")
    }

    fn add_definitions_recursively(alloc: Global, map: &mut DefinitionMap) -> SchemaResult<()>
        ensures { AddsDefinitions map.old map.new text_definitions result }
    {
        add_list::<u8>(alloc, Self::declaration(alloc)?, map)
    }

    ghost describes = { Self.described.describes };
}

impl BorshSchema for BoxedStr {
    ghost name = { codes "String" };

    ghost parts = { text_definitions };

    ghost described = { contramap_described boxed_str_bytes text_described };

    fn declaration(alloc: Global) -> SchemaResult<Declaration> {
        declared(alloc, "String")
    }

    fn add_definitions_recursively(alloc: Global, map: &mut DefinitionMap) -> SchemaResult<()> {
        add_list::<u8>(alloc, Self::declaration(alloc)?, map)
    }

    ghost describes = { Self.described.describes };
}

impl BorshSchema for RcStr {
    ghost name = { codes "String" };

    ghost parts = { text_definitions };

    ghost described = { contramap_described rc_str_bytes text_described };

    fn declaration(alloc: Global) -> SchemaResult<Declaration> {
        declared(alloc, "String")
    }

    fn add_definitions_recursively(alloc: Global, map: &mut DefinitionMap) -> SchemaResult<()> {
        add_list::<u8>(alloc, Self::declaration(alloc)?, map)
    }

    ghost describes = { Self.described.describes };
}

impl BorshSchema for ArcStr {
    ghost name = { codes "String" };

    ghost parts = { text_definitions };

    ghost described = { contramap_described arc_str_bytes text_described };

    fn declaration(alloc: Global) -> SchemaResult<Declaration> {
        declared(alloc, "String")
    }

    fn add_definitions_recursively(
        alloc: Global,
        definitions: &mut DefinitionMap,
    ) -> SchemaResult<()> {
        add_list::<u8>(alloc, Self::declaration(alloc)?, definitions)
    }

    ghost describes = { Self.described.describes };
}

impl BorshSchema for CowStr<'_> {
    ghost name = { codes "String" };

    ghost parts = { text_definitions };

    ghost described = { contramap_described cow_str_bytes text_described };

    fn declaration(alloc: Global) -> SchemaResult<Declaration>
        ensures ok { IfOk result (λ d. string_bytes d ≡ codes "String") }
        ensures err { IfErr result (λ e. e ≡ OutOfMemory) }
    {
        declared(alloc, "String")
    }

    fn add_definitions_recursively(alloc: Global, map: &mut DefinitionMap) -> SchemaResult<()>
        ensures { AddsDefinitions map.old map.new text_definitions result }
    {
        add_list::<u8>(alloc, Self::declaration(alloc)?, map)
    }

    ghost describes = { Self.described.describes };
}
