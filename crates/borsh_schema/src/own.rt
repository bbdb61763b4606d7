// The schemas of what schemas are made of: lengths, fields, definitions and containers.
ghost use Rattle.std.specs.Prelude.{codes};
ghost use Rattle.borsh_walks.specs.Codecs.{length_range, fields, definition};
ghost use Rattle.borsh_schema.specs.Codecs.{container, container_pair};
ghost use Rattle.borsh_definitions.proofs.Laws.Members.{describes_contramap};
ghost use Rattle.borsh_definitions.proofs.Laws.Own.{length_range_described, fields_described, definition_described, container_described};
ghost use Rattle.borsh_definitions.specs.Own.{length_range_name, length_range_definitions, fields_definitions, definition_definitions, container_definitions};

use super::container::BorshSchemaContainer;
use super::definitions::{DefinitionMap, SchemaResult};
use super::fields::add_named;
use super::parts::{add_with_parts, declared, field};
use super::schema::BorshSchema;
use super::variants::add_enum;
use borsh_enums::{Case, Fork};
use borsh_walks::{
    Declaration, Definition, DiscriminantValue, FieldName, Fields, LengthRange, VariantName,
};
use std::alloc::Global;

impl BorshSchema for LengthRange {
    ghost name = { length_range_name };

    ghost parts = { length_range_definitions };

    ghost described = { record { codec = length_range; describes = length_range_described } };

    fn declaration(alloc: Global) -> SchemaResult<Declaration> {
        declared(alloc, "RangeInclusive<u64>")
    }

    fn add_definitions_recursively(alloc: Global, map: &mut DefinitionMap) -> SchemaResult<()> {
        let fields = Fields::NamedFields(vec![in alloc;
            field::<u64>(alloc, "start")?,
            field::<u64>(alloc, "end")?,
        ]?);
        let definition = Definition::Struct { fields };
        add_with_parts::<(u64, ())>(alloc, Self::declaration(alloc)?, definition, map)
    }

    ghost describes = { Self.described.describes };
}

impl BorshSchema for Fields {
    ghost name = { codes "Fields" };

    ghost parts = { fields_definitions };

    ghost described = { record { codec = fields; describes = fields_described } };

    fn declaration(alloc: Global) -> SchemaResult<Declaration> {
        declared(alloc, "Fields")
    }

    fn add_definitions_recursively(alloc: Global, map: &mut DefinitionMap) -> SchemaResult<()> {
        add_enum::<
            Fork<
                Case<0, (Vec<(FieldName, Declaration)>, ())>,
                Fork<Case<1, (Vec<Declaration>, ())>, Case<2, ()>>,
            >,
        >(
            alloc,
            "Fields",
            &[("NamedFields", &[]), ("UnnamedFields", &[]), ("Empty", &[])],
            map,
        )
    }

    ghost describes = { Self.described.describes };
}

impl BorshSchema for Definition {
    ghost name = { codes "Definition" };

    ghost parts = { definition_definitions };

    ghost described = { record { codec = definition; describes = definition_described } };

    fn declaration(alloc: Global) -> SchemaResult<Declaration> {
        declared(alloc, "Definition")
    }

    fn add_definitions_recursively(alloc: Global, map: &mut DefinitionMap) -> SchemaResult<()> {
        add_enum::<
            Fork<
                Case<0, (u8, ())>,
                Fork<
                    Case<1, (u8, (LengthRange, (Declaration, ())))>,
                    Fork<
                        Case<2, (Vec<Declaration>, ())>,
                        Fork<
                            Case<3, (u8, (Vec<(DiscriminantValue, VariantName, Declaration)>, ()))>,
                            Case<4, (Fields, ())>,
                        >,
                    >,
                >,
            >,
        >(
            alloc,
            "Definition",
            &[
                ("Primitive", &[]),
                ("Sequence", &["length_width", "length_range", "elements"]),
                ("Tuple", &["elements"]),
                ("Enum", &["tag_width", "variants"]),
                ("Struct", &["fields"]),
            ],
            map,
        )
    }

    ghost describes = { Self.described.describes };
}

impl BorshSchema for BorshSchemaContainer {
    ghost name = { codes "BorshSchemaContainer" };

    ghost parts = { container_definitions };

    ghost described = { record {
      codec = container;
      describes = λ C h. describes_contramap container_pair (container_described C h);
    } };

    fn declaration(alloc: Global) -> SchemaResult<Declaration> {
        declared(alloc, "BorshSchemaContainer")
    }

    fn add_definitions_recursively(alloc: Global, map: &mut DefinitionMap) -> SchemaResult<()> {
        add_named::<(Declaration, (DefinitionMap, ()))>(
            alloc,
            "BorshSchemaContainer",
            &["declaration", "definitions"],
            map,
        )
    }

    ghost describes = { Self.described.describes };
}
