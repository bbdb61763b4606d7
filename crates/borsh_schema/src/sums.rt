// Values that are one of several kinds.
ghost use Rattle.std.specs.Prelude.{codes, refl};
ghost use Rattle.borsh_codec.specs.Types.Sums.{option_view, result_view};
ghost use Rattle.borsh_walks.specs.Container.{first_variant, later_variant};
ghost use Rattle.borsh_definitions.specs.Described.{defined, both, none};
ghost use Rattle.borsh_definitions.proofs.Laws.Members.{describes_contramap, describes_bool, describes_choice, describes_unit, choice_more, choice_none};
ghost use Rattle.borsh_definitions.specs.Names.{applied, applied_to_two};
ghost use Rattle.borsh_definitions.specs.Types.{primitive_definitions, unit_definitions, option_of, result_of};
ghost use Rattle.borsh_definitions.proofs.Laws.Quoted.{bool_described, option_described, result_described};

use super::definitions::{DefinitionMap, SchemaResult};
use super::parts::{add_primitive, add_with_parts, declared, variant};
use super::schema::BorshSchema;
use borsh_walks::{Declaration, Definition};
use std::alloc::Global;

impl BorshSchema for bool {
    ghost name = { codes "bool" };

    ghost parts = { primitive_definitions (codes "bool") 1 };

    ghost described = { bool_described };

    fn declaration(alloc: Global) -> SchemaResult<Declaration> {
        declared(alloc, "bool")
    }

    fn add_definitions_recursively(alloc: Global, map: &mut DefinitionMap) -> SchemaResult<()> {
        add_primitive(alloc, "bool", 1, map)
    }

    ghost describes = { Self.described.describes };
}

impl<T: BorshSchema> BorshSchema for Option<T> {
    ghost name = { applied (codes "Option<") T.name };

    ghost parts = { defined (applied (codes "Option<") T.name) (option_of T.name)
        (both T.parts (both unit_definitions none)) };

    ghost described = { option_described T.described };

    fn declaration(alloc: Global) -> SchemaResult<Declaration> {
        let value = T::declaration(alloc)?;
        Ok(format!(in alloc; "Option<{value}>")?)
    }

    fn add_definitions_recursively(alloc: Global, map: &mut DefinitionMap) -> SchemaResult<()> {
        let variants = vec![in alloc;
            variant::<()>(alloc, 0, "None")?,
            variant::<T>(alloc, 1, "Some")?,
        ]?;
        add_with_parts::<(T, ((), ()))>(
            alloc,
            Self::declaration(alloc)?,
            Definition::Enum {
                tag_width: 1,
                variants,
            },
            map,
        )
    }

    ghost describes = { λ C h. describes_contramap option_view
        (describes_choice h.0
        (choice_more first_variant refl (describes_unit h.1.1.0.0)
        (choice_more (later_variant first_variant) refl (T.describes C h.1.0) choice_none))) };
}

impl<T: BorshSchema, E: BorshSchema> BorshSchema for Result<T, E> {
    ghost name = { applied_to_two (codes "Result<") T.name E.name };

    ghost parts = { defined (applied_to_two (codes "Result<") T.name E.name)
        (result_of T.name E.name)
        (both T.parts (both E.parts none)) };

    ghost described = { result_described T.described E.described };

    fn declaration(alloc: Global) -> SchemaResult<Declaration> {
        let value = T::declaration(alloc)?;
        let error = E::declaration(alloc)?;
        Ok(format!(in alloc; "Result<{value}, {error}>")?)
    }

    fn add_definitions_recursively(alloc: Global, map: &mut DefinitionMap) -> SchemaResult<()> {
        let variants = vec![in alloc;
            variant::<T>(alloc, 1, "Ok")?,
            variant::<E>(alloc, 0, "Err")?,
        ]?;
        add_with_parts::<(T, (E, ()))>(
            alloc,
            Self::declaration(alloc)?,
            Definition::Enum {
                tag_width: 1,
                variants,
            },
            map,
        )
    }

    ghost describes = { λ C h. describes_contramap result_view
        (describes_choice h.0
        (choice_more (later_variant first_variant) refl (E.describes C h.1.1.0)
        (choice_more first_variant refl (T.describes C h.1.0) choice_none))) };
}
