// What tuples share: a name and a definition from those of their places.
ghost use Rattle.std.specs.Prelude.{◌≡◌, IfOk, IfErr, string_bytes};
ghost use Rattle.borsh_schema.specs.declared.definitions.SchemaBuildError.TheVariants.{OutOfMemory};
ghost use Rattle.borsh_schema.specs.Joined.{AddsDefinitions};
ghost use Rattle.borsh_definitions.specs.Names.{longer_tuple_name};
ghost use Rattle.borsh_definitions.specs.Types.{tuple_described};

use super::definitions::{DefinitionMap, SchemaResult};
use super::fields::FieldTypes;
use super::parts::add_with_parts;
use super::schema::BorshSchema;
use borsh_walks::{Declaration, Definition};
use std::alloc::Global;

/// Six types, and the chain of those behind them.
pub(crate) type Six<A, B, C, D, E, F, R> = (A, (B, (C, (D, (E, (F, R))))));

/// The name of a tuple of two places or more.
pub(crate) fn tuple_declaration<T: BorshSchema, R: FieldTypes>(
    alloc: Global,
) -> SchemaResult<Declaration>
    ensures ok { IfOk result (λ d. string_bytes d ≡ longer_tuple_name T.name R.described.names) }
    ensures err { IfErr result (λ e. e ≡ OutOfMemory) }
{
    let first = T::declaration(alloc)?;
    let mut text = format!(in alloc; "({first}")?;
    R::push_names(alloc, &mut text)?;
    text.push_str(")")?;
    Ok(text)
}

/// Puts in a tuple's definition and those of its places.
pub(crate) fn add_tuple<P: FieldTypes>(
    alloc: Global,
    declaration: Declaration,
    definitions: &mut DefinitionMap,
) -> SchemaResult<()>
    ensures { AddsDefinitions definitions.old definitions.new
        (tuple_described (string_bytes declaration) P.described.names P.described.parts) result }
{
    let mut elements = Vec::with_capacity(alloc, P::count())?;
    P::push_types(alloc, &mut elements)?;
    let definition = Definition::Tuple { elements };
    add_with_parts::<P>(alloc, declaration, definition, definitions)
}

/// [`tuple_declaration`] of a tuple of more than six places.
pub(crate) fn long_tuple_declaration<
    A: BorshSchema,
    B: BorshSchema,
    C: BorshSchema,
    D: BorshSchema,
    E: BorshSchema,
    F: BorshSchema,
    R: FieldTypes,
>(alloc: Global) -> SchemaResult<Declaration>
    ensures ok { IfOk result (λ d. string_bytes d ≡ longer_tuple_name A.name
        ⟦<(B, (C, (D, (E, (F, R))))) as FieldTypes>⟧.described.names) }
    ensures err { IfErr result (λ e. e ≡ OutOfMemory) }
{
    tuple_declaration::<A, (B, (C, (D, (E, (F, R)))))>(alloc)
}

/// [`add_tuple`] of a tuple of more than six places: the prover covers no type argument that is nineteen pairs deep.
pub(crate) fn add_long_tuple<
    A: BorshSchema,
    B: BorshSchema,
    C: BorshSchema,
    D: BorshSchema,
    E: BorshSchema,
    F: BorshSchema,
    R: FieldTypes,
>(alloc: Global, declaration: Declaration, definitions: &mut DefinitionMap) -> SchemaResult<()>
    ensures { let places = ⟦<(A, (B, (C, (D, (E, (F, R)))))) as FieldTypes>⟧.described in
        AddsDefinitions definitions.old definitions.new
        (tuple_described (string_bytes declaration) places.names places.parts) result }
{
    add_tuple::<Six<A, B, C, D, E, F, R>>(alloc, declaration, definitions)
}
