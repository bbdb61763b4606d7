// The names of types with parameters.
ghost use Rattle.std.specs.Prelude.{◌≡◌, IfOk, IfErr, string_bytes};
ghost use Rattle.borsh_schema.specs.declared.definitions.SchemaBuildError.TheVariants.{OutOfMemory};
ghost use Rattle.borsh_schema.specs.Joined.{AddsDefinitions};
ghost use Rattle.borsh_definitions.specs.Names.{texts};
ghost use Rattle.borsh_definitions.specs.Types.{named_struct, unnamed_struct};
ghost use Rattle.borsh_schema.specs.Variants.{name_with};

use super::definitions::{DefinitionMap, SchemaResult};
use super::fields::{FieldTypes, add_named, add_unnamed};
use super::schema::BorshSchema;
use borsh_walks::Declaration;
use std::alloc::Global;

/// The name of a type with its parameters, which are `T` and those of `R`, as `Pair<u8, String>`. The error
/// is always `OutOfMemory`. Left open: memory.
///
/// ```
/// let name = declared_with::<u8, (String, ())>(alloc, "Pair")?;
/// ```
pub fn declared_with<T: BorshSchema, R: FieldTypes>(
    alloc: Global,
    name: &str,
) -> SchemaResult<Declaration>
    ensures ok { IfOk result (λ d. string_bytes d ≡ name_with name.now T.name R.described.names) }
    ensures err { IfErr result (λ e. e ≡ OutOfMemory) }
{
    let first = T::declaration(alloc)?;
    let mut text = format!(in alloc; "{name}<{first}")?;
    R::push_names(alloc, &mut text)?;
    text.push_str(">")?;
    Ok(text)
}

/// Adds a struct whose parameters are `T` and those of `R`, with these names of fields, and the definitions of their types, `P`.
/// The answers are those of [`BorshSchema::add_definitions_recursively`]. Left open: as there.
///
/// ```
/// // struct Pair<A, B> { first: A, second: B }, as Pair<u8, String>
/// add_named_with::<u8, (String, ()), (u8, (String, ()))>(alloc, "Pair", &["first", "second"], definitions)?;
/// ```
pub fn add_named_with<T: BorshSchema, R: FieldTypes, P: FieldTypes>(
    alloc: Global,
    name: &str,
    fields: &[&str],
    definitions: &mut DefinitionMap,
) -> SchemaResult<()>
    ensures { AddsDefinitions definitions.old definitions.new
        (named_struct (name_with name.now T.name R.described.names)
        (texts fields.now) P.described.names P.described.parts) result }
{
    let declaration = declared_with::<T, R>(alloc, name)?;
    add_named::<P>(alloc, declaration.as_str(), fields, definitions)
}

/// [`add_named_with`] for unnamed fields.
///
/// ```
/// // struct Pair<A, B>(A, B), as Pair<u8, String>
/// add_unnamed_with::<u8, (String, ()), (u8, (String, ()))>(alloc, "Pair", definitions)?;
/// ```
pub fn add_unnamed_with<T: BorshSchema, R: FieldTypes, P: FieldTypes>(
    alloc: Global,
    name: &str,
    definitions: &mut DefinitionMap,
) -> SchemaResult<()>
    ensures { AddsDefinitions definitions.old definitions.new
        (unnamed_struct (name_with name.now T.name R.described.names)
        P.described.names P.described.parts) result }
{
    let declaration = declared_with::<T, R>(alloc, name)?;
    add_unnamed::<P>(alloc, declaration.as_str(), definitions)
}
