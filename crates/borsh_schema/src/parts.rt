// The definitions of a type and of its parts, one after another. Left open of each call: memory.
ghost use Rattle.std.specs.Prelude.{◌≡◌, IfOk, IfErr, string_bytes};
ghost use Rattle.borsh_schema.specs.declared.definitions.SchemaBuildError.TheVariants.{OutOfMemory};
ghost use Rattle.borsh_definitions.specs.Described.{none, both, defined};
ghost use Rattle.borsh_schema.specs.Joined.{AddsDefinitions, definition_with};
ghost use Rattle.borsh_definitions.specs.Types.{primitive_definitions, list_of};

use super::definitions::{DefinitionMap, SchemaResult, add_definition};
use super::fields::FieldTypes;
use super::schema::BorshSchema;
use borsh_walks::{Declaration, Definition, DiscriminantValue, FieldName, VariantName};
use std::alloc::Global;

/// Adds a type's definition and those of its parts, which are given as `(A, (B, ()))`. The errors are
/// those of [`BorshSchema::add_definitions_recursively`]. Left open: as there.
///
/// ```
/// add_with_parts::<(u64, (String, ()))>(alloc, name, Definition::Struct { fields }, definitions)?;
/// ```
pub fn add_with_parts<P: FieldTypes>(
    alloc: Global,
    declaration: Declaration,
    definition: Definition,
    definitions: &mut DefinitionMap,
) -> SchemaResult<()>
    ensures { AddsDefinitions definitions.old definitions.new
        (definition_with declaration definition P.described.parts) result }
{
    add_definition(declaration, definition, definitions)?;
    P::add_types(alloc, definitions)
}

/// A name as a `String`. The error is always `OutOfMemory`.
///
/// ```
/// let name = declared(alloc, "Account")?;
/// ```
pub fn declared(alloc: Global, name: &str) -> SchemaResult<Declaration>
    ensures ok { IfOk result (λ d. string_bytes d ≡ name.now) }
    ensures err { IfErr result (λ e. e ≡ OutOfMemory) }
{
    Ok(String::from_str(alloc, name)?)
}

/// A field's name and the name of its type. The error is always `OutOfMemory`.
///
/// ```
/// let fields = Fields::NamedFields(vec![in alloc; field::<u64>(alloc, "amount")?]?);
/// ```
pub fn field<T: BorshSchema>(alloc: Global, name: &str) -> SchemaResult<(FieldName, Declaration)>
    ensures name { IfOk result (λ f. string_bytes f.0 ≡ name.now) }
    ensures declaration { IfOk result (λ f. string_bytes f.1 ≡ T.name) }
    ensures err { IfErr result (λ e. e ≡ OutOfMemory) }
{
    Ok((declared(alloc, name)?, T::declaration(alloc)?))
}

/// A variant's discriminant, its name and the name of its type. The error is always `OutOfMemory`.
///
/// ```
/// let some = variant::<u8>(alloc, 1, "Some")?;
/// ```
pub fn variant<T: BorshSchema>(
    alloc: Global,
    discriminant: DiscriminantValue,
    name: &str,
) -> SchemaResult<(DiscriminantValue, VariantName, Declaration)>
    ensures discriminant { IfOk result (λ v. v.0 ≡ discriminant) }
    ensures name { IfOk result (λ v. string_bytes v.1 ≡ name.now) }
    ensures declaration { IfOk result (λ v. string_bytes v.2 ≡ T.name) }
    ensures err { IfErr result (λ e. e ≡ OutOfMemory) }
{
    Ok((discriminant, declared(alloc, name)?, T::declaration(alloc)?))
}

// Adds a name for so many bytes.
pub(crate) fn add_primitive(
    alloc: Global,
    name: &str,
    size: u8,
    definitions: &mut DefinitionMap,
) -> SchemaResult<()>
    ensures { AddsDefinitions definitions.old definitions.new (primitive_definitions name.now size) result }
{
    add_definition(
        declared(alloc, name)?,
        Definition::Primitive(size),
        definitions,
    )
}

// Adds a list's name: a count of four bytes and the elements.
pub(crate) fn add_list<T: BorshSchema>(
    alloc: Global,
    declaration: Declaration,
    definitions: &mut DefinitionMap,
) -> SchemaResult<()>
    ensures { AddsDefinitions definitions.old definitions.new
        (defined (string_bytes declaration) (list_of T.name) (both T.parts none)) result }
{
    let definition = Definition::Sequence {
        length_width: Definition::DEFAULT_LENGTH_WIDTH,
        length_range: Definition::DEFAULT_LENGTH_RANGE,
        elements: T::declaration(alloc)?,
    };
    add_with_parts::<(T, ())>(alloc, declaration, definition, definitions)
}
