// The variants of enums: the types of their fields, on the leaves of a tree.
ghost use Rattle.std.specs.Prelude.{◌≡◌, ◌++◌, IfOk, IfErr, OnOk, map, string_bytes};
ghost use Rattle.std.specs.Slice.Iter.{iter_rest};
ghost use Rattle.borsh_schema.specs.declared.definitions.SchemaBuildError.TheVariants.{OutOfMemory};
ghost use Rattle.borsh_definitions.specs.Described.{defined, form_of_struct, variant_bytes};
ghost use Rattle.borsh_schema.specs.Joined.{AddsDefinitions};
ghost use Rattle.borsh_definitions.specs.Names.{texts};
ghost use Rattle.borsh_schema.specs.Variants.{ReadsVariants, enum_definitions, enum_definitions_as, name_with, read_case, read_case_with, read_fork, variant_fields, row_names, variant_type};

use super::definitions::{DefinitionMap, SchemaResult, add_definition};
use super::fields::FieldTypes;
use super::parameters::declared_with;
use super::parts::{add_with_parts, declared};
use super::schema::BorshSchema;
use borsh_enums::{Case, Fork, TagOf};
use borsh_walks::{Declaration, Definition, DiscriminantValue, Fields, VariantName};
use std::alloc::Global;
use std::slice::Iter;

/// The variants of an enum in the form that its schema goes through: a [`Case`] of the types of the fields,
/// as `(A, (B, ()))`, or a [`Fork`] of such types.
pub trait VariantTypes {
    ghost read: { ReadsVariants };

    /// Puts the variants of the enum `name` at the end of the list. The names of each variant and of its
    /// fields are taken from `names`. Left open: memory; the list and what `names` has left after an error.
    fn push_variants(
        alloc: Global,
        name: &str,
        names: &mut Iter<'_, (&str, &[&str])>,
        list: &mut Vec<(DiscriminantValue, VariantName, Declaration)>,
    ) -> SchemaResult<()>
        ensures rows { OnOk result (map variant_bytes list.new.items
            ≡ map variant_bytes list.old.items
            ++ (read name.now (row_names (iter_rest names.old))).rows) }
        ensures rest { OnOk result (row_names (iter_rest names.new)
            ≡ (read name.now (row_names (iter_rest names.old))).rest) }
        ensures err { IfErr result (λ e. e ≡ OutOfMemory) };

    /// Adds the definition of each variant's fields, under the name of the enum, two underscores and the variant's name, and
    /// those of their types. The answers are those of [`BorshSchema::add_definitions_recursively`]. Left open: as there; what
    /// `names` has left after an error.
    fn add_variants(
        alloc: Global,
        name: &str,
        names: &mut Iter<'_, (&str, &[&str])>,
        definitions: &mut DefinitionMap,
    ) -> SchemaResult<()>
        ensures outcome { AddsDefinitions definitions.old definitions.new
            (read name.now (row_names (iter_rest names.old))).parts result }
        ensures rest { OnOk result (row_names (iter_rest names.new)
            ≡ (read name.now (row_names (iter_rest names.old))).rest) };
}

impl<const TAG: u8, P: FieldTypes> VariantTypes for Case<TAG, P> {
    ghost read = { read_case TAG P.described.names P.described.parts };

    fn push_variants(
        alloc: Global,
        name: &str,
        names: &mut Iter<'_, (&str, &[&str])>,
        list: &mut Vec<(DiscriminantValue, VariantName, Declaration)>,
    ) -> SchemaResult<()> {
        if let Some(first) = names.next() {
            let variant = declared(alloc, first.0)?;
            let declaration = type_of(alloc, name, first.0)?;
            list.push((i64::from(TAG), variant, declaration))?;
        }
        Ok(())
    }

    fn add_variants(
        alloc: Global,
        name: &str,
        names: &mut Iter<'_, (&str, &[&str])>,
        definitions: &mut DefinitionMap,
    ) -> SchemaResult<()> {
        match names.next() {
            Some(first) => add_variant::<P>(alloc, name, first.0, first.1, definitions),
            None => Ok(()),
        }
    }
}

/// A variant of a type with parameters: the name of its definition has those that its fields name, `T` and those of `R`.
pub type CaseWith<const TAG: u8, T, R, P> = (TagOf<TAG>, (T, R), P);

impl<const TAG: u8, T: BorshSchema, R: FieldTypes, P: FieldTypes> VariantTypes
    for CaseWith<TAG, T, R, P> {
    ghost read = { read_case_with T.name R.described.names TAG
        P.described.names P.described.parts };

    fn push_variants(
        alloc: Global,
        name: &str,
        names: &mut Iter<'_, (&str, &[&str])>,
        list: &mut Vec<(DiscriminantValue, VariantName, Declaration)>,
    ) -> SchemaResult<()> {
        if let Some(first) = names.next() {
            let variant = declared(alloc, first.0)?;
            let declaration = type_with::<T, R>(alloc, name, first.0)?;
            list.push((i64::from(TAG), variant, declaration))?;
        }
        Ok(())
    }

    fn add_variants(
        alloc: Global,
        name: &str,
        names: &mut Iter<'_, (&str, &[&str])>,
        definitions: &mut DefinitionMap,
    ) -> SchemaResult<()> {
        match names.next() {
            Some(first) => {
                add_variant_with::<T, R, P>(alloc, name, first.0, first.1, definitions)
            }
            None => Ok(()),
        }
    }
}

impl<A: VariantTypes, B: VariantTypes> VariantTypes for Fork<A, B> {
    ghost read = { read_fork A.read B.read };

    fn push_variants(
        alloc: Global,
        name: &str,
        names: &mut Iter<'_, (&str, &[&str])>,
        list: &mut Vec<(DiscriminantValue, VariantName, Declaration)>,
    ) -> SchemaResult<()> {
        A::push_variants(alloc, name, names, list)?;
        B::push_variants(alloc, name, names, list)
    }

    fn add_variants(
        alloc: Global,
        name: &str,
        names: &mut Iter<'_, (&str, &[&str])>,
        definitions: &mut DefinitionMap,
    ) -> SchemaResult<()> {
        A::add_variants(alloc, name, names, definitions)?;
        B::add_variants(alloc, name, names, definitions)
    }
}

// Fields of these names, or without names where there are none, and of the types `P`.
fn fields_of<P: FieldTypes>(alloc: Global, names: &[&str]) -> SchemaResult<Fields>
    ensures ok { IfOk result (λ f. form_of_struct f ≡ variant_fields (texts names.now) P.described.names) }
    ensures err { IfErr result (λ e. e ≡ OutOfMemory) }
{
    if names.is_empty() {
        let mut types = Vec::with_capacity(alloc, P::count())?;
        P::push_types(alloc, &mut types)?;
        if types.is_empty() {
            return Ok(Fields::Empty);
        }
        return Ok(Fields::UnnamedFields(types));
    }
    let mut list = Vec::new(alloc);
    P::push_fields(alloc, names, &mut list)?;
    Ok(Fields::NamedFields(list))
}

// The name of the definition of a variant's fields.
fn type_of(alloc: Global, name: &str, variant: &str) -> SchemaResult<Declaration>
    ensures ok { IfOk result (λ d. string_bytes d ≡ variant_type name.now variant.now) }
    ensures err { IfErr result (λ e. e ≡ OutOfMemory) }
{
    Ok(format!(in alloc; "{name}__{variant}")?)
}

// The same with parameters.
fn type_with<T: BorshSchema, R: FieldTypes>(
    alloc: Global,
    name: &str,
    variant: &str,
) -> SchemaResult<Declaration>
    ensures ok { IfOk result (λ d. string_bytes d
        ≡ name_with (variant_type name.now variant.now) T.name R.described.names) }
    ensures err { IfErr result (λ e. e ≡ OutOfMemory) }
{
    let own = type_of(alloc, name, variant)?;
    declared_with::<T, R>(alloc, own.as_str())
}

// Adds the definition of a variant's fields, and those of their types.
fn add_variant<P: FieldTypes>(
    alloc: Global,
    name: &str,
    variant: &str,
    fields: &[&str],
    definitions: &mut DefinitionMap,
) -> SchemaResult<()>
    ensures { AddsDefinitions definitions.old definitions.new
        (defined (variant_type name.now variant.now)
        (variant_fields (texts fields.now) P.described.names) P.described.parts) result }
{
    let fields = fields_of::<P>(alloc, fields)?;
    let declaration = type_of(alloc, name, variant)?;
    add_with_parts::<P>(
        alloc,
        declaration,
        Definition::Struct { fields },
        definitions,
    )
}

// The same with parameters.
fn add_variant_with<T: BorshSchema, R: FieldTypes, P: FieldTypes>(
    alloc: Global,
    name: &str,
    variant: &str,
    fields: &[&str],
    definitions: &mut DefinitionMap,
) -> SchemaResult<()>
    ensures { AddsDefinitions definitions.old definitions.new
        (defined (name_with (variant_type name.now variant.now) T.name R.described.names)
        (variant_fields (texts fields.now) P.described.names) P.described.parts) result }
{
    let fields = fields_of::<P>(alloc, fields)?;
    let declaration = type_with::<T, R>(alloc, name, variant)?;
    add_with_parts::<P>(
        alloc,
        declaration,
        Definition::Struct { fields },
        definitions,
    )
}

// Adds an enum under a name, with the definitions of its variants' fields, which have the name of the enum itself.
fn add_enum_as<V: VariantTypes>(
    alloc: Global,
    declaration: Declaration,
    name: &str,
    names: &[(&str, &[&str])],
    definitions: &mut DefinitionMap,
) -> SchemaResult<()>
    ensures { AddsDefinitions definitions.old definitions.new
        (enum_definitions_as (string_bytes declaration) name.now
        (row_names names.now) V.read) result }
{
    let mut variants = Vec::with_capacity(alloc, names.len())?;
    V::push_variants(alloc, name, &mut names.iter(), &mut variants)?;
    let definition = Definition::Enum {
        tag_width: 1,
        variants,
    };
    add_definition(declaration, definition, definitions)?;
    V::add_variants(alloc, name, &mut names.iter(), definitions)
}

/// Adds an enum with the variants `V`, whose names and names of fields are given, and the definitions of their fields. The
/// answers are those of [`BorshSchema::add_definitions_recursively`]. Left open: as there.
///
/// ```
/// type Variants = Fork<Case<0, ()>, Case<1, (u64, (u8, ()))>>;
/// add_enum::<Variants>(alloc, "Order", &[("Stop", &[]), ("Go", &["to", "speed"])], definitions)?;
/// ```
pub fn add_enum<V: VariantTypes>(
    alloc: Global,
    name: &str,
    names: &[(&str, &[&str])],
    definitions: &mut DefinitionMap,
) -> SchemaResult<()>
    ensures { AddsDefinitions definitions.old definitions.new
        (enum_definitions name.now (row_names names.now) V.read) result }
{
    let declaration = declared(alloc, name)?;
    add_enum_as::<V>(alloc, declaration, name, names, definitions)
}

/// [`add_enum`] for an enum whose parameters are `T` and those of `R`.
///
/// ```
/// // enum Either<A, B> { Left(A), Right(B) }, as Either<u8, String>
/// type Variants = Fork<CaseWith<0, u8, (), (u8, ())>, CaseWith<1, String, (), (String, ())>>;
/// add_enum_with::<u8, (String, ()), Variants>(alloc, "Either", &[("Left", &[]), ("Right", &[])], definitions)?;
/// ```
pub fn add_enum_with<T: BorshSchema, R: FieldTypes, V: VariantTypes>(
    alloc: Global,
    name: &str,
    names: &[(&str, &[&str])],
    definitions: &mut DefinitionMap,
) -> SchemaResult<()>
    ensures { AddsDefinitions definitions.old definitions.new
        (enum_definitions_as (name_with name.now T.name R.described.names) name.now
        (row_names names.now) V.read) result }
{
    let declaration = declared_with::<T, R>(alloc, name)?;
    add_enum_as::<V>(alloc, declaration, name, names, definitions)
}
