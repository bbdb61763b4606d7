// The fields of structs, tuples and variants: their types, one after another. Left open of each call: as of
// [`BorshSchema::add_definitions_recursively`].
ghost use Rattle.std.specs.Prelude.{◌≡◌, ◌++◌, IfErr, OnOk, map, string_bytes};
ghost use Rattle.borsh_schema.specs.declared.definitions.SchemaBuildError.TheVariants.{OutOfMemory};
ghost use Rattle.borsh_definitions.specs.Described.{field_bytes};
ghost use Rattle.borsh_schema.specs.Joined.{AddsDefinitions};
ghost use Rattle.borsh_definitions.specs.Language.{DescribedFields};
ghost use Rattle.borsh_definitions.proofs.Laws.Quoted.{fields_described, no_fields_described};
ghost use Rattle.borsh_definitions.specs.Names.{AppendsNames, AppendsFollowing, texts, beside};
ghost use Rattle.borsh_definitions.specs.Types.{named_struct, unnamed_struct, unit_struct};

use super::definitions::{DefinitionMap, SchemaResult};
use super::parts::{add_with_parts, declared};
use super::schema::BorshSchema;
use borsh_walks::{Declaration, Definition, FieldName, Fields};
use std::alloc::Global;

/// The types of fields, one after another, as `(A, (B, ()))`.
///
/// `described` has their names, their definitions and the codec of the fields.
pub trait FieldTypes {
    ghost described: { DescribedFields Self };

    /// How many there are. Left open: any number.
    fn count() -> usize;

    /// Puts the names of the types at the end of the list. Left open: memory; the list after an error.
    fn push_types(alloc: Global, types: &mut Vec<Declaration>) -> SchemaResult<()>
        ensures ok { OnOk result (AppendsNames types.old.items types.new.items described.names) }
        ensures err { IfErr result (λ e. e ≡ OutOfMemory) };

    /// Puts the names at the end of the text, each behind a comma. Left open: memory; the text after an error.
    fn push_names(alloc: Global, text: &mut String) -> SchemaResult<()>
        ensures ok { OnOk result (AppendsFollowing text.old text.new described.names) }
        ensures err { IfErr result (λ e. e ≡ OutOfMemory) };

    /// Puts fields of these names and types at the end of the list. Left open: memory; the list after an error.
    fn push_fields(
        alloc: Global,
        fields: &[&str],
        list: &mut Vec<(FieldName, Declaration)>,
    ) -> SchemaResult<()>
        ensures ok { OnOk result (map field_bytes list.new.items
            ≡ map field_bytes list.old.items ++ beside (texts fields.now) described.names) }
        ensures err { IfErr result (λ e. e ≡ OutOfMemory) };

    /// Adds the definitions of the types, with the errors of [`BorshSchema::add_definitions_recursively`].
    ///
    /// ```
    /// <(u8, (String, ()))>::add_types(alloc, &mut definitions)?;
    /// ```
    fn add_types(alloc: Global, definitions: &mut DefinitionMap) -> SchemaResult<()>
        ensures { AddsDefinitions definitions.old definitions.new described.parts result };
}

impl FieldTypes for () {
    ghost described = { no_fields_described };

    fn count() -> usize {
        0
    }

    fn push_types(_alloc: Global, _types: &mut Vec<Declaration>) -> SchemaResult<()> {
        Ok(())
    }

    fn push_names(_alloc: Global, _text: &mut String) -> SchemaResult<()> {
        Ok(())
    }

    fn push_fields(
        _alloc: Global,
        _fields: &[&str],
        _list: &mut Vec<(FieldName, Declaration)>,
    ) -> SchemaResult<()> {
        Ok(())
    }

    #[inline]
    fn add_types(_alloc: Global, _definitions: &mut DefinitionMap) -> SchemaResult<()> {
        Ok(())
    }
}

impl<T: BorshSchema, R: FieldTypes> FieldTypes for (T, R) {
    ghost described = { fields_described T.described R.described };

    fn count() -> usize {
        R::count().saturating_add(1)
    }

    fn push_types(alloc: Global, types: &mut Vec<Declaration>) -> SchemaResult<()> {
        types.push(T::declaration(alloc)?)?;
        R::push_types(alloc, types)
    }

    fn push_names(alloc: Global, text: &mut String) -> SchemaResult<()> {
        let name = T::declaration(alloc)?;
        text.push_str(", ")?;
        text.push_str(name.as_str())?;
        R::push_names(alloc, text)
    }

    fn push_fields(
        alloc: Global,
        fields: &[&str],
        list: &mut Vec<(FieldName, Declaration)>,
    ) -> SchemaResult<()> {
        if let [first, rest @ ..] = fields {
            let name = declared(alloc, first)?;
            list.push((name, T::declaration(alloc)?))?;
            return R::push_fields(alloc, rest, list);
        }
        Ok(())
    }

    #[inline]
    fn add_types(alloc: Global, definitions: &mut DefinitionMap) -> SchemaResult<()> {
        T::add_definitions_recursively(alloc, definitions)?;
        R::add_types(alloc, definitions)
    }
}

/// Adds a struct with these names of fields, and the definitions of their types, `P`. The answers are
/// those of [`BorshSchema::add_definitions_recursively`].
///
/// ```
/// add_named::<(u64, (String, ()))>(alloc, "Account", &["balance", "name"], definitions)?;
/// ```
pub fn add_named<P: FieldTypes>(
    alloc: Global,
    name: &str,
    fields: &[&str],
    definitions: &mut DefinitionMap,
) -> SchemaResult<()>
    ensures { AddsDefinitions definitions.old definitions.new
        (named_struct name.now (texts fields.now) P.described.names P.described.parts) result }
{
    let mut list = Vec::new(alloc);
    P::push_fields(alloc, fields, &mut list)?;
    let declaration = declared(alloc, name)?;
    let fields = Fields::NamedFields(list);
    let definition = Definition::Struct { fields };
    add_with_parts::<P>(alloc, declaration, definition, definitions)
}

/// Adds a struct whose fields, of the types `P`, have no names. The answers are those of
/// [`BorshSchema::add_definitions_recursively`].
///
/// ```
/// add_unnamed::<(u64, (String, ()))>(alloc, "Account", definitions)?;
/// ```
pub fn add_unnamed<P: FieldTypes>(
    alloc: Global,
    name: &str,
    definitions: &mut DefinitionMap,
) -> SchemaResult<()>
    ensures { AddsDefinitions definitions.old definitions.new
        (unnamed_struct name.now P.described.names P.described.parts) result }
{
    let mut list = Vec::with_capacity(alloc, P::count())?;
    P::push_types(alloc, &mut list)?;
    let declaration = declared(alloc, name)?;
    let fields = Fields::UnnamedFields(list);
    let definition = Definition::Struct { fields };
    add_with_parts::<P>(alloc, declaration, definition, definitions)
}

/// Adds a struct without fields. The answers are those of [`BorshSchema::add_definitions_recursively`].
///
/// ```
/// add_unit(alloc, "Nothing", definitions)?;
/// ```
pub fn add_unit(alloc: Global, name: &str, definitions: &mut DefinitionMap) -> SchemaResult<()>
    ensures { AddsDefinitions definitions.old definitions.new (unit_struct name.now) result }
{
    let declaration = declared(alloc, name)?;
    let fields = Fields::Empty;
    let definition = Definition::Struct { fields };
    add_with_parts::<()>(alloc, declaration, definition, definitions)
}
