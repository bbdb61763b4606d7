// The definitions of items.
ghost use Rattle.std.specs.Prelude.{◌≡◌, ◌<◌, ◌++◌, ◌∷◌, [], IfOk, IsTrue, MatchOption, None, OnOk, if◌then◌else◌, map, pos, string_bytes, false};
ghost use Rattle.borsh_definitions.specs.Described.{field_bytes, form_of, unnamed, variant_bytes};
ghost use Rattle.borsh_definitions.specs.Names.{beside};
ghost use Rattle.borsh_source.specs.Container.{Brings};
ghost use Rattle.borsh_source.specs.Errors.{Answers};
ghost use Rattle.borsh_source.specs.Meaning.{Defines, FieldsBring, HaveNone, AreTagsDecided, is_explicit, some_definition, IsDiscriminant, IsNewTag, SomeVariantsBring, fields_definition, kept_names, kept_types, read_given, variant_type_given};
ghost use Rattle.borsh_source.specs.Views.{IsIndexed, given_in, parameters_of, source_of, stands, texts_of, unread, used as used_of};

use crate::adding::{Output, add_all};
use crate::context::{Context, DEEPEST, element, nowhere, spend};
use crate::error::{Cause, CompileError, refused};
use crate::forms::{Entry, copied};
use crate::numbers::value_of;
use crate::reading::{fields_in, fields_name};
use crate::tree::{Field, Fields, ItemKind, Parameter, Place, Variant};
use crate::types::{all_named, name_given};
use crate::uses::{Given, Scope, Use, copy_given, given_within, outside};
use borsh_walks::{Declaration, Definition, DiscriminantValue, FieldName, VariantName};
use std::alloc::{AllocError, Global};

// A variant of a definition.
type Row = (DiscriminantValue, VariantName, Declaration);

// The types of the fields that aren't skipped.
fn kept_types(alloc: Global, fields: &[Field]) -> Result<Vec<usize>, AllocError>
    ensures { IfOk result (λ ts. ts.items ≡ kept_types fields.now) }
{
    let mut types = Vec::new(alloc);
    for field in fields {
        push_type(&mut types, field)?;
    }
    Ok(types)
}

// The type of a field, if it isn't skipped.
fn push_type(types: &mut Vec<usize>, field: &Field) -> Result<(), AllocError>
    ensures { OnOk result (types.new.items ≡ types.old.items ++ kept_types (field.now ∷ [])) }
{
    if field.skipped {
        return Ok(());
    }
    types.push(field.written)?;
    Ok(())
}

// The names of the fields that aren't skipped.
fn kept_names(alloc: Global, fields: &[Field]) -> Result<Vec<FieldName>, AllocError>
    ensures { IfOk result (λ ns. texts_of ns.items ≡ kept_names fields.now) }
{
    let mut names = Vec::new(alloc);
    for field in fields {
        push_name(alloc, &mut names, field)?;
    }
    Ok(names)
}

// The name of a field, if it isn't skipped.
fn push_name(alloc: Global, names: &mut Vec<FieldName>, field: &Field) -> Result<(), AllocError>
    ensures { OnOk result
        (texts_of names.new.items ≡ texts_of names.old.items ++ kept_names (field.now ∷ [])) }
{
    if field.skipped {
        return Ok(());
    }
    let name = String::from_str(alloc, field.name.as_str())?;
    names.push(name)?;
    Ok(())
}

// One list beside another.
fn beside(
    alloc: Global,
    fields: &[FieldName],
    names: &[Declaration],
) -> Result<Vec<(FieldName, Declaration)>, AllocError>
    ensures { IfOk result (λ fs. map field_bytes fs.items
        ≡ beside (texts_of fields.now) (texts_of names.now)) }
{
    let mut pairs = Vec::new(alloc);
    push_beside(alloc, &mut pairs, fields, names)?;
    Ok(pairs)
}

// The same at the end of a list.
#[tactic(auto, using(std::proofs::Common::append_assoc))]
fn push_beside(
    alloc: Global,
    pairs: &mut Vec<(FieldName, Declaration)>,
    fields: &[FieldName],
    names: &[Declaration],
) -> Result<(), AllocError>
    ensures { OnOk result (map field_bytes pairs.new.items ≡ map field_bytes pairs.old.items
        ++ beside (texts_of fields.now) (texts_of names.now)) }
{
    match names {
        [] => Ok(()),
        [name, names @ ..] => match fields {
            [] => Ok(()),
            [field, fields @ ..] => {
                let field = String::from_str(alloc, field.as_str())?;
                let name = String::from_str(alloc, name.as_str())?;
                pairs.push((field, name))?;
                push_beside(alloc, pairs, fields, names)
            }
        },
    }
}

// The definition of fields, of which there are some, whose types have these names.
fn some_definition(
    alloc: Global,
    fields: &Fields,
    names: &[Declaration],
) -> Result<Definition, AllocError>
    ensures { IfOk result (λ d.
        form_of d ≡ some_definition fields.now (texts_of names.now)) }
{
    match fields {
        Fields::Named(fields) => {
            let fields = kept_names(alloc, fields.as_slice())?;
            let fields = borsh_walks::Fields::NamedFields(beside(alloc, fields.as_slice(), names)?);
            Ok(Definition::Struct { fields })
        }
        Fields::Unnamed(_) => unnamed_definition(alloc, names),
        Fields::Empty => unnamed_definition(alloc, names),
    }
}

// The definition of fields without names.
fn unnamed_definition(alloc: Global, names: &[Declaration]) -> Result<Definition, AllocError>
    ensures { IfOk result (λ d. form_of d ≡ unnamed (texts_of names.now)) }
{
    let fields = borsh_walks::Fields::UnnamedFields(copied(alloc, names)?);
    Ok(Definition::Struct { fields })
}

// The definition of fields whose types have these names.
fn fields_definition(
    alloc: Global,
    fields: &Fields,
    names: &[Declaration],
) -> Result<Definition, AllocError>
    ensures { IfOk result (λ d.
        form_of d ≡ fields_definition (texts_of names.now) fields.now) }
{
    match names {
        [] => Ok(Definition::Struct {
            fields: borsh_walks::Fields::Empty,
        }),
        _ => some_definition(alloc, fields, names),
    }
}

// Adds the definition of fields under a name, and what their types bring.
fn add_fields(
    context: &Context<'_>,
    scope: Scope<'_>,
    place: Place,
    name: Declaration,
    fields: &Fields,
    output: &mut Output<'_>,
) -> Result<(), CompileError>
    requires { IsIndexed context.now }
    ensures { Answers (source_of context.now) result (λ _. Brings (FieldsBring (source_of context.now)
        (parameters_of scope.entry) (given_in scope.entry) (string_bytes name) fields.now)
        output.old output.new) }
{
    let types = kept_types(context.alloc, fields_in(fields))?;
    let names = all_named(context, scope, types.as_slice(), DEEPEST, output)?;
    let definition = fields_definition(context.alloc, fields, names.as_slice())?;
    let entries = vec![in context.alloc; (name, definition)]?;
    add_all(context, place, entries, output)?;
    Ok(())
}

// The name of the definition of a variant's fields: with the names that the parameters stand for which they read.
fn variant_type(
    context: &Context<'_>,
    scope: Scope<'_>,
    item: &str,
    variant: &Variant,
    left: &mut u64,
) -> Result<Declaration, CompileError>
    ensures { Answers (source_of context.now) result (λ d. string_bytes d ≡ variant_type_given (source_of context.now)
        (parameters_of scope.entry) (given_in scope.entry) item.now variant.now) }
{
    let name = variant.name.as_str();
    let whole = format!(in context.alloc; "{item}__{name}")?;
    let mut given: Vec<Given> = Vec::new(context.alloc);
    let fields = fields_in(&variant.fields);
    push_read(
        context,
        fields,
        scope.parameters,
        scope.given,
        &mut given,
        left,
    )?;
    let declared = name_given(context.alloc, whole.as_str(), given.as_slice())?;
    Ok(declared)
}

// What those of the parameters stand for that the fields name.
fn push_read(
    context: &Context<'_>,
    fields: &[Field],
    parameters: &[Parameter],
    given: &[Given],
    read: &mut Vec<Given>,
    left: &mut u64,
) -> Result<(), CompileError>
    ensures { Answers (source_of context.now) result (λ _. map stands read.new.items ≡ map stands read.old.items
        ++ read_given (source_of context.now) fields.now parameters.now (map stands given.now)) }
{
    match parameters {
        [] => Ok(()),
        [parameter, parameters @ ..] => match given {
            [] => Ok(()),
            [first, others @ ..] => {
                let named = fields_name(context, parameter.name.as_str(), fields, left)?;
                let stands = given_if(context.alloc, named, first)?;
                read.push(stands)?;
                push_read(context, fields, parameters, others, read, left)
            }
        },
    }
}

// What a parameter stands for, where it is read.
fn given_if(alloc: Global, read: bool, given: &Given) -> Result<Given, AllocError>
    ensures { IfOk result (λ g. stands g ≡ (if read then stands given.now else unread)) }
{
    if read {
        copy_given(alloc, given)
    } else {
        Ok(Given::Unread)
    }
}

// The tag of a variant: its discriminant where the tags are these, else that of the variant before it and one.
fn discriminant_of(
    context: &Context<'_>,
    explicit: bool,
    variant: &Variant,
    next: u64,
    left: &mut u64,
) -> Result<u64, CompileError>
    requires { IsIndexed context.now }
    ensures { Answers (source_of context.now) result (IsDiscriminant (source_of context.now)
        variant.now.discriminant explicit next) }
{
    match variant.discriminant {
        Some(expression) => if explicit {
            let scope = outside();
            let tag = value_of(context, scope, expression, DEEPEST, left)?;
            Ok(tag)
        } else {
            Ok(next)
        },
        None => Ok(next),
    }
}

// The same, which has to fit into a byte, and to be none of the variants before it.
fn tag_of(
    context: &Context<'_>,
    explicit: bool,
    variant: &Variant,
    next: u64,
    rows: &[Row],
    left: &mut u64,
) -> Result<u8, CompileError>
    requires { IsIndexed context.now }
    ensures tag { Answers (source_of context.now) result (IsDiscriminant (source_of context.now)
        variant.now.discriminant explicit next) }
    ensures small { Answers (source_of context.now) result (λ tag. tag < 256) }
    ensures new { Answers (source_of context.now) result (λ tag. IsNewTag tag (map variant_bytes rows.now)) }
{
    let tag = discriminant_of(context, explicit, variant, next, left)?;
    let name = variant.name.as_str();
    let Ok(tag) = u8::try_from(tag) else {
        return Err(refused(context.alloc, variant.place, Cause::Tag, name));
    };
    if is_new(tag, rows) {
        Ok(tag)
    } else {
        Err(refused(context.alloc, variant.place, Cause::TwoTags, name))
    }
}

// Whether no row has the tag.
fn is_new(tag: u8, rows: &[Row]) -> bool
    ensures { IsTrue result → IsNewTag tag (map variant_bytes rows.now) }
{
    match rows {
        [] => true,
        [row, rows @ ..] => row.0 != i64::from(tag) && is_new(tag, rows),
    }
}

// Adds the definitions of the fields of variants.
fn add_variants(
    context: &Context<'_>,
    scope: Scope<'_>,
    item: &str,
    explicit: bool,
    variants: &[Variant],
    output: &mut Output<'_>,
) -> Result<Vec<Row>, CompileError>
    requires { IsIndexed context.now }
    ensures { Answers (source_of context.now) result (λ rows. Brings (SomeVariantsBring (source_of context.now)
        (parameters_of scope.entry) (given_in scope.entry) item.now explicit variants.now
        (map variant_bytes rows.items)) output.old output.new) }
{
    let mut rows = Vec::new(context.alloc);
    let mut next: u64 = 0;
    for variant in variants {
        let tag = tag_of(
            context,
            explicit,
            variant,
            next,
            rows.as_slice(),
            &mut output.left,
        )?;
        let whole = variant_type(context, scope, item, variant, &mut output.left)?;
        let name = String::from_str(context.alloc, whole.as_str())?;
        add_fields(context, scope, variant.place, name, &variant.fields, output)?;
        push_row(context.alloc, &mut rows, tag, variant.name.as_str(), whole)?;
        next = u64::from(tag) + 1;
    }
    Ok(rows)
}

// The row of a variant at the end of a list.
fn push_row(
    alloc: Global,
    rows: &mut Vec<Row>,
    tag: u8,
    name: &str,
    whole: Declaration,
) -> Result<(), AllocError>
    ensures { OnOk result (map variant_bytes rows.new.items
        ≡ map variant_bytes rows.old.items ++ (pos tag, name.now, string_bytes whole) ∷ []) }
{
    let name = String::from_str(alloc, name)?;
    rows.push((i64::from(tag), name, whole))?;
    Ok(())
}

// Whether a variant has a discriminant.
fn has_discriminant(variants: &[Variant]) -> bool
    ensures none { (result ≡ false) → HaveNone variants.now }
    ensures some { IsTrue result → HaveNone variants.now → ⊥ }
{
    for variant in variants {
        if variant.discriminant.is_some() {
            return true;
        }
    }
    false
}

/// Adds the definitions of an item that is used, and what their types bring.
pub fn add_item(
    context: &Context<'_>,
    used: &Use,
    output: &mut Output<'_>,
) -> Result<(), CompileError>
    requires { IsIndexed context.now }
    ensures { Answers (source_of context.now) result (λ _. Brings (Defines (source_of context.now) (used_of used.now)) output.old output.new) }
{
    let Some(item) = element(&context.source.items, used.item) else {
        return Err(nowhere(context));
    };
    let name = name_given(context.alloc, item.name.as_str(), used.given.as_slice())?;
    let given = given_within(context.alloc, used.given.as_slice(), name.as_str())?;
    let scope = Scope {
        parameters: item.parameters.as_slice(),
        given: given.as_slice(),
    };
    match &item.kind {
        ItemKind::Struct(fields) => {
            add_fields(context, scope, item.place, name, fields, output)?;
            Ok(())
        }
        ItemKind::Enum {
            use_discriminant,
            variants,
        } => {
            let item_name = item.name.as_str();
            let variants = variants.as_slice();
            let Some(explicit) = explicit_tags(*use_discriminant, variants) else {
                return Err(refused(context.alloc, item.place, Cause::Discriminants, item_name));
            };
            let variants = add_variants(context, scope, item_name, explicit, variants, output)?;
            let definition = Definition::Enum {
                tag_width: 1,
                variants,
            };
            let entries = vec![in context.alloc; (name, definition)]?;
            add_all(context, item.place, entries, output)?;
            Ok(())
        }
        _ => Err(refused(context.alloc, item.place, Cause::NoType, item.name.as_str())),
    }
}

// Whether the discriminants are the tags, if that is said, or there are none.
fn explicit_tags(said: Option<bool>, variants: &[Variant]) -> Option<bool>
    ensures { MatchOption result ((said ≡ None) × (HaveNone variants.now → ⊥))
        (λ b. AreTagsDecided said variants.now × (b ≡ is_explicit said)) }
{
    match said {
        Some(explicit) => Some(explicit),
        None => if has_discriminant(variants) {
            None
        } else {
            Some(false)
        },
    }
}
