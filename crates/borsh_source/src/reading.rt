// Which parameters an item reads: those that it names outside of a `PhantomData` and of skipped fields.
ghost use Rattle.std.specs.Prelude.{◌≡◌, IfOk};
ghost use Rattle.std.specs.List.{list_any};
ghost use Rattle.borsh_source.specs.Errors.{Answers};
ghost use Rattle.borsh_source.specs.Reading.{fields_in, fields_name, names, path_names, reads, variants_name};
ghost use Rattle.borsh_source.specs.Views.{source_of};

use crate::context::{Context, DEEPEST, element, spend, within};
use crate::error::CompileError;
use crate::tree::{Field, Fields, ItemKind, TypeKind, Variant};

// Whether the type at an index names the parameter.
#[cycle(reading)]
fn names(
    context: &Context<'_>,
    parameter: &str,
    at: usize,
    depth: u32,
    left: &mut u64,
) -> Result<bool, CompileError>
    ensures { Answers (source_of context.now) result (λ b. b ≡ names (source_of context.now) depth parameter.now at) }
{
    let Some(written) = element(&context.source.types, at) else {
        return Ok(false);
    };
    spend(context, written.place, 1, left)?;
    let less = within(context, written.place, depth)?;
    match &written.kind {
        TypeKind::Path { name, arguments } => {
            if name.as_str() == "PhantomData" {
                return Ok(false);
            }
            path_names(
                context,
                parameter,
                name.as_str(),
                arguments.as_slice(),
                less,
                left,
            )
        }
        TypeKind::Reference(to) => names(context, parameter, *to, less, left),
        TypeKind::Slice(element) => names(context, parameter, *element, less, left),
        TypeKind::Array { element, .. } => names(context, parameter, *element, less, left),
        TypeKind::Tuple(parts) => any_names(context, parameter, parts.as_slice(), less, left),
        TypeKind::Constant(_) => Ok(false),
    }
}

// Whether a path names the parameter: by itself, or by one of its arguments.
#[cycle(reading)]
fn path_names(
    context: &Context<'_>,
    parameter: &str,
    name: &str,
    arguments: &[usize],
    depth: u32,
    left: &mut u64,
) -> Result<bool, CompileError>
    ensures { Answers (source_of context.now) result (λ b. b ≡ path_names
        (names (source_of context.now) depth parameter.now) parameter.now name.now arguments.now) }
{
    match arguments {
        [] => Ok(name == parameter),
        _ => any_names(context, parameter, arguments, depth, left),
    }
}

// Whether one of the types names the parameter.
#[cycle(reading)]
fn any_names(
    context: &Context<'_>,
    parameter: &str,
    types: &[usize],
    depth: u32,
    left: &mut u64,
) -> Result<bool, CompileError>
    ensures { Answers (source_of context.now) result (λ b.
        b ≡ list_any (names (source_of context.now) depth parameter.now) types.now) }
{
    for at in types {
        if names(context, parameter, *at, depth, left)? {
            return Ok(true);
        }
    }
    Ok(false)
}

/// The fields.
pub fn fields_in(fields: &Fields) -> &[Field]
    ensures { result.now ≡ fields_in fields.now }
{
    match fields {
        Fields::Named(fields) => fields.as_slice(),
        Fields::Unnamed(fields) => fields.as_slice(),
        Fields::Empty => &[],
    }
}

/// Whether one of the fields that aren't skipped names the parameter.
pub fn fields_name(
    context: &Context<'_>,
    parameter: &str,
    fields: &[Field],
    left: &mut u64,
) -> Result<bool, CompileError>
    ensures { Answers (source_of context.now) result (λ b. b ≡ fields_name (source_of context.now) parameter.now fields.now) }
{
    for field in fields {
        if !field.skipped && names(context, parameter, field.written, DEEPEST, left)? {
            return Ok(true);
        }
    }
    Ok(false)
}

// Whether one of the variants does.
fn variants_name(
    context: &Context<'_>,
    parameter: &str,
    variants: &[Variant],
    left: &mut u64,
) -> Result<bool, CompileError>
    ensures { Answers (source_of context.now) result (λ b. b ≡ variants_name (source_of context.now) parameter.now variants.now) }
{
    for variant in variants {
        if fields_name(context, parameter, fields_in(&variant.fields), left)? {
            return Ok(true);
        }
    }
    Ok(false)
}

/// Whether the item names the parameter.
pub fn reads(
    context: &Context<'_>,
    kind: &ItemKind,
    parameter: &str,
    left: &mut u64,
) -> Result<bool, CompileError>
    ensures { Answers (source_of context.now) result (λ b. b ≡ reads (source_of context.now) parameter.now kind.now) }
{
    match kind {
        ItemKind::Struct(fields) => fields_name(context, parameter, fields_in(fields), left),
        ItemKind::Enum { variants, .. } => {
            variants_name(context, parameter, variants.as_slice(), left)
        }
        ItemKind::Alias(to) => names(context, parameter, *to, DEEPEST, left),
        ItemKind::Constant(_) => Ok(false),
    }
}
