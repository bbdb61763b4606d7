// A type by its Rust text, in place of a container.
ghost use Rattle.borsh_walks.specs.Container.{IsValid};
ghost use Rattle.borsh_walks.specs.Definitions.{definitions_in as shapes_in};
ghost use Rattle.borsh_tool_commands.specs.Items.{AreItems, compiled_encoding};
ghost use Rattle.std.specs.Prelude.{◌≡◌, IfOk, IsTrue, Some, string_bytes};

use super::failure::Failure;
use super::values::{Schema, schema_from};
use borsh::ser::write_two;
use borsh_source::{Cause, CompileError, Compiled, Source, compile, nearest_name};
use borsh_texts::{Items, NoItems, TextError, parse_items, parse_type, print_items};
use std::alloc::{AllocError, Global};
use std::str;

/// A type by its Rust text, and the file whose items it may name.
#[derive(Clone, Copy, Debug)]
pub struct WrittenType<'a> {
    pub items: Option<&'a str>,
    pub text: &'a str,
}

impl<'a> WrittenType<'a> {
    /// Whether its items are to come from standard input.
    pub fn is_input(&self) -> bool {
        self.items == Some("-")
    }
}

/// The container of a type; the bytes are those of the file of items, and none if there is no file. `NotType` has the file or
/// the type's text, the line and the column.
///
/// Determined: the container is valid. Left open: which it is, and which texts have none: tested.
///
/// ```
/// let written = WrittenType { items: None, text: "Vec<u8>" };
/// assert_eq!(rt; schema_of_type(alloc, written, &[])?.root.as_str(), "Vec<u8>");
/// ```
pub fn schema_of_type<'a>(
    alloc: Global,
    written: WrittenType<'a>,
    items: &[u8],
) -> Result<Schema, Failure<'a>>
    ensures valid { IfOk result (λ s. IsValid (shapes_in s.definitions) (string_bytes s.root)) }
{
    let file = written.items.unwrap_or(written.text);
    let mut source = source_in(alloc, file, items)?;
    let root = match parse_type(alloc, &mut source, written.text) {
        Ok(root) => root,
        Err(error) => return Err(no_tree(alloc, written.text, &error)),
    };
    match compile(alloc, &source, root) {
        Ok(compiled) => Ok(schema_made(compiled)),
        Err(error) => Err(no_container(alloc, &source, file, written.text, &error)),
    }
}

fn schema_made(compiled: Compiled) -> Schema
    ensures { (result.root ≡ compiled.declaration) × (result.definitions ≡ compiled.definitions) }
{
    Schema {
        root: compiled.declaration,
        definitions: compiled.definitions,
    }
}

/// The Rust items whose container the bytes are: as of [`print_items`], whose refusals are `NotType` with the path.
///
/// Determined: the tree of the items means the container of these bytes. Left open: memory; which containers are refused: tested.
///
/// ```
/// let items = items_of(alloc, "a.borsh", bytes.as_slice())?;
/// println!(rt; "{}", items.text)?;
/// ```
pub fn items_of<'a>(alloc: Global, path: &'a str, bytes: &[u8]) -> Result<Items, Failure<'a>>
    ensures { IfOk result (AreItems bytes.now) }
{
    let given = schema_from(alloc, path, bytes)?;
    let items = match print_items(alloc, given.root.as_str(), &given.definitions) {
        Ok(items) => items,
        Err(NoItems::Refused(why)) => return Err(Failure::NotType(path, why)),
        Err(NoItems::OutOfMemory) => return Err(Failure::OutOfMemory),
    };
    if is_encoding(alloc, &items.compiled, bytes)? {
        Ok(items)
    } else {
        Err(no_type(
            path,
            String::from_str(alloc, "no Rust type has this container"),
        ))
    }
}

/// Whether the bytes are the encoding of what was compiled.
fn is_encoding(alloc: Global, compiled: &Compiled, bytes: &[u8]) -> Result<bool, AllocError>
    ensures { IfOk result (λ b. IsTrue b → compiled_encoding compiled.now ≡ Some bytes.now) }
{
    let mut made = Vec::new(alloc);
    let Ok(()) = write_two(
        &compiled.declaration,
        &compiled.definitions,
        alloc,
        &mut made,
    ) else {
        return Err(AllocError);
    };
    Ok(made.as_slice() == bytes)
}

/// The items of a file.
fn source_in<'a>(alloc: Global, file: &'a str, items: &[u8]) -> Result<Source, Failure<'a>> {
    let Ok(text) = str::from_utf8(items) else {
        return Err(Failure::NotText(file));
    };
    match parse_items(alloc, text) {
        Ok(source) => Ok(source),
        Err(error) => Err(no_tree(alloc, file, &error)),
    }
}

/// The failure of a text that has no tree.
fn no_tree<'a>(alloc: Global, path: &'a str, error: &TextError<'_>) -> Failure<'a> {
    match error {
        TextError::OutOfMemory => Failure::OutOfMemory,
        _ => no_type(path, format!(in alloc; "{error}")),
    }
}

/// The failure of a type that has no container; it is in the type's own text where its place has no line.
fn no_container<'a>(
    alloc: Global,
    source: &Source,
    file: &'a str,
    text: &'a str,
    error: &CompileError,
) -> Failure<'a> {
    let CompileError::Refused { place, cause, name } = error else {
        return Failure::OutOfMemory;
    };
    let path = if place.line == 0 && place.column > 0 {
        text
    } else {
        file
    };
    no_type(path, said_of(alloc, source, error, *cause, name.as_str()))
}

/// The error in words; of a name that isn't known, with the nearest one that is.
fn said_of(
    alloc: Global,
    source: &Source,
    error: &CompileError,
    cause: Cause,
    name: &str,
) -> Result<String, AllocError> {
    if cause == Cause::UnknownType
        && let Some(near) = nearest_name(alloc, source, name)?
    {
        return format!(in alloc; "{error}; `{near}` is");
    }
    format!(in alloc; "{error}")
}

fn no_type<'a>(path: &'a str, why: Result<String, AllocError>) -> Failure<'a> {
    match why {
        Ok(why) => Failure::NotType(path, why),
        Err(_) => Failure::OutOfMemory,
    }
}
