// The container of a type by its text.
ghost use Rattle.borsh_c.specs.Answers.{About, IsShort};
ghost use Rattle.borsh_c.specs.Types.{AreEncodingOf, IsOfType, TellsNoType};
ghost use Rattle.std.specs.Prelude.{IfErr, IfOk};

use super::answers::{MOST_TEXT, cut};
use super::place::Span;
use super::refusal::{NoAnswer, Said};
use borsh_ser::write_two;
use borsh_source::{Cause, CompileError, Compiled, Place, Source, compile, nearest_name};
use borsh_texts::{TextError, parse_items, parse_type};
use std::alloc::{AllocError, Global};
use std::fmt::Display;
use std::str;

/// One of the two texts, and what it is called.
#[derive(Clone, Copy)]
struct Input<'a> {
    name: &'static str,
    text: &'a str,
}

/// The encoding of the container of a type by its text, which may name the items of another.
pub fn container_of(alloc: Global, text: &[u8], type_text: &[u8]) -> Result<Vec<u8>, NoAnswer>
    ensures ok { IfOk result (λ bytes. About bytes.items IsOfType × IsShort bytes.items) }
    ensures err { IfErr result TellsNoType }
{
    let items = input_of(alloc, "text", text)?;
    let written = input_of(alloc, "type", type_text)?;
    let mut source = match parse_items(alloc, items.text) {
        Ok(source) => source,
        Err(error) => return Err(no_tree(alloc, items, &error)?),
    };
    let root = match parse_type(alloc, &mut source, written.text) {
        Ok(root) => root,
        Err(error) => return Err(no_tree(alloc, written, &error)?),
    };
    match compile(alloc, &source, root) {
        Ok(compiled) => encoding_of(alloc, &compiled),
        Err(error) => Err(no_container(alloc, &source, items, written, &error)?),
    }
}

fn input_of<'a>(alloc: Global, name: &'static str, text: &'a [u8]) -> Result<Input<'a>, NoAnswer>
    ensures { IfErr result TellsNoType }
{
    match str::from_utf8(text) {
        Ok(text) => Ok(Input { name, text }),
        Err(error) => {
            let offset = Some(error.valid_up_to());
            Err(refusal_in(alloc, name, offset, &"not UTF-8")?)
        }
    }
}

/// No, with what is wrong behind the name of the input.
fn refusal_in<D: Display>(
    alloc: Global,
    name: &str,
    offset: Option<usize>,
    why: &D,
) -> Result<NoAnswer, AllocError>
    ensures { IfOk result TellsNoType }
{
    let path = Some(Span {
        start: 0,
        length: name.len(),
    });
    let text = cut(format!(in alloc; "{name}: {why}")?);
    Ok(NoAnswer::No(Said { text, offset, path }))
}

fn no_tree(alloc: Global, input: Input<'_>, error: &TextError<'_>) -> Result<NoAnswer, AllocError>
    ensures { IfOk result TellsNoType }
{
    let offset = match error {
        TextError::OutOfMemory => return Err(AllocError),
        TextError::Refused { place, .. } => offset_at(input.text, 1, *place),
    };
    refusal_in(alloc, input.name, offset, error)
}

/// Why the type has no container; its own lines count from 0, and those of its items from 1.
fn no_container(
    alloc: Global,
    source: &Source,
    items: Input<'_>,
    written: Input<'_>,
    error: &CompileError,
) -> Result<NoAnswer, AllocError>
    ensures { IfOk result TellsNoType }
{
    let CompileError::Refused { place, cause, name } = error else {
        return Err(AllocError);
    };
    let (input, offset) = if place.line == 0 && place.column > 0 {
        (written, offset_at(written.text, 0, *place))
    } else if written.text.contains('\n') {
        // Its further lines look like lines of the items.
        (items, None)
    } else {
        (items, offset_at(items.text, 1, *place))
    };
    if *cause == Cause::UnknownType
        && let Some(near) = nearest_name(alloc, source, name.as_str())?
    {
        let why = format!(in alloc; "{error}; `{near}` is")?;
        return refusal_in(alloc, input.name, offset, &why);
    }
    refusal_in(alloc, input.name, offset, error)
}

/// The byte at which a place of a text is, where its first line has this number.
fn offset_at(text: &str, first_line: u32, place: Place) -> Option<usize> {
    let (mut line, mut column) = (first_line, 1);
    for (offset, byte) in text.as_bytes().iter().enumerate() {
        // A character has one byte that isn't of this form.
        if 128 <= *byte && *byte < 192 {
            continue;
        }
        if (line, column) == (place.line, place.column) {
            return Some(offset);
        }
        if *byte == b'\n' {
            line = line.saturating_add(1);
            column = 1;
        } else {
            column = column.saturating_add(1);
        }
    }
    if (line, column) == (place.line, place.column) {
        Some(text.len())
    } else {
        None
    }
}

fn encoding_of(alloc: Global, compiled: &Compiled) -> Result<Vec<u8>, NoAnswer>
    ensures ok { IfOk result (λ bytes. AreEncodingOf compiled.now bytes.items × IsShort bytes.items) }
    ensures err { IfErr result TellsNoType }
{
    let mut bytes = Vec::new(alloc);
    let (root, definitions) = (&compiled.declaration, &compiled.definitions);
    // What was compiled has an encoding, and fewer bytes.
    match write_two(root, definitions, alloc, &mut bytes) {
        Ok(()) if bytes.len() <= MOST_TEXT => Ok(bytes),
        _ => Err(NoAnswer::OutOfMemory),
    }
}
