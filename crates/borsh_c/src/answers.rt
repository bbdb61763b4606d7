// What is asked of a container, and of bytes by it.
ghost use Rattle.std.specs.Prelude.{[], ◌≡◌, IfErr, IfOk, None, OnOk, Some, string_bytes};
ghost use Rattle.borsh_c.specs.Answers.{About, Alone, AreBytesOf, HasNoJson, HasNoSize, IsInvalid, IsJsonOf, IsNoMember, IsNoText, IsRefused, IsShort, IsUnclear, Never, Tells, TellsKinds, in_plain, unclear_text, wherever};
ghost use Rattle.borsh_c.specs.Texts.{TellsNoValue, TellsUnread};
ghost use Rattle.borsh_definitions.specs.Codecs.{root_and_map};
ghost use Rattle.borsh_json.specs.declared.output.Characters.TheVariants.{Any};
ghost use Rattle.borsh_io.specs.Errors.{error_kind};
ghost use Rattle.borsh_walks.specs.Answers.{words_of};
ghost use Rattle.borsh_walks.specs.Container.{IsValid, MaxSize, Member};

use super::place::Span;
use super::refusal::{NoAnswer, Said};
use borsh_de::BorshDeserialize;
use borsh_io::{Error, ErrorKind};
use borsh_json::{Json, JsonError, Style, from_json, to_json};
use borsh_values::{Fault, Membership, Path, Plan, is_member};
use borsh_walks::{Definition, Words, rules_in_words, size_in_words};
use std::alloc::{AllocError, Global};
use std::collections::BTreeMap;
use std::str;

/// How many bytes a text has at most that says what is wrong with bytes or JSON; the rest is left out.
pub const MOST_TEXT: usize = 1073741824;

/// A container: the name of its root, and its definitions.
pub type Container = (String, BTreeMap<String, Definition>);

/// The container whose encoding the bytes are.
pub fn container_from(alloc: Global, schema: &[u8]) -> Result<Container, NoAnswer>
    ensures ok { IfOk result (λ c. root_and_map.encoding c ≡ Some schema.now) }
    ensures err { IfErr result (λ e. IsRefused schema.now (wherever Never) Never e) }
{
    match <(String, BTreeMap<String, Definition>)>::try_from_slice(alloc, schema) {
        Ok(container) => Ok(container),
        Err(error) => Err(NoAnswer::Malformed(unread(alloc, &error)?)),
    }
}

/// Why bytes are no container, unless an allocation failed.
fn unread(alloc: Global, error: &Error) -> Result<String, AllocError>
    ensures { IfOk result (λ text. TellsUnread (error_kind error.now) (string_bytes text)) }
{
    if error.kind() == ErrorKind::OutOfMemory {
        return Err(AllocError);
    }
    let why = cut(format!(in alloc; "{error}")?);
    format!(in alloc; "not a schema container: {why}")
}

/// The text, or as many of its first characters as have room in a text.
pub fn cut(mut text: String) -> String
    ensures { IsShort (string_bytes result) }
{
    text.truncate(text.as_str().floor_char_boundary(MOST_TEXT));
    text
}

/// Whether the container keeps the rules of schemas.
pub fn rules(alloc: Global, schema: &[u8]) -> Result<(), NoAnswer>
    ensures ok { OnOk result (About schema.now (Alone IsValid [])) }
    ensures err { IfErr result (λ e. IsRefused schema.now (wherever IsInvalid) Never e) }
{
    let (root, definitions) = container_from(alloc, schema)?;
    let (is_valid, words) = rules_in_words(alloc, root.as_str(), &definitions)?;
    if is_valid {
        return Ok(());
    }
    Err(no(text_of(alloc, &words)?, None))
}

/// Words, and a name behind them, if there is one.
fn text_of(alloc: Global, words: &Words) -> Result<String, AllocError>
    ensures { IfOk result (λ text. string_bytes text ≡ in_plain (words_of words.now)) }
{
    let text = words.text.as_str();
    match &words.name {
        Some(name) => format!(in alloc; "{text} {name}"),
        None => String::from_str(alloc, text),
    }
}

/// No, with a text that names no part.
pub fn no(text: String, offset: Option<usize>) -> NoAnswer
    ensures { Tells offset (string_bytes text) result }
{
    NoAnswer::No(Said {
        text,
        offset,
        path: None,
    })
}

/// What is said of a part, the path to which comes behind so many bytes of the text.
fn said_of_part(
    alloc: Global,
    text: String,
    offset: Option<usize>,
    before: usize,
    path: &Path<'_>,
) -> Result<Said, AllocError>
    ensures { IfOk result (λ s. (s.offset ≡ offset) × IsShort (string_bytes s.text)) }
{
    let path = format!(in alloc; "{path}")?;
    let span = Span {
        start: before,
        length: path.len(),
    };
    Ok(Said {
        text: cut(text),
        offset,
        path: Some(span),
    })
}

/// What is said of a fault, behind other words.
pub fn said_of(alloc: Global, before: &str, fault: &Fault<'_>) -> Result<Said, AllocError>
    ensures { IfOk result (λ s. (s.offset ≡ Some fault.now.offset) × IsShort (string_bytes s.text)) }
{
    let text = format!(in alloc; "{before}{fault}")?;
    said_of_part(alloc, text, Some(fault.offset), before.len(), &fault.path)
}

/// The greatest size of the root: no encoding is longer.
pub fn greatest_size(alloc: Global, schema: &[u8]) -> Result<usize, NoAnswer>
    ensures ok { IfOk result (λ n. About schema.now (Alone (λ C root. MaxSize C root n) [])) }
    ensures err { IfErr result (λ e. IsRefused schema.now (wherever HasNoSize) Never e) }
{
    let (root, definitions) = container_from(alloc, schema)?;
    let (size, words) = size_in_words(alloc, root.as_str(), &definitions)?;
    match size {
        Some(size) => Ok(size),
        None => Err(no(text_of(alloc, &words)?, None)),
    }
}

/// How the values of each name are written that the root leads to.
pub fn kinds_of(alloc: Global, schema: &[u8]) -> Result<String, NoAnswer>
    ensures ok { IfOk result (λ text. About schema.now (TellsKinds (string_bytes text))) }
    ensures err { IfErr result (λ e. IsRefused schema.now (wherever Never) Never e) }
{
    let (root, definitions) = container_from(alloc, schema)?;
    let plan = Plan::new(alloc, root.as_str(), &definitions)?;
    Ok(Json::new(alloc, &plan)?.names()?)
}

/// Whether all of the bytes are a value of the root.
pub fn membership(alloc: Global, schema: &[u8], value: &[u8]) -> Result<(), NoAnswer>
    ensures ok { OnOk result (About schema.now (Alone (λ C root. Member C root value.now) [])) }
    ensures err { IfErr result (λ e. IsRefused schema.now (IsNoMember value.now) IsUnclear e) }
{
    let (root, definitions) = container_from(alloc, schema)?;
    match is_member(alloc, root.as_str(), &definitions, value)? {
        Membership::Member => Ok(()),
        Membership::NoMember(fault) => Err(NoAnswer::No(said_of(alloc, "no member: ", &fault)?)),
        Membership::Ambiguous(name) => Err(NoAnswer::Undecided(unclear(alloc, name)?)),
    }
}

/// That a definition is ambiguous, or breaks a rule of widths.
pub fn unclear(alloc: Global, name: &str) -> Result<String, AllocError>
    ensures { IfOk result (λ text. string_bytes text ≡ unclear_text name.now) }
{
    format!(in alloc; "`{name}` is ambiguous")
}

/// The JSON of the value that the bytes are.
pub fn json_of(alloc: Global, schema: &[u8], value: &[u8], style: Style) -> Result<String, NoAnswer>
    requires { style.characters ≡ Any }
    ensures ok { IfOk result (λ text. About schema.now (IsJsonOf style.layout style.long_numbers value.now (string_bytes text))) }
    ensures err { IfErr result (λ e. IsRefused schema.now (HasNoJson value.now) IsUnclear e) }
{
    let (root, definitions) = container_from(alloc, schema)?;
    match to_json(alloc, root.as_str(), &definitions, value, style) {
        Ok(json) => Ok(json),
        Err(error) => Err(no_value(alloc, &error)?),
    }
}

/// The bytes of the value that JSON says.
pub fn value_of(alloc: Global, schema: &[u8], json: &[u8]) -> Result<Vec<u8>, NoAnswer>
    ensures ok { IfOk result (λ bytes. About schema.now (AreBytesOf json.now bytes.items)) }
    ensures err { IfErr result (λ e. IsRefused schema.now (IsNoText json.now) IsUnclear e) }
{
    let (root, definitions) = container_from(alloc, schema)?;
    let Ok(text) = str::from_utf8(json) else {
        return Err(no(String::from_str(alloc, "not UTF-8")?, None));
    };
    match from_json(alloc, root.as_str(), &definitions, text) {
        Ok(bytes) => Ok(bytes),
        Err(error) => Err(no_value(alloc, &error)?),
    }
}

/// Why there is no JSON, or no value, unless an allocation failed.
pub fn no_value(alloc: Global, error: &JsonError<'_>) -> Result<NoAnswer, AllocError>
    ensures { IfOk result (λ r. TellsNoValue error.now r) }
{
    match error {
        JsonError::OutOfMemory => Err(AllocError),
        JsonError::Ambiguous(name) => Ok(NoAnswer::Undecided(unclear(alloc, name)?)),
        JsonError::NoMember(fault) => Ok(NoAnswer::No(said_of(alloc, "", fault)?)),
        JsonError::NotJson(offset) => Ok(no(cut(format!(in alloc; "{error}")?), Some(*offset))),
        JsonError::Refused(path, _) => {
            let text = format!(in alloc; "{error}")?;
            Ok(NoAnswer::No(said_of_part(alloc, text, None, 0, path)?))
        }
        JsonError::NoValue => Ok(no(cut(format!(in alloc; "{error}")?), None)),
    }
}
