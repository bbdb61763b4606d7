// What is asked of a value by its container.
ghost use Rattle.std.specs.Prelude.{◌≡◌, ◌++◌, IfErr, IfOk, OnOk, Some, codes, false, flat_map, string_bytes, true};
ghost use Rattle.borsh.specs.Errors.{error_kind};
ghost use Rattle.borsh_tool_commands.specs.Answers.{AnswersMember, line_of};
ghost use Rattle.borsh_tool_commands.specs.Colored.{IsShowFailure, Paints};
ghost use Rattle.borsh_tool_commands.specs.Failures.{IsFailure, IsNoAnswer, IsNoContainer, IsNoContainerInFront, IsNoContainerJson, IsJsonFailure, IsNoMemory, IsNoValue};
ghost use Rattle.borsh_tool_commands.specs.Plain.{digits, escaped};
ghost use Rattle.borsh_tool_commands.specs.Printed.{printed};
ghost use Rattle.borsh_tool_commands.specs.Json.{HasQuotedLine, IsJsonInOrder, IsJsonLine};
ghost use Rattle.borsh_tool_commands.specs.Sent.{EncodesJson, IsContainer, IsOwnSchema, IsSchemaJson, IsSent, ReadsSchema, schema_encoding};
ghost use Rattle.borsh_io.specs.declared.error.ErrorKind.TheVariants.{OutOfMemory as NoRoom};
ghost use Rattle.borsh_json.specs.declared.error.JsonError.TheVariants.{OutOfMemory as NoMemory};
ghost use Rattle.borsh_json.specs.declared.output.LongNumbers.TheVariants.{Quoted};
ghost use Rattle.borsh_walks.specs.Container.{Member};
ghost use Rattle.borsh_walks.specs.Definitions.{definitions_in};

use super::answers::{TextAnswer, line};
use super::columns::write_rows;
use super::failure::Failure;
use super::not_json::not_json;
use super::plain_text::PlainText;
use borsh::io::{Error, ErrorKind, Read, Write};
use borsh::schema::{BorshSchemaContainer, Definition};
use borsh::ser::write_two;
use borsh::{BorshDeserialize, BorshSchema, from_slice};
use borsh_json::{Characters, JsonError, Style, check_strict, from_json, to_json};
use borsh_values::{Membership, Plan, is_member};
use std::alloc::{AllocError, Global};
use std::collections::BTreeMap;
use std::str;

/// A container as the name of its root and its definitions.
#[derive(Drop)]
pub struct Schema {
    pub root: String,
    pub definitions: BTreeMap<String, Definition>,
}

/// The container whose encoding the bytes are. `NotContainer` has the path.
pub fn schema_from<'a>(alloc: Global, path: &'a str, bytes: &[u8]) -> Result<Schema, Failure<'a>>
    ensures ok { IfOk result (λ s. schema_encoding s ≡ Some bytes.now) }
    ensures err { IfErr result (IsNoContainer path.now bytes.now) }
{
    let decoded: Result<(String, BTreeMap<String, Definition>), Error> = from_slice(alloc, bytes);
    match decoded {
        Ok((root, definitions)) => Ok(Schema { root, definitions }),
        Err(error) => Err(no_container(path, error)),
    }
}

/// The container whose encoding is in front of other bytes, and these. The errors are those of [`schema_from`].
pub fn schema_in_front<'a, 'b>(
    alloc: Global,
    path: &'a str,
    bytes: &'b [u8],
) -> Result<(Schema, &'b [u8]), Failure<'a>>
    ensures ok { IfOk result (λ r. IsSent r.0 r.1.now bytes.now) }
    ensures err { IfErr result (IsNoContainerInFront path.now bytes.now) }
{
    let mut rest = bytes;
    let decoded: Result<(String, BTreeMap<String, Definition>), Error> =
        BorshDeserialize::deserialize(alloc, &mut rest);
    match decoded {
        Ok((root, definitions)) => Ok((Schema { root, definitions }, rest)),
        Err(error) => Err(no_container(path, error)),
    }
}

/// The container whose encoding a reader gives first, of which no more is read. The errors are those of [`schema_from`].
pub fn schema_read<'a, R: Read>(
    alloc: Global,
    path: &'a str,
    reader: &mut R,
) -> Result<Schema, Failure<'a>>
    ensures { IfOk result (ReadsSchema (R.stream reader.old) (R.stream reader.new)) }
{
    let decoded: Result<(String, BTreeMap<String, Definition>), Error> =
        BorshDeserialize::deserialize_reader(alloc, reader);
    match decoded {
        Ok((root, definitions)) => Ok(Schema { root, definitions }),
        Err(error) => Err(no_container(path, error)),
    }
}

/// The encoding of a container, and behind it the bytes of a value.
pub fn with_schema(alloc: Global, schema: &Schema, value: &[u8]) -> Result<Vec<u8>, AllocError>
    ensures { IfOk result (λ sent. IsSent schema.now value.now sent.items) }
{
    let mut sent = Vec::new(alloc);
    let Ok(()) = write_two(&schema.root, &schema.definitions, alloc, &mut sent) else {
        return Err(AllocError);
    };
    sent.extend_from_slice(value)?;
    Ok(sent)
}

/// The container of containers.
pub fn own_schema<'a>(alloc: Global) -> Result<Schema, Failure<'a>>
    ensures ok { IfOk result IsOwnSchema }
    ensures err { IfErr result IsNoMemory }
{
    let mut definitions = BTreeMap::new(alloc);
    let Ok(()) = BorshSchemaContainer::add_definitions_recursively(alloc, &mut definitions) else {
        return Err(Failure::OutOfMemory);
    };
    let Ok(root) = <BorshSchemaContainer as BorshSchema>::declaration(alloc) else {
        return Err(Failure::OutOfMemory);
    };
    Ok(Schema { root, definitions })
}

/// The container whose encoding the bytes are as JSON by the container of containers, and a line feed. The errors are those of
/// [`schema_from`]. Left open: memory; as of [`to_json`].
///
/// ```
/// let text = schema_json(alloc, "readme.borsh", bytes.as_slice())?;
/// let again = bytes_said(alloc, &own_schema(alloc)?, "readme.json", text.as_bytes())?;
/// assert_eq!(rt; again.as_slice(), bytes.as_slice());
/// ```
pub fn schema_json<'a>(alloc: Global, path: &'a str, bytes: &[u8]) -> Result<PlainText, Failure<'a>>
    ensures ok { IfOk result (λ t. IsContainer bytes.now × IsSchemaJson bytes.now (printed t)) }
    ensures err { IfErr result (IsNoContainerJson path.now bytes.now) }
{
    let _schema = schema_from(alloc, path, bytes)?;
    let own = own_schema(alloc)?;
    json_text(alloc, &own, path, bytes, Style::PRETTY)
}

/// The failure that an error of decoding a container is.
pub(crate) fn no_container<'a>(path: &'a str, error: Error) -> Failure<'a>
    ensures { IsFailure path.now (error_kind error ≡ NoRoom → ⊥) ⊥ ⊥ result }
{
    if error.kind() == ErrorKind::OutOfMemory {
        return Failure::OutOfMemory;
    }
    Failure::NotContainer(path, error)
}

/// The value that the bytes are as JSON, and a line feed. `NotValue` has the path and the reason.
pub fn json_text<'a>(
    alloc: Global,
    schema: &Schema,
    path: &'a str,
    bytes: &[u8],
    style: Style,
) -> Result<PlainText, Failure<'a>>
    ensures ok { IfOk result (λ t. IsJsonLine schema.now.definitions (string_bytes schema.now.root)
        style.layout bytes.now (printed t)) }
    ensures quoted { style.long_numbers ≡ Quoted → IfOk result (λ t. HasQuotedLine
        schema.now.definitions (string_bytes schema.now.root) (printed t)) }
    ensures err { IfErr result (IsJsonFailure schema.now.definitions (string_bytes schema.now.root)
        path.now bytes.now) }
{
    let style = Style {
        characters: Characters::Ascii,
        ..style
    };
    match to_json(
        alloc,
        schema.root.as_str(),
        &schema.definitions,
        bytes,
        style,
    ) {
        Ok(json) => {
            let mut out = PlainText::of(json.into_bytes());
            out.end_line()?;
            Ok(out)
        }
        Err(error) => Err(no_value(alloc, path, error)),
    }
}

/// The bytes of the value that JSON says. `NotValue` has the path and the reason; `NotText` is of JSON that isn't UTF-8.
pub fn bytes_said<'a>(
    alloc: Global,
    schema: &Schema,
    path: &'a str,
    json: &[u8],
) -> Result<Vec<u8>, Failure<'a>>
    ensures ok { IfOk result (λ bytes. IsJsonInOrder schema.now.definitions (string_bytes schema.now.root)
        json.now bytes.items) }
    ensures err { IfErr result (IsNoValue schema.now.definitions (string_bytes schema.now.root)
        path.now json.now) }
{
    let Ok(text) = str::from_utf8(json) else {
        return Err(Failure::NotText(path));
    };
    match from_json(alloc, schema.root.as_str(), &schema.definitions, text) {
        Ok(bytes) => Ok(bytes),
        Err(error) => Err(no_value_said(alloc, path, text, false, error)),
    }
}

/// The bytes of the value that JSON says, behind those of its container if `is_sent` is true.
pub fn encoded<'a>(
    alloc: Global,
    schema: &Schema,
    path: &'a str,
    is_sent: bool,
    json: &[u8],
) -> Result<Vec<u8>, Failure<'a>>
    ensures ok { IfOk result (λ out. EncodesJson is_sent schema.now json.now out.items) }
    ensures err { IfErr result (IsNoValue schema.now.definitions (string_bytes schema.now.root)
        path.now json.now) }
{
    let bytes = bytes_said(alloc, schema, path, json)?;
    if is_sent {
        Ok(with_schema(alloc, schema, bytes.as_slice())?)
    } else {
        Ok(bytes)
    }
}

/// `member`, or `no member`, where the bytes stop being one, and why. `NotValue` is of an ambiguous container.
pub fn member<'a>(
    alloc: Global,
    schema: &Schema,
    path: &'a str,
    bytes: &[u8],
) -> Result<TextAnswer, Failure<'a>>
    ensures ok { IfOk result (λ a. AnswersMember schema.now.definitions (string_bytes schema.now.root)
        bytes.now false a.is_yes (printed a.text)) }
    ensures err { IfErr result (IsNoAnswer (definitions_in schema.now.definitions)
        (string_bytes schema.now.root) path.now) }
{
    match is_member(alloc, schema.root.as_str(), &schema.definitions, bytes)? {
        Membership::Member => Ok(yes(alloc)?),
        Membership::NoMember(fault) => {
            let why = format!(in alloc; "{fault}")?;
            Ok(no(alloc, "no member: ", why.as_str())?)
        }
        Membership::Ambiguous(name) => Err(no_value(alloc, path, JsonError::Ambiguous(name))),
    }
}

/// `member`, or `no member`, or `not canonical` of a member that has no JSON, as the type refuses it as far as names tell, and why.
pub fn strict_member<'a>(
    alloc: Global,
    schema: &Schema,
    path: &'a str,
    bytes: &[u8],
) -> Result<TextAnswer, Failure<'a>>
    ensures ok { IfOk result (λ a. AnswersMember schema.now.definitions (string_bytes schema.now.root)
        bytes.now true a.is_yes (printed a.text)) }
    ensures err { IfErr result (IsNoAnswer (definitions_in schema.now.definitions)
        (string_bytes schema.now.root) path.now) }
{
    match check_strict(alloc, schema.root.as_str(), &schema.definitions, bytes) {
        Ok(()) => Ok(yes(alloc)?),
        Err(JsonError::NoMember(fault)) => {
            let why = format!(in alloc; "{fault}")?;
            Ok(no(alloc, "no member: ", why.as_str())?)
        }
        Err(JsonError::Refused(part, refusal)) => {
            let why = format!(in alloc; "{part}: {refusal}")?;
            Ok(no(alloc, "not canonical: ", why.as_str())?)
        }
        Err(error) => Err(no_value(alloc, path, error)),
    }
}

fn yes(alloc: Global) -> Result<TextAnswer, AllocError>
    ensures { IfOk result (λ a. (a.is_yes ≡ true) × (printed a.text ≡ line_of (codes "member"))) }
{
    let text = line(alloc, "member")?;
    Ok(TextAnswer { is_yes: true, text })
}

/// What is answered, and why, as a line.
pub(crate) fn no(alloc: Global, answer: &str, why: &str) -> Result<TextAnswer, AllocError>
    ensures { let text = flat_map escaped answer.now ++ flat_map escaped why.now in
        IfOk result (λ a. (a.is_yes ≡ false) × (printed a.text ≡ line_of text)) }
{
    let mut text = PlainText::new(alloc);
    text.push(answer)?;
    text.push(why)?;
    text.end_line()?;
    Ok(TextAnswer {
        is_yes: false,
        text,
    })
}

/// Writes what each byte of the value is, one line for each number, text, count and tag; in colours if `is_colored` is true.
///
/// Determined: after `Ok` the bytes are a member of the root; what was written begins a text that has no codes but those of colours,
/// and is one after `Ok`; `NotValue`, with the path, only for a reason. After an error some lines may have been written. Left open:
/// memory; which text it is: tested.
///
/// ```
/// show(alloc, &schema, "value", b"\x07".as_slice(), false, &mut out)?;
/// ```
pub fn show<'a, W: Write>(
    alloc: Global,
    schema: &Schema,
    path: &'a str,
    bytes: &[u8],
    is_colored: bool,
    out: &mut W,
) -> Result<(), Failure<'a>>
    ensures member { OnOk result (Member (definitions_in schema.now.definitions)
        (string_bytes schema.now.root) bytes.now) }
    ensures painted { Paints W.writing is_colored out.old out.new result }
    ensures err { IfErr result (IsShowFailure (definitions_in schema.now.definitions)
        (string_bytes schema.now.root) path.now bytes.now) }
{
    let plan = Plan::new(alloc, schema.root.as_str(), &schema.definitions)?;
    write_rows(alloc, &plan, path, bytes, is_colored, out)
}

/// Bytes as hexadecimal digits, and a line feed.
pub fn hex_line(alloc: Global, bytes: &[u8]) -> Result<PlainText, AllocError>
    ensures { IfOk result (λ t. printed t ≡ line_of (flat_map digits bytes.now)) }
{
    let mut out = PlainText::new(alloc);
    out.push_digits(bytes)?;
    out.end_line()?;
    Ok(out)
}

/// The failure of JSON that says no value: of a whole text, or of a line alone.
pub(crate) fn no_value_said<'a>(
    alloc: Global,
    path: &'a str,
    json: &str,
    is_line: bool,
    error: JsonError<'_>,
) -> Failure<'a>
    ensures { IsFailure path.now ⊥ (error.entry ≡ NoMemory → ⊥) ⊥ result }
{
    let JsonError::NotJson(offset) = error else {
        return no_value(alloc, path, error);
    };
    match not_json(alloc, json, offset, is_line) {
        Ok(text) => Failure::NotValue(path, text),
        Err(_) => Failure::OutOfMemory,
    }
}

/// The failure of a value that has no JSON, or of JSON that says no value.
pub(crate) fn no_value<'a>(alloc: Global, path: &'a str, error: JsonError<'_>) -> Failure<'a>
    ensures { IsFailure path.now ⊥ (error.entry ≡ NoMemory → ⊥) ⊥ result }
{
    if matches!(error, JsonError::OutOfMemory) {
        return Failure::OutOfMemory;
    }
    match format!(in alloc; "{error}") {
        Ok(text) => Failure::NotValue(path, text),
        Err(_) => Failure::OutOfMemory,
    }
}
