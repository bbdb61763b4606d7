// What is replied to a request.
ghost use Rattle.std.specs.Prelude.{◌≡◌, IfErr, IfOk, true};
ghost use Rattle.borsh_tool_commands.specs.Failures.{IsNoContainer, IsNoContainerJson, IsNoMemory};
ghost use Rattle.borsh_json.specs.Printed.{layout_if, numbers_if};
ghost use Rattle.borsh_tool_commands.specs.Printed.{printed};
ghost use Rattle.borsh_tool_commands.specs.Questions.{AnswersRequest};
ghost use Rattle.borsh_tool_commands.specs.Replies.{Any, IsContainerReply, IsNoReply, IsReplyOf, IsRustReply, IsSchemaReply, Never, Prints, Replies};

use super::answers::{TextAnswer, answer_to};
use super::command::{Action, Request, ValueRequest};
use super::failure::Failure;
use super::output::write_made;
use super::types::items_of;
use super::values::{
    Schema, encoded, hex_line, json_text, member, schema_from, schema_json, strict_member,
    with_schema,
};
use borsh::io::Write;
use borsh_json::{Layout, LongNumbers, Style};
use std::alloc::Global;

/// What a command prints, and whether its answer is yes: the exit status is 0 then, and else 1.
#[derive(Debug, Drop)]
pub struct Reply {
    pub is_yes: bool,
    pub output: Vec<u8>,
}

/// What is replied to a request about a value, whose bytes or, for `encode`, whose JSON are given; `show`, which writes as it goes,
/// is [`super::values::show`]. Errors have the path that the request has for it.
///
/// Determined: of `decode` JSON of the bytes in ASCII, on one line with `--compact`, and a line feed; of `encode` the bytes that the
/// JSON, in order, is of, behind their container if that is asked for, or their digits as a line; of `member` yes exactly for a
/// member, with `--strict` only for one that JSON represents, else the line up to where and why, with `--strict` for a reason;
/// `NotValue` and `NotText` only for a reason; `NoCommand` only of `show`. Left open: memory; where and why: tested; as of
/// [`borsh_json`].
///
/// ```
/// let reply = reply_to(alloc, &request, &schema, bytes.as_slice())?;
/// assert!(rt; reply.is_yes);
/// ```
pub fn reply_to<'a>(
    alloc: Global,
    request: &ValueRequest<'a>,
    schema: &Schema,
    value: &[u8],
) -> Result<Reply, Failure<'a>>
    ensures ok { IfOk result (λ r. Replies request.now.action request.now schema.now value.now
        r.is_yes r.output.items) }
    ensures err { IfErr result (IsNoReply request.now.action schema.now request.now.value.now value.now) }
{
    let path = request.value;
    match request.action {
        Action::Decode => {
            let text = json_text(alloc, schema, path, value, style_of(request))?;
            Ok(yes(text.into_bytes()))
        }
        Action::Encode => {
            let bytes = encoded(alloc, schema, path, request.with_schema, value)?;
            if request.is_hex {
                let text = hex_line(alloc, bytes.as_slice())?;
                return Ok(yes(text.into_bytes()));
            }
            Ok(yes(bytes))
        }
        Action::Member => {
            let TextAnswer { is_yes, text } = if request.is_strict {
                strict_member(alloc, schema, path, value)?
            } else {
                member(alloc, schema, path, value)?
            };
            Ok(Reply {
                is_yes,
                output: text.into_bytes(),
            })
        }
        Action::Show => Err(Failure::NoCommand),
    }
}

/// The answer to a request about the container whose encoding the bytes are.
///
/// Returns `NotContainer` with the request's path if they are none, and `OutOfMemory` if an allocation fails. Left open: as
/// of [`answer_to`].
///
/// ```
/// let answer = answer_about(alloc, &request, bytes.as_slice())?;
/// assert!(rt; answer.is_yes);
/// ```
pub fn answer_about<'a>(
    alloc: Global,
    request: &Request<'a>,
    bytes: &[u8],
) -> Result<TextAnswer, Failure<'a>>
    ensures ok { IfOk result (λ a. AnswersRequest request.now.question bytes.now a.is_yes (printed a.text)) }
    ensures err { IfErr result (IsNoContainer request.now.path.now bytes.now) }
{
    let schema = schema_from(alloc, request.path, bytes)?;
    Ok(answer_to(alloc, request.question, &schema)?)
}

/// Writes the reply of [`reply_to`], and returns whether it is yes. After an error a beginning was written, since the writer failed,
/// or nothing. Left open: as of [`reply_to`].
///
/// ```
/// assert!(rt; write_reply(alloc, &request, &schema, bytes.as_slice(), &mut out)?);
/// ```
pub fn write_reply<'a, W: Write>(
    alloc: Global,
    request: &ValueRequest<'a>,
    schema: &Schema,
    value: &[u8],
    out: &mut W,
) -> Result<bool, Failure<'a>>
    ensures { let r = request.now in Prints (Replies r.action r schema.now value.now)
        (IsNoReply r.action schema.now r.value.now value.now) W.writing out.old out.new result }
{
    let reply = reply_to(alloc, request, schema, value)?;
    write_whole(reply, out)
}

/// [`write_reply`] of the answer of [`answer_about`].
///
/// ```
/// assert!(rt; write_answer(alloc, &request, bytes.as_slice(), &mut out)?);
/// ```
pub fn write_answer<'a, W: Write>(
    alloc: Global,
    request: &Request<'a>,
    bytes: &[u8],
    out: &mut W,
) -> Result<bool, Failure<'a>>
    ensures { Prints (AnswersRequest request.now.question bytes.now)
        (IsNoContainer request.now.path.now bytes.now) W.writing out.old out.new result }
{
    let TextAnswer { is_yes, text } = answer_about(alloc, request, bytes)?;
    let reply = Reply {
        is_yes,
        output: text.into_bytes(),
    };
    write_whole(reply, out)
}

/// [`write_reply`] of the JSON of [`schema_json`].
///
/// ```
/// assert!(rt; write_schema_json(alloc, "readme.borsh", bytes.as_slice(), &mut out)?);
/// ```
pub fn write_schema_json<'a, W: Write>(
    alloc: Global,
    path: &'a str,
    bytes: &[u8],
    out: &mut W,
) -> Result<bool, Failure<'a>>
    ensures { Prints (IsSchemaReply bytes.now) (IsNoContainerJson path.now bytes.now)
        W.writing out.old out.new result }
{
    let text = schema_json(alloc, path, bytes)?;
    write_whole(yes(text.into_bytes()), out)
}

/// [`write_reply`] of the text of [`items_of`].
///
/// ```
/// assert!(rt; write_rust(alloc, "readme.borsh", bytes.as_slice(), &mut out)?);
/// ```
pub fn write_rust<'a, W: Write>(
    alloc: Global,
    path: &'a str,
    bytes: &[u8],
    out: &mut W,
) -> Result<bool, Failure<'a>>
    ensures { Prints (IsRustReply bytes.now) Any W.writing out.old out.new result }
{
    let items = items_of(alloc, path, bytes)?;
    write_whole(yes(items.text.into_bytes()), out)
}

/// Writes the encoding of a container, or its digits as a line. Errors as of [`write_reply`].
///
/// ```
/// assert!(rt; write_container(alloc, &schema, true, &mut out)?);
/// ```
pub fn write_container<'a, W: Write>(
    alloc: Global,
    schema: &Schema,
    is_hex: bool,
    out: &mut W,
) -> Result<bool, Failure<'a>>
    ensures { Prints (IsContainerReply schema.now is_hex) IsNoMemory W.writing out.old out.new result }
{
    let reply = container_reply(alloc, schema, is_hex)?;
    write_whole(reply, out)
}

fn container_reply<'a>(alloc: Global, schema: &Schema, is_hex: bool) -> Result<Reply, Failure<'a>>
    ensures ok { IfOk result (λ r. IsContainerReply schema.now is_hex r.is_yes r.output.items) }
    ensures err { IfErr result IsNoMemory }
{
    let bytes = with_schema(alloc, schema, &[])?;
    if is_hex {
        let text = hex_line(alloc, bytes.as_slice())?;
        return Ok(yes(text.into_bytes()));
    }
    Ok(yes(bytes))
}

/// Writes a reply, and returns whether its answer is yes.
fn write_whole<'a, W: Write>(reply: Reply, out: &mut W) -> Result<bool, Failure<'a>>
    ensures { Prints (IsReplyOf reply) Never W.writing out.old out.new result }
{
    let Reply { is_yes, mut output } = reply;
    write_made(&mut output, out)?;
    Ok(is_yes)
}

fn yes(output: Vec<u8>) -> Reply
    ensures { (result.is_yes ≡ true) × (result.output ≡ output) }
{
    Reply {
        is_yes: true,
        output,
    }
}

/// How JSON is written.
pub fn style_of(request: &ValueRequest<'_>) -> Style
    ensures { (result.layout ≡ layout_if request.now.is_compact)
        × (result.long_numbers ≡ numbers_if request.now.has_quoted_numbers) }
{
    Style {
        layout: if request.is_compact {
            Layout::Compact
        } else {
            Layout::Pretty
        },
        long_numbers: if request.has_quoted_numbers {
            LongNumbers::Quoted
        } else {
            LongNumbers::Plain
        },
        ..Style::COMPACT
    }
}
