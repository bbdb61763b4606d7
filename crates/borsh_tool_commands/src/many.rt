// What is asked of values one after another, and of one value a line.
ghost use Rattle.borsh_plan.specs.Plan.{definitions_of, map_of, root_of};
ghost use Rattle.borsh_json.specs.Ascii.{IsInLine, IsPlain};
ghost use Rattle.borsh_json.specs.declared.output.Layout.TheVariants.{Compact};
ghost use Rattle.borsh_tool_commands.specs.Answers.{line_of};
ghost use Rattle.borsh_tool_commands.specs.Failures.{IsJsonFailure, IsNoMemory, IsStop};
ghost use Rattle.borsh_tool_commands.specs.Json.{IsJsonInOrder, IsJsonLine};
ghost use Rattle.borsh_tool_commands.specs.Lines.{IsFirstLine, IsLong, NextLine};
ghost use Rattle.borsh_tool_commands.specs.Many.{AnswersEach, AnswersLine, AnswersMany, AnswersText, FailsBy, WritesMade, HasNoAnswer, IsCount, IsEnded, IsErrorLine, IsNoRoot, IsPlaced, IsRefusedAs, IsUnwritten, IsValueError, StopsAtLine, StopsCounting, StopsNext, StopsNextLine, WritesAnswers, count_text, digits_line as line_of_digits, most_bytes, said_by as said_by_digits, unmarked as unmarked_digits};
ghost use Rattle.borsh_tool_commands.specs.Printed.{AddsPrinted, printed};
ghost use Rattle.borsh_values.specs.Records.{IsFirst, Advances, SameRoot, ahead, limit_of, plan_of, source_of};
ghost use Rattle.borsh_values.specs.declared.records.RecordError.TheVariants.{Reader};
ghost use Rattle.borsh_walks.specs.Container.{Member};
ghost use Rattle.hex.specs.declared.error.FromHexError.TheVariants.{OutOfMemory as NoDigitsMemory};
ghost use Rattle.std.specs.Prelude.{[], All, IfErr, IfOk, List, Ok, Err, OnErr, OnOk, codes, false, true, ℕ, ◌≡◌, ◌++◌, ◌⊎◌};

use super::answers::{TextAnswer, line};
use super::command::{Action, Form};
use super::failure::{Failure, NoDigits};
use super::lines::{take_held_line, take_line};
use super::output::write_made;
use super::plain_text::{Added, PlainText};
use super::progress::Progress;
use super::values::{hex_line, no, no_value, no_value_said};
use borsh::io::{Buffered, Read, Write};
use borsh_json::{Characters, Json, LongNumbers, Style, in_ascii};
use borsh_values::{Fault, MOST_BYTES, RecordError, Records};
use hex::FromHexError;
use json::Writer;
use std::alloc::{AllocError, Global};
use std::str;

/// How many bytes of an answer are kept until they are written.
const ROOM: usize = 65536;

/// Values of one type, one after another or one a line.
#[derive(Clone, Copy)]
pub struct Many<'a, 'l, 's> {
    pub alloc: Global,
    pub json: &'l Json<'s, 'l>,
    /// Where the values are from.
    pub path: &'a str,
    /// How JSON has numbers of 64 bits. It is written in ASCII and on one line.
    pub long_numbers: LongNumbers,
    /// Whether the first line that has no answer ends the run.
    pub is_strict: bool,
}

/// What answers a line.
#[derive(Clone, Copy, Debug, PartialEq, Eq)]
pub enum Wanted {
    /// The JSON of the value whose digits it is, as a line.
    Json,
    /// The digits of the value whose JSON it is, as a line.
    Digits,
    /// The bytes of the value whose JSON it is.
    Bytes,
}

/// WritesAnswers what a command answers of many values, as they are read, and returns whether the answer is yes.
///
/// `Decode` writes a line of JSON for each value that the reader's bytes are, one after another, and `Encode` the bytes of the
/// value that each line of JSON says. With `Lines` each line is the digits of a value, which is answered by its JSON, or the JSON
/// of one, which is answered by its digits; unless lines are strict, one that is neither is answered by `{"error": ..}`. The others
/// count the values. An error comes after the answers before it: `NotValue` where bytes or a line are no value.
///
/// Determined: what was written is an answer to each of the first values or lines, in order and nothing else, and to all of them
/// after `Ok`; unless the writer fails, none that was made is lost; an error line, only where there is a reason; the number of
/// values, and that where it is no none begins there. Each line has one line feed. A failure has the path, and comes only where none of
/// the bytes that are left is a value, or their first value or line has no answer, or a line is too long, or the reader or the writer
/// fails. Left open: memory; when the writer fails; texts of errors: tested; as of [`borsh_json`].
///
/// ```
/// answer_many(Action::Decode, Form::Records, &many, StdReader::new(rt.stdin(), 1000), &mut progress, &mut out)?;
/// ```
pub fn answer_many<'a, E: Eprint, R: Read + Drop, W: Write>(
    action: Action,
    form: Form,
    many: &Many<'a, '_, '_>,
    input: R,
    progress: &mut Progress<'_, E>,
    out: &mut W,
) -> Result<bool, Failure<'a>>
    ensures { let l = many.now.json.now.plan.now in
        WritesAnswers (AnswersMany action form many.now.is_strict (FailsBy R.stream) many.now.path.now l
        (R.stream input).bytes)
        W.writing out.old out.new [] result }
{
    let mut made = Vec::new(many.alloc);
    let outcome = make_answers(action, form, many, input, progress, &mut made, out);
    write_made(&mut made, out)?;
    outcome
}

fn make_answers<'a, E: Eprint, R: Read + Drop, W: Write>(
    action: Action,
    form: Form,
    many: &Many<'a, '_, '_>,
    input: R,
    progress: &mut Progress<'_, E>,
    made: &mut Vec<u8>,
    out: &mut W,
) -> Result<bool, Failure<'a>>
    requires { made.old.items ≡ [] }
    ensures { let l = many.now.json.now.plan.now in
        WritesAnswers (AnswersMany action form many.now.is_strict (FailsBy R.stream) many.now.path.now l
        (R.stream input).bytes)
        W.writing out.old out.new made.new.items result }
{
    let lenient = !many.is_strict;
    match action {
        Action::Decode => match form {
            Form::Records => decode_records(many, input, progress, made, out),
            Form::Lines => answer_lines(many, Wanted::Json, lenient, input, progress, made, out),
        },
        Action::Encode => match form {
            Form::Records => encode_records(many, input, progress, made, out),
            Form::Lines => answer_lines(many, Wanted::Digits, lenient, input, progress, made, out),
        },
        Action::Member => make_count(many, input, progress, made),
        Action::Show => Err(Failure::NoCommand),
    }
}

/// Makes a line of JSON for each value, and writes them.
fn decode_records<'a, E: Eprint, R: Read + Drop, W: Write>(
    many: &Many<'a, '_, '_>,
    input: R,
    progress: &mut Progress<'_, E>,
    made: &mut Vec<u8>,
    out: &mut W,
) -> Result<bool, Failure<'a>>
    requires { made.old.items ≡ [] }
    ensures { let l = many.now.json.now.plan.now in
        WritesAnswers (AnswersMany Action.Decode Form.Records many.now.is_strict (FailsBy R.stream) many.now.path.now
        l (R.stream input).bytes)
        W.writing out.old out.new made.new.items result }
{
    let mut records = records_of(many, input)?;
    let mut number: u64 = 1;
    while next_record(many, &mut records, number, made, out)? {
        match json_line(many, records.value()) {
            Ok(line) => made.extend_from_slice(line.as_slice())?,
            Err(failure) => {
                let offset = Some(records.offset());
                return Err(placed(many.alloc, failure, number, offset));
            }
        }
        progress.step(records.value().len());
        number = number.saturating_add(1);
    }
    Ok(true)
}

/// Makes the bytes of the value that each line of JSON says, and writes them, if no value is without bytes.
fn encode_records<'a, E: Eprint, R: Read + Drop, W: Write>(
    many: &Many<'a, '_, '_>,
    input: R,
    progress: &mut Progress<'_, E>,
    made: &mut Vec<u8>,
    out: &mut W,
) -> Result<bool, Failure<'a>>
    requires { made.old.items ≡ [] }
    ensures { let l = many.now.json.now.plan.now in
        WritesAnswers (AnswersMany Action.Encode Form.Records many.now.is_strict (FailsBy R.stream) many.now.path.now
        l (R.stream input).bytes)
        W.writing out.old out.new made.new.items result }
{
    let _none = records_of(many, b"".as_slice())?;
    answer_lines(many, Wanted::Bytes, false, input, progress, made, out)
}

/// The JSON of a value, and a line feed.
fn json_line<'a>(many: &Many<'a, '_, '_>, value: &[u8]) -> Result<Vec<u8>, Failure<'a>>
    ensures ok { let l = many.now.json.now.plan.now in
        IfOk result (λ line. IsJsonLine (map_of l) (root_of l) Compact value.now line.items) }
    ensures err { let l = many.now.json.now.plan.now in
        IfErr result (IsJsonFailure (map_of l) (root_of l) many.now.path.now value.now) }
{
    let style = Style {
        long_numbers: many.long_numbers,
        characters: Characters::Ascii,
        ..Style::COMPACT
    };
    match many.json.to_json(value, style) {
        Ok(text) => {
            let mut line = text.into_bytes();
            line.extend_from_slice(b"\n".as_slice())?;
            Ok(line)
        }
        Err(error) => Err(no_value(many.alloc, many.path, error)),
    }
}

/// Makes the line that says how many values there are, and returns whether the bytes are that.
fn make_count<'a, E: Eprint, R: Read + Drop>(
    many: &Many<'a, '_, '_>,
    input: R,
    progress: &mut Progress<'_, E>,
    made: &mut Vec<u8>,
) -> Result<bool, Failure<'a>>
    requires { made.old.items ≡ [] }
    ensures ok { let plan = many.now.json.now.plan.now in IfOk result (λ yes.
        IsCount (definitions_of plan) (root_of plan) (R.stream input).bytes yes made.new.items) }
    ensures err { let l = many.now.json.now.plan.now in IfErr result
        (StopsCounting (FailsBy R.stream) many.now.path.now l (R.stream input).bytes) }
{
    let TextAnswer { is_yes, text } = count_records(many, input, progress)?;
    made.extend_from_slice(text.as_bytes())?;
    Ok(is_yes)
}

/// How many values the bytes are, one after another; or where they stop being values.
fn count_records<'a, E: Eprint, R: Read + Drop>(
    many: &Many<'a, '_, '_>,
    input: R,
    progress: &mut Progress<'_, E>,
) -> Result<TextAnswer, Failure<'a>>
    ensures ok { let plan = many.now.json.now.plan.now in IfOk result (λ a.
        IsCount (definitions_of plan) (root_of plan) (R.stream input).bytes a.is_yes (printed a.text)) }
    ensures err { let l = many.now.json.now.plan.now in IfErr result
        (StopsCounting (FailsBy R.stream) many.now.path.now l (R.stream input).bytes) }
{
    let mut records = records_of(many, input)?;
    for count in 0..u64::MAX {
        match records.advance(many.alloc) {
            Ok(true) => progress.step(records.value().len()),
            Ok(false) => return Ok(counted(many.alloc, count)?),
            Err(error) => return ended(many, count, error),
        }
    }
    Err(Failure::OutOfMemory)
}

/// The answer where the bytes stop being values behind so many, or the failure.
fn ended<'a>(
    many: &Many<'a, '_, '_>,
    count: u64,
    error: RecordError<'_>,
) -> Result<TextAnswer, Failure<'a>>
    ensures { IsEnded many.now.path.now error.entry result }
{
    match error {
        RecordError::NoMember(offset, fault) => Ok(stopped(many.alloc, count, offset, fault)?),
        RecordError::CutShort(offset, fault) => Ok(stopped(many.alloc, count, offset, fault)?),
        error => Err(no_record(many, count.saturating_add(1), error)),
    }
}

/// The answer that the bytes are so many values.
fn counted(alloc: Global, count: u64) -> Result<TextAnswer, AllocError>
    ensures { IfOk result (λ a. (a.is_yes ≡ true) × (printed a.text ≡ line_of (count_text count))) }
{
    let mut text = PlainText::new(alloc);
    push_count(count, &mut text)?;
    text.end_line()?;
    Ok(TextAnswer { is_yes: true, text })
}

fn push_count(count: u64, out: &mut PlainText) -> Added
    ensures { AddsPrinted out.old out.new result (count_text count) }
{
    out.push_number(count)?;
    if count == 1 {
        out.push(" value")
    } else {
        out.push(" values")
    }
}

/// The answer that the bytes stop being values behind so many.
fn stopped(
    alloc: Global,
    count: u64,
    offset: u64,
    fault: Fault<'_>,
) -> Result<TextAnswer, AllocError>
    ensures { IfOk result (λ a. (a.is_yes ≡ false) × ((why : List ℕ) ×
        (printed a.text ≡ line_of (codes "no member: " ++ why)))) }
{
    let number = count.saturating_add(1);
    let why = format!(in alloc; "value {number} at byte {offset}: {fault}")?;
    no(alloc, "no member: ", why.as_str())
}

/// Makes an answer to each line, and writes them.
fn answer_lines<'a, E: Eprint, R: Read + Drop, W: Write>(
    many: &Many<'a, '_, '_>,
    wanted: Wanted,
    is_lenient: bool,
    input: R,
    progress: &mut Progress<'_, E>,
    made: &mut Vec<u8>,
    out: &mut W,
) -> Result<bool, Failure<'a>>
    requires { made.old.items ≡ [] }
    ensures { let l = many.now.json.now.plan.now in
        WritesAnswers (AnswersEach IsFirstLine (AnswersLine l wanted is_lenient)
        (StopsAtLine (FailsBy R.stream) many.now.path.now l wanted is_lenient ⊥ (R.stream input).bytes)
        (R.stream input).bytes)
        W.writing out.old out.new made.new.items result }
{
    let mut lines = Buffered::new(many.alloc, input);
    for number in 1..u64::MAX {
        if !next_line(many, &mut lines, made, out)? {
            return Ok(true);
        }
        let text = line_answer(many, wanted, is_lenient, number, lines.piece())?;
        made.extend_from_slice(text.as_slice())?;
        progress.step(lines.piece().len());
    }
    Err(Failure::OutOfMemory)
}

/// The answer to the line of this number.
fn line_answer<'a>(
    many: &Many<'a, '_, '_>,
    wanted: Wanted,
    is_lenient: bool,
    number: u64,
    line: &[u8],
) -> Result<Vec<u8>, Failure<'a>>
    ensures ok { IfOk result (λ out. AnswersLine many.now.json.now.plan.now wanted is_lenient line.now out.items) }
    ensures err { let l = many.now.json.now.plan.now in IfErr result
        (IsStop many.now.path.now (λ _. ⊥) (HasNoAnswer l wanted is_lenient line.now) ⊥) }
{
    match text_answer(many, wanted, line.trim_ascii()) {
        Ok(text) => Ok(text),
        Err(failure) if is_lenient => refused_line(many.alloc, failure),
        Err(failure) => Err(placed(many.alloc, failure, number, None)),
    }
}

/// The line that says why there is no value; any other failure is returned.
fn refused_line<'a>(alloc: Global, failure: Failure<'a>) -> Result<Vec<u8>, Failure<'a>>
    ensures { IsRefusedAs failure.entry result }
{
    match failure {
        Failure::NotValue(_, why) => Ok(error_line(alloc, why.as_str())?),
        failure => Err(failure),
    }
}

/// The answer to a text, or why it is no value.
fn text_answer<'a>(
    many: &Many<'a, '_, '_>,
    wanted: Wanted,
    text: &[u8],
) -> Result<Vec<u8>, Failure<'a>>
    ensures { AnswersText many.now.json.now.plan.now wanted many.now.path.now text.now result }
{
    match wanted {
        Wanted::Json => json_said(many, text),
        Wanted::Digits => digits_said(many, text),
        Wanted::Bytes => bytes_said(many, text),
    }
}

/// The JSON of the value whose digits a text is, as a line.
fn json_said<'a>(many: &Many<'a, '_, '_>, digits: &[u8]) -> Result<Vec<u8>, Failure<'a>>
    ensures { AnswersText many.now.json.now.plan.now Wanted.Json many.now.path.now digits.now result }
{
    match said_by(many.alloc, digits) {
        Ok(bytes) => json_line(many, bytes.as_slice()),
        Err(FromHexError::OutOfMemory) => Err(Failure::OutOfMemory),
        Err(error) => {
            let why = format!(in many.alloc; "{}", NoDigits(error))?;
            Err(Failure::NotValue(many.path, why))
        }
    }
}

/// The bytes that digits say, with or without `0x` in front; none for `-`.
fn said_by(alloc: Global, text: &[u8]) -> Result<Vec<u8>, FromHexError>
    ensures ok { IfOk result (λ bytes. said_by_digits text.now ≡ Ok bytes.items) }
    ensures err { IfErr result (λ e. (e ≡ NoDigitsMemory) ⊎ (said_by_digits text.now ≡ Err e)) }
{
    if text == b"-".as_slice() {
        return Ok(Vec::new(alloc));
    }
    hex::decode(alloc, unmarked(text))
}

fn unmarked(text: &[u8]) -> &[u8]
    ensures { result.now ≡ unmarked_digits text.now }
{
    match text.strip_prefix(b"0x".as_slice()) {
        Some(digits) => digits,
        None => text,
    }
}

/// The digits of the value whose JSON a text is, as a line; `-` for no bytes.
fn digits_said<'a>(many: &Many<'a, '_, '_>, json: &[u8]) -> Result<Vec<u8>, Failure<'a>>
    ensures { AnswersText many.now.json.now.plan.now Wanted.Digits many.now.path.now json.now result }
{
    let bytes = bytes_said(many, json)?;
    let line = digits_line(many.alloc, bytes.as_slice())?;
    Ok(line.into_bytes())
}

fn digits_line(alloc: Global, bytes: &[u8]) -> Result<PlainText, AllocError>
    ensures { IfOk result (λ t. printed t ≡ line_of_digits bytes.now) }
{
    match bytes {
        [] => line(alloc, "-"),
        [_, ..] => hex_line(alloc, bytes),
    }
}

/// The bytes of the value whose JSON a text is.
fn bytes_said<'a>(many: &Many<'a, '_, '_>, json: &[u8]) -> Result<Vec<u8>, Failure<'a>>
    ensures { AnswersText many.now.json.now.plan.now Wanted.Bytes many.now.path.now json.now result }
{
    let Ok(text) = str::from_utf8(json) else {
        let why = String::from_str(many.alloc, "not UTF-8")?;
        return Err(Failure::NotValue(many.path, why));
    };
    match many.json.from_json(text) {
        Ok(bytes) => Ok(bytes),
        Err(error) => Err(no_value_said(many.alloc, many.path, text, true, error)),
    }
}

/// `{"error": ..}`, and a line feed.
fn error_line(alloc: Global, why: &str) -> Result<Vec<u8>, AllocError>
    ensures { IfOk result (λ line. IsErrorLine line.items) }
{
    let text = quoted(alloc, why)?;
    let mut line = Vec::from_slice(alloc, b"{\"error\":".as_slice())?;
    line.extend_from_slice(text.as_slice())?;
    line.extend_from_slice(b"}\n".as_slice())?;
    Ok(line)
}

/// A text as JSON in ASCII, in one line.
fn quoted(alloc: Global, text: &str) -> Result<Vec<u8>, AllocError>
    ensures plain { IfOk result (λ json. All IsPlain json.items) }
    ensures line { IfOk result (λ json. All IsInLine json.items) }
{
    let mut writer = Writer::new(Vec::new(alloc));
    writer.string(text)?;
    match String::from_utf8(writer.into_inner()) {
        Ok(json) => in_ascii(alloc, json.as_str()),
        Err(_) => Err(AllocError),
    }
}

/// The values from the reader's first byte on.
fn records_of<'a, 'l, 's, R: Read + Drop>(
    many: &Many<'a, 'l, 's>,
    input: R,
) -> Result<Records<'s, 'l, R>, Failure<'a>>
    ensures first { IfOk result (λ r. (source_of r ≡ input) × (ahead r ≡ [])) }
    ensures same { IfOk result (λ r. (plan_of r ≡ many.now.json.now.plan) × (limit_of r ≡ most_bytes)) }
    ensures nonempty { let plan = many.now.json.now.plan.now in
        OnOk result (Member (definitions_of plan) (root_of plan) [] → ⊥) }
    ensures err { let plan = many.now.json.now.plan.now in IfErr result
        (IsStop many.now.path.now (λ _. ⊥) (IsNoRoot (definitions_of plan) (root_of plan)) ⊥) }
{
    match Records::new(many.alloc, many.json.plan(), input, MOST_BYTES) {
        Ok(records) => Ok(records),
        Err(error) => Err(no_record(many, 1, error)),
    }
}

/// Goes on to the next value, which has this number. What was made is written before bytes are waited for.
fn next_record<'a, 's, R: Read + Drop, W: Write>(
    many: &Many<'a, '_, '_>,
    records: &mut Records<'s, '_, R>,
    number: u64,
    made: &mut Vec<u8>,
    out: &mut W,
) -> Result<bool, Failure<'a>>
    requires { limit_of records.old ≡ most_bytes }
    ensures same { SameRoot records.old records.new }
    ensures advances { let plan = (plan_of records.old).now in
        IfOk result (λ found. Advances (definitions_of plan) (root_of plan) R.stream
        records.old records.new (Ok found)) }
    ensures stops { IfErr result (StopsNext R.stream many.now.path.now (plan_of records.old).now
        records.old records.new) }
    ensures flushes { WritesMade W.writing out.old out.new made.old.items made.new.items result }
{
    match records.advance_held(many.alloc) {
        Ok(true) if made.len() < ROOM => return Ok(true),
        Ok(true) => {
            write_made(made, out)?;
            return Ok(true);
        }
        Ok(false) => (),
        Err(error) => return Err(no_record(many, number, error)),
    }
    write_made(made, out)?;
    match records.advance(many.alloc) {
        Ok(is_found) => Ok(is_found),
        Err(error) => Err(no_record(many, number, error)),
    }
}

/// The same of lines.
fn next_line<'a, R: Read + Drop, W: Write>(
    many: &Many<'a, '_, '_>,
    lines: &mut Buffered<R>,
    made: &mut Vec<u8>,
    out: &mut W,
) -> Result<bool, Failure<'a>>
    ensures next { IfOk result (λ found. NextLine R.stream lines.old lines.new found) }
    ensures stops { IfErr result (StopsNextLine R.stream many.now.path.now lines.old lines.new) }
    ensures flushes { WritesMade W.writing out.old out.new made.old.items made.new.items result }
{
    let is_held = take_held_line(lines, 0);
    if is_held && made.len() < ROOM {
        return Ok(true);
    }
    write_made(made, out)?;
    if is_held {
        return Ok(true);
    }
    take_line(lines, many.path)
}

/// The failure where there is no value of this number.
fn no_record<'a>(many: &Many<'a, '_, '_>, number: u64, error: RecordError<'_>) -> Failure<'a>
    ensures { IsStop many.now.path.now (λ e. error.entry ≡ Reader e) (IsValueError error.entry) ⊥ result }
{
    let why = match error {
        RecordError::Reader(error) => return Failure::Unread(many.path, error),
        RecordError::OutOfMemory => return Failure::OutOfMemory,
        RecordError::NoMember(offset, fault) => {
            format!(in many.alloc; "value {number} at byte {offset}: {fault}")
        }
        RecordError::CutShort(offset, fault) => {
            format!(in many.alloc; "value {number} at byte {offset}: cut short: {fault}")
        }
        RecordError::TooLong(offset) => {
            format!(in many.alloc; "value {number} at byte {offset}: longer than the limit")
        }
        error => format!(in many.alloc; "{error}"),
    };
    match why {
        Ok(text) => Failure::NotValue(many.path, text),
        Err(_) => Failure::OutOfMemory,
    }
}

/// The failure, with the number of the line, or of the value at a byte, in front of why there is no value.
fn placed<'a>(alloc: Global, failure: Failure<'a>, number: u64, offset: Option<u64>) -> Failure<'a>
    ensures { IsPlaced failure.entry result }
{
    match failure {
        Failure::NotValue(path, why) => {
            let text = match offset {
                Some(offset) => format!(in alloc; "value {number} at byte {offset}: {why}"),
                None => format!(in alloc; "line {number}: {why}"),
            };
            match text {
                Ok(text) => Failure::NotValue(path, text),
                Err(_) => Failure::OutOfMemory,
            }
        }
        failure => failure,
    }
}
