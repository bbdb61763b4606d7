// A run of the tool.
use super::command::{
    Action, CompileRequest, Form, Pair, Request, ValueRequest, command, compile_request_from,
    pair_from, request_from, value_request_from,
};
use super::comparisons::write_comparison;
use super::failure::{Failure, failure_line, usage_line};
use super::fronts::read_value;
use super::many::{Many, answer_many};
use super::output::Remembering;
use super::progress::Progress;
use super::replies::{
    style_of, write_answer, write_container, write_reply, write_rust, write_schema_json,
};
use super::types::{WrittenType, schema_of_type};
use super::values::{
    Schema, own_schema, schema_from, schema_in_front, schema_read, show, with_schema,
};
use borsh::io::{Buffered, Read, StdReader, StdWriter, Write};
use borsh_json::Json;
use borsh_values::Plan;
use clap::ArgMatches;
use clap::error::ErrorKind;
use hex::FromHexError;
use std::alloc::{AllocError, Global};
use std::env::VarError;
use std::fmt::Display;
use std::fs::OpenFile;
use std::io::BufReader;
use std::rt::{Env, Files};
use std::{env, fs, io};

/// How often an input or the output may be interrupted.
const INTERRUPTIONS: u32 = 1000;

/// The status of a program that stops since nobody reads what it prints: what a shell has for one that `SIGPIPE` ended.
const CLOSED_PIPE: u8 = 141;

/// Runs the command that the words name, the first of which is the program's own name, writes its answer to `stdout`, and what is
/// wrong to standard error, as one line, and returns the exit status: 0 for yes, 1 for no or for bytes that are no container, 141 if
/// nobody reads the answer, 2 for anything else that failed.
///
/// `is_terminal` is whether standard output is a terminal, `is_watched` whether standard error is. Left open: everything, which is
/// tested; what it writes is as of [`write_reply`], [`show`] and [`answer_many`].
///
/// ```
/// let words: Vec<String> = env::args(&rt)?.collect(rt.alloc())?;
/// let status = run(&rt, words.as_slice(), rt.stdout().is_terminal(), rt.stderr().is_terminal(), rt.stdout());
/// ```
pub fn run<R: Files + Env + Input + Print + Eprint + AllocGlobal + Drop, S: io::Write + Drop>(
    rt: &R,
    words: &[String],
    is_terminal: bool,
    is_watched: bool,
    stdout: S,
) -> u8 {
    let matches = match matches_of(rt.alloc(), words) {
        Ok(matches) => matches,
        Err(error) => return refuse(rt, &error),
    };
    let mut output = Remembering::new(stdout);
    let mut out = StdWriter::new(&mut output, INTERRUPTIONS);
    match perform(rt, &matches, is_terminal, is_watched, &mut out) {
        Ok(true) => 0,
        Ok(false) => 1,
        Err(Failure::Unwritten(error)) => unwritten(rt, &error, output.error),
        Err(failure) => {
            let _told = tell_failure(rt, &failure);
            failure.status()
        }
    }
}

/// The status where the answer can't be written. Why, is told by the system's error, unless nobody reads the answer.
fn unwritten<R: Eprint + AllocGlobal>(
    rt: &R,
    error: &borsh::io::Error,
    last: Option<io::Error>,
) -> u8 {
    let Some(last) = last else {
        let _told = tell(rt, error);
        return 2;
    };
    if last.kind() == io::ErrorKind::BrokenPipe {
        return CLOSED_PIPE;
    }
    let _told = tell(rt, &last);
    2
}

fn matches_of<'a>(alloc: Global, words: &'a [String]) -> Result<ArgMatches<'a>, clap::Error> {
    command(alloc)?.try_get_matches_from(words)
}

/// Prints the help that was asked for, or what is wrong with the words.
fn refuse<R: Print + Eprint + AllocGlobal>(rt: &R, error: &clap::Error) -> u8 {
    if !error.use_stderr() {
        return match rt.print(error) {
            Ok(()) => 0,
            Err(failure) if failure.kind() == io::ErrorKind::BrokenPipe => CLOSED_PIPE,
            Err(_) => 2,
        };
    }
    let _told = if error.kind() == ErrorKind::DisplayHelpOnMissingArgumentOrSubcommand {
        rt.eprint(error)
    } else {
        tell_usage(rt, error)
    };
    2
}

fn tell_usage<R: Eprint + AllocGlobal>(rt: &R, error: &clap::Error) -> io::Result<()> {
    let text = format!(in rt.alloc(); "{error}")?;
    let line = usage_line(rt.alloc(), text.as_str())?;
    rt.eprint(&line)
}

/// Prints why there is no answer.
fn tell_failure<R: Eprint + AllocGlobal>(rt: &R, failure: &Failure<'_>) -> io::Result<()> {
    tell(rt, failure)
}

fn tell<R: Eprint + AllocGlobal, D: Display>(rt: &R, why: &D) -> io::Result<()> {
    let text = format!(in rt.alloc(); "{why}")?;
    let line = failure_line(rt.alloc(), text.as_str())?;
    rt.eprint(&line)
}

/// Prints the answer, and returns whether it is yes.
fn perform<'a, R: Files + Env + Input + Eprint + AllocGlobal + Drop, W: Write>(
    rt: &R,
    matches: &ArgMatches<'a>,
    is_terminal: bool,
    is_watched: bool,
    out: &mut W,
) -> Result<bool, Failure<'a>> {
    if let Some(request) = value_request_from(matches)? {
        refuse_raw(&request, is_terminal)?;
        if let Some(form) = request.form {
            return perform_on_many(rt, &request, form, is_watched, out);
        }
        return perform_on_value(rt, &request, is_terminal, out);
    }
    if let Some(request) = compile_request_from(matches) {
        return perform_compile(rt, &request, is_terminal, out);
    }
    if let Some(pair) = pair_from(matches) {
        return perform_on_pair(rt, &pair, out);
    }
    let request = request_from(matches).ok_or(Failure::NoCommand)?;
    let bytes = container_bytes(rt, &request)?;
    if request.is_json {
        return write_schema_json(rt.alloc(), request.path, bytes.as_slice(), out);
    }
    if request.is_rust {
        return write_rust(rt.alloc(), request.path, bytes.as_slice(), out);
    }
    write_answer(rt.alloc(), &request, bytes.as_slice(), out)
}

/// Prints the container of a type.
fn perform_compile<'a, R: Files + Input + AllocGlobal, W: Write>(
    rt: &R,
    request: &CompileRequest<'a>,
    is_terminal: bool,
    out: &mut W,
) -> Result<bool, Failure<'a>> {
    if is_terminal && !request.is_hex && !request.is_raw {
        return Err(Failure::RawOnTerminal);
    }
    let schema = written_schema(rt, request.written)?;
    write_container(rt.alloc(), &schema, request.is_hex, out)
}

/// The container that a request is about, as bytes.
fn container_bytes<'a, R: Files + Input + AllocGlobal>(
    rt: &R,
    request: &Request<'a>,
) -> Result<Vec<u8>, Failure<'a>> {
    let Some(written) = request.written else {
        return input(rt, request.path, request.is_hex);
    };
    let schema = written_schema(rt, written)?;
    Ok(with_schema(rt.alloc(), &schema, &[])?)
}

/// The container of a type, which may name the items of a file.
fn written_schema<'a, R: Files + Input + AllocGlobal>(
    rt: &R,
    written: WrittenType<'a>,
) -> Result<Schema, Failure<'a>> {
    let items = match written.items {
        Some(path) => file(rt, path)?,
        None => Vec::new(rt.alloc()),
    };
    schema_of_type(rt.alloc(), written, items.as_slice())
}

/// Compares two containers.
fn perform_on_pair<'a, R: Files + Input + AllocGlobal, W: Write>(
    rt: &R,
    pair: &Pair<'a>,
    out: &mut W,
) -> Result<bool, Failure<'a>> {
    if pair.old == "-" && pair.new == "-" {
        return Err(Failure::TwoInputs);
    }
    let old = schema_in_pair(rt, pair, pair.old)?;
    let new = schema_in_pair(rt, pair, pair.new)?;
    write_comparison(rt.alloc(), &old, &new, out)
}

/// One of the containers that are compared.
fn schema_in_pair<'a, R: Files + Input + AllocGlobal>(
    rt: &R,
    pair: &Pair<'a>,
    path: &'a str,
) -> Result<Schema, Failure<'a>> {
    if let Some(text) = pair.text {
        let items = Some(path);
        return written_schema(rt, WrittenType { items, text });
    }
    let bytes = input(rt, path, pair.is_hex)?;
    schema_from(rt.alloc(), path, bytes.as_slice())
}

/// Does a request about a value.
fn perform_on_value<'a, R: Files + Env + Input + AllocGlobal, W: Write>(
    rt: &R,
    request: &ValueRequest<'a>,
    is_terminal: bool,
    out: &mut W,
) -> Result<bool, Failure<'a>> {
    let schema = if request.schema.is_none() && request.written.is_none() {
        None
    } else {
        Some(schema_asked(rt, request)?)
    };
    if request.action == Action::Encode {
        let value = file(rt, request.value)?;
        let bytes = value.as_slice();
        return answer_bytes(rt, request, schema.as_ref(), bytes, is_terminal, out);
    }
    if request.is_hex || request.value.starts_with("0x") {
        let value = input(rt, request.value, request.is_hex)?;
        let bytes = value.as_slice();
        return answer_bytes(rt, request, schema.as_ref(), bytes, is_terminal, out);
    }
    if request.value == "-" {
        return answer_read(rt, request, schema.as_ref(), rt.reader(), is_terminal, out);
    }
    match fs::File::open(rt, request.value) {
        Ok(file) => answer_read(rt, request, schema.as_ref(), file, is_terminal, out),
        Err(error) => Err(Failure::Unreadable(request.value, error)),
    }
}

/// Answers about bytes: a value, or behind its container where there is none yet.
fn answer_bytes<'a, R: Env + AllocGlobal, W: Write>(
    rt: &R,
    request: &ValueRequest<'a>,
    schema: Option<&Schema>,
    bytes: &[u8],
    is_terminal: bool,
    out: &mut W,
) -> Result<bool, Failure<'a>> {
    if let Some(schema) = schema {
        return answer_value(rt, request, schema, bytes, is_terminal, out);
    }
    let (schema, value) = schema_in_front(rt.alloc(), request.value, bytes)?;
    answer_value(rt, request, &schema, value, is_terminal, out)
}

/// The same of bytes that a reader gives, of which no more is read than shows that they are no value.
fn answer_read<'a, R: Env + AllocGlobal, D: io::Read + Drop, W: Write>(
    rt: &R,
    request: &ValueRequest<'a>,
    schema: Option<&Schema>,
    reader: D,
    is_terminal: bool,
    out: &mut W,
) -> Result<bool, Failure<'a>> {
    let mut kept = Remembering::new(reader);
    let outcome = answer_source(rt, request, schema, &mut kept, is_terminal, out);
    match (outcome, kept.error) {
        (Err(Failure::Unread(path, _)), Some(error)) => Err(Failure::Unreadable(path, error)),
        (Err(Failure::NotContainer(path, _)), Some(error)) => Err(Failure::Unreadable(path, error)),
        (outcome, _) => outcome,
    }
}

fn answer_source<'a, R: Env + AllocGlobal, D: io::Read + Drop, W: Write>(
    rt: &R,
    request: &ValueRequest<'a>,
    schema: Option<&Schema>,
    source: D,
    is_terminal: bool,
    out: &mut W,
) -> Result<bool, Failure<'a>> {
    if let Some(schema) = schema {
        return answer_stream(
            rt,
            request,
            schema,
            StdReader::new(source, INTERRUPTIONS),
            is_terminal,
            out,
        );
    }
    let source = BufReader::new(rt.alloc(), source).map_err(|_| Failure::OutOfMemory)?;
    let mut reader = StdReader::new(source, INTERRUPTIONS);
    let schema = schema_read(rt.alloc(), request.value, &mut reader)?;
    answer_stream(rt, request, &schema, reader, is_terminal, out)
}

/// Answers about the value that a reader gives.
fn answer_stream<'a, R: Env + AllocGlobal, I: Read + Drop, W: Write>(
    rt: &R,
    request: &ValueRequest<'a>,
    schema: &Schema,
    reader: I,
    is_terminal: bool,
    out: &mut W,
) -> Result<bool, Failure<'a>> {
    let alloc = rt.alloc();
    let plan = Plan::new(alloc, schema.root.as_str(), &schema.definitions)?;
    let mut input = Buffered::new(alloc, reader);
    match read_value(alloc, &plan, &mut input) {
        Ok(()) => answer_value(rt, request, schema, input.held(), is_terminal, out),
        Err(error) => Err(Failure::Unread(request.value, error)),
    }
}

/// Refuses to print raw bytes on a terminal.
fn refuse_raw<'a>(request: &ValueRequest<'a>, is_terminal: bool) -> Result<(), Failure<'a>> {
    let is_raw = request.action == Action::Encode && request.form != Some(Form::Lines);
    if is_raw && is_terminal && !request.is_hex && !request.is_raw {
        return Err(Failure::RawOnTerminal);
    }
    Ok(())
}

/// Does a request about many values, which are read as they come.
fn perform_on_many<'a, R: Files + Input + Eprint + AllocGlobal + Drop, W: Write>(
    rt: &R,
    request: &ValueRequest<'a>,
    form: Form,
    is_watched: bool,
    out: &mut W,
) -> Result<bool, Failure<'a>> {
    let alloc = rt.alloc();
    let schema = schema_asked(rt, request)?;
    let plan = Plan::new(alloc, schema.root.as_str(), &schema.definitions)?;
    let json = Json::new(alloc, &plan)?;
    let many = Many {
        alloc,
        json: &json,
        path: request.value,
        long_numbers: style_of(request).long_numbers,
        is_strict: request.is_strict,
    };
    let action = request.action;
    let is_shown = is_watched && form == Form::Records && !request.is_quiet;
    let mut progress = Progress::new(rt, is_shown);
    if request.is_hex || action != Action::Encode && request.value.starts_with("0x") {
        let bytes = input(rt, request.value, request.is_hex)?;
        progress.all = Some(bytes.len() as u64);
        return answer_many(action, form, &many, bytes.as_slice(), &mut progress, out);
    }
    if request.value == "-" {
        let input = StdReader::new(rt.reader(), INTERRUPTIONS);
        return answer_many(action, form, &many, input, &mut progress, out);
    }
    let file = fs::File::open(rt, request.value).map_err(|error| Failure::Unreadable(
        request.value,
        error,
    ))?;
    if let Ok(metadata) = file.metadata() {
        progress.all = Some(metadata.len());
    }
    let input = StdReader::new(file, INTERRUPTIONS);
    answer_many(action, form, &many, input, &mut progress, out)
}

/// The container of the type that a request has, or else the one that its path leads to.
fn schema_asked<'a, R: Files + Input + AllocGlobal>(
    rt: &R,
    request: &ValueRequest<'a>,
) -> Result<Schema, Failure<'a>> {
    let Some(written) = request.written else {
        return schema_at(rt, request.schema.ok_or(Failure::NoCommand)?, request);
    };
    if written.is_input() && request.value == "-" {
        return Err(Failure::TwoInputs);
    }
    written_schema(rt, written)
}

/// The container in a file, or that of containers for `self`.
fn schema_at<'a, R: Files + Input + AllocGlobal>(
    rt: &R,
    path: &'a str,
    request: &ValueRequest<'a>,
) -> Result<Schema, Failure<'a>> {
    if path == "-" && request.value == "-" {
        return Err(Failure::TwoInputs);
    }
    if path == "self" {
        return own_schema(rt.alloc());
    }
    let bytes = input(rt, path, request.is_schema_hex)?;
    schema_from(rt.alloc(), path, bytes.as_slice())
}

/// Writes what is asked of a value, its bytes or its JSON, and returns whether the answer is yes.
fn answer_value<'a, R: Env + AllocGlobal, W: Write>(
    rt: &R,
    request: &ValueRequest<'a>,
    schema: &Schema,
    value: &[u8],
    is_terminal: bool,
    out: &mut W,
) -> Result<bool, Failure<'a>> {
    let alloc = rt.alloc();
    if request.action == Action::Show {
        let is_colored = is_terminal && !request.is_plain && !refuses_color(rt);
        show(alloc, schema, request.value, value, is_colored, out)?;
        return Ok(true);
    }
    write_reply(alloc, request, schema, value, out)
}

/// Whether the variable `NO_COLOR` is set and isn't empty, or the terminal has no colours by its name.
fn refuses_color<R: Env + AllocGlobal>(rt: &R) -> bool {
    let is_refused = match env::var(rt, "NO_COLOR") {
        Ok(value) => !value.is_empty(),
        Err(VarError::NotPresent) => false,
        Err(_) => true,
    };
    if is_refused {
        return true;
    }
    match env::var(rt, "TERM") {
        Ok(value) => value.as_str() == "dumb",
        Err(_) => false,
    }
}

/// The bytes of a file, or those that its digits say; or those that digits behind `0x` say.
fn input<'a, R: Files + Input + AllocGlobal>(
    rt: &R,
    path: &'a str,
    is_hex: bool,
) -> Result<Vec<u8>, Failure<'a>> {
    let given = path.strip_prefix("0x");
    let mut bytes = match given {
        Some(digits) => Vec::from_slice(rt.alloc(), digits.as_bytes())?,
        None => file(rt, path)?,
    };
    if given.is_none() && !is_hex {
        return Ok(bytes);
    }
    bytes.retain(|byte| !byte.is_ascii_whitespace());
    match hex::decode(rt.alloc(), bytes.as_slice()) {
        Ok(decoded) => Ok(decoded),
        Err(FromHexError::OutOfMemory) => Err(Failure::OutOfMemory),
        Err(error) => Err(Failure::NotHexadecimal(path, error)),
    }
}

/// All bytes of a file, or of standard input for `-`.
fn file<'a, R: Files + Input + AllocGlobal>(rt: &R, path: &'a str) -> Result<Vec<u8>, Failure<'a>> {
    read_all(rt, path).map_err(|error| Failure::Unreadable(path, error))
}

fn read_all<R: Files + Input + AllocGlobal>(rt: &R, path: &str) -> io::Result<Vec<u8>> {
    if path != "-" {
        return fs::read(rt, path);
    }
    let mut bytes = Vec::new(rt.alloc());
    io::Read::read_to_end(&mut rt.reader(), &mut bytes)?;
    Ok(bytes)
}
