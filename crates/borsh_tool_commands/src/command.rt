// The command line.
use super::answers::Question;
use super::failure::Failure;
use super::types::WrittenType;
use clap::{Arg, ArgAction, ArgMatches, Command};
use std::alloc::{AllocError, Global};

/// What `--version` says behind the program's name.
const VERSION: &str = "0.1.0 (the format of the Rust crate borsh 1.8.1)";

const AFTER_HELP: &str =
    "A container is a schema as a value: the name of a type, and the definitions that it leads to.\n`borsh COMMAND --help` says more of a command, with an example.\n\nExit status: 0 for yes, 1 for no or for bytes that are no container, 2 for wrong use or input that can't be read,\n141 where nobody reads what is printed.";

const AFTER_CHECK: &str =
    "Prints `valid`, or `invalid`, a rule and a name that breaks it:\n  ZSTSequence        the elements of a sequence have no bytes\n  TagTooWide         a length or tag of more than eight bytes\n  TagTooNarrow       the greatest length doesn't fit its length prefix\n  TagNotPowerOfTwo   a length prefix of three, five, six or seven bytes\n  MissingDefinition  a name without a definition\n  EmptyLengthRange   the least length is above the greatest\n\nExample: borsh check a.borsh";

const AFTER_SIZE: &str =
    "Prints the number of bytes in decimal; `overflow` above 18446744073709551615; `recursive` where a definition\ncontains itself; `missing` and a name without a definition.\n\nExample: borsh size a.borsh";

const AFTER_SCHEMA: &str =
    "One definition a line: the root's first, the others by name. Names that aren't identifiers are quoted; bytes of\nnames that aren't printable ASCII are `\\x` and two digits. With --json the container as JSON, which `encode self` takes; with\n--rust as Rust items, which `compile` takes: the first line names the type.\n\nExample: borsh schema a.borsh";

const AFTER_DECODE: &str =
    "The JSON is what serde_json prints for the same type, where that and the container determine the bytes: a struct with one\nunnamed field is that field; an Option is null or its value, or an enum where the value may itself be null; a variant is\n\"Name\" or {\"Name\": value}; a map with texts or numbers as keys is an object. Lists of u8 and other primitives are\nhexadecimal strings, \"0x..\"; numbers of 128 bits are decimal strings; infinities are \"inf\" and \"-inf\"; a value without bytes is\nnull. A NaN is refused, and sets and maps whose keys don't ascend, as far as the order is told: of numbers, bool, texts, and tuples,\narrays, lists and options of these; of structs and enums only that two are the same.\n\nExample: borsh decode --compact a.borsh value.borsh";

const AFTER_ENCODE: &str =
    "Takes what `decode` prints, in any layout; fields and entries may come in any order, and numbers of 64 bits may be\nstrings. With --hex the bytes are printed as hexadecimal digits and a line feed; raw bytes go to a terminal only\nwith --raw. With --with-schema the bytes of the container come first.\n\nExample: borsh decode a.borsh value.borsh | borsh encode --hex a.borsh -";

const AFTER_MEMBER: &str =
    "Prints `member`, or `no member`, the path where the bytes stop being a value of the container's root, and why. The\ndefinitions alone decide; a type may refuse a member, as a `bool` of 2 or keys that don't ascend. With --strict such\nbytes are `not canonical`, as far as the names tell, and so is what else has no JSON.\n\nExample: borsh member a.borsh value.borsh";

const AFTER_SHOW: &str =
    "A line for each number, text, count and tag: its offset, its bytes (the first 16), the path to it, its type, and what\nit says; on a terminal in colours, unless NO_COLOR is set or TERM is dumb.\n\nExample: borsh show a.borsh value.borsh";

// The usage of commands whose words depend on options.
const DECODE_USAGE: &str =
    "borsh decode [OPTIONS] <SCHEMA> <VALUE>\n       borsh decode [OPTIONS] --type <TYPE> [--types <FILE>] <VALUE>\n       borsh decode [OPTIONS] --with-schema <VALUE>\n       borsh decode [OPTIONS] --records|--lines <SCHEMA> [VALUE]";

const ENCODE_USAGE: &str =
    "borsh encode [OPTIONS] <SCHEMA> <JSON>\n       borsh encode [OPTIONS] --type <TYPE> [--types <FILE>] <JSON>\n       borsh encode [OPTIONS] --records|--lines <SCHEMA> [JSON]";

const MEMBER_USAGE: &str =
    "borsh member [OPTIONS] <SCHEMA> <VALUE>\n       borsh member [OPTIONS] --type <TYPE> [--types <FILE>] <VALUE>\n       borsh member [OPTIONS] --with-schema <VALUE>\n       borsh member [OPTIONS] --records <SCHEMA> [VALUE]";

const AFTER_COMPARE: &str =
    "Prints `compatible` or `the same`, and what changed, a line each; or `incompatible`, with bytes that are a value of the old\nschema and none of the new one; or `not known`. The definitions alone are compared, and not what a type refuses beyond them.\n\nExample: borsh compare old.borsh new.borsh";

const SHOW_USAGE: &str =
    "borsh show [OPTIONS] <SCHEMA> <VALUE>\n       borsh show [OPTIONS] --type <TYPE> [--types <FILE>] <VALUE>\n       borsh show [OPTIONS] --with-schema <VALUE>";

const COMPARE: &str = "Says whether values of a container's root are values of another's";

const SCHEMA: &str = "Prints the definitions of a container";

const CHECK: &str = "Checks that a container keeps the rules";

const SIZE: &str = "Prints the greatest size in bytes";

// The help of arguments.
const QUOTED: &str = "Prints numbers of 64 bits as strings, since JavaScript rounds them";

const DECODE_RECORDS: &str = "The bytes are values one after another; prints a line for each";

const DECODE_LINES: &str = "Each line is the digits of a value, or `-`; answers each by a line";

const MEMBER_STRICT: &str = "Says no to bytes that have no JSON, as those that the type refuses";

const MEMBER_RECORDS: &str = "The bytes are values one after another; prints how many";

const CONTAINER_FILE: &str =
    "The encoded container: a file, its digits as `0x..`, or `-` for standard input";

const COMPARED_FILE: &str =
    "The encoded container: a file, its digits as `0x..`, or `-` for standard input; with --type what --types takes";

const COMPARED_TYPE: &str = "The type in Rust's words, whose items stand in OLD and in NEW";

const FILE_HEX: &str = "The input is hexadecimal digits; white space in it counts for nothing";

const VALUE_FILE: &str =
    "The bytes of the value: a file, their digits as `0x..`, or `-` for standard input";

const JSON_FILE: &str = "The value: a file, or `-` for standard input";

const VALUE_HEX: &str = "The bytes of the value are hexadecimal digits";

const IN_FRONT: &str = "The bytes have their container in front, and SCHEMA is left out";

const RAW_ON_TERMINAL: &str = "Prints raw bytes where standard output is a terminal, too";

const SCHEMA_TWICE: &str = "the argument '--with-schema' cannot be used with '[SCHEMA]'";

const NO_VALUE: &str = "the following required arguments were not provided: <VALUE>";

const WITH_SCHEMA: &str = "Prints the bytes of the container in front";

const ENCODE_RECORDS: &str =
    "Each line is the JSON of a value; prints their bytes one after another";

const ENCODE_LINES: &str =
    "Each line is the JSON of a value; answers each by a line of digits, or `-`";

const SCHEMA_FILE: &str =
    "The encoded container: a file, its digits as `0x..`, `-` for standard input, or `self` for that of containers";

const SCHEMA_HEX: &str = "The container is hexadecimal digits";

const TYPE: &str = "The type in Rust's words, as 'Vec<u8>', in place of a container";

const TYPES: &str =
    "A Rust source file, an Anchor IDL or a borsh-js schema, whose types --type may name";

const ITEMS_FILE: &str =
    "The Rust source file, Anchor IDL or borsh-js schema, or `-` for standard input";

const ITEMS_TYPE: &str = "The type in Rust's words: the name of an item, or any type";

const TYPE_TWICE: &str = "the argument '--type' cannot be used with '[SCHEMA]'";

const COMPILE: &str = "Prints the encoded container of a Rust type";

const AFTER_COMPILE: &str =
    "Of Rust count structs, enums, aliases and constants, also in modules; all else is passed over. `#[borsh(skip)]` and\n`#[borsh(use_discriminant = ..)]` are as in Rust. An account of an IDL begins with its discriminator; the type of a borsh-js\nschema is named Schema. The bytes are the container that the type has in Rust.\n\nExample: borsh compile state.rs Account >account.borsh";

const QUIET: &str = "With --records, prints no progress where standard error is a terminal";

const STRICT_LINES: &str = "With --lines, ends the run at the first line that is no value";

/// What is asked of a container, and where the container is.
#[derive(Clone, Copy, Debug)]
pub struct Request<'a> {
    pub question: Question,
    /// A file, digits behind `0x`, or `-` for standard input.
    pub path: &'a str,
    /// Whether the bytes are written as hexadecimal digits.
    pub is_hex: bool,
    /// Whether the definitions are printed as JSON.
    pub is_json: bool,
    /// Whether they are printed as Rust items.
    pub is_rust: bool,
    /// The type whose container it is, in place of a path.
    pub written: Option<WrittenType<'a>>,
}

/// Which type is to be compiled, and how its container is printed.
#[derive(Clone, Copy, Debug)]
pub struct CompileRequest<'a> {
    pub written: WrittenType<'a>,
    /// Whether its bytes are printed as hexadecimal digits.
    pub is_hex: bool,
    /// Whether raw bytes may go to a terminal.
    pub is_raw: bool,
}

/// Two containers to be compared, as the path of a [`Request`].
#[derive(Clone, Copy, Debug)]
pub struct Pair<'a> {
    pub old: &'a str,
    pub new: &'a str,
    pub is_hex: bool,
    /// The type whose items stand in the two files, which are no containers then.
    pub text: Option<&'a str>,
}

/// What may be asked of a value.
#[derive(Clone, Copy, Debug, PartialEq, Eq)]
pub enum Action {
    /// Its JSON.
    Decode,
    /// Its bytes, from JSON.
    Encode,
    /// Whether bytes are one.
    Member,
    /// What each of its bytes is.
    Show,
}

/// How an input has many values.
#[derive(Clone, Copy, Debug, PartialEq, Eq)]
pub enum Form {
    /// One after another.
    Records,
    /// One a line.
    Lines,
}

/// What is asked of a value, and where its container and the value are.
#[derive(Clone, Copy, Debug)]
pub struct ValueRequest<'a> {
    pub action: Action,
    /// A file, digits behind `0x`, `-` for standard input, or `self` for the container of containers; none where the
    /// value's bytes have their container in front, and where a type is written.
    pub schema: Option<&'a str>,
    /// The type whose container it is.
    pub written: Option<WrittenType<'a>>,
    /// A file, or `-` for standard input; or digits behind `0x`, but of JSON.
    pub value: &'a str,
    /// The form of many values; none where there is one value.
    pub form: Option<Form>,
    /// Whether the container is written as hexadecimal digits.
    pub is_schema_hex: bool,
    /// Whether the bytes of the value are.
    pub is_hex: bool,
    /// Whether the bytes of the value have their container in front.
    pub with_schema: bool,
    /// Whether JSON is printed without white space.
    pub is_compact: bool,
    /// Whether numbers of 64 bits are printed as JSON strings.
    pub has_quoted_numbers: bool,
    /// Whether a member that the type refuses is none, and whether the first line that is no value ends the run.
    pub is_strict: bool,
    /// Whether no colours are wanted.
    pub is_plain: bool,
    /// Whether raw bytes may go to a terminal.
    pub is_raw: bool,
    /// Whether no progress is wanted.
    pub is_quiet: bool,
}

/// The commands of the tool.
pub fn command<'a>(alloc: Global) -> Result<Command<'a>, AllocError> {
    Command::new(alloc, "borsh")
        .bin_name("borsh")?
        .version(VERSION)
        .about("Answers what a Borsh schema container says, and what bytes mean by it")
        .after_help(AFTER_HELP)
        .subcommand_required(true)
        .arg_required_else_help(true)
        .subcommand(compile_command(alloc)?)?
        .subcommand(schema_command(alloc)?)?
        .subcommand(on_container(alloc, "check", CHECK, AFTER_CHECK)?)?
        .subcommand(on_container(alloc, "size", SIZE, AFTER_SIZE)?)?
        .subcommand(compare_command(alloc)?)?
        .subcommand(decode_command(alloc)?)?
        .subcommand(encode_command(alloc)?)?
        .subcommand(member_command(alloc)?)?
        .subcommand(show_command(alloc)?)
}

fn compile_command<'a>(alloc: Global) -> Result<Command<'a>, AllocError> {
    Command::new(alloc, "compile")
        .about(COMPILE)
        .after_help(AFTER_COMPILE)
        .arg(value(alloc, "FILE", ITEMS_FILE))?
        .arg(value(alloc, "TYPE", ITEMS_TYPE))?
        .arg(flag(alloc, "hex", "Prints hexadecimal digits"))?
        .arg(flag(alloc, "raw", RAW_ON_TERMINAL))
}

fn schema_command<'a>(alloc: Global) -> Result<Command<'a>, AllocError> {
    on_container(alloc, "schema", SCHEMA, AFTER_SCHEMA)?
        .arg(flag(alloc, "json", "Prints the container as JSON"))?
        .arg(flag(alloc, "rust", "Prints the container as Rust items").conflicts_with("json")?)
}

fn compare_command<'a>(alloc: Global) -> Result<Command<'a>, AllocError> {
    Command::new(alloc, "compare")
        .about(COMPARE)
        .after_help(AFTER_COMPARE)
        .arg(value(alloc, "OLD", COMPARED_FILE))?
        .arg(value(alloc, "NEW", COMPARED_FILE))?
        .arg(flag(alloc, "hex", FILE_HEX).conflicts_with("type")?)?
        .arg(option(alloc, "type", "TYPE", COMPARED_TYPE))
}

fn decode_command<'a>(alloc: Global) -> Result<Command<'a>, AllocError> {
    on_bytes(alloc, "decode", "Prints a value as JSON", DECODE_USAGE)?
        .after_help(AFTER_DECODE)
        .arg(flag(alloc, "compact", "Prints one line, without white space"))?
        .arg(flag(alloc, "quoted", QUOTED))?
        .arg(records(alloc, DECODE_RECORDS)?)?
        .arg(quiet(alloc)?)?
        .arg(lines(alloc, DECODE_LINES)?)?
        .arg(strict_lines(alloc)?)
}

fn member_command<'a>(alloc: Global) -> Result<Command<'a>, AllocError> {
    on_bytes(
        alloc,
        "member",
        "Checks that bytes are a value",
        MEMBER_USAGE,
    )?
    .after_help(AFTER_MEMBER)
    .arg(flag(alloc, "strict", MEMBER_STRICT))?
    .arg(records(alloc, MEMBER_RECORDS)?.conflicts_with("strict")?)?
    .arg(quiet(alloc)?)
}

fn show_command<'a>(alloc: Global) -> Result<Command<'a>, AllocError> {
    on_bytes(
        alloc,
        "show",
        "Prints what each byte of a value is",
        SHOW_USAGE,
    )?
    .after_help(AFTER_SHOW)
    .arg(flag(alloc, "plain", "Prints no colours"))
}

/// A command that reads a container.
fn on_container<'a>(
    alloc: Global,
    name: &'a str,
    about: &'a str,
    after: &'a str,
) -> Result<Command<'a>, AllocError> {
    Command::new(alloc, name)
        .about(about)
        .after_help(after)
        .arg(
            Arg::new(alloc, "FILE")
                .help(CONTAINER_FILE)
                .required_unless_present("type")?
                .conflicts_with("type")?,
        )?
        .arg(flag(alloc, "hex", FILE_HEX))?
        .arg(type_text(alloc))?
        .arg(type_items(alloc)?)
}

/// A command that reads the bytes of a value, and its container in front of these or from a file of its own.
fn on_bytes<'a>(
    alloc: Global,
    name: &'a str,
    about: &'a str,
    usage: &'a str,
) -> Result<Command<'a>, AllocError> {
    Command::new(alloc, name)
        .about(about)
        .override_usage(usage)
        .arg(
            Arg::new(alloc, "SCHEMA")
                .help(SCHEMA_FILE)
                .required_unless_present("with-schema")?
                .required_unless_present("type")?,
        )?
        .arg(value_unless_many(alloc, "VALUE", VALUE_FILE)?.required_unless_present(
            "with-schema",
        )?)?
        .arg(type_text(alloc).conflicts_with("with-schema")?)?
        .arg(type_items(alloc)?)?
        .arg(flag(alloc, "hex", VALUE_HEX))?
        .arg(flag(alloc, "schema-hex", SCHEMA_HEX).conflicts_with("with-schema")?)?
        .arg(flag(alloc, "with-schema", IN_FRONT))
}

/// The command that reads JSON.
fn encode_command<'a>(alloc: Global) -> Result<Command<'a>, AllocError> {
    Command::new(alloc, "encode")
        .about("Prints the bytes of a value in JSON")
        .override_usage(ENCODE_USAGE)
        .after_help(AFTER_ENCODE)
        .arg(
            Arg::new(alloc, "SCHEMA")
                .help(SCHEMA_FILE)
                .required_unless_present("type")?,
        )?
        .arg(value_unless_many(alloc, "JSON", JSON_FILE)?)?
        .arg(type_text(alloc))?
        .arg(type_items(alloc)?)?
        .arg(flag(alloc, "hex", "Prints hexadecimal digits"))?
        .arg(flag(alloc, "raw", RAW_ON_TERMINAL))?
        .arg(flag(alloc, "schema-hex", SCHEMA_HEX))?
        .arg(flag(alloc, "with-schema", WITH_SCHEMA))?
        .arg(records(alloc, ENCODE_RECORDS)?.conflicts_with("hex")?)?
        .arg(quiet(alloc)?)?
        .arg(lines(alloc, ENCODE_LINES)?)?
        .arg(strict_lines(alloc)?)
}

/// An argument that has to be given.
fn value<'a>(alloc: Global, name: &'a str, help: &'a str) -> Arg<'a> {
    Arg::new(alloc, name).required(true).help(help)
}

/// A value, which is standard input where there are many and it isn't given.
fn value_unless_many<'a>(
    alloc: Global,
    name: &'a str,
    help: &'a str,
) -> Result<Arg<'a>, AllocError> {
    Arg::new(alloc, name)
        .help(help)
        .required_unless_present("records")?
        .required_unless_present("lines")?
        .required_unless_present("type")
}

/// A type in place of a container.
fn type_text<'a>(alloc: Global) -> Arg<'a> {
    option(alloc, "type", "TYPE", TYPE)
}

/// The file whose items that type may name.
fn type_items<'a>(alloc: Global) -> Result<Arg<'a>, AllocError> {
    option(alloc, "types", "FILE", TYPES).requires_arg("type")
}

/// An option with a value.
fn option<'a>(alloc: Global, name: &'a str, value_name: &'a str, help: &'a str) -> Arg<'a> {
    Arg::new(alloc, name)
        .long(name)
        .value_name(value_name)
        .help(help)
}

/// That the bytes are values one after another.
fn records<'a>(alloc: Global, help: &'a str) -> Result<Arg<'a>, AllocError> {
    flag(alloc, "records", help).conflicts_with("with-schema")
}

/// That no progress is printed.
fn quiet<'a>(alloc: Global) -> Result<Arg<'a>, AllocError> {
    flag(alloc, "quiet", QUIET).requires_arg("records")
}

/// That there is a value a line.
fn lines<'a>(alloc: Global, help: &'a str) -> Result<Arg<'a>, AllocError> {
    flag(alloc, "lines", help).conflicts_with_all(&["records", "with-schema", "hex"])
}

/// That a line that is no value ends the run.
fn strict_lines<'a>(alloc: Global) -> Result<Arg<'a>, AllocError> {
    flag(alloc, "strict", STRICT_LINES).requires_arg("lines")
}

/// An option without a value.
fn flag<'a>(alloc: Global, name: &'a str, help: &'a str) -> Arg<'a> {
    Arg::new(alloc, name)
        .long(name)
        .action(ArgAction::SetTrue)
        .help(help)
}

/// What the words of a command line ask of a container. `None` where they name no command.
pub fn request_from<'a>(matches: &ArgMatches<'a>) -> Option<Request<'a>> {
    let (name, inner) = matches.subcommand()?;
    let question = question_named(name)?;
    let written = written_in(inner);
    let path = match written {
        Some(written) => written.text,
        None => inner.get_str("FILE")?,
    };
    Some(Request {
        question,
        path,
        is_hex: inner.get_flag("hex"),
        is_json: inner.get_flag("json"),
        is_rust: inner.get_flag("rust"),
        written,
    })
}

/// Which type the words of a command line want compiled. `None` where they want none.
pub fn compile_request_from<'a>(matches: &ArgMatches<'a>) -> Option<CompileRequest<'a>> {
    let (name, inner) = matches.subcommand()?;
    if name != "compile" {
        return None;
    }
    Some(CompileRequest {
        written: WrittenType {
            items: inner.get_str("FILE"),
            text: inner.get_str("TYPE")?,
        },
        is_hex: inner.get_flag("hex"),
        is_raw: inner.get_flag("raw"),
    })
}

/// The type that is written in place of a container.
fn written_in<'a>(matches: &ArgMatches<'a>) -> Option<WrittenType<'a>> {
    Some(WrittenType {
        items: matches.get_str("types"),
        text: matches.get_str("type")?,
    })
}

/// The containers that the words of a command line compare, if they do.
pub fn pair_from<'a>(matches: &ArgMatches<'a>) -> Option<Pair<'a>> {
    let (name, inner) = matches.subcommand()?;
    if name != "compare" {
        return None;
    }
    Some(Pair {
        old: inner.get_str("OLD")?,
        new: inner.get_str("NEW")?,
        is_hex: inner.get_flag("hex"),
        text: inner.get_str("type"),
    })
}

/// What the words of a command line ask of a value. `None` where they ask nothing of one; `WrongUse` where they have a container
/// beside bytes that have theirs in front, or no value.
pub fn value_request_from<'a>(
    matches: &ArgMatches<'a>,
) -> Result<Option<ValueRequest<'a>>, Failure<'a>> {
    let Some((name, inner)) = matches.subcommand() else {
        return Ok(None);
    };
    let Some((action, value)) = action_named(name) else {
        return Ok(None);
    };
    let form = form_in(inner);
    let written = written_in(inner);
    let is_alone = written.is_some() || is_sent(action, inner);
    let (schema, value) = match (inner.get_str("SCHEMA"), inner.get_str(value)) {
        (Some(_), Some(_)) if written.is_some() => return Err(Failure::WrongUse(TYPE_TWICE)),
        (Some(_), Some(_)) if is_alone => return Err(Failure::WrongUse(SCHEMA_TWICE)),
        (Some(only), None) if is_alone => (None, only),
        (schema, None) if form.is_some() => (schema, "-"),
        (schema, value) => (schema, value.ok_or(Failure::WrongUse(NO_VALUE))?),
    };
    Ok(Some(ValueRequest {
        action,
        schema,
        written,
        value,
        form,
        is_schema_hex: inner.get_flag("schema-hex"),
        is_hex: inner.get_flag("hex"),
        with_schema: inner.get_flag("with-schema"),
        is_compact: inner.get_flag("compact"),
        has_quoted_numbers: inner.get_flag("quoted"),
        is_strict: inner.get_flag("strict"),
        is_plain: inner.get_flag("plain"),
        is_raw: inner.get_flag("raw"),
        is_quiet: inner.get_flag("quiet"),
    }))
}

/// Whether the bytes of the value have their container in front.
fn is_sent(action: Action, matches: &ArgMatches<'_>) -> bool {
    action != Action::Encode && matches.get_flag("with-schema")
}

fn form_in(matches: &ArgMatches<'_>) -> Option<Form> {
    if matches.get_flag("records") {
        Some(Form::Records)
    } else if matches.get_flag("lines") {
        Some(Form::Lines)
    } else {
        None
    }
}

/// The action, and the name of its argument with the value.
fn action_named(name: &str) -> Option<(Action, &'static str)> {
    match name {
        "decode" => Some((Action::Decode, "VALUE")),
        "encode" => Some((Action::Encode, "JSON")),
        "member" => Some((Action::Member, "VALUE")),
        "show" => Some((Action::Show, "VALUE")),
        _ => None,
    }
}

fn question_named(name: &str) -> Option<Question> {
    match name {
        "schema" => Some(Question::Schema),
        "check" => Some(Question::Check),
        "size" => Some(Question::Size),
        _ => None,
    }
}
