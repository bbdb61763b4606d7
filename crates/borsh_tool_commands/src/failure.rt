// Why a command has no answer.
ghost use Rattle.borsh_tool_commands.specs.declared.failure.Failure.TheVariants.{OutOfMemory};
ghost use Rattle.std.specs.Prelude.{◌≡◌};

use super::lines::MOST_LINE;
use super::plain_text::PlainText;
use hex::FromHexError;
use std::alloc::{AllocError, AllocFailed, Global};
use std::{fmt, io};

/// Why a command has no answer.
#[derive(Debug, Drop)]
pub enum Failure<'a> {
    /// The words name no command.
    NoCommand,
    /// The file can't be read.
    Unreadable(&'a str, io::Error),
    /// The file isn't hexadecimal digits.
    NotHexadecimal(&'a str, FromHexError),
    /// The bytes aren't the encoding of a container.
    NotContainer(&'a str, borsh::io::Error),
    /// The value has no JSON, or the JSON says no value.
    NotValue(&'a str, String),
    /// The text isn't UTF-8.
    NotText(&'a str),
    /// Both the container and the value are to come from standard input.
    TwoInputs,
    /// Raw bytes were to go to a terminal.
    RawOnTerminal,
    /// The words of the command line don't go together.
    WrongUse(&'static str),
    /// Reading stopped by an error.
    Unread(&'a str, borsh::io::Error),
    /// Writing did.
    Unwritten(borsh::io::Error),
    /// A line has too many bytes.
    LongLine(&'a str),
    /// The text is no type, or its type has no container.
    NotType(&'a str, String),
    /// An allocation failed.
    OutOfMemory,
}

impl<'a> Failure<'a> {
    /// The exit status: 1 for bytes that are no container, and for bytes and texts that are no value; else 2.
    pub fn status(&self) -> u8 {
        match self {
            Failure::NotContainer(_, _)
            | Failure::NotValue(_, _)
            | Failure::NotText(_)
            | Failure::LongLine(_) => 1,
            _ => 2,
        }
    }
}

impl<'a> From<AllocError> for Failure<'a> {
    ghost from_gives = { λ _ e. e ≡ OutOfMemory };

    fn from(_: AllocError) -> Failure<'a> {
        Failure::OutOfMemory
    }
}

impl<'a, T: Drop> From<AllocFailed<T>> for Failure<'a> {
    ghost from_gives = { λ _ e. e ≡ OutOfMemory };

    fn from(_: AllocFailed<T>) -> Failure<'a> {
        Failure::OutOfMemory
    }
}

impl<'a> fmt::Display for Failure<'a> {
    fn fmt<W: fmt::Write>(&self, f: &mut fmt::Formatter<W>) -> fmt::Result {
        match self {
            Failure::NoCommand => write!(f, "no command"),
            Failure::Unreadable(path, error) => write!(f, "{}: {error}", Named(path)),
            Failure::NotHexadecimal(path, error) => {
                write!(f, "{}: {}", Named(path), NoDigits(*error))
            }
            Failure::NotContainer(path, error) => {
                write!(f, "{}: not a schema container: {error}", Named(path))
            }
            Failure::NotValue(path, error) => write!(f, "{}: {error}", Named(path)),
            Failure::NotText(path) => write!(f, "{}: not UTF-8", Named(path)),
            Failure::TwoInputs => write!(f, "only one input can be standard input"),
            Failure::RawOnTerminal => f.write_str(RAW_ON_TERMINAL),
            Failure::WrongUse(why) => f.write_str(why),
            Failure::Unread(path, error) => write!(f, "{}: {error}", Named(path)),
            Failure::Unwritten(error) => write!(f, "{error}"),
            Failure::LongLine(path) => {
                write!(f, "{}: a line has more than {MOST_LINE} bytes", Named(path))
            }
            Failure::NotType(path, error) => write!(f, "{path}: {error}"),
            Failure::OutOfMemory => write!(f, "out of memory"),
        }
    }
}

const RAW_ON_TERMINAL: &str =
    "raw bytes aren't printed on a terminal: use --hex or --raw, or redirect them";

/// How many characters of digits that were given name them.
const NAMING_DIGITS: usize = 18;

/// The name of an input: its path, or the first of the digits that were given.
#[derive(Clone, Copy)]
struct Named<'a>(&'a str);

impl<'a> fmt::Display for Named<'a> {
    fn fmt<W: fmt::Write>(&self, f: &mut fmt::Formatter<W>) -> fmt::Result {
        match self.0.get(..NAMING_DIGITS) {
            Some(front) if front.len() < self.0.len() && front.starts_with("0x") => {
                write!(f, "{front}..")
            }
            _ => f.write_str(self.0),
        }
    }
}

/// Why digits are none: a byte that isn't printable ASCII is shown as `\x` and two digits.
#[derive(Clone, Copy)]
pub(crate) struct NoDigits(pub FromHexError);

impl fmt::Display for NoDigits {
    fn fmt<W: fmt::Write>(&self, f: &mut fmt::Formatter<W>) -> fmt::Result {
        match self.0 {
            FromHexError::InvalidHexCharacter { c, index } if !(' '..='~').contains(&c) => {
                let byte = u32::from(c);
                write!(f, "Invalid character '\\x{byte:02x}' at position {index}")
            }
            error => write!(f, "{error}"),
        }
    }
}

/// `borsh: ` and a text, as one line.
pub fn failure_line(alloc: Global, text: &str) -> Result<PlainText, AllocError> {
    let mut out = PlainText::new(alloc);
    out.push("borsh:")?;
    for word in text.split_ascii_whitespace() {
        out.push(" ")?;
        out.push(word)?;
    }
    out.end_line()?;
    Ok(out)
}

/// What is wrong with a command line, as one line: the first paragraph of the parser's text, and the second where it is a tip.
pub fn usage_line(alloc: Global, text: &str) -> Result<PlainText, AllocError> {
    let text = text.strip_prefix("error: ").unwrap_or(text);
    let mut paragraphs = text.split("\n\n");
    let wrong = paragraphs.next().unwrap_or(text);
    match paragraphs.next() {
        Some(tip) if tip.starts_with("  tip: ") => {
            let both = format!(in alloc; "{wrong};{tip}")?;
            failure_line(alloc, both.as_str())
        }
        _ => failure_line(alloc, wrong),
    }
}
