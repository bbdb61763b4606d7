// What a line asks for.
ghost use Rattle.std.specs.Prelude.{◌≡◌, ◌==◌, ◌<◌, length, position, IfOk, IfSome, MatchOption, None, Some};
ghost use Rattle.borsh_check_lines.specs.Requests.{IsRequest, cut, asked_value, asked_schema, asked_about, asked};

use super::digits::bytes_from;
use super::words::Word;
use std::alloc::{AllocError, Global};

/// What can be asked about a container.
#[derive(Clone, Copy, Debug, PartialEq, Eq)]
pub enum Inquiry {
    /// Whether it keeps the rules.
    Check,
    /// How long the encodings that it describes may be.
    Size,
    /// How many of its definitions both questions visit.
    Counts,
}

/// What a line asks for.
#[derive(Drop)]
pub enum Request {
    /// Bytes are to be decoded as a value of the type, which is encoded again; in strict mode keys have to be in order.
    Value {
        word: Word,
        strict: bool,
        bytes: Vec<u8>,
    },
    /// The container of the type is to be written.
    Schema {
        word: Word,
    },
    /// The container whose encoding the bytes are is asked about.
    About {
        inquiry: Inquiry,
        bytes: Vec<u8>,
    },
}

/// Where the first space of a text is.
fn first_space(text: &[u8]) -> Option<usize>
    ensures place { result ≡ position (λ byte. byte == 32) text.now }
    ensures within { IfSome result (λ at. at < length text.now) }
{
    text.iter().position(|byte| *byte == b' ')
}

/// The part of a text before its first space, and the part behind it.
fn cut_at_space(text: &[u8]) -> Option<(&[u8], &[u8])>
    ensures { MatchOption result (cut text.now ≡ None)
        (λ parts. cut text.now ≡ Some (parts.0.now, parts.1.now)) }
{
    match first_space(text) {
        Some(at) => Some((&text[..at], &text[at + 1..])),
        None => None,
    }
}

impl Request {
    /// What a line asks for; `None` if it is no command.
    pub fn from_line(alloc: Global, line: &[u8]) -> Result<Option<Request>, AllocError>
        ensures { IfOk result (IsRequest (asked line.now)) }
    {
        match cut_at_space(line) {
            Some((command, text)) if command == b"read".as_slice() => {
                Request::value(alloc, true, text)
            }
            Some((command, text)) if command == b"canon".as_slice() => {
                Request::value(alloc, false, text)
            }
            Some((command, text)) if command == b"schema".as_slice() => Ok(Request::schema(text)),
            Some((command, text)) if command == b"check".as_slice() => {
                Request::about(alloc, Inquiry::Check, text)
            }
            Some((command, text)) if command == b"size".as_slice() => {
                Request::about(alloc, Inquiry::Size, text)
            }
            Some((command, text)) if command == b"counts".as_slice() => {
                Request::about(alloc, Inquiry::Counts, text)
            }
            _ => Ok(None),
        }
    }

    /// The request behind `read` and `canon`.
    fn value(alloc: Global, strict: bool, text: &[u8]) -> Result<Option<Request>, AllocError>
        ensures { IfOk result (IsRequest (asked_value strict text.now)) }
    {
        let Some((name, digits)) = cut_at_space(text) else {
            return Ok(None);
        };
        let Some(word) = Word::named(name) else {
            return Ok(None);
        };
        let Some(bytes) = bytes_from(alloc, digits)? else {
            return Ok(None);
        };
        Ok(Some(Request::Value {
            word,
            strict,
            bytes,
        }))
    }

    /// The request behind `schema`.
    fn schema(text: &[u8]) -> Option<Request>
        ensures { IsRequest (asked_schema text.now) result }
    {
        match Word::named(text) {
            Some(word) => Some(Request::Schema { word }),
            None => None,
        }
    }

    /// The request behind `check`, `size` and `counts`.
    fn about(alloc: Global, inquiry: Inquiry, text: &[u8]) -> Result<Option<Request>, AllocError>
        ensures { IfOk result (IsRequest (asked_about inquiry text.now)) }
    {
        match bytes_from(alloc, text)? {
            Some(bytes) => Ok(Some(Request::About { inquiry, bytes })),
            None => Ok(None),
        }
    }
}
