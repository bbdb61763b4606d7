// Why a text has no tree.
use crate::endings::piece;
use crate::token::place_behind;
use borsh_source::Place;
use std::alloc::{AllocError, AllocFailed};
use std::{fmt, str};

/// Why a text has no tree.
#[derive(Drop)]
pub enum TextError<'a> {
    /// An allocation failed.
    OutOfMemory,
    /// What was met, empty at the end of the text, where, and what would have been right.
    Refused {
        place: Place,
        met: &'a str,
        expected: Expected,
    },
}

/// What would have been right.
#[derive(Clone, Copy, PartialEq, Eq)]
pub enum Expected {
    CommentEnd,
    StringEnd,
    Mark(u8),
    /// This mark, or a comma before it.
    MarkOrComma(u8),
    Name,
    Type,
    /// A whole number below 2^64, a constant, or an expression of these.
    Number,
    Item,
    TrueOrFalse,
    TextEnd,
    /// At most 128 brackets in one another.
    LessDepth,
    Json,
    /// Of JSON: a name as it is, and not by escapes.
    Plain,
}

/// What was met in a text, by its bytes, and what would have been right.
#[derive(Clone, Copy)]
pub struct Refusal {
    pub from: usize,
    pub to: usize,
    pub expected: Expected,
}

/// Why reading stops.
#[derive(Clone, Copy)]
pub enum Stop {
    OutOfMemory,
    Refused(Refusal),
}

impl From<AllocError> for Stop {
    fn from(_: AllocError) -> Stop {
        Stop::OutOfMemory
    }
}

impl<T: Drop> From<AllocFailed<T>> for Stop {
    fn from(_: AllocFailed<T>) -> Stop {
        Stop::OutOfMemory
    }
}

/// The error of a text in which reading stopped.
pub fn error_in<'a>(text: &'a str, stop: Stop) -> TextError<'a> {
    match stop {
        Stop::OutOfMemory => TextError::OutOfMemory,
        Stop::Refused(refusal) => {
            let bytes = text.as_bytes();
            let start = Place { line: 1, column: 1 };
            TextError::Refused {
                place: place_behind(start, piece(bytes, 0, refusal.from)),
                met: str::from_utf8(piece(bytes, refusal.from, refusal.to)).unwrap_or("?"),
                expected: refusal.expected,
            }
        }
    }
}

impl fmt::Display for Expected {
    fn fmt<W: fmt::Write>(&self, f: &mut fmt::Formatter<W>) -> fmt::Result {
        match self {
            Expected::CommentEnd => f.write_str("`*/` behind it"),
            Expected::StringEnd => f.write_str("a `\"` that closes it"),
            Expected::Mark(mark) => write!(f, "`{}`", char::from(*mark)),
            Expected::MarkOrComma(mark) => write!(f, "`,` or `{}`", char::from(*mark)),
            Expected::Name => f.write_str("a name"),
            Expected::Type => f.write_str("a type"),
            Expected::Number => f.write_str("a whole number below 2^64 or a constant"),
            Expected::Item => f.write_str("an item, as `struct`"),
            Expected::TrueOrFalse => f.write_str("`true` or `false`"),
            Expected::TextEnd => f.write_str("no more"),
            Expected::LessDepth => f.write_str("at most 128 types or brackets in one another"),
            Expected::Json => f.write_str("a value of JSON"),
            Expected::Plain => f.write_str("a name without escapes"),
        }
    }
}

/// So many bytes of a longer token name it.
const LONGEST_MET: usize = 40;

impl<'a> fmt::Display for TextError<'a> {
    fn fmt<W: fmt::Write>(&self, f: &mut fmt::Formatter<W>) -> fmt::Result {
        match self {
            TextError::OutOfMemory => f.write_str("out of memory"),
            TextError::Refused {
                place,
                met,
                expected,
            } => {
                write!(f, "line {}, column {}: ", place.line, place.column)?;
                match met.get(..LONGEST_MET) {
                    Some(front) if front.len() < met.len() => write!(f, "met `{front}..`")?,
                    _ if met.is_empty() => f.write_str("the text ends")?,
                    _ => write!(f, "met `{met}`")?,
                }
                write!(f, ", expected {expected}")
            }
        }
    }
}
