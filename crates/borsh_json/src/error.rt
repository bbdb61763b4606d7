// Why a value has no JSON, or a text is no value.
ghost use Rattle.borsh_json.specs.Errors.{error_of};
ghost use Rattle.borsh_json.specs.declared.error.JsonError.TheVariants.{OutOfMemory};
ghost use Rattle.borsh_json.specs.declared.error.PartError.TheVariants.{OutOfMemory as NoMemory};
ghost use Rattle.borsh_json.specs.declared.error.ReadError.TheVariants.{OutOfMemory as NoRoom};
ghost use Rattle.borsh_json.specs.declared.error.WriteError.TheVariants.{OutOfMemory as NotWritten};
ghost use Rattle.std.specs.Prelude.{◌≡◌};

use borsh_values::{Fault, Path};
use std::alloc::{AllocError, AllocFailed};
use std::fmt;

/// Why a value has no JSON, or a text is no value.
#[derive(Drop)]
pub enum JsonError<'a> {
    /// An allocation failed.
    OutOfMemory,
    /// The bytes are no member of the root: where, and why.
    NoMember(Fault<'a>),
    /// The root has no value that is written so.
    NoValue,
    /// The definition of this name is ambiguous, or breaks a rule of widths.
    Ambiguous(&'a str),
    /// The text isn't JSON: it is wrong near this byte, or ends too early.
    NotJson(usize),
    /// A part of the value, by its path, and what is wrong with it.
    Refused(Path<'a>, Refusal),
}

/// Why a part of a value was not written, or not read.
#[derive(Drop)]
pub enum PartError<'a> {
    /// An allocation failed.
    OutOfMemory,
    /// The part, by its path, and what is wrong with it.
    Refused(Path<'a>, Refusal),
}

/// Why a part of a value was not read; the reader knows its path.
#[derive(Drop)]
pub enum ReadError {
    /// An allocation failed.
    OutOfMemory,
    /// What is wrong with the part.
    Refused(Refusal),
}

/// Why a part was not written; the writer knows its path.
#[derive(Drop)]
pub enum WriteError {
    /// An allocation failed.
    OutOfMemory,
    /// What is wrong with the part.
    Refused(Refusal),
    /// What is wrong with the element of this index.
    Element(usize, Refusal),
}

/// What a step of reading or writing parts returns.
pub type PartResult<'a, T> = Result<T, PartError<'a>>;

/// What is wrong with a part of a value.
#[derive(Debug, Drop)]
pub enum Refusal {
    /// Arrays and objects would nest more than 128 deep.
    TooDeep,
    /// Two fields, or two variants, have this name.
    RepeatedName(String),
    /// The elements of a list with a length, or the keys of a map, have no bytes.
    EmptyElements,
    /// A `bool` is neither 0 nor 1.
    NotBool,
    /// A `String` isn't UTF-8.
    NotUtf8,
    /// A non-zero number is 0.
    Zero,
    /// A float is a NaN.
    NotNumber,
    /// The elements of a set, or the keys of a map, don't ascend up to this one.
    Descends,
    /// The JSON isn't this.
    Expected(String),
    /// The field is missing.
    MissingField,
    /// There is no field, or no variant, of this name.
    UnknownName(String),
    /// The key comes twice in an object.
    RepeatedKey(String),
    /// The name has no definition.
    Undefined(String),
}

impl<'a> From<AllocError> for JsonError<'a> {
    ghost from_gives = { λ _ e. e ≡ OutOfMemory };

    fn from(_: AllocError) -> JsonError<'a> {
        JsonError::OutOfMemory
    }
}

impl<'a, T: Drop> From<AllocFailed<T>> for JsonError<'a> {
    ghost from_gives = { λ _ e. e ≡ OutOfMemory };

    fn from(_: AllocFailed<T>) -> JsonError<'a> {
        JsonError::OutOfMemory
    }
}

impl<'a> From<AllocError> for PartError<'a> {
    ghost from_gives = { λ _ e. e ≡ NoMemory };

    fn from(_: AllocError) -> PartError<'a> {
        PartError::OutOfMemory
    }
}

impl<'a, T: Drop> From<AllocFailed<T>> for PartError<'a> {
    ghost from_gives = { λ _ e. e ≡ NoMemory };

    fn from(_: AllocFailed<T>) -> PartError<'a> {
        PartError::OutOfMemory
    }
}

impl From<AllocError> for ReadError {
    ghost from_gives = { λ _ e. e ≡ NoRoom };

    fn from(_: AllocError) -> ReadError {
        ReadError::OutOfMemory
    }
}

impl<T: Drop> From<AllocFailed<T>> for ReadError {
    ghost from_gives = { λ _ e. e ≡ NoRoom };

    fn from(_: AllocFailed<T>) -> ReadError {
        ReadError::OutOfMemory
    }
}

impl From<AllocError> for WriteError {
    ghost from_gives = { λ _ e. e ≡ NotWritten };

    fn from(_: AllocError) -> WriteError {
        WriteError::OutOfMemory
    }
}

impl<T: Drop> From<AllocFailed<T>> for WriteError {
    ghost from_gives = { λ _ e. e ≡ NotWritten };

    fn from(_: AllocFailed<T>) -> WriteError {
        WriteError::OutOfMemory
    }
}

impl<'a> From<PartError<'a>> for JsonError<'a> {
    ghost from_gives = { λ part e. e ≡ error_of part };

    fn from(part: PartError<'a>) -> JsonError<'a> {
        match part {
            PartError::OutOfMemory => JsonError::OutOfMemory,
            PartError::Refused(path, refusal) => JsonError::Refused(path, refusal),
        }
    }
}

impl<'a> fmt::Display for JsonError<'a> {
    fn fmt<W: fmt::Write>(&self, f: &mut fmt::Formatter<W>) -> fmt::Result {
        match self {
            JsonError::OutOfMemory => write!(f, "out of memory"),
            JsonError::NoMember(fault) => write!(f, "{fault}"),
            JsonError::NoValue => write!(f, "no value of the schema"),
            JsonError::Ambiguous(name) => write!(f, "`{name}` is ambiguous"),
            JsonError::NotJson(offset) => write!(f, "not JSON, near byte {offset}"),
            JsonError::Refused(path, refusal) => write!(f, "{path}: {refusal}"),
        }
    }
}

impl<'a> fmt::Debug for JsonError<'a> {
    fn fmt<W: fmt::Write>(&self, f: &mut fmt::Formatter<W>) -> fmt::Result {
        write!(f, "{self}")
    }
}

impl<'a> std::error::Error for JsonError<'a> {}

impl fmt::Display for Refusal {
    fn fmt<W: fmt::Write>(&self, f: &mut fmt::Formatter<W>) -> fmt::Result {
        match self {
            Refusal::TooDeep => write!(f, "nests more than 128 deep"),
            Refusal::RepeatedName(name) => write!(f, "two parts are named `{name}`"),
            Refusal::EmptyElements => write!(f, "a list whose elements have no bytes"),
            Refusal::NotBool => write!(f, "neither 0 nor 1"),
            Refusal::NotUtf8 => write!(f, "not UTF-8"),
            Refusal::Zero => write!(f, "zero"),
            Refusal::NotNumber => write!(f, "not a number"),
            Refusal::Descends => write!(f, "not above the one before it"),
            Refusal::Expected(wanted) => write!(f, "expected {wanted}"),
            Refusal::MissingField => write!(f, "missing"),
            Refusal::UnknownName(name) => write!(f, "`{name}` isn't in the schema"),
            Refusal::RepeatedKey(name) => write!(f, "`{name}` comes twice"),
            Refusal::Undefined(name) => write!(f, "`{name}` has no definition"),
        }
    }
}
