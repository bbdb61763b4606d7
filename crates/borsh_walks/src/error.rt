// Why a container breaks the rules, or has no greatest size.
ghost use Rattle.borsh_walks.specs.Errors.{broken_rule, no_memory, out_of_memory};
ghost use Rattle.std.specs.Prelude.{◌≡◌, option_map};

use crate::definition::Declaration;
use std::alloc::{AllocError, AllocFailed};
use std::error::Error;
use std::fmt;

/// The rule that is broken, by a name that the root reaches. Left open of each call: none.
#[derive(Clone, Debug, PartialEq, Eq, Drop)]
pub enum SchemaContainerValidateError {
    /// The elements of the sequence have empty encodings.
    ZSTSequence(Declaration),
    /// The width of the length or tag is above eight bytes.
    TagTooWide(Declaration),
    /// The greatest length doesn't fit the width.
    TagTooNarrow(Declaration),
    /// The width of the length is 3, 5, 6 or 7.
    TagNotPowerOfTwo(Declaration),
    /// The name has no definition.
    MissingDefinition(Declaration),
    /// The least length is above the greatest.
    EmptyLengthRange(Declaration),
    /// An allocation failed.
    OutOfMemory,
}

impl SchemaContainerValidateError {
    /// The name of the rule, and the name that breaks it; none if an allocation failed.
    ///
    /// ```
    /// if let Some((rule, name)) = error.broken_rule() {
    ///     println!(rt; "{name} breaks the rule {rule}")?;
    /// }
    /// ```
    pub fn broken_rule(&self) -> Option<(&'static str, &str)>
        ensures { option_map (λ p. (p.0.now, p.1.now)) result ≡ broken_rule self.now }
    {
        match self {
            SchemaContainerValidateError::ZSTSequence(name) => Some(("ZSTSequence", name.as_str())),
            SchemaContainerValidateError::TagTooWide(name) => Some(("TagTooWide", name.as_str())),
            SchemaContainerValidateError::TagTooNarrow(name) => Some((
                "TagTooNarrow",
                name.as_str(),
            )),
            SchemaContainerValidateError::TagNotPowerOfTwo(name) => {
                Some(("TagNotPowerOfTwo", name.as_str()))
            }
            SchemaContainerValidateError::MissingDefinition(name) => {
                Some(("MissingDefinition", name.as_str()))
            }
            SchemaContainerValidateError::EmptyLengthRange(name) => {
                Some(("EmptyLengthRange", name.as_str()))
            }
            SchemaContainerValidateError::OutOfMemory => None,
        }
    }
}

/// Why there is no greatest size. Left open of each call: none.
#[derive(Clone, Debug, PartialEq, Eq, Drop)]
pub enum SchemaMaxSerializedSizeError {
    /// The size doesn't fit in a `usize`.
    Overflow,
    /// A definition contains itself.
    Recursive,
    /// The name has no definition.
    MissingDefinition(Declaration),
    /// An allocation failed.
    OutOfMemory,
    /// The type gives this name two different definitions. Only the size of a type has this error.
    Redefinition(Declaration),
}

impl From<AllocError> for SchemaContainerValidateError {
    ghost from_gives = { λ error made. made ≡ no_memory };

    fn from(_: AllocError) -> SchemaContainerValidateError {
        SchemaContainerValidateError::OutOfMemory
    }
}

impl<T: Drop> From<AllocFailed<T>> for SchemaContainerValidateError {
    ghost from_gives = { λ error made. made ≡ no_memory };

    fn from(_: AllocFailed<T>) -> SchemaContainerValidateError {
        SchemaContainerValidateError::OutOfMemory
    }
}

impl From<AllocError> for SchemaMaxSerializedSizeError {
    ghost from_gives = { λ error made. made ≡ out_of_memory };

    fn from(_: AllocError) -> SchemaMaxSerializedSizeError {
        SchemaMaxSerializedSizeError::OutOfMemory
    }
}

impl<T: Drop> From<AllocFailed<T>> for SchemaMaxSerializedSizeError {
    ghost from_gives = { λ error made. made ≡ out_of_memory };

    fn from(_: AllocFailed<T>) -> SchemaMaxSerializedSizeError {
        SchemaMaxSerializedSizeError::OutOfMemory
    }
}

impl fmt::Display for SchemaContainerValidateError {
    fn fmt<W: fmt::Write>(&self, f: &mut fmt::Formatter<W>) -> fmt::Result {
        match self {
            SchemaContainerValidateError::ZSTSequence(name) => {
                write!(f, "the elements of the sequence `{name}` have no bytes")
            }
            SchemaContainerValidateError::TagTooWide(name) => {
                write!(f, "the length or tag of `{name}` is wider than eight bytes")
            }
            SchemaContainerValidateError::TagTooNarrow(name) => {
                write!(
                    f,
                    "the greatest length of `{name}` doesn't fit its length prefix"
                )
            }
            SchemaContainerValidateError::TagNotPowerOfTwo(name) => {
                write!(
                    f,
                    "the length prefix of `{name}` is three, five, six or seven bytes wide"
                )
            }
            SchemaContainerValidateError::MissingDefinition(name) => {
                write!(f, "`{name}` has no definition")
            }
            SchemaContainerValidateError::EmptyLengthRange(name) => {
                write!(f, "the least length of `{name}` is above the greatest")
            }
            SchemaContainerValidateError::OutOfMemory => write!(f, "out of memory"),
        }
    }
}

impl Error for SchemaContainerValidateError {}

impl fmt::Display for SchemaMaxSerializedSizeError {
    fn fmt<W: fmt::Write>(&self, f: &mut fmt::Formatter<W>) -> fmt::Result {
        match self {
            SchemaMaxSerializedSizeError::Overflow => {
                write!(f, "the greatest size is above 18446744073709551615 bytes")
            }
            SchemaMaxSerializedSizeError::Recursive => { write!(f, "a definition contains itself") }
            SchemaMaxSerializedSizeError::MissingDefinition(name) => {
                write!(f, "`{name}` has no definition")
            }
            SchemaMaxSerializedSizeError::OutOfMemory => write!(f, "out of memory"),
            SchemaMaxSerializedSizeError::Redefinition(name) => {
                write!(f, "`{name}` has two different definitions")
            }
        }
    }
}

impl Error for SchemaMaxSerializedSizeError {}
