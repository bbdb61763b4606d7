// Why a type of a tree has no container.
ghost use Rattle.borsh_source.specs.Errors.{IsRefusal, IsTrueCause, IsTold};
ghost use Rattle.borsh_source.specs.declared.error.CompileError.TheVariants.{OutOfMemory};
ghost use Rattle.borsh_source.specs.declared.tree.Source.{Source};
ghost use Rattle.std.specs.Prelude.{◌≡◌};

use crate::tree::Place;
use std::alloc::{AllocError, AllocFailed, Global};

/// Why a type has no container.
#[derive(Drop)]
pub enum CompileError {
    /// What is wrong, where, and the name that it is about.
    Refused {
        place: Place,
        cause: Cause,
        name: String,
    },
    /// An allocation failed.
    OutOfMemory,
}

/// What is wrong.
#[derive(Clone, Copy, PartialEq, Eq)]
pub enum Cause {
    /// No item, parameter or type of the format has the name.
    UnknownType,
    /// No constant and no constant parameter has the name.
    UnknownConstant,
    /// The type takes another number of arguments.
    Arguments { expected: usize, found: usize },
    /// A number, or a constant, stands where a type is to stand.
    NoType,
    /// A type stands where a number is to stand.
    NoNumber,
    /// The expression has no value from 0 to 2^64 - 1.
    NoValue,
    /// The enum has discriminants, and no `#[borsh(use_discriminant = ..)]` says whether they are the tags.
    Discriminants,
    /// The variant's tag is above 255.
    Tag,
    /// A variant before it has the variant's tag.
    TwoTags,
    /// The name has two different definitions.
    TwoDefinitions,
    /// Two items have the name, which is used here.
    TwoItems,
    /// More than 128 types or expressions contain one another.
    TooDeep,
    /// The container would be too large.
    TooLarge,
    /// The tree names a type or an expression that it doesn't have.
    Nowhere,
    /// The definition of the name breaks this rule of the format.
    Rule(&'static str),
}

impl From<AllocError> for CompileError {
    ghost from_gives = { λ _ e. e ≡ OutOfMemory };

    fn from(_error: AllocError) -> CompileError {
        CompileError::OutOfMemory
    }
}

impl<T: Drop> From<AllocFailed<T>> for CompileError {
    ghost from_gives = { λ _ e. e ≡ OutOfMemory };

    fn from(_error: AllocFailed<T>) -> CompileError {
        CompileError::OutOfMemory
    }
}

/// The refusal at a place, for a cause, about a name.
pub fn refused(alloc: Global, place: Place, cause: Cause, name: &str) -> CompileError
    ensures told { (tree : Source) → IsTrueCause tree name.now cause → IsTold tree result }
    ensures is { IsRefusal cause name.now result }
{
    match String::from_str(alloc, name) {
        Ok(name) => CompileError::Refused { place, cause, name },
        Err(_) => CompileError::OutOfMemory,
    }
}
