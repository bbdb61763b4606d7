// What is wrong with a tree, in words.
use crate::error::{Cause, CompileError};
use std::fmt;

impl fmt::Display for CompileError {
    fn fmt<W: fmt::Write>(&self, f: &mut fmt::Formatter<W>) -> fmt::Result {
        match self {
            CompileError::OutOfMemory => f.write_str("out of memory"),
            CompileError::Refused { place, cause, name } => {
                if place.line > 0 {
                    write!(f, "line {}, ", place.line)?;
                }
                if place.column > 0 {
                    write!(f, "column {}: ", place.column)?;
                }
                if name.is_empty() {
                    write!(f, "the expression {cause}")
                } else {
                    write!(f, "`{name}` {cause}")
                }
            }
        }
    }
}

impl fmt::Display for Cause {
    fn fmt<W: fmt::Write>(&self, f: &mut fmt::Formatter<W>) -> fmt::Result {
        match self {
            Cause::UnknownType => f.write_str("is no type that has a schema"),
            Cause::UnknownConstant => f.write_str("is no constant"),
            Cause::Arguments { expected, found } => {
                write!(f, "has {found} arguments, expected {expected}")
            }
            Cause::NoType => f.write_str("is a number, expected a type"),
            Cause::NoNumber => f.write_str("is a type, expected a number"),
            Cause::NoValue => f.write_str("has no value from 0 to 2^64 - 1"),
            Cause::Discriminants => f.write_str(
                "has discriminants, expected `#[borsh(use_discriminant = true)]` or `false` above it",
            ),
            Cause::Tag => f.write_str("has a tag above 255"),
            Cause::TwoTags => f.write_str("has the tag of a variant before it"),
            Cause::TwoDefinitions => f.write_str("has two definitions that differ"),
            Cause::TwoItems => f.write_str("is the name of two items"),
            Cause::TooDeep => f.write_str("has more than 128 types or expressions in one another"),
            Cause::TooLarge => f.write_str("has too large a container"),
            Cause::Nowhere => f.write_str("has a part that isn't there"),
            Cause::Rule(rule) => write!(f, "breaks the rule {rule}"),
        }
    }
}
