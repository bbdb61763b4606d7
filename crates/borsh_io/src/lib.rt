//! Readers, writers and errors.
//!
//! A read takes bytes from the beginning of those that are still to come, is interrupted, or fails. A
//! write takes bytes from the beginning of a buffer, is interrupted, or fails. Contracts name the bytes,
//! a count of faults, and how many interruptions may still come, so that a caller can distinguish an I/O error
//! from malformed bytes.
#![tactic(auto)]

pub mod adapters;
pub mod buffered;
pub mod error;
pub mod read;
pub mod readers;
pub mod unordered;
pub mod write;
pub mod writers;

pub use adapters::{StdReader, StdWriter};
pub use buffered::Buffered;
pub use error::{Error, ErrorKind, Result, Text, pass_over};
pub use read::{Read, read_some};
pub use unordered::Unordered;
pub use write::{Write, flush_all};
