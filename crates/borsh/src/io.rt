// Readers, writers and errors.
pub use borsh_io::{
    Buffered, Error, ErrorKind, Read, Result, StdReader, StdWriter, Text, Unordered, Write,
    flush_all, pass_over, read_some,
};
