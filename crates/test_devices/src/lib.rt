//! Readers, writers and a heap for tests, and what is checked of a row of the suite with them.
//!
//! The reader and the writer handle bytes in pieces, are interrupted, fail at a chosen call, and the writer is full after a
//! number of bytes. The heap of `tools/heap.c` refuses a chosen request for memory; an ordinary heap refuses none. What is proved
//! for every reader and writer holds for these too; with them a row shows what the proofs leave open, as the text of an error.
#![tactic(auto)]

mod calls;
mod checks;
mod course;
pub mod fault;
pub mod heap;
mod reader;
mod reading;
mod rows;
mod sections;
mod sweeps;
mod writer;
mod writing;

pub use calls::{Call, How, Report, Subject, call_at, call_with_schema, schema_at};
pub use checks::{CALLS, Checks};
pub use course::{ABORTED, Course, Failure, courses};
pub use fault::Fault;
pub use reader::TestReader;
pub use rows::{AnyOrder, Heap, Judge, Memory};
pub use sections::{Section, sections_of};
pub use writer::TestWriter;
