// One call of the library at a type. What is checked of a type is made of these, so that only they are compiled for each type.
use super::course::Course;
use super::fault::{Fault, Result, check};
use super::heap::Refusal;
use super::reader::TestReader;
use super::writer::TestWriter;
use borsh::io::{self, Error, Read, Unordered};
use borsh::schema::{BorshSchema, SchemaBuildError, SchemaMaxSerializedSizeError};
use borsh::{
    BorshDeserialize, BorshSerialize, from_reader, from_slice, from_slice_unordered,
    max_serialized_size, object_length, schema_container_of, to_vec, to_writer,
};
use std::alloc::Global;

/// Which call is made.
#[derive(Clone, Copy, Debug, PartialEq, Eq)]
pub enum How {
    FromSlice,
    FromSliceUnordered,
    Deserialize,
    FromReader,
    FromUnorderedReader,
    ToVec,
    ObjectLength,
    Serialize,
    ToWriter,
    ToSlice,
    /// Both calls of the type's schema: its container, and its greatest size.
    Schema,
}

impl How {
    /// Whether the call encodes a value.
    pub(crate) fn encodes(self) -> bool {
        matches!(
            self,
            How::ToVec | How::ObjectLength | How::Serialize | How::ToWriter | How::ToSlice
        )
    }

    /// Whether the call decodes from a reader.
    pub(crate) fn has_reader(self) -> bool {
        self == How::FromReader || self == How::FromUnorderedReader
    }
}

/// A call: the bytes that are decoded, or the encoding of the value that is encoded, and what the call meets.
#[derive(Clone, Copy)]
pub struct Call<'a> {
    pub how: How,
    pub bytes: &'a [u8],
    /// How the reader or the writer goes, if there is one.
    pub course: Course,
    /// How many bytes the writer or the slice takes.
    pub room: usize,
    pub refusal: Refusal,
}

impl<'a> Call<'a> {
    /// A call with ample memory, whose reader or writer goes as it can.
    pub fn new(how: How, bytes: &'a [u8]) -> Call<'a> {
        Call {
            how,
            bytes,
            course: Course::smooth(),
            room: usize::MAX,
            refusal: Refusal::None,
        }
    }

    /// The call over a reader or a writer that goes so.
    pub(crate) fn on(self, course: Course) -> Call<'a> {
        Call { course, ..self }
    }

    /// The call into a writer or a slice that takes so many bytes.
    pub(crate) fn with_room(self, room: usize) -> Call<'a> {
        Call { room, ..self }
    }
}

/// What came of a call.
#[derive(Drop)]
pub struct Report {
    /// The error that the call returned.
    pub error: Option<Error>,
    /// The encoding of the value that was decoded; or what was written, also before an error. Of a schema, the encoding of the
    /// container.
    pub bytes: Vec<u8>,
    /// How many bytes the reader has left; of a slice that was written into, its length; the length that was answered; of a
    /// schema, the greatest size.
    pub count: Option<usize>,
    /// How often the reader or the writer failed.
    pub faults: u64,
    /// How often it was called.
    pub calls: u64,
    /// Whether a request for memory was refused.
    pub was_refused: bool,
}

/// A type that rows name.
pub trait Subject {
    /// Makes the call at the type. Fails if there is no such type here, if the call has no answer that could be judged, or if a
    /// call fails that isn't the one to be judged.
    fn call(&self, alloc: Global, call: &Call<'_>) -> Result<Report>;
}

/// Makes the call at the type, which may have no schema.
pub fn call_at<T: BorshSerialize + BorshDeserialize>(
    alloc: Global,
    call: &Call<'_>,
) -> Result<Report> {
    if call.how == How::Schema {
        return Err(Fault::Check("no schema", 0));
    }
    if call.how.encodes() {
        encode::<T>(alloc, call)
    } else {
        decode::<T>(alloc, call)
    }
}

/// Makes the call at the type.
pub fn call_with_schema<T: BorshSerialize + BorshDeserialize + BorshSchema>(
    alloc: Global,
    call: &Call<'_>,
) -> Result<Report> {
    if call.how == How::Schema {
        return schema::<T>(alloc, call);
    }
    call_at::<T>(alloc, call)
}

/// Makes the calls of the type's schema: no other row names the type, which may be one that isn't decoded.
pub fn schema_at<T: BorshSchema>(alloc: Global, call: &Call<'_>) -> Result<Report> {
    check(call.how == How::Schema, "a schema alone", 0)?;
    schema::<T>(alloc, call)
}

/// Makes a call that decodes, and encodes the value again.
fn decode<T: BorshSerialize + BorshDeserialize>(alloc: Global, call: &Call<'_>) -> Result<Report> {
    let mut rest = call.bytes;
    let mut reader = TestReader::new(call.bytes, call.course);
    call.refusal.begin(alloc);
    let made = match call.how {
        How::FromSlice => from_slice::<T>(alloc, call.bytes),
        How::FromSliceUnordered => from_slice_unordered::<T>(alloc, call.bytes),
        How::Deserialize => T::deserialize(alloc, &mut rest),
        How::FromReader => from_reader::<_, T>(alloc, &mut reader),
        _ => from_unordered::<_, T>(alloc, &mut reader),
    };
    let was_refused = call.refusal.end(alloc);
    let left = match call.how {
        How::Deserialize => rest.len(),
        _ => reader.rest().len(),
    };
    let (error, bytes) = match made {
        Ok(value) => (None, to_vec(alloc, &value)?),
        Err(error) => (Some(error), Vec::new(alloc)),
    };
    Ok(Report {
        error,
        bytes,
        count: Some(left),
        faults: reader.faults(),
        calls: reader.calls(),
        was_refused,
    })
}

fn from_unordered<R: Read, T: BorshDeserialize>(alloc: Global, reader: &mut R) -> io::Result<T> {
    from_reader(alloc, &mut Unordered::new(reader))
}

/// What is in a vector before a value is written into it.
const FRONT: &[u8] = b"front";

/// Makes a call that encodes the value whose encoding the bytes are.
fn encode<T: BorshSerialize + BorshDeserialize>(alloc: Global, call: &Call<'_>) -> Result<Report> {
    let value: T = from_slice(alloc, call.bytes)?;
    match call.how {
        How::ToVec => {
            call.refusal.begin(alloc);
            let made = to_vec(alloc, &value);
            let was_refused = call.refusal.end(alloc);
            Ok(match made {
                Ok(bytes) => reported(None, bytes, None, was_refused),
                Err(error) => reported(Some(error), Vec::new(alloc), None, was_refused),
            })
        }
        How::ObjectLength => {
            call.refusal.begin(alloc);
            let made = object_length(alloc, &value);
            let was_refused = call.refusal.end(alloc);
            Ok(match made {
                Ok(length) => reported(None, Vec::new(alloc), Some(length), was_refused),
                Err(error) => reported(Some(error), Vec::new(alloc), None, was_refused),
            })
        }
        How::Serialize => {
            let mut out = Vec::from_slice(alloc, FRONT)?;
            call.refusal.begin(alloc);
            let done = value.serialize(alloc, &mut out);
            let was_refused = call.refusal.end(alloc);
            let Some(bytes) = out.as_slice().strip_prefix(FRONT) else {
                return Err(Fault::Check("what was in the vector before", out.len()));
            };
            let bytes = Vec::from_slice(alloc, bytes)?;
            Ok(reported(done.err(), bytes, None, was_refused))
        }
        How::ToSlice => {
            let mut space = vec![in alloc; 170u8; call.room]?;
            let mut rest = space.as_mut_slice();
            call.refusal.begin(alloc);
            let done = to_writer(alloc, &mut rest, &value);
            let was_refused = call.refusal.end(alloc);
            let left = rest.len();
            Ok(reported(done.err(), space, Some(left), was_refused))
        }
        _ => {
            let mut writer = TestWriter::new(Vec::new(alloc), call.room, call.course);
            call.refusal.begin(alloc);
            let done = to_writer(alloc, &mut writer, &value);
            let was_refused = call.refusal.end(alloc);
            let bytes = Vec::from_slice(alloc, writer.taken())?;
            Ok(Report {
                faults: writer.faults(),
                calls: writer.calls(),
                ..reported(done.err(), bytes, None, was_refused)
            })
        }
    }
}

/// The report of a call without a reader or a writer that could fail.
fn reported(
    error: Option<Error>,
    bytes: Vec<u8>,
    count: Option<usize>,
    was_refused: bool,
) -> Report {
    Report {
        error,
        bytes,
        count,
        faults: 0,
        calls: 0,
        was_refused,
    }
}

/// The encoding of the type's container, and its greatest size; after an allocation failure, none.
fn schema<T: BorshSchema>(alloc: Global, call: &Call<'_>) -> Result<Report> {
    let (bytes, no_container) = container::<T>(alloc, call.refusal)?;
    let (size, no_size) = greatest_size::<T>(alloc, call.refusal)?;
    Ok(reported(None, bytes, size, no_container || no_size))
}

/// The encoding of the type's container, and whether a request was refused.
fn container<T: BorshSchema>(alloc: Global, refusal: Refusal) -> Result<(Vec<u8>, bool)> {
    refusal.begin(alloc);
    let made = schema_container_of::<T>(alloc);
    let was_refused = refusal.end(alloc);
    match made {
        Ok(container) => Ok((to_vec(alloc, &container)?, was_refused)),
        Err(error) => {
            let is_missed = error == SchemaBuildError::OutOfMemory;
            check(is_missed && was_refused, "container", 0)?;
            Ok((Vec::new(alloc), was_refused))
        }
    }
}

/// The greatest size of the type, and whether a request was refused.
fn greatest_size<T: BorshSchema>(alloc: Global, refusal: Refusal) -> Result<(Option<usize>, bool)> {
    refusal.begin(alloc);
    let made = max_serialized_size::<T>(alloc);
    let was_refused = refusal.end(alloc);
    match made {
        Ok(size) => Ok((Some(size), was_refused)),
        Err(error) => {
            let is_missed = error == SchemaMaxSerializedSizeError::OutOfMemory;
            check(was_refused || !is_missed, "greatest size", 0)?;
            Ok((None, was_refused))
        }
    }
}
