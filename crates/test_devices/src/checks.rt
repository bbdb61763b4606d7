// How many checks were made.
use super::calls::How;
use std::fmt;

/// The calls whose refused requests are counted: four that encode, then five that decode. The first of these leaves bytes that
/// follow to its caller.
pub const CALLS: [How; 9] = [
    How::ToVec,
    How::ObjectLength,
    How::Serialize,
    How::ToWriter,
    How::Deserialize,
    How::FromSlice,
    How::FromSliceUnordered,
    How::FromReader,
    How::FromUnorderedReader,
];

/// How many checks of each kind were made.
#[derive(Clone, Copy, Debug, PartialEq, Eq)]
pub struct Checks {
    /// Bytes that were decoded to a value, or refused, from slices and from readers that don't fail.
    pub decoded: u64,
    /// Proper beginnings of an encoding that were refused.
    pub beginnings: u64,
    /// Readers that failed.
    pub failed_reads: u64,
    /// Values that were encoded, into vectors, slices and writers that don't fail.
    pub encoded: u64,
    /// Slices and writers without room for the encoding.
    pub full: u64,
    /// Writers that failed.
    pub failed_writes: u64,
    /// Refused requests for memory in each of [`CALLS`], in lines of the program, and in the two calls of a schema.
    pub refused_requests: [u64; 9],
    pub refused_in_lines: u64,
    pub refused_in_schemas: u64,
    /// Calls that asked for no memory, with every request refused.
    pub without_memory: u64,
}

impl Checks {
    pub const NONE: Checks = Checks {
        decoded: 0,
        beginnings: 0,
        failed_reads: 0,
        encoded: 0,
        full: 0,
        failed_writes: 0,
        refused_requests: [0; 9],
        refused_in_lines: 0,
        refused_in_schemas: 0,
        without_memory: 0,
    };

    /// Counts a request for memory that was refused in this call.
    pub fn count_refused(&mut self, how: How) {
        let place = CALLS.iter().position(|&call| call == how).unwrap_or(9);
        if let Some(count) = self.refused_requests.as_mut_slice().get_mut(place) {
            *count = count.saturating_add(1);
        }
    }
}

impl fmt::Display for Checks {
    fn fmt<W: fmt::Write>(&self, f: &mut fmt::Formatter<W>) -> fmt::Result {
        let (decoded, beginnings) = (self.decoded, self.beginnings);
        write!(f, "decoded {decoded}, beginnings {beginnings}, ")?;
        let (failed_reads, encoded) = (self.failed_reads, self.encoded);
        write!(f, "failed reads {failed_reads}, encoded {encoded}, ")?;
        let (full, failed_writes) = (self.full, self.failed_writes);
        write!(f, "full {full}, failed writes {failed_writes}, ")?;
        let without_memory = self.without_memory;
        write!(f, "without memory {without_memory}")
    }
}
