// What is checked of a row.
use super::calls::{Call, How, Report, Subject};
use super::checks::{CALLS, Checks};
use super::fault::Result;
use super::reading::check_exact_reads;
use std::alloc::Global;

/// The calls of [`CALLS`] that want keys in ascending order, and those that take them in any.
const STRICT: [How; 3] = [How::Deserialize, How::FromSlice, How::FromReader];

const UNORDERED: [How; 2] = [How::FromSliceUnordered, How::FromUnorderedReader];

/// Over which heap rows are judged.
#[derive(Clone, Copy, Debug, PartialEq, Eq)]
pub enum Heap {
    /// An ordinary one.
    Ordinary,
    /// One that refuses the requests that it is told to refuse: that of `tools/heap.c`.
    TakesOrders,
}

/// For which calls a value of a type needs no memory.
#[derive(Clone, Copy, Debug, PartialEq, Eq)]
pub enum Memory {
    /// It may need memory.
    Taken,
    /// None to encode it.
    FreeToEncode,
    /// None to encode or to decode it.
    Free,
}

/// What bytes are in which keys may come in any order.
#[derive(Clone, Copy)]
pub enum AnyOrder<'a> {
    /// The value with this encoding.
    Value(&'a [u8]),
    /// Refused with this text.
    Refused(&'a str),
}

/// Judges a type over a heap, and counts the checks.
#[derive(Drop)]
pub struct Judge<'a, S> {
    pub alloc: Global,
    pub heap: Heap,
    pub subject: &'a S,
    pub checks: Checks,
}

impl<S: Subject> Judge<'_, S> {
    /// Makes a call at the type.
    pub(crate) fn call(&self, call: Call<'_>) -> Result<Report> {
        self.subject.call(self.alloc, &call)
    }

    /// Checks that the bytes are decoded to the value with this encoding, which differs from the bytes if they repeat a key.
    ///
    /// They are decoded from slices and from readers of every kind, with keys in order and in any; each proper beginning is
    /// refused; and each read fails once. If the bytes are the encoding, the value is encoded into vectors, slices and writers of
    /// every kind, each of which is full or fails at each byte. Over a heap that takes orders, each request for memory is refused in
    /// turn in each call.
    pub fn judge_value(&mut self, bytes: &[u8], encoding: &[u8], memory: Memory) -> Result<()> {
        self.check_front(bytes, encoding)?;
        self.check_decoded(&CALLS[5..], bytes, encoding)?;
        check_exact_reads(self.alloc, bytes)?;
        self.check_beginnings(&CALLS[4..8], bytes)?;
        self.check_failing_readers(How::FromReader, bytes, encoding)?;
        self.check_encoded(encoding)?;
        if bytes == encoding {
            self.check_full(bytes)?;
            self.check_failing_writers(bytes)?;
        }
        if self.heap == Heap::TakesOrders {
            let value = AnyOrder::Value(encoding);
            self.sweep(&CALLS[4..], bytes, value)?;
            self.sweep(&CALLS[..4], encoding, value)?;
            // A vector begins with room for a kilobyte, and the entries of a hashed map are sorted in another one.
            let most = u32::try_from(encoding.len())?.saturating_mul(16);
            self.check_memory(&CALLS[..4], encoding, most.saturating_add(1024))?;
            self.check_without_memory(bytes, memory)?;
        }
        Ok(())
    }

    /// Checks that the bytes are refused with this text by every call, from slices and from readers of every kind; over a heap
    /// that takes orders, that no request is for more than `most` bytes, if that is said, and all of a call for no more than twice
    /// that.
    pub fn judge_refused(&mut self, bytes: &[u8], text: &str, most: Option<u32>) -> Result<()> {
        let decoding = if text == "Not all bytes read" {
            &CALLS[5..]
        } else {
            &CALLS[4..]
        };
        self.check_refused(decoding, bytes, text)?;
        if self.heap == Heap::TakesOrders {
            self.sweep(decoding, bytes, AnyOrder::Refused(text))?;
            if let Some(most) = most {
                self.check_memory(&CALLS[4..], bytes, most)?;
            }
        }
        Ok(())
    }

    /// Checks that the bytes, whose keys may descend or come twice, are this where keys may come in any order, and are refused
    /// with this text where they have to ascend.
    pub fn judge_unordered(
        &mut self,
        bytes: &[u8],
        unordered: AnyOrder<'_>,
        text: &str,
    ) -> Result<()> {
        self.check_refused(&STRICT, bytes, text)?;
        match unordered {
            AnyOrder::Value(encoding) => {
                self.check_decoded(&UNORDERED, bytes, encoding)?;
                self.check_beginnings(&UNORDERED, bytes)?;
                self.check_failing_readers(How::FromUnorderedReader, bytes, encoding)?;
                self.check_encoded(encoding)?;
            }
            AnyOrder::Refused(text) => self.check_refused(&UNORDERED, bytes, text)?,
        }
        if self.heap == Heap::TakesOrders {
            self.sweep(&STRICT, bytes, AnyOrder::Refused(text))?;
            self.sweep(&UNORDERED, bytes, unordered)?;
        }
        Ok(())
    }
}
