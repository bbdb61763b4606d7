// Lists: a count of four bytes and the elements in order.
ghost use Rattle.std.specs.Prelude.{false};
ghost use Rattle.borsh_codec.specs.Shapes.{
  concat_encodings,
  length_prefixed,
  list,
  unsigned_encoding,
};
ghost use Rattle.borsh_codec.specs.Writing.{Puts, Writes, WritesEncoding};

use super::lengths::{counted_length, list_length};
use super::numbers::bytes_of_u32;
use super::puts::put_counted;
use super::raw_bytes::write_bytes;
use super::rooms::{HUGE, LARGE, LONG, SHARED, write_by_room};
use super::serialize::BorshSerialize;
use borsh_io::{Error, ErrorKind, Result, Write};
use borsh_types::refuse_empty;
use std::alloc::Global;
use std::borrow::CowSlice;
use std::boxed::BoxedSlice;
use std::rc::RcSlice;
use std::sync::ArcSlice;

/// Writes the elements one after another: at once if that is how their encodings lie in memory, and
/// otherwise through a room, unless there are only a few.
///
/// Returns the error of the element that could not be written. Then a beginning of the encoding was written.
#[inline(always)]
pub(crate) fn write_elements<T: BorshSerialize, W: Write>(
    items: &[T],
    alloc: Global,
    writer: &mut W,
) -> Result<()>
    ensures { WritesEncoding W.writing writer.old writer.new T.codec.encoding_allocates false
        (concat_encodings T.codec.encoding items.now) result }
{
    if let Some(bytes) = T::u8_slice(items) {
        write_bytes(bytes, writer)?;
        return Ok(());
    }
    if items.len() < SHARED {
        return write_one_by_one(items, alloc, writer);
    }
    if T::element_size() > LONG {
        return write_by_room::<HUGE, T, W>(items, alloc, writer);
    }
    write_by_room::<LARGE, T, W>(items, alloc, writer)
}

/// Writes the elements one after another. The errors are those of `write_elements`.
///
/// As a function of its own it would take three times as long: each element's `Result` would be copied.
#[inline(always)]
pub(crate) fn write_one_by_one<T: BorshSerialize, W: Write>(
    items: &[T],
    alloc: Global,
    writer: &mut W,
) -> Result<()>
    ensures { WritesEncoding W.writing writer.old writer.new T.codec.encoding_allocates false
        (concat_encodings T.codec.encoding items.now) result }
{
    for item in items {
        item.serialize(alloc, writer)?;
    }
    Ok(())
}

/// Writes the count, four bytes.
///
/// Returns `InvalidData` for a count of more than 4294967295: then nothing was written. Returns the
/// writer's error if it fails: then a beginning of the four bytes was written.
#[inline(always)]
pub(crate) fn write_count<W: Write>(count: usize, writer: &mut W) -> Result<()>
    ensures { WritesEncoding W.writing writer.old writer.new false false
        (unsigned_encoding 4 count) result }
{
    let Ok(number) = u32::try_from(count) else {
        return Err(Error::from(ErrorKind::InvalidData));
    };
    write_bytes(&bytes_of_u32(number), writer)?;
    Ok(())
}

/// Writes the count and the elements.
///
/// The errors are those of `write_count` and `write_elements`. After one, a beginning of the encoding was written.
#[inline]
pub(crate) fn write_counted<T: BorshSerialize, W: Write>(
    items: &[T],
    alloc: Global,
    writer: &mut W,
) -> Result<()>
    ensures { Writes (length_prefixed T.codec) items.now W.writing writer.old writer.new result }
{
    write_count(items.len(), writer)?;
    write_elements(items, alloc, writer)?;
    Ok(())
}

/// Writes the count and the elements, as `write_counted` does and with its errors.
///
/// Elements whose encodings are empty are refused with `InvalidData`, before anything is written.
#[inline]
pub(crate) fn write_list<T: BorshSerialize, W: Write>(
    items: &[T],
    alloc: Global,
    writer: &mut W,
) -> Result<()>
    ensures { Writes (list T.codec) items.now W.writing writer.old writer.new result }
{
    refuse_empty::<T>()?;
    write_counted(items, alloc, writer)
}

/// Puts the count and the elements, unless their encodings are empty.
#[inline]
pub(crate) fn put_list<T: BorshSerialize>(items: &[T], room: &mut [u8]) -> Option<usize>
    ensures { Puts ((list T.codec).encoding items.now) room.old room.new result }
{
    if T::encodes_empty() {
        return None;
    }
    put_counted(items, room)
}

impl<T: BorshSerialize> BorshSerialize for Vec<T> {
    #[inline]
    fn serialize<W: Write>(&self, alloc: Global, writer: &mut W) -> Result<()> {
        write_list(self.as_slice(), alloc, writer)
    }

    #[inline]
    fn put(&self, room: &mut [u8]) -> Option<usize> {
        put_list(self.as_slice(), room)
    }

    #[inline]
    fn encoded_length(&self) -> Option<u32> {
        list_length(self.as_slice())
    }
}

impl<T: BorshSerialize> BorshSerialize for BoxedSlice<T> {
    #[inline]
    fn serialize<W: Write>(&self, alloc: Global, writer: &mut W) -> Result<()> {
        write_list(self.as_slice(), alloc, writer)
    }

    #[inline]
    fn put(&self, room: &mut [u8]) -> Option<usize> {
        put_list(self.as_slice(), room)
    }

    #[inline]
    fn encoded_length(&self) -> Option<u32> {
        list_length(self.as_slice())
    }
}

impl<T: BorshSerialize> BorshSerialize for RcSlice<T> {
    #[inline]
    fn serialize<W: Write>(&self, alloc: Global, writer: &mut W) -> Result<()> {
        write_list(self.as_slice(), alloc, writer)
    }

    #[inline]
    fn put(&self, room: &mut [u8]) -> Option<usize> {
        put_list(self.as_slice(), room)
    }

    #[inline]
    fn encoded_length(&self) -> Option<u32> {
        list_length(self.as_slice())
    }
}

impl<T: BorshSerialize> BorshSerialize for ArcSlice<T> {
    #[inline]
    fn serialize<W: Write>(&self, alloc: Global, writer: &mut W) -> Result<()> {
        write_list(self.as_slice(), alloc, writer)
    }

    #[inline]
    fn put(&self, room: &mut [u8]) -> Option<usize> {
        put_list(self.as_slice(), room)
    }

    #[inline]
    fn encoded_length(&self) -> Option<u32> {
        list_length(self.as_slice())
    }
}

impl<T: BorshSerialize> BorshSerialize for CowSlice<'_, T> {
    #[inline]
    fn serialize<W: Write>(&self, alloc: Global, writer: &mut W) -> Result<()> {
        write_list(self.as_slice(), alloc, writer)
    }

    #[inline]
    fn put(&self, room: &mut [u8]) -> Option<usize> {
        put_list(self.as_slice(), room)
    }

    #[inline]
    fn encoded_length(&self) -> Option<u32> {
        list_length(self.as_slice())
    }
}

// A plain slice isn't asked whether its elements are empty.
impl<T: BorshSerialize> BorshSerialize for &[T] {
    #[inline]
    fn serialize<W: Write>(&self, alloc: Global, writer: &mut W) -> Result<()> {
        write_counted(*self, alloc, writer)
    }

    #[inline]
    fn put(&self, room: &mut [u8]) -> Option<usize> {
        put_counted(*self, room)
    }

    #[inline]
    fn encoded_length(&self) -> Option<u32> {
        counted_length(*self)
    }
}
