// Ranges: their start, where they have one, and then their end, where they have one.
use super::deserialize::BorshDeserialize;
use super::parts::{FromParts, read_parts};
use borsh_io::{Read, Result};
use std::alloc::Global;
use std::ops::{Range, RangeFrom, RangeInclusive, RangeTo, RangeToInclusive};

impl<T: BorshDeserialize> FromParts for Range<T> {
    type Parts = (T, T);

    ghost view = { λ r. (r.start, r.end) };

    #[inline]
    fn from_parts((start, end): (T, T)) -> Range<T> {
        start..end
    }
}

impl<T: BorshDeserialize> BorshDeserialize for Range<T> {
    #[inline]
    fn deserialize_reader<R: Read>(alloc: Global, reader: &mut R) -> Result<Range<T>> {
        read_parts(alloc, reader)
    }
}

impl<T: BorshDeserialize> BorshDeserialize for RangeInclusive<T> {
    /// Whether the range is exhausted is no part of the encoding: it isn't.
    #[inline]
    fn deserialize_reader<R: Read>(alloc: Global, reader: &mut R) -> Result<RangeInclusive<T>> {
        let (start, end) = <(T, T)>::deserialize_reader(alloc, reader)?;
        Ok(start..=end)
    }
}

impl<T: BorshDeserialize> FromParts for RangeFrom<T> {
    type Parts = T;

    ghost view = { λ r. r.start };

    #[inline]
    fn from_parts(parts: T) -> RangeFrom<T> {
        parts..
    }
}

impl<T: BorshDeserialize> BorshDeserialize for RangeFrom<T> {
    #[inline]
    fn deserialize_reader<R: Read>(alloc: Global, reader: &mut R) -> Result<RangeFrom<T>> {
        read_parts(alloc, reader)
    }
}

impl<T: BorshDeserialize> FromParts for RangeTo<T> {
    type Parts = T;

    ghost view = { λ r. r.end };

    #[inline]
    fn from_parts(parts: T) -> RangeTo<T> {
        ..parts
    }
}

impl<T: BorshDeserialize> BorshDeserialize for RangeTo<T> {
    #[inline]
    fn deserialize_reader<R: Read>(alloc: Global, reader: &mut R) -> Result<RangeTo<T>> {
        read_parts(alloc, reader)
    }
}

impl<T: BorshDeserialize> FromParts for RangeToInclusive<T> {
    type Parts = T;

    ghost view = { λ r. r.end };

    #[inline]
    fn from_parts(parts: T) -> RangeToInclusive<T> {
        ..=parts
    }
}

impl<T: BorshDeserialize> BorshDeserialize for RangeToInclusive<T> {
    #[inline]
    fn deserialize_reader<R: Read>(alloc: Global, reader: &mut R) -> Result<RangeToInclusive<T>> {
        read_parts(alloc, reader)
    }
}
