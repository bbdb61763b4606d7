// Ranges: their start, where they have one, and then their end, where they have one.
use super::lengths::joined_length;
use super::parts::write_two;
use super::puts::put_two;
use super::serialize::BorshSerialize;
use borsh_io::{Result, Write};
use std::alloc::Global;
use std::ops::{Range, RangeFrom, RangeInclusive, RangeTo, RangeToInclusive};

impl<T: BorshSerialize> BorshSerialize for Range<T> {
    #[inline]
    fn serialize<W: Write>(&self, alloc: Global, writer: &mut W) -> Result<()> {
        write_two(&self.start, &self.end, alloc, writer)
    }

    #[inline]
    fn put(&self, room: &mut [u8]) -> Option<usize> {
        put_two(&self.start, &self.end, room)
    }

    #[inline]
    fn encoded_length(&self) -> Option<u32> {
        joined_length(self.start.encoded_length(), self.end.encoded_length())
    }
}

impl<T: BorshSerialize> BorshSerialize for RangeInclusive<T> {
    #[inline]
    fn serialize<W: Write>(&self, alloc: Global, writer: &mut W) -> Result<()> {
        write_two(self.start(), self.end(), alloc, writer)
    }

    #[inline]
    fn put(&self, room: &mut [u8]) -> Option<usize> {
        put_two(self.start(), self.end(), room)
    }

    #[inline]
    fn encoded_length(&self) -> Option<u32> {
        joined_length(self.start().encoded_length(), self.end().encoded_length())
    }
}

impl<T: BorshSerialize> BorshSerialize for RangeFrom<T> {
    #[inline]
    fn serialize<W: Write>(&self, alloc: Global, writer: &mut W) -> Result<()> {
        self.start.serialize(alloc, writer)
    }

    #[inline]
    fn put(&self, room: &mut [u8]) -> Option<usize> {
        self.start.put(room)
    }

    #[inline]
    fn encoded_length(&self) -> Option<u32> {
        self.start.encoded_length()
    }
}

impl<T: BorshSerialize> BorshSerialize for RangeTo<T> {
    #[inline]
    fn serialize<W: Write>(&self, alloc: Global, writer: &mut W) -> Result<()> {
        self.end.serialize(alloc, writer)
    }

    #[inline]
    fn put(&self, room: &mut [u8]) -> Option<usize> {
        self.end.put(room)
    }

    #[inline]
    fn encoded_length(&self) -> Option<u32> {
        self.end.encoded_length()
    }
}

impl<T: BorshSerialize> BorshSerialize for RangeToInclusive<T> {
    #[inline]
    fn serialize<W: Write>(&self, alloc: Global, writer: &mut W) -> Result<()> {
        self.end.serialize(alloc, writer)
    }

    #[inline]
    fn put(&self, room: &mut [u8]) -> Option<usize> {
        self.end.put(room)
    }

    #[inline]
    fn encoded_length(&self) -> Option<u32> {
        self.end.encoded_length()
    }
}
