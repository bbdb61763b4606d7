// Values that are one of several kinds: a tag, one byte, and a part.
use super::lengths::{bytes_length, tagged_length};
use super::parts::write_tagged;
use super::puts::{put_bytes, put_tagged};
use super::raw_bytes::write_bytes;
use super::serialize::BorshSerialize;
use borsh_io::{Result, Write};
use std::alloc::Global;

impl BorshSerialize for bool {
    #[inline]
    fn serialize<W: Write>(&self, _alloc: Global, writer: &mut W) -> Result<()> {
        write_bytes(&[u8::from(*self)], writer)
    }

    #[inline]
    fn put(&self, room: &mut [u8]) -> Option<usize> {
        put_bytes(&[u8::from(*self)], room)
    }

    #[inline]
    fn encoded_length(&self) -> Option<u32> {
        bytes_length(&[u8::from(*self)])
    }
}

impl<T: BorshSerialize> BorshSerialize for Option<T> {
    #[inline]
    fn serialize<W: Write>(&self, alloc: Global, writer: &mut W) -> Result<()> {
        match self {
            None => write_bytes(&[0], writer),
            Some(value) => {
                write_bytes(&[1], writer)?;
                value.serialize(alloc, writer)
            }
        }
    }

    #[inline]
    fn put(&self, room: &mut [u8]) -> Option<usize> {
        match self {
            None => put_bytes(&[0], room),
            Some(value) => put_tagged(1, value, room),
        }
    }

    #[inline]
    fn encoded_length(&self) -> Option<u32> {
        match self {
            None => bytes_length(&[0]),
            Some(value) => tagged_length(1, value),
        }
    }
}

impl<T: BorshSerialize, E: BorshSerialize> BorshSerialize for std::result::Result<T, E> {
    #[inline]
    fn serialize<W: Write>(&self, alloc: Global, writer: &mut W) -> Result<()> {
        match self {
            Err(error) => write_tagged(0, error, alloc, writer),
            Ok(value) => write_tagged(1, value, alloc, writer),
        }
    }

    #[inline]
    fn put(&self, room: &mut [u8]) -> Option<usize> {
        match self {
            Err(error) => put_tagged(0, error, room),
            Ok(value) => put_tagged(1, value, room),
        }
    }

    #[inline]
    fn encoded_length(&self) -> Option<u32> {
        match self {
            Err(error) => tagged_length(0, error),
            Ok(value) => tagged_length(1, value),
        }
    }
}
