// Types of the crates `bytes` and `uuid`.
use super::lists::write_list;
use super::serialize::BorshSerialize;
use borsh_io::{Result, Write};
use bytes::{Bytes, BytesMut};
use std::alloc::Global;
use uuid::Uuid;

impl BorshSerialize for Bytes {
    #[inline]
    fn serialize<W: Write>(&self, alloc: Global, writer: &mut W) -> Result<()> {
        write_list(self.as_slice(), alloc, writer)
    }
}

impl BorshSerialize for BytesMut {
    #[inline]
    fn serialize<W: Write>(&self, alloc: Global, writer: &mut W) -> Result<()> {
        write_list(self.as_slice(), alloc, writer)
    }
}

impl BorshSerialize for Uuid {
    #[inline]
    fn serialize<W: Write>(&self, alloc: Global, writer: &mut W) -> Result<()> {
        self.as_bytes().serialize(alloc, writer)
    }

    #[inline]
    fn put(&self, room: &mut [u8]) -> Option<usize> {
        self.as_bytes().put(room)
    }

    #[inline]
    fn encoded_length(&self) -> Option<u32> {
        self.as_bytes().encoded_length()
    }
}
