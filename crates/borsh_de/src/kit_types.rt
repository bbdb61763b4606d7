// Types of the crates `bytes` and `uuid`.
use super::deserialize::BorshDeserialize;
use super::lists::read_list;
use super::raw_bytes::read_octets;
use borsh_io::{Read, Result};
use bytes::{Bytes, BytesMut};
use std::alloc::Global;
use uuid::Uuid;

impl BorshDeserialize for Bytes {
    #[inline]
    fn deserialize_reader<R: Read>(alloc: Global, reader: &mut R) -> Result<Bytes> {
        Ok(Bytes::from_vec(read_list(alloc, reader)?)?)
    }
}

impl BorshDeserialize for BytesMut {
    #[inline]
    fn deserialize_reader<R: Read>(alloc: Global, reader: &mut R) -> Result<BytesMut> {
        Ok(BytesMut::from_vec(read_list(alloc, reader)?))
    }
}

impl BorshDeserialize for Uuid {
    #[inline]
    fn deserialize_reader<R: Read>(_alloc: Global, reader: &mut R) -> Result<Uuid> {
        Ok(Uuid::from_bytes(read_octets(reader)?))
    }

    #[inline]
    fn width() -> usize {
        16
    }
}
