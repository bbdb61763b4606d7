// Types that are encoded as their parts.
use super::serialize::BorshSerialize;
use borsh_io::{Result, Write};
use std::alloc::Global;
use std::num::Wrapping;

impl<T: BorshSerialize> BorshSerialize for Wrapping<T> {
    #[inline]
    fn serialize<W: Write>(&self, alloc: Global, writer: &mut W) -> Result<()> {
        self.0.serialize(alloc, writer)
    }

    #[inline]
    fn put(&self, room: &mut [u8]) -> Option<usize> {
        self.0.put(room)
    }

    #[inline]
    fn encoded_length(&self) -> Option<u32> {
        self.0.encoded_length()
    }
}
