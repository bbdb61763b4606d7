// Values of types with one value: no bytes.
use super::serialize::BorshSerialize;
use borsh_io::{Result, Write};
use std::alloc::Global;
use std::marker::PhantomData;
use std::ops::RangeFull;

impl BorshSerialize for () {
    #[inline]
    fn serialize<W: Write>(&self, _alloc: Global, _writer: &mut W) -> Result<()> {
        Ok(())
    }

    #[inline]
    fn put(&self, _room: &mut [u8]) -> Option<usize> {
        Some(0)
    }

    #[inline]
    fn encoded_length(&self) -> Option<u32> {
        Some(0)
    }
}

impl BorshSerialize for RangeFull {
    #[inline]
    fn serialize<W: Write>(&self, _alloc: Global, _writer: &mut W) -> Result<()> {
        Ok(())
    }

    #[inline]
    fn put(&self, _room: &mut [u8]) -> Option<usize> {
        Some(0)
    }

    #[inline]
    fn encoded_length(&self) -> Option<u32> {
        Some(0)
    }
}

impl<T> BorshSerialize for PhantomData<T> {
    #[inline]
    fn serialize<W: Write>(&self, _alloc: Global, _writer: &mut W) -> Result<()> {
        Ok(())
    }

    #[inline]
    fn put(&self, _room: &mut [u8]) -> Option<usize> {
        Some(0)
    }

    #[inline]
    fn encoded_length(&self) -> Option<u32> {
        Some(0)
    }
}
