// Values of types with one value: no bytes.
use super::deserialize::BorshDeserialize;
use borsh_io::{Read, Result};
use std::alloc::Global;
use std::marker::PhantomData;
use std::ops::RangeFull;

impl BorshDeserialize for () {
    #[inline]
    fn deserialize_reader<R: Read>(_alloc: Global, _reader: &mut R) -> Result<()> {
        Ok(())
    }
}

impl BorshDeserialize for RangeFull {
    #[inline]
    fn deserialize_reader<R: Read>(_alloc: Global, _reader: &mut R) -> Result<RangeFull> {
        Ok(..)
    }
}

impl<T> BorshDeserialize for PhantomData<T> {
    #[inline]
    fn deserialize_reader<R: Read>(_alloc: Global, _reader: &mut R) -> Result<PhantomData<T>> {
        Ok(PhantomData)
    }
}
