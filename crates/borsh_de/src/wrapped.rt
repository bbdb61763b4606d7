// Types that are encoded as their parts.
use super::deserialize::BorshDeserialize;
use super::parts::{FromParts, read_parts};
use borsh_io::{Read, Result};
use std::alloc::Global;
use std::num::Wrapping;

impl<T: BorshDeserialize> FromParts for Wrapping<T> {
    type Parts = T;

    ghost view = { λ w. w.0 };

    #[inline]
    fn from_parts(parts: T) -> Wrapping<T> {
        Wrapping(parts)
    }
}

impl<T: BorshDeserialize> BorshDeserialize for Wrapping<T> {
    #[inline]
    fn deserialize_reader<R: Read>(alloc: Global, reader: &mut R) -> Result<Wrapping<T>> {
        read_parts(alloc, reader)
    }
}
