// Values that are one of several kinds: a tag, one byte, and a part.
use super::deserialize::BorshDeserialize;
use super::raw_bytes::read_tag;
use super::refusals::invalid_data;
use borsh_io::{Read, Result};
use std::alloc::Global;

impl BorshDeserialize for bool {
    #[inline]
    fn deserialize_reader<R: Read>(alloc: Global, reader: &mut R) -> Result<bool> {
        match read_tag(reader)? {
            0 => Ok(false),
            1 => Ok(true),
            tag => Err(invalid_data(format!(in alloc; "Invalid bool representation: {tag}"))),
        }
    }
}

impl<T: BorshDeserialize> BorshDeserialize for Option<T> {
    #[inline]
    fn deserialize_reader<R: Read>(alloc: Global, reader: &mut R) -> Result<Option<T>> {
        match read_tag(reader)? {
            0 => Ok(None),
            1 => Ok(Some(T::deserialize_reader(alloc, reader)?)),
            tag => Err(invalid_data(format!(in alloc;
                "Invalid Option representation: {tag}. The first byte must be 0 or 1"
            ))),
        }
    }
}

impl<T: BorshDeserialize, E: BorshDeserialize> BorshDeserialize for std::result::Result<T, E> {
    #[inline]
    fn deserialize_reader<R: Read>(
        alloc: Global,
        reader: &mut R,
    ) -> Result<std::result::Result<T, E>> {
        match read_tag(reader)? {
            0 => Ok(Err(E::deserialize_reader(alloc, reader)?)),
            1 => Ok(Ok(T::deserialize_reader(alloc, reader)?)),
            tag => Err(invalid_data(format!(in alloc;
                "Invalid Result representation: {tag}. The first byte must be 0 or 1"
            ))),
        }
    }
}
