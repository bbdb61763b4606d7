// Floating-point numbers: the bytes of their bits, the lowest first.
use super::deserialize::BorshDeserialize;
use super::refusals::{ERROR_NAN_NOT_DESERIALIZED, refused};
use borsh_io::{Read, Result};
use std::alloc::Global;

impl BorshDeserialize for f32 {
    #[inline]
    fn deserialize_reader<R: Read>(alloc: Global, reader: &mut R) -> Result<f32> {
        let bits = u32::deserialize_reader(alloc, reader)?;
        // But for the sign's bit, a NaN's bits are above those of infinity.
        if 0x7f80_0000 < bits % 0x8000_0000 {
            return Err(refused(ERROR_NAN_NOT_DESERIALIZED));
        }
        Ok(f32::from_bits(bits))
    }
}

impl BorshDeserialize for f64 {
    #[inline]
    fn deserialize_reader<R: Read>(alloc: Global, reader: &mut R) -> Result<f64> {
        let bits = u64::deserialize_reader(alloc, reader)?;
        // But for the sign's bit, a NaN's bits are above those of infinity.
        if 0x7ff0_0000_0000_0000 < bits % 0x8000_0000_0000_0000 {
            return Err(refused(ERROR_NAN_NOT_DESERIALIZED));
        }
        Ok(f64::from_bits(bits))
    }
}
