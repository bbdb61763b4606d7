// Whole numbers that are not zero: their number. Zero is refused with `InvalidData`, "Expected a
// non-zero value", once all of its bytes are read.
ghost use Rattle.std.specs.Int.NonZero.{non_zero_u8_get, non_zero_u16_get, non_zero_u32_get};
ghost use Rattle.std.specs.Int.NonZero.{non_zero_u64_get, non_zero_u128_get, non_zero_usize_get};
ghost use Rattle.std.specs.Int.NonZero.{non_zero_i8_get, non_zero_i16_get, non_zero_i32_get};
ghost use Rattle.std.specs.Int.NonZero.{non_zero_i64_get, non_zero_i128_get};

use super::deserialize::BorshDeserialize;
use super::parts::{TryFromParts, read_checked};
use super::refusals::ERROR_INVALID_ZERO_VALUE;
use borsh_io::{Read, Result};
use std::alloc::Global;
use std::num::{
    NonZeroI8, NonZeroI16, NonZeroI32, NonZeroI64, NonZeroI128, NonZeroU8, NonZeroU16, NonZeroU32,
    NonZeroU64, NonZeroU128, NonZeroUsize,
};

impl TryFromParts for NonZeroU8 {
    type Parts = u8;

    ghost view = { non_zero_u8_get };

    #[inline]
    fn try_from_parts(number: u8) -> Option<NonZeroU8> {
        NonZeroU8::new(number)
    }

    fn refusal() -> &'static str {
        ERROR_INVALID_ZERO_VALUE
    }
}

impl BorshDeserialize for NonZeroU8 {
    #[inline]
    fn deserialize_reader<R: Read>(alloc: Global, reader: &mut R) -> Result<NonZeroU8> {
        read_checked(alloc, reader)
    }
}

impl TryFromParts for NonZeroU16 {
    type Parts = u16;

    ghost view = { non_zero_u16_get };

    #[inline]
    fn try_from_parts(number: u16) -> Option<NonZeroU16> {
        NonZeroU16::new(number)
    }

    fn refusal() -> &'static str {
        ERROR_INVALID_ZERO_VALUE
    }
}

impl BorshDeserialize for NonZeroU16 {
    #[inline]
    fn deserialize_reader<R: Read>(alloc: Global, reader: &mut R) -> Result<NonZeroU16> {
        read_checked(alloc, reader)
    }
}

impl TryFromParts for NonZeroU32 {
    type Parts = u32;

    ghost view = { non_zero_u32_get };

    #[inline]
    fn try_from_parts(number: u32) -> Option<NonZeroU32> {
        NonZeroU32::new(number)
    }

    fn refusal() -> &'static str {
        ERROR_INVALID_ZERO_VALUE
    }
}

impl BorshDeserialize for NonZeroU32 {
    #[inline]
    fn deserialize_reader<R: Read>(alloc: Global, reader: &mut R) -> Result<NonZeroU32> {
        read_checked(alloc, reader)
    }
}

impl TryFromParts for NonZeroU64 {
    type Parts = u64;

    ghost view = { non_zero_u64_get };

    #[inline]
    fn try_from_parts(number: u64) -> Option<NonZeroU64> {
        NonZeroU64::new(number)
    }

    fn refusal() -> &'static str {
        ERROR_INVALID_ZERO_VALUE
    }
}

impl BorshDeserialize for NonZeroU64 {
    #[inline]
    fn deserialize_reader<R: Read>(alloc: Global, reader: &mut R) -> Result<NonZeroU64> {
        read_checked(alloc, reader)
    }
}

impl TryFromParts for NonZeroU128 {
    type Parts = u128;

    ghost view = { non_zero_u128_get };

    #[inline]
    fn try_from_parts(number: u128) -> Option<NonZeroU128> {
        NonZeroU128::new(number)
    }

    fn refusal() -> &'static str {
        ERROR_INVALID_ZERO_VALUE
    }
}

impl BorshDeserialize for NonZeroU128 {
    #[inline]
    fn deserialize_reader<R: Read>(alloc: Global, reader: &mut R) -> Result<NonZeroU128> {
        read_checked(alloc, reader)
    }
}

impl TryFromParts for NonZeroUsize {
    type Parts = usize;

    ghost view = { non_zero_usize_get };

    #[inline]
    fn try_from_parts(number: usize) -> Option<NonZeroUsize> {
        NonZeroUsize::new(number)
    }

    fn refusal() -> &'static str {
        ERROR_INVALID_ZERO_VALUE
    }
}

impl BorshDeserialize for NonZeroUsize {
    #[inline]
    fn deserialize_reader<R: Read>(alloc: Global, reader: &mut R) -> Result<NonZeroUsize> {
        read_checked(alloc, reader)
    }
}

impl TryFromParts for NonZeroI8 {
    type Parts = i8;

    ghost view = { non_zero_i8_get };

    #[inline]
    fn try_from_parts(number: i8) -> Option<NonZeroI8> {
        NonZeroI8::new(number)
    }

    fn refusal() -> &'static str {
        ERROR_INVALID_ZERO_VALUE
    }
}

impl BorshDeserialize for NonZeroI8 {
    #[inline]
    fn deserialize_reader<R: Read>(alloc: Global, reader: &mut R) -> Result<NonZeroI8> {
        read_checked(alloc, reader)
    }
}

impl TryFromParts for NonZeroI16 {
    type Parts = i16;

    ghost view = { non_zero_i16_get };

    #[inline]
    fn try_from_parts(number: i16) -> Option<NonZeroI16> {
        NonZeroI16::new(number)
    }

    fn refusal() -> &'static str {
        ERROR_INVALID_ZERO_VALUE
    }
}

impl BorshDeserialize for NonZeroI16 {
    #[inline]
    fn deserialize_reader<R: Read>(alloc: Global, reader: &mut R) -> Result<NonZeroI16> {
        read_checked(alloc, reader)
    }
}

impl TryFromParts for NonZeroI32 {
    type Parts = i32;

    ghost view = { non_zero_i32_get };

    #[inline]
    fn try_from_parts(number: i32) -> Option<NonZeroI32> {
        NonZeroI32::new(number)
    }

    fn refusal() -> &'static str {
        ERROR_INVALID_ZERO_VALUE
    }
}

impl BorshDeserialize for NonZeroI32 {
    #[inline]
    fn deserialize_reader<R: Read>(alloc: Global, reader: &mut R) -> Result<NonZeroI32> {
        read_checked(alloc, reader)
    }
}

impl TryFromParts for NonZeroI64 {
    type Parts = i64;

    ghost view = { non_zero_i64_get };

    #[inline]
    fn try_from_parts(number: i64) -> Option<NonZeroI64> {
        NonZeroI64::new(number)
    }

    fn refusal() -> &'static str {
        ERROR_INVALID_ZERO_VALUE
    }
}

impl BorshDeserialize for NonZeroI64 {
    #[inline]
    fn deserialize_reader<R: Read>(alloc: Global, reader: &mut R) -> Result<NonZeroI64> {
        read_checked(alloc, reader)
    }
}

impl TryFromParts for NonZeroI128 {
    type Parts = i128;

    ghost view = { non_zero_i128_get };

    #[inline]
    fn try_from_parts(number: i128) -> Option<NonZeroI128> {
        NonZeroI128::new(number)
    }

    fn refusal() -> &'static str {
        ERROR_INVALID_ZERO_VALUE
    }
}

impl BorshDeserialize for NonZeroI128 {
    #[inline]
    fn deserialize_reader<R: Read>(alloc: Global, reader: &mut R) -> Result<NonZeroI128> {
        read_checked(alloc, reader)
    }
}
