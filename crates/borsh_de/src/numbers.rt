// Whole numbers, the lowest byte first, and with a sign in two's complement. A `usize` is read as a
// `u64`, and an `isize` as an `i64`.
ghost use Rattle.std.specs.Prelude.{◌≡◌, true, Some, IfOk, IfSome, IsSome};
ghost use Rattle.borsh_codec.specs.Shapes.{unsigned_encoding, signed_encoding, unsigned};
ghost use Rattle.borsh_codec.specs.Reading.{DecodesAtOnce};
ghost use Rattle.borsh_de.specs.FixedWidth.{DecodesOver};
ghost use Rattle.borsh_de.specs.Numbers.{TakesNumber};

use super::deserialize::BorshDeserialize;
use super::raw_bytes::{fill, read_bytes, read_vec};
use borsh_io::{Read, Result};
use std::alloc::Global;

/// The bytes of a number. The errors are those of [`read_bytes`].
#[inline]
fn number_bytes<R: Read, const N: usize>(reader: &mut R) -> Result<[u8; N]>
    ensures { TakesNumber N R.stream reader.old reader.new result }
{
    read_bytes(reader)
}

#[inline]
fn u8_of(bytes: [u8; 1]) -> u8
    ensures { unsigned_encoding 1 result ≡ Some bytes }
{
    u8::from_le_bytes(bytes)
}

#[inline]
fn u16_of(bytes: [u8; 2]) -> u16
    ensures { unsigned_encoding 2 result ≡ Some bytes }
{
    u16::from_le_bytes(bytes)
}

#[inline]
fn u32_of(bytes: [u8; 4]) -> u32
    ensures { unsigned_encoding 4 result ≡ Some bytes }
{
    u32::from_le_bytes(bytes)
}

#[inline]
fn u64_of(bytes: [u8; 8]) -> u64
    ensures { unsigned_encoding 8 result ≡ Some bytes }
{
    u64::from_le_bytes(bytes)
}

#[inline]
fn u128_of(bytes: [u8; 16]) -> u128
    ensures { unsigned_encoding 16 result ≡ Some bytes }
{
    u128::from_le_bytes(bytes)
}

#[inline]
fn i8_of(bytes: [u8; 1]) -> i8
    ensures { signed_encoding 1 result ≡ Some bytes }
{
    u8_of(bytes).cast_signed()
}

#[inline]
fn i16_of(bytes: [u8; 2]) -> i16
    ensures { signed_encoding 2 result ≡ Some bytes }
{
    u16_of(bytes).cast_signed()
}

#[inline]
fn i32_of(bytes: [u8; 4]) -> i32
    ensures { signed_encoding 4 result ≡ Some bytes }
{
    u32_of(bytes).cast_signed()
}

#[inline]
fn i64_of(bytes: [u8; 8]) -> i64
    ensures { signed_encoding 8 result ≡ Some bytes }
{
    u64_of(bytes).cast_signed()
}

#[inline]
fn i128_of(bytes: [u8; 16]) -> i128
    ensures { signed_encoding 16 result ≡ Some bytes }
{
    u128_of(bytes).cast_signed()
}

impl BorshDeserialize for u8 {
    ghost reads_at_once = { true };

    #[inline]
    fn deserialize_reader<R: Read>(_alloc: Global, reader: &mut R) -> Result<u8> {
        Ok(u8_of(number_bytes(reader)?))
    }

    /// The bytes, always.
    #[inline(always)]
    fn vec_from_reader<R: Read>(alloc: Global, len: u32, reader: &mut R) -> Result<Option<Vec<u8>>>
        ensures outcome { DecodesAtOnce len (unsigned 1) R.stream reader.old reader.new result }
        ensures some { IfOk result IsSome }
    {
        Ok(Some(read_vec(alloc, len as usize, reader)?))
    }

    /// The bytes, always.
    #[inline(always)]
    fn read_slice<R: Read>(items: &mut [u8], reader: &mut R) -> Option<Result<()>>
        ensures outcome { IfSome result (DecodesOver (unsigned 1) R.stream reader.old reader.new
            items.old items.new) }
        ensures some { IsSome result }
    {
        Some(fill(reader, items))
    }

    #[inline]
    fn width() -> usize {
        1
    }
}

impl BorshDeserialize for u16 {
    #[inline]
    fn deserialize_reader<R: Read>(_alloc: Global, reader: &mut R) -> Result<u16> {
        Ok(u16_of(number_bytes(reader)?))
    }

    #[inline]
    fn width() -> usize {
        2
    }
}

impl BorshDeserialize for u32 {
    #[inline]
    fn deserialize_reader<R: Read>(_alloc: Global, reader: &mut R) -> Result<u32> {
        Ok(u32_of(number_bytes(reader)?))
    }

    #[inline]
    fn width() -> usize {
        4
    }
}

impl BorshDeserialize for u64 {
    #[inline]
    fn deserialize_reader<R: Read>(_alloc: Global, reader: &mut R) -> Result<u64> {
        Ok(u64_of(number_bytes(reader)?))
    }

    #[inline]
    fn width() -> usize {
        8
    }
}

impl BorshDeserialize for u128 {
    #[inline]
    fn deserialize_reader<R: Read>(_alloc: Global, reader: &mut R) -> Result<u128> {
        Ok(u128_of(number_bytes(reader)?))
    }

    #[inline]
    fn width() -> usize {
        16
    }
}

impl BorshDeserialize for usize {
    #[inline]
    fn deserialize_reader<R: Read>(_alloc: Global, reader: &mut R) -> Result<usize> {
        Ok(u64_of(number_bytes(reader)?) as usize)
    }

    #[inline]
    fn width() -> usize {
        8
    }
}

impl BorshDeserialize for i8 {
    #[inline]
    fn deserialize_reader<R: Read>(_alloc: Global, reader: &mut R) -> Result<i8> {
        Ok(i8_of(number_bytes(reader)?))
    }

    #[inline]
    fn width() -> usize {
        1
    }
}

impl BorshDeserialize for i16 {
    #[inline]
    fn deserialize_reader<R: Read>(_alloc: Global, reader: &mut R) -> Result<i16> {
        Ok(i16_of(number_bytes(reader)?))
    }

    #[inline]
    fn width() -> usize {
        2
    }
}

impl BorshDeserialize for i32 {
    #[inline]
    fn deserialize_reader<R: Read>(_alloc: Global, reader: &mut R) -> Result<i32> {
        Ok(i32_of(number_bytes(reader)?))
    }

    #[inline]
    fn width() -> usize {
        4
    }
}

impl BorshDeserialize for i64 {
    #[inline]
    fn deserialize_reader<R: Read>(_alloc: Global, reader: &mut R) -> Result<i64> {
        Ok(i64_of(number_bytes(reader)?))
    }

    #[inline]
    fn width() -> usize {
        8
    }
}

impl BorshDeserialize for i128 {
    #[inline]
    fn deserialize_reader<R: Read>(_alloc: Global, reader: &mut R) -> Result<i128> {
        Ok(i128_of(number_bytes(reader)?))
    }

    #[inline]
    fn width() -> usize {
        16
    }
}

impl BorshDeserialize for isize {
    #[inline]
    fn deserialize_reader<R: Read>(_alloc: Global, reader: &mut R) -> Result<isize> {
        Ok(i64_of(number_bytes(reader)?) as isize)
    }

    #[inline]
    fn width() -> usize {
        8
    }
}
