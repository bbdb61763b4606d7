// Whole numbers, the lowest byte first, and with a sign in two's complement. A `usize` is
// written as a `u64`, and an `isize` as an `i64`.
ghost use Rattle.std.specs.Prelude.{◌≡◌, true, Some, IsSomeAnd};
ghost use Rattle.borsh_codec.specs.Shapes.{
  append_encodings,
  concat_encodings,
  signed_encoding,
  unsigned_encoding,
};
ghost use Rattle.borsh_codec.specs.Writing.{Puts};

use super::lengths::bytes_length;
use super::puts::{put_bytes, put_two};
use super::raw_bytes::write_bytes;
use super::serialize::BorshSerialize;
use borsh_io::{Result, Write};
use std::alloc::Global;

#[inline]
#[tactic(auto, using(borsh_codec::proofs::NumberBytes::byte_of))]
pub(crate) fn bytes_of_u8(n: u8) -> [u8; 1]
    ensures { unsigned_encoding 1 n ≡ Some result }
{
    [n]
}

#[inline]
#[tactic(auto, using(borsh_codec::proofs::NumberBytes::bytes_of))]
pub(crate) fn bytes_of_u16(n: u16) -> [u8; 2]
    ensures { unsigned_encoding 2 n ≡ Some result }
{
    n.to_le_bytes()
}

#[inline]
pub(crate) fn bytes_of_u32(n: u32) -> [u8; 4]
    ensures { unsigned_encoding 4 n ≡ Some result }
{
    n.to_le_bytes()
}

#[inline]
pub(crate) fn bytes_of_u64(n: u64) -> [u8; 8]
    ensures { unsigned_encoding 8 n ≡ Some result }
{
    n.to_le_bytes()
}

#[inline]
pub(crate) fn bytes_of_u128(n: u128) -> [u8; 16]
    ensures { unsigned_encoding 16 n ≡ Some result }
{
    n.to_le_bytes()
}

#[inline]
pub(crate) fn bytes_of_i8(n: i8) -> [u8; 1]
    ensures { signed_encoding 1 n ≡ Some result }
{
    bytes_of_u8(n.cast_unsigned())
}

#[inline]
pub(crate) fn bytes_of_i16(n: i16) -> [u8; 2]
    ensures { signed_encoding 2 n ≡ Some result }
{
    bytes_of_u16(n.cast_unsigned())
}

#[inline]
pub(crate) fn bytes_of_i32(n: i32) -> [u8; 4]
    ensures { signed_encoding 4 n ≡ Some result }
{
    bytes_of_u32(n.cast_unsigned())
}

#[inline]
pub(crate) fn bytes_of_i64(n: i64) -> [u8; 8]
    ensures { signed_encoding 8 n ≡ Some result }
{
    bytes_of_u64(n.cast_unsigned())
}

#[inline]
pub(crate) fn bytes_of_i128(n: i128) -> [u8; 16]
    ensures { signed_encoding 16 n ≡ Some result }
{
    bytes_of_u128(n.cast_unsigned())
}

/// The low and the high half.
#[inline]
fn halves_of_u128(n: u128) -> (u64, u64)
    ensures { append_encodings (unsigned_encoding 8 result.0) (unsigned_encoding 8 result.1)
        ≡ unsigned_encoding 16 n }
{
    (
        (n % 18446744073709551616) as u64,
        (n / 18446744073709551616) as u64,
    )
}

/// Puts the halves one after the other: LLVM makes one store of each, but not of sixteen bytes.
#[inline]
pub(crate) fn put_u128(n: u128, room: &mut [u8]) -> Option<usize>
    ensures { Puts (unsigned_encoding 16 n) room.old room.new result }
{
    let (low, high) = halves_of_u128(n);
    put_two(&low, &high, room)
}

/// Puts the number as `put_u128` does.
#[inline]
pub(crate) fn put_i128(n: i128, room: &mut [u8]) -> Option<usize>
    ensures { Puts (signed_encoding 16 n) room.old room.new result }
{
    put_u128(n.cast_unsigned(), room)
}

impl BorshSerialize for u8 {
    ghost lies_encoded = { true };

    #[inline]
    fn serialize<W: Write>(&self, _alloc: Global, writer: &mut W) -> Result<()> {
        write_bytes(&bytes_of_u8(*self), writer)
    }

    #[inline]
    fn put(&self, room: &mut [u8]) -> Option<usize> {
        put_bytes(&bytes_of_u8(*self), room)
    }

    #[inline]
    fn encoded_length(&self) -> Option<u32> {
        bytes_length(&bytes_of_u8(*self))
    }

    /// The bytes themselves, always.
    #[inline]
    fn u8_slice(slice: &[u8]) -> Option<&[u8]>
        ensures { IsSomeAnd result (λ bytes.
            concat_encodings (unsigned_encoding 1) slice.now ≡ Some bytes.now) }
    {
        Some(slice)
    }
}

impl BorshSerialize for u16 {
    #[inline]
    fn serialize<W: Write>(&self, _alloc: Global, writer: &mut W) -> Result<()> {
        write_bytes(&bytes_of_u16(*self), writer)
    }

    #[inline]
    fn put(&self, room: &mut [u8]) -> Option<usize> {
        put_bytes(&bytes_of_u16(*self), room)
    }

    #[inline]
    fn encoded_length(&self) -> Option<u32> {
        bytes_length(&bytes_of_u16(*self))
    }
}

impl BorshSerialize for u32 {
    #[inline]
    fn serialize<W: Write>(&self, _alloc: Global, writer: &mut W) -> Result<()> {
        write_bytes(&bytes_of_u32(*self), writer)
    }

    #[inline]
    fn put(&self, room: &mut [u8]) -> Option<usize> {
        put_bytes(&bytes_of_u32(*self), room)
    }

    #[inline]
    fn encoded_length(&self) -> Option<u32> {
        bytes_length(&bytes_of_u32(*self))
    }
}

impl BorshSerialize for u64 {
    #[inline]
    fn serialize<W: Write>(&self, _alloc: Global, writer: &mut W) -> Result<()> {
        write_bytes(&bytes_of_u64(*self), writer)
    }

    #[inline]
    fn put(&self, room: &mut [u8]) -> Option<usize> {
        put_bytes(&bytes_of_u64(*self), room)
    }

    #[inline]
    fn encoded_length(&self) -> Option<u32> {
        bytes_length(&bytes_of_u64(*self))
    }
}

impl BorshSerialize for u128 {
    #[inline]
    fn serialize<W: Write>(&self, _alloc: Global, writer: &mut W) -> Result<()> {
        write_bytes(&bytes_of_u128(*self), writer)
    }

    #[inline]
    fn put(&self, room: &mut [u8]) -> Option<usize> {
        put_u128(*self, room)
    }

    #[inline]
    fn encoded_length(&self) -> Option<u32> {
        bytes_length(&bytes_of_u128(*self))
    }
}

impl BorshSerialize for usize {
    #[inline]
    fn serialize<W: Write>(&self, _alloc: Global, writer: &mut W) -> Result<()> {
        write_bytes(&bytes_of_u64(*self as u64), writer)
    }

    #[inline]
    fn put(&self, room: &mut [u8]) -> Option<usize> {
        put_bytes(&bytes_of_u64(*self as u64), room)
    }

    #[inline]
    fn encoded_length(&self) -> Option<u32> {
        bytes_length(&bytes_of_u64(*self as u64))
    }
}

impl BorshSerialize for i8 {
    #[inline]
    fn serialize<W: Write>(&self, _alloc: Global, writer: &mut W) -> Result<()> {
        write_bytes(&bytes_of_i8(*self), writer)
    }

    #[inline]
    fn put(&self, room: &mut [u8]) -> Option<usize> {
        put_bytes(&bytes_of_i8(*self), room)
    }

    #[inline]
    fn encoded_length(&self) -> Option<u32> {
        bytes_length(&bytes_of_i8(*self))
    }
}

impl BorshSerialize for i16 {
    #[inline]
    fn serialize<W: Write>(&self, _alloc: Global, writer: &mut W) -> Result<()> {
        write_bytes(&bytes_of_i16(*self), writer)
    }

    #[inline]
    fn put(&self, room: &mut [u8]) -> Option<usize> {
        put_bytes(&bytes_of_i16(*self), room)
    }

    #[inline]
    fn encoded_length(&self) -> Option<u32> {
        bytes_length(&bytes_of_i16(*self))
    }
}

impl BorshSerialize for i32 {
    #[inline]
    fn serialize<W: Write>(&self, _alloc: Global, writer: &mut W) -> Result<()> {
        write_bytes(&bytes_of_i32(*self), writer)
    }

    #[inline]
    fn put(&self, room: &mut [u8]) -> Option<usize> {
        put_bytes(&bytes_of_i32(*self), room)
    }

    #[inline]
    fn encoded_length(&self) -> Option<u32> {
        bytes_length(&bytes_of_i32(*self))
    }
}

impl BorshSerialize for i64 {
    #[inline]
    fn serialize<W: Write>(&self, _alloc: Global, writer: &mut W) -> Result<()> {
        write_bytes(&bytes_of_i64(*self), writer)
    }

    #[inline]
    fn put(&self, room: &mut [u8]) -> Option<usize> {
        put_bytes(&bytes_of_i64(*self), room)
    }

    #[inline]
    fn encoded_length(&self) -> Option<u32> {
        bytes_length(&bytes_of_i64(*self))
    }
}

impl BorshSerialize for i128 {
    #[inline]
    fn serialize<W: Write>(&self, _alloc: Global, writer: &mut W) -> Result<()> {
        write_bytes(&bytes_of_i128(*self), writer)
    }

    #[inline]
    fn put(&self, room: &mut [u8]) -> Option<usize> {
        put_i128(*self, room)
    }

    #[inline]
    fn encoded_length(&self) -> Option<u32> {
        bytes_length(&bytes_of_i128(*self))
    }
}

impl BorshSerialize for isize {
    #[inline]
    fn serialize<W: Write>(&self, _alloc: Global, writer: &mut W) -> Result<()> {
        write_bytes(&bytes_of_i64(*self as i64), writer)
    }

    #[inline]
    fn put(&self, room: &mut [u8]) -> Option<usize> {
        put_bytes(&bytes_of_i64(*self as i64), room)
    }

    #[inline]
    fn encoded_length(&self) -> Option<u32> {
        bytes_length(&bytes_of_i64(*self as i64))
    }
}
