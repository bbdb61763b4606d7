// Whole numbers that are not zero: their number.
use super::lengths::bytes_length;
use super::numbers::{
    bytes_of_i8, bytes_of_i16, bytes_of_i32, bytes_of_i64, bytes_of_i128, bytes_of_u8,
    bytes_of_u16, bytes_of_u32, bytes_of_u64, bytes_of_u128, put_i128, put_u128,
};
use super::puts::put_bytes;
use super::raw_bytes::write_bytes;
use super::serialize::BorshSerialize;
use borsh_io::{Result, Write};
use std::alloc::Global;
use std::num::{
    NonZeroI8, NonZeroI16, NonZeroI32, NonZeroI64, NonZeroI128, NonZeroU8, NonZeroU16, NonZeroU32,
    NonZeroU64, NonZeroU128, NonZeroUsize,
};

impl BorshSerialize for NonZeroU8 {
    #[inline]
    fn serialize<W: Write>(&self, _alloc: Global, writer: &mut W) -> Result<()> {
        write_bytes(&bytes_of_u8(self.get()), writer)
    }

    #[inline]
    fn put(&self, room: &mut [u8]) -> Option<usize> {
        put_bytes(&bytes_of_u8(self.get()), room)
    }

    #[inline]
    fn encoded_length(&self) -> Option<u32> {
        bytes_length(&bytes_of_u8(self.get()))
    }
}

impl BorshSerialize for NonZeroU16 {
    #[inline]
    fn serialize<W: Write>(&self, _alloc: Global, writer: &mut W) -> Result<()> {
        write_bytes(&bytes_of_u16(self.get()), writer)
    }

    #[inline]
    fn put(&self, room: &mut [u8]) -> Option<usize> {
        put_bytes(&bytes_of_u16(self.get()), room)
    }

    #[inline]
    fn encoded_length(&self) -> Option<u32> {
        bytes_length(&bytes_of_u16(self.get()))
    }
}

impl BorshSerialize for NonZeroU32 {
    #[inline]
    fn serialize<W: Write>(&self, _alloc: Global, writer: &mut W) -> Result<()> {
        write_bytes(&bytes_of_u32(self.get()), writer)
    }

    #[inline]
    fn put(&self, room: &mut [u8]) -> Option<usize> {
        put_bytes(&bytes_of_u32(self.get()), room)
    }

    #[inline]
    fn encoded_length(&self) -> Option<u32> {
        bytes_length(&bytes_of_u32(self.get()))
    }
}

impl BorshSerialize for NonZeroU64 {
    #[inline]
    fn serialize<W: Write>(&self, _alloc: Global, writer: &mut W) -> Result<()> {
        write_bytes(&bytes_of_u64(self.get()), writer)
    }

    #[inline]
    fn put(&self, room: &mut [u8]) -> Option<usize> {
        put_bytes(&bytes_of_u64(self.get()), room)
    }

    #[inline]
    fn encoded_length(&self) -> Option<u32> {
        bytes_length(&bytes_of_u64(self.get()))
    }
}

impl BorshSerialize for NonZeroU128 {
    #[inline]
    fn serialize<W: Write>(&self, _alloc: Global, writer: &mut W) -> Result<()> {
        write_bytes(&bytes_of_u128(self.get()), writer)
    }

    #[inline]
    fn put(&self, room: &mut [u8]) -> Option<usize> {
        put_u128(self.get(), room)
    }

    #[inline]
    fn encoded_length(&self) -> Option<u32> {
        bytes_length(&bytes_of_u128(self.get()))
    }
}

impl BorshSerialize for NonZeroUsize {
    #[inline]
    fn serialize<W: Write>(&self, _alloc: Global, writer: &mut W) -> Result<()> {
        write_bytes(&bytes_of_u64(self.get() as u64), writer)
    }

    #[inline]
    fn put(&self, room: &mut [u8]) -> Option<usize> {
        put_bytes(&bytes_of_u64(self.get() as u64), room)
    }

    #[inline]
    fn encoded_length(&self) -> Option<u32> {
        bytes_length(&bytes_of_u64(self.get() as u64))
    }
}

impl BorshSerialize for NonZeroI8 {
    #[inline]
    fn serialize<W: Write>(&self, _alloc: Global, writer: &mut W) -> Result<()> {
        write_bytes(&bytes_of_i8(self.get()), writer)
    }

    #[inline]
    fn put(&self, room: &mut [u8]) -> Option<usize> {
        put_bytes(&bytes_of_i8(self.get()), room)
    }

    #[inline]
    fn encoded_length(&self) -> Option<u32> {
        bytes_length(&bytes_of_i8(self.get()))
    }
}

impl BorshSerialize for NonZeroI16 {
    #[inline]
    fn serialize<W: Write>(&self, _alloc: Global, writer: &mut W) -> Result<()> {
        write_bytes(&bytes_of_i16(self.get()), writer)
    }

    #[inline]
    fn put(&self, room: &mut [u8]) -> Option<usize> {
        put_bytes(&bytes_of_i16(self.get()), room)
    }

    #[inline]
    fn encoded_length(&self) -> Option<u32> {
        bytes_length(&bytes_of_i16(self.get()))
    }
}

impl BorshSerialize for NonZeroI32 {
    #[inline]
    fn serialize<W: Write>(&self, _alloc: Global, writer: &mut W) -> Result<()> {
        write_bytes(&bytes_of_i32(self.get()), writer)
    }

    #[inline]
    fn put(&self, room: &mut [u8]) -> Option<usize> {
        put_bytes(&bytes_of_i32(self.get()), room)
    }

    #[inline]
    fn encoded_length(&self) -> Option<u32> {
        bytes_length(&bytes_of_i32(self.get()))
    }
}

impl BorshSerialize for NonZeroI64 {
    #[inline]
    fn serialize<W: Write>(&self, _alloc: Global, writer: &mut W) -> Result<()> {
        write_bytes(&bytes_of_i64(self.get()), writer)
    }

    #[inline]
    fn put(&self, room: &mut [u8]) -> Option<usize> {
        put_bytes(&bytes_of_i64(self.get()), room)
    }

    #[inline]
    fn encoded_length(&self) -> Option<u32> {
        bytes_length(&bytes_of_i64(self.get()))
    }
}

impl BorshSerialize for NonZeroI128 {
    #[inline]
    fn serialize<W: Write>(&self, _alloc: Global, writer: &mut W) -> Result<()> {
        write_bytes(&bytes_of_i128(self.get()), writer)
    }

    #[inline]
    fn put(&self, room: &mut [u8]) -> Option<usize> {
        put_i128(self.get(), room)
    }

    #[inline]
    fn encoded_length(&self) -> Option<u32> {
        bytes_length(&bytes_of_i128(self.get()))
    }
}
