// Pointers, which are written as what they point to.
use super::serialize::BorshSerialize;
use borsh_io::{Result, Write};
use std::alloc::Global;
use std::borrow::Cow;
use std::rc::Rc;
use std::sync::Arc;

impl<T: BorshSerialize> BorshSerialize for &T {
    #[inline]
    fn serialize<W: Write>(&self, alloc: Global, writer: &mut W) -> Result<()> {
        T::serialize(*self, alloc, writer)
    }

    #[inline]
    fn put(&self, room: &mut [u8]) -> Option<usize> {
        T::put(*self, room)
    }

    #[inline]
    fn encoded_length(&self) -> Option<u32> {
        T::encoded_length(*self)
    }
}

impl<T: BorshSerialize> BorshSerialize for Box<T> {
    #[inline]
    fn serialize<W: Write>(&self, alloc: Global, writer: &mut W) -> Result<()> {
        self.as_ref().serialize(alloc, writer)
    }

    #[inline]
    fn put(&self, room: &mut [u8]) -> Option<usize> {
        self.as_ref().put(room)
    }

    #[inline]
    fn encoded_length(&self) -> Option<u32> {
        self.as_ref().encoded_length()
    }
}

impl<T: BorshSerialize> BorshSerialize for Rc<T> {
    #[inline]
    fn serialize<W: Write>(&self, alloc: Global, writer: &mut W) -> Result<()> {
        self.as_ref().serialize(alloc, writer)
    }

    #[inline]
    fn put(&self, room: &mut [u8]) -> Option<usize> {
        self.as_ref().put(room)
    }

    #[inline]
    fn encoded_length(&self) -> Option<u32> {
        self.as_ref().encoded_length()
    }
}

impl<T: BorshSerialize> BorshSerialize for Arc<T> {
    #[inline]
    fn serialize<W: Write>(&self, alloc: Global, writer: &mut W) -> Result<()> {
        self.as_ref().serialize(alloc, writer)
    }

    #[inline]
    fn put(&self, room: &mut [u8]) -> Option<usize> {
        self.as_ref().put(room)
    }

    #[inline]
    fn encoded_length(&self) -> Option<u32> {
        self.as_ref().encoded_length()
    }
}

impl<T: BorshSerialize> BorshSerialize for Cow<'_, T> {
    #[inline]
    fn serialize<W: Write>(&self, alloc: Global, writer: &mut W) -> Result<()> {
        self.as_ref().serialize(alloc, writer)
    }

    #[inline]
    fn put(&self, room: &mut [u8]) -> Option<usize> {
        self.as_ref().put(room)
    }

    #[inline]
    fn encoded_length(&self) -> Option<u32> {
        self.as_ref().encoded_length()
    }
}
