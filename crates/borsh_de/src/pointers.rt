// Pointers, which are read as what they point to.
use super::deserialize::BorshDeserialize;
use borsh_io::{Read, Result};
use std::alloc::Global;
use std::borrow::Cow;
use std::rc::Rc;
use std::sync::Arc;

impl<T: BorshDeserialize> BorshDeserialize for Box<T> {
    #[inline]
    fn deserialize_reader<R: Read>(alloc: Global, reader: &mut R) -> Result<Box<T>> {
        let value = T::deserialize_reader(alloc, reader)?;
        Ok(Box::new(alloc, value)?)
    }
}

impl<T: BorshDeserialize> BorshDeserialize for Rc<T> {
    #[inline]
    fn deserialize_reader<R: Read>(alloc: Global, reader: &mut R) -> Result<Rc<T>> {
        let value = T::deserialize_reader(alloc, reader)?;
        Ok(Rc::new(alloc, value)?)
    }
}

impl<T: BorshDeserialize> BorshDeserialize for Arc<T> {
    #[inline]
    fn deserialize_reader<R: Read>(alloc: Global, reader: &mut R) -> Result<Arc<T>> {
        let value = T::deserialize_reader(alloc, reader)?;
        Ok(Arc::new(alloc, value)?)
    }
}

impl<T: BorshDeserialize> BorshDeserialize for Cow<'_, T> {
    #[inline]
    fn deserialize_reader<R: Read>(alloc: Global, reader: &mut R) -> Result<Self> {
        Ok(Cow::Owned(T::deserialize_reader(alloc, reader)?))
    }

    // the trait's own bodies aren't taken here: the borrow checker doesn't cover them at a type with a lifetime and a parameter
    fn vec_from_reader<R: Read>(
        _alloc: Global,
        _len: u32,
        _reader: &mut R,
    ) -> Result<Option<Vec<Self>>> {
        Ok(None)
    }

    fn read_slice<R: Read>(_items: &mut [Self], _reader: &mut R) -> Option<Result<()>> {
        None
    }
}
