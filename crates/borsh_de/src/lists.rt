// Lists: a count of four bytes and the elements in order.
ghost use Rattle.std.specs.Prelude.{◌≡◌, ◌<◌, IfOk};
ghost use Rattle.std.specs.Vec.{vec_len, vec_capacity};
ghost use Rattle.borsh_codec.specs.Shapes.{allocated_array, length_prefixed, list};
ghost use Rattle.borsh_codec.specs.Reading.{DecodesVec};

use super::deserialize::BorshDeserialize;
use super::fixed::{ROOM, SMALL, read_rooms};
use super::hint::cautious;
use borsh_io::{Read, Result};
use borsh_types::refuse_empty;
use std::alloc::{AllocError, Global};
use std::borrow::CowSlice;
use std::boxed::BoxedSlice;
use std::collections::{LinkedList, VecDeque};
use std::rc::RcSlice;
use std::sync::ArcSlice;

/// The same list with room for more elements, of which so many are wanted: for as many as the bytes left hold if each is as
/// long as those that came, or else for as many again as came. So elements are seldom moved, and an announcement alone takes
/// no memory. `before` is how many bytes were left in front of the first element.
#[cold]
#[inline(never)]
fn with_room<T: Drop>(
    items: Vec<T>,
    wanted: usize,
    before: Option<usize>,
    left: Option<usize>,
) -> std::result::Result<Vec<T>, AllocError>
    ensures items { IfOk result (λ v. v.items ≡ items.items) }
    ensures room { IfOk result (λ v. vec_len v < vec_capacity v) }
{
    let mut items = items;
    let len = items.len();
    let held = match (before, left) {
        (Some(before), Some(left)) => left / (before.saturating_sub(left) / len.max(1)).max(1),
        _ => 0,
    };
    items.reserve_exact(held.max(len).min(wanted).max(1))?;
    Ok(items)
}

/// Reads `len` elements one after another, or at once if the type can. The errors are those of an
/// element, and `OutOfMemory` if memory for the list can't be allocated.
#[inline(always)]
pub(crate) fn read_elements<T: BorshDeserialize, R: Read>(
    alloc: Global,
    len: u32,
    reader: &mut R,
) -> Result<Vec<T>>
    ensures { DecodesVec (allocated_array len T.codec) R.stream reader.old reader.new result }
{
    if len == 0 {
        return Ok(Vec::new(alloc));
    }
    if let Some(read) = T::vec_from_reader(alloc, len, reader)? {
        return Ok(read);
    }
    let width = T::width();
    if width > 0 && width <= ROOM {
        if len as usize <= SMALL / width {
            return read_rooms::<SMALL, T, R>(alloc, len, width, reader);
        }
        return read_rooms::<ROOM, T, R>(alloc, len, width, reader);
    }
    let before = reader.bytes_left();
    let mut items = Vec::with_capacity(alloc, cautious::<T>(len))?;
    for i in 0..len {
        if items.len() == items.capacity() {
            items = with_room(items, (len - i) as usize, before, reader.bytes_left())?;
        }
        items.push_reserved(T::deserialize_reader(alloc, reader)?);
    }
    Ok(items)
}

/// Reads a length of four bytes and that many elements. The errors are those of a number and of [`read_elements`].
#[inline(always)]
pub(crate) fn read_counted<T: BorshDeserialize, R: Read>(
    alloc: Global,
    reader: &mut R,
) -> Result<Vec<T>>
    ensures { DecodesVec (length_prefixed T.codec) R.stream reader.old reader.new result }
{
    let count = u32::deserialize_reader(alloc, reader)?;
    read_elements(alloc, count, reader)
}

/// As [`read_counted`], but elements whose encodings are empty are refused before anything is read: `InvalidData`.
/// So each element takes at least one byte, and a short input can't announce many of them.
#[inline(always)]
pub(crate) fn read_list<T: BorshDeserialize, R: Read>(
    alloc: Global,
    reader: &mut R,
) -> Result<Vec<T>>
    ensures { DecodesVec (list T.codec) R.stream reader.old reader.new result }
{
    refuse_empty::<T>()?;
    read_counted(alloc, reader)
}

impl<T: BorshDeserialize> BorshDeserialize for Vec<T> {
    #[inline]
    #[tactic(auto, using(borsh_codec::proofs::DecodeViews::decodes_as))]
    fn deserialize_reader<R: Read>(alloc: Global, reader: &mut R) -> Result<Vec<T>> {
        read_list(alloc, reader)
    }
}

impl<T: BorshDeserialize> BorshDeserialize for VecDeque<T> {
    #[inline]
    fn deserialize_reader<R: Read>(alloc: Global, reader: &mut R) -> Result<VecDeque<T>> {
        Ok(VecDeque::from_vec(read_list(alloc, reader)?))
    }
}

impl<T: BorshDeserialize> BorshDeserialize for LinkedList<T> {
    #[inline]
    fn deserialize_reader<R: Read>(alloc: Global, reader: &mut R) -> Result<LinkedList<T>> {
        let mut list = LinkedList::new(alloc);
        for item in read_list(alloc, reader)? {
            list.push_back(item)?;
        }
        Ok(list)
    }
}

impl<T: BorshDeserialize> BorshDeserialize for BoxedSlice<T> {
    #[inline]
    fn deserialize_reader<R: Read>(alloc: Global, reader: &mut R) -> Result<BoxedSlice<T>> {
        Ok(read_list(alloc, reader)?.into_boxed_slice())
    }
}

impl<T: BorshDeserialize> BorshDeserialize for RcSlice<T> {
    #[inline]
    fn deserialize_reader<R: Read>(alloc: Global, reader: &mut R) -> Result<RcSlice<T>> {
        Ok(RcSlice::from_vec(read_list(alloc, reader)?)?)
    }
}

impl<T: BorshDeserialize> BorshDeserialize for ArcSlice<T> {
    #[inline]
    fn deserialize_reader<R: Read>(alloc: Global, reader: &mut R) -> Result<ArcSlice<T>> {
        Ok(ArcSlice::from_vec(read_list(alloc, reader)?)?)
    }
}

impl<T: BorshDeserialize> BorshDeserialize for CowSlice<'_, T> {
    #[inline]
    fn deserialize_reader<R: Read>(alloc: Global, reader: &mut R) -> Result<Self> {
        Ok(CowSlice::Owned(read_list(alloc, reader)?))
    }
}
