// Lists whose elements don't lie in one place: a count of four bytes and the elements in order.
ghost use Rattle.borsh_codec.specs.Shapes.{length_prefixed};
ghost use Rattle.borsh_codec.specs.Writing.{TellsLength, Writes};

use super::each::write_items;
use super::lengths::{count_length, elements_length, joined_length};
use super::lists::{write_count, write_elements};
use super::serialize::BorshSerialize;
use borsh_io::{Result, Write};
use borsh_types::refuse_empty;
use std::alloc::Global;
use std::collections::{LinkedList, VecDeque};

/// Writes the count and the elements of both parts of the queue. The errors are those of `write_counted`.
#[inline]
fn write_queue<T: BorshSerialize, W: Write>(
    queue: &VecDeque<T>,
    alloc: Global,
    writer: &mut W,
) -> Result<()>
    ensures { Writes (length_prefixed T.codec) queue.now.items
        W.writing writer.old writer.new result }
{
    let (front, back) = queue.as_slices();
    write_count(queue.len(), writer)?;
    write_elements(front, alloc, writer)?;
    write_elements(back, alloc, writer)
}

/// The length of the count and the elements of both parts of the queue.
#[inline]
fn queue_length<T: BorshSerialize>(queue: &VecDeque<T>) -> Option<u32>
    ensures { TellsLength ((length_prefixed T.codec).encoding queue.now.items) result }
{
    let (front, back) = queue.as_slices();
    let elements = joined_length(elements_length(front), elements_length(back));
    joined_length(count_length(queue.len()), elements)
}

impl<T: BorshSerialize> BorshSerialize for VecDeque<T> {
    #[inline]
    fn serialize<W: Write>(&self, alloc: Global, writer: &mut W) -> Result<()> {
        refuse_empty::<T>()?;
        write_queue(self, alloc, writer)
    }

    #[inline]
    fn encoded_length(&self) -> Option<u32> {
        if T::encodes_empty() {
            return None;
        }
        queue_length(self)
    }
}

impl<T: BorshSerialize> BorshSerialize for LinkedList<T> {
    #[inline]
    fn serialize<W: Write>(&self, alloc: Global, writer: &mut W) -> Result<()> {
        refuse_empty::<T>()?;
        write_items(self.len(), self.iter(), alloc, writer)
    }
}
