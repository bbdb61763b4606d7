// Elements that share a room, a buffer on the stack, which is written at once: one write for many elements. The room is cleared
// first, so a few elements share none. Once an empty room doesn't take two elements, as those of a type without `put`, no later
// one is asked: to put an element that doesn't fit is in vain.
ghost use Rattle.std.specs.Iterator.{AlwaysYields, IsFinite};
ghost use Rattle.std.specs.Prelude.{◌≤◌, List, Option, Some, false, ℕ};
ghost use Rattle.borsh_codec.specs.Shapes.{concat_encodings};
ghost use Rattle.borsh_codec.specs.Writing.{Puts, WritesEncoding};

use super::lists::write_one_by_one;
use super::puts::put_front;
use super::raw_bytes::write_bytes;
use super::serialize::BorshSerialize;
use borsh_io::{Result, Write};
use std::alloc::Global;

/// Fewer elements share no room: to clear one takes as long as to write a few.
pub(crate) const SHARED: usize = 32;
/// Elements of a list that take more bytes than this in memory are long, and share a huge room.
pub(crate) const LONG: usize = 64;
/// How many bytes a room has.
pub(crate) const LARGE: usize = 1024;
/// How many bytes a huge room has, of which long elements fill more.
pub(crate) const HUGE: usize = 4096;
/// So many items of an iterator share a huge room.
pub(crate) const MANY: usize = 256;

/// How many elements share a room at most: those that LLVM then knows to fit, so that it tests no room for them, or `SHARED`.
#[inline(always)]
fn shared<T: BorshSerialize>(room: usize) -> usize {
    (room / T::element_size().max(1)).max(SHARED)
}

/// Writes the elements one after another: through a room as long as it takes two of them or more, and then with `serialize`.
/// The errors are those of `write_elements`.
///
/// A function of its own, since a room is cleared where a function begins.
#[inline(never)]
pub(crate) fn write_by_room<const ROOM: usize, T: BorshSerialize, W: Write>(
    items: &[T],
    alloc: Global,
    writer: &mut W,
) -> Result<()>
    requires { ROOM ≤ 4096 }
    ensures { WritesEncoding W.writing writer.old writer.new T.codec.encoding_allocates false
        (concat_encodings T.codec.encoding items.now) result }
{
    let mut room = [0u8; ROOM];
    let mut next = 0;
    while next < items.len() {
        let end = next + (items.len() - next).min(shared::<T>(ROOM));
        let (count, filled) = put_front(&items[next..end], &mut room);
        write_held(&room[..filled], writer)?;
        next += count;
        if count < 2 {
            return write_one_by_one(&items[next..], alloc, writer);
        }
    }
    Ok(())
}

/// Writes the items that the iterator gives, one after another, with no count: through a room until an empty one doesn't
/// take an item, and then with `serialize`.
///
/// Returns the writer's error, or that of the item that could not be written. Then a beginning of the encodings was written.
#[inline(never)]
pub(crate) fn write_each<const ROOM: usize, I: Iterator, W: Write>(
    mut items: I,
    alloc: Global,
    writer: &mut W,
) -> Result<()>
where
    I::Item: BorshSerialize + Drop,
    I: Drop,
    requires ready { I.can_next items }
    requires finite { IsFinite (I.remaining items) }
    requires few { ROOM ≤ 4096 }
    ensures { (es : List (Option (List ℕ)))
        → AlwaysYields I.next_gives I.Item.codec.encoding items es
        → WritesEncoding W.writing writer.old writer.new I.Item.codec.encoding_allocates false
        (concat_encodings (λ e. e) es) result }
{
    let mut array = [0u8; ROOM];
    let room = array.as_mut_slice();
    let mut filled = 0;
    let mut shares = true;
    while let Some(item) = items.next() {
        match put_shared(shares, &item, &mut room[filled..]) {
            Some(n) => filled += n,
            None => {
                // Moved, so that only here the item lies in memory.
                let item = item;
                write_held(&room[..filled], writer)?;
                shares = filled > 0;
                filled = 0;
                match put_again(shares, &item, &mut room[filled..]) {
                    Some(n) => filled += n,
                    None => {
                        shares = false;
                        item.serialize(alloc, writer)?;
                    }
                }
            }
        }
    }
    write_held(&room[..filled], writer)
}

/// Puts the element, if elements share the room.
#[inline]
fn put_shared<T: BorshSerialize>(shares: bool, item: &T, room: &mut [u8]) -> Option<usize>
    ensures { Puts (T.codec.encoding item.now) room.old room.new result }
{
    if !shares {
        return None;
    }
    item.put(room)
}

/// Puts the element into the room that was written, if it had others: a function of its own, since it is called seldom.
#[inline(never)]
fn put_again<T: BorshSerialize>(shares: bool, item: &T, room: &mut [u8]) -> Option<usize>
    ensures { Puts (T.codec.encoding item.now) room.old room.new result }
{
    put_shared(shares, item, room)
}

/// Writes the bytes, if there are any. The errors are those of `write_bytes`.
#[inline]
fn write_held<W: Write>(bytes: &[u8], writer: &mut W) -> Result<()>
    ensures { WritesEncoding W.writing writer.old writer.new false false (Some bytes.now) result }
{
    if bytes.is_empty() {
        return Ok(());
    }
    write_bytes(bytes, writer)
}
