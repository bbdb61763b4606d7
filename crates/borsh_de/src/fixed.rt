// Types of fixed width: a buffer, the room, is filled at once, and the elements are decoded from it.
ghost use Rattle.std.specs.Prelude.{◌≡◌, ◌+◌, ◌*◌, ◌<◌, ◌≤◌, ℕ, true, length, IfSome, IfNone, OnOk};
ghost use Rattle.borsh_codec.specs.Shapes.{allocated_array};
ghost use Rattle.borsh_codec.specs.Reading.{DecodesVec};
ghost use Rattle.borsh_de.specs.FixedWidth.{IsFixedWidth, AppendsDecoded};

use super::deserialize::BorshDeserialize;
use super::hint::cautious;
use super::raw_bytes::fill;
use borsh_io::{Read, Result};
use std::alloc::{AllocError, Global};

/// How many bytes are read at once, but for a list that takes no more than `SMALL`: a room is cleared first.
pub(crate) const ROOM: usize = 512;

pub(crate) const SMALL: usize = 64;

/// The value that the bytes decode to.
#[inline]
fn value_of<T: BorshDeserialize>(alloc: Global, bytes: &[u8]) -> T
    requires { IsFixedWidth T.codec (length bytes.now) }
    ensures { T.codec.decodes true bytes.now result }
{
    match T::get(alloc, bytes) {
        Some(value) => value,
        None => unreachable!(),
    }
}

/// Appends the values that the bytes decode to, one after another. Fails if an allocation fails.
#[inline]
fn append<T: BorshDeserialize>(
    alloc: Global,
    width: usize,
    bytes: &[u8],
    items: &mut Vec<T>,
) -> std::result::Result<(), AllocError>
    requires fixed { IsFixedWidth T.codec width }
    requires some { 0 < width }
    requires whole { (n : ℕ) × (length bytes.now ≡ n * width) }
    ensures { OnOk result (AppendsDecoded T.codec bytes.now items.old.items items.new.items) }
{
    items.extend(bytes.chunks_exact(width).map(|slot| value_of(alloc, slot)))
}

/// The width of a pair of parts of these widths, if both have one and it fits, and else 0.
#[inline]
pub(crate) fn both_widths(first: usize, second: usize) -> usize
    ensures { 0 < result → (0 < first) × (0 < second) × (result ≡ first + second) }
{
    if first == 0 || second == 0 {
        return 0;
    }
    first.checked_add(second).unwrap_or(0)
}

/// How many bytes each of `count` parts of one width has, if so many bytes can be cut into them.
#[inline]
pub(crate) fn width_of_parts(len: usize, count: usize) -> Option<usize>
    ensures some { IfSome result (λ width. len ≡ count * width) }
    ensures none { IfNone result ((width : ℕ) → len ≡ count * width → ⊥) }
{
    if count == 0 {
        return if len == 0 { Some(0) } else { None };
    }
    if len % count > 0 {
        return None;
    }
    Some(len / count)
}

/// How many elements of so many bytes are read next, where more are wanted: as many as a room of so many bytes takes and
/// the reader surely may still have, and at least one.
#[inline]
fn next_count(room: usize, width: usize, left: Option<usize>, wanted: usize) -> usize
    requires some { (0 < width) × (0 < wanted) }
    requires few { width ≤ room }
    ensures some { 0 < result }
    ensures few { result ≤ wanted }
    ensures fits { result * width ≤ room }
{
    let most = left.unwrap_or(room).max(width).min(room) / width;
    wanted.min(most)
}

/// For how many elements room is made at first.
#[inline]
fn first_count<T: BorshDeserialize>(width: usize, left: Option<usize>, len: u32) -> usize
    requires { 0 < width }
{
    match left {
        Some(bytes) => (bytes / width).min(len as usize),
        None => cautious::<T>(len),
    }
}

/// Reads `len` elements of so many bytes each through a room. The errors are those of [`fill`], and `OutOfMemory` for the list.
pub(crate) fn read_rooms<const ROOM: usize, T: BorshDeserialize, R: Read>(
    alloc: Global,
    len: u32,
    width: usize,
    reader: &mut R,
) -> Result<Vec<T>>
    requires fixed { IsFixedWidth T.codec width }
    requires some { 0 < width }
    requires few { width ≤ ROOM }
    requires room { ROOM ≤ 512 }
    ensures { DecodesVec (allocated_array len T.codec) R.stream reader.old reader.new result }
{
    let mut items = Vec::with_capacity(alloc, first_count::<T>(width, reader.bytes_left(), len))?;
    let mut room = [0u8; ROOM];
    'rooms: while items.len() < len as usize {
        let count = next_count(ROOM, width, reader.bytes_left(), len as usize - items.len());
        let part = &mut room[..count * width];
        fill(reader, part)?;
        append(alloc, width, part, &mut items)?;
    }
    Ok(items)
}
