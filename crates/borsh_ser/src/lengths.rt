// How many bytes encodings have, without writing them. Left open of each call: as of [`BorshSerialize::encoded_length`].
ghost use Rattle.std.specs.Iterator.{AlwaysYields, IsFinite};
ghost use Rattle.std.specs.Prelude.{◌≡◌, false, List, Option, IfSome, Some, ℕ};
ghost use Rattle.borsh_codec.specs.Shapes.{
  append_encodings,
  concat_encodings,
  length_prefixed,
  list,
  tagged,
  unsigned_encoding,
};
ghost use Rattle.borsh_codec.specs.Writing.{TellsLength};

use super::numbers::bytes_of_u32;
use super::serialize::BorshSerialize;
use borsh_types::BorshType;

/// The number of bytes that are an encoding.
#[inline]
pub fn bytes_length(bytes: &[u8]) -> Option<u32>
    ensures { TellsLength (Some bytes.now) result }
{
    u32::try_from(bytes.len()).ok()
}

/// The length of two encodings of these lengths, one behind the other.
#[inline]
pub fn joined_length(first: Option<u32>, second: Option<u32>) -> Option<u32>
    ensures { (o p : Option (List ℕ)) → TellsLength o first → TellsLength p second
        → TellsLength (append_encodings o p) result }
{
    first?.checked_add(second?)
}

/// The length of a tag, one byte, and a part.
#[inline]
pub fn tagged_length<T: BorshSerialize>(tag: u8, part: &T) -> Option<u32>
    ensures { TellsLength (tagged tag (T.codec.encoding part.now)) result }
{
    joined_length(bytes_length(&[tag]), part.encoded_length())
}

/// The length of the elements, one after another. There are so few of them, each so short, that the sum needs no check: where
/// each has the same length, LLVM makes a product of the loop.
#[inline]
pub(crate) fn elements_length<T: BorshSerialize>(items: &[T]) -> Option<u32>
    ensures { TellsLength (concat_encodings T.codec.encoding items.now) result }
{
    if items.len() > 4294967295 {
        return None;
    }
    let mut sum: u64 = 0;
    for item in items {
        sum += u64::from(item.encoded_length()?);
    }
    u32::try_from(sum).ok()
}

/// The length of a count of elements, four bytes.
#[inline]
pub(crate) fn count_length(count: usize) -> Option<u32>
    ensures { TellsLength (unsigned_encoding 4 count) result }
{
    let number = u32::try_from(count).ok()?;
    bytes_length(&bytes_of_u32(number))
}

/// The length of the count, four bytes, and the elements.
#[inline]
pub(crate) fn counted_length<T: BorshSerialize>(items: &[T]) -> Option<u32>
    ensures { TellsLength ((length_prefixed T.codec).encoding items.now) result }
{
    joined_length(count_length(items.len()), elements_length(items))
}

/// As [`counted_length`], unless the encodings of the elements are empty.
#[inline]
pub(crate) fn list_length<T: BorshSerialize>(items: &[T]) -> Option<u32>
    ensures { TellsLength ((list T.codec).encoding items.now) result }
{
    if T::encodes_empty() {
        return None;
    }
    counted_length(items)
}

/// The length of the count, four bytes, and the items that the iterator gives, unless the encodings of the keys `K` are empty.
#[inline]
pub(crate) fn keyed_length<K: BorshType, I: Iterator>(count: usize, mut items: I) -> Option<u32>
where
    I::Item: BorshSerialize + Drop,
    I: Drop,
    requires ready { I.can_next items }
    requires finite { IsFinite (I.remaining items) }
    ensures keys { IfSome result (λ n. K.codec.is_zero_width ≡ false) }
    ensures items { (es : List (Option (List ℕ)))
        → AlwaysYields I.next_gives I.Item.codec.encoding items es
        → TellsLength (append_encodings (unsigned_encoding 4 count) (concat_encodings (λ e. e) es)) result }
{
    if K::encodes_empty() {
        return None;
    }
    let mut sum = count_length(count)?;
    while let Some(item) = items.next() {
        sum = sum.checked_add(item.encoded_length()?)?;
    }
    Some(sum)
}
