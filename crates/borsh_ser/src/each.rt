// Items of a collection, by its iterator.
ghost use Rattle.std.specs.Iterator.{AlwaysYields, IsFinite};
ghost use Rattle.std.specs.Prelude.{List, Option, false, ℕ};
ghost use Rattle.borsh_codec.specs.Shapes.{append_encodings, concat_encodings, unsigned_encoding};
ghost use Rattle.borsh_codec.specs.Writing.{WritesEncoding};

use super::lists::write_count;
use super::rooms::{HUGE, LARGE, MANY, SHARED, write_each};
use super::serialize::BorshSerialize;
use borsh_io::{Result, Write};
use std::alloc::Global;

/// Writes the count and the items that the iterator gives.
///
/// The errors are those of `write_count` and `write_singly`. After one, a beginning of the encoding was written.
#[inline]
pub(crate) fn write_items<I: Iterator, W: Write>(
    count: usize,
    items: I,
    alloc: Global,
    writer: &mut W,
) -> Result<()>
where
    I::Item: BorshSerialize + Drop,
    I: Drop,
    requires ready { I.can_next items }
    requires finite { IsFinite (I.remaining items) }
    ensures { (es : List (Option (List ℕ)))
        → AlwaysYields I.next_gives I.Item.codec.encoding items es
        → WritesEncoding W.writing writer.old writer.new I.Item.codec.encoding_allocates false
        (append_encodings (unsigned_encoding 4 count) (concat_encodings (λ e. e) es)) result }
{
    write_count(count, writer)?;
    if count < SHARED {
        return write_singly(items, alloc, writer);
    }
    if count < MANY {
        return write_each::<LARGE, I, W>(items, alloc, writer);
    }
    write_each::<HUGE, I, W>(items, alloc, writer)
}

/// Writes the items that the iterator gives, one after another, with no count.
///
/// Returns the writer's error, or that of the item that could not be written. Then a beginning of the encodings was written.
#[inline]
fn write_singly<I: Iterator, W: Write>(mut items: I, alloc: Global, writer: &mut W) -> Result<()>
where
    I::Item: BorshSerialize + Drop,
    I: Drop,
    requires ready { I.can_next items }
    requires finite { IsFinite (I.remaining items) }
    ensures { (es : List (Option (List ℕ)))
        → AlwaysYields I.next_gives I.Item.codec.encoding items es
        → WritesEncoding W.writing writer.old writer.new I.Item.codec.encoding_allocates false
        (concat_encodings (λ e. e) es) result }
{
    while let Some(item) = items.next() {
        item.serialize(alloc, writer)?;
    }
    Ok(())
}
