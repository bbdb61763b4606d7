// What is written.
ghost use Rattle.std.specs.Prelude.{◌≡◌, Bool, true, false, Some, IfSome, IsNone};
ghost use Rattle.borsh_codec.specs.Shapes.{concat_encodings};
ghost use Rattle.borsh_codec.specs.Writing.{Puts, TellsLength, Writes};

use borsh_io::{Result, Write};
use borsh_types::BorshType;
use std::alloc::Global;

/// A type whose values can be encoded. If your type has no implementation, put `// derive: borsh` above it
/// and run derive/borsh_derive.py, or write one by hand, as docs/IMPLEMENTING.md shows.
pub trait BorshSerialize: BorshType + Sized {
    /// Writes the value's encoding.
    ///
    /// Returns `InvalidData` if the value has no encoding (some bytes may have been written, but
    /// none by a type that refuses all of its values), `OutOfMemory` if an allocation of the value
    /// or of the writer fails, and the writer's error. After an error a beginning of the encoding
    /// was written. Left open: memory; how long the beginning is; what is written of a value without an
    /// encoding.
    ///
    /// ```
    /// let mut out = Vec::new(alloc);
    /// 7u16.serialize(alloc, &mut out)?;
    /// assert_eq!(rt; out.as_slice(), b"\x07\x00".as_slice());
    /// ```
    fn serialize<W: Write>(&self, alloc: Global, writer: &mut W) -> Result<()>
        ensures { Writes Self.codec self.now W.writing writer.old writer.new result };

    /// Whether [`u8_slice`](BorshSerialize::u8_slice) may return bytes: not unless a type says so.
    ghost lies_encoded: { Bool } = { false };

    /// The encodings of the values, one after another, if that is how they lie in memory: only `u8` and
    /// arrays of it return them, and types of one's own need not override it. Left open: `None`, of any type but `u8`.
    fn u8_slice(_slice: &[Self]) -> Option<&[u8]>
        ensures bytes { IfSome result (λ bytes.
            concat_encodings Self.codec.encoding _slice.now ≡ Some bytes.now) }
        ensures others { lies_encoded ≡ false → IsNone result }
    {
        None
    }

    /// Writes the encoding over the front of the buffer `room` and returns how many bytes it has.
    /// `None`: it doesn't fit, or the type doesn't support this, and the contents of the room are
    /// unspecified. Lists put their elements into one room and write it at once; an element that
    /// returns `None` is written by `serialize`. Left open: `None`, always; what the room holds behind the
    /// encoding.
    ///
    /// ```
    /// let mut room = [0u8; 4];
    /// assert_eq!(7u16.put(&mut room), Some(2));
    /// assert_eq!(room, [7, 0, 0, 0]);
    /// assert_eq!(7u64.put(&mut room), None);
    /// ```
    fn put(&self, _room: &mut [u8]) -> Option<usize>
        ensures { Puts (Self.codec.encoding self.now) _room.old _room.new result }
    {
        None
    }

    /// How many bytes the encoding has, without writing it. `None`: the value has no encoding, it has more than
    /// 4294967295 bytes, or the type doesn't support this. `object_length` asks this first. Left open: `None`,
    /// always.
    ///
    /// ```
    /// assert_eq!(7u16.encoded_length(), Some(2));
    /// ```
    fn encoded_length(&self) -> Option<u32>
        ensures { TellsLength (Self.codec.encoding self.now) result }
    {
        None
    }
}
