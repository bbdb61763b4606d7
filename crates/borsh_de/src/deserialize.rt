// Types whose values are decoded.
ghost use Rattle.std.specs.Prelude.{◌≡◌, ◌<◌, Bool, true, false, IfOk, IfSome, IfNone, IsNone};
ghost use Rattle.borsh_io.specs.Stream.{slice_state};
ghost use Rattle.borsh_codec.specs.Reading.{Decodes, DecodesAfterTag, DecodesAtOnce};
ghost use Rattle.borsh_codec.specs.Reading.{DecodesReader, DecodesAll};
ghost use Rattle.borsh_de.specs.FixedWidth.{IsFixedWidth, GetsValue, DecodesOver};

use super::refusals::not_all_bytes_read;
use borsh_io::{ErrorKind, Read, Result};
use borsh_types::BorshType;
use std::alloc::Global;

/// A type whose values can be decoded.
///
/// What is decoded depends on the bytes to come (those that the reader will still give) alone, and not on
/// how the reader cuts them or where it is interrupted. The errors of each call are
/// - `InvalidData` if no beginning of the bytes to come decodes to a value (in the calls that decode all
///   of the bytes: if all of them together don't), or if the reader fails with this kind;
/// - `OutOfMemory` if an allocation fails, for the value or for the text of an error;
/// - the reader's error if it fails.
///
/// A type that refuses all of its values returns `InvalidData` before anything is read. Left open of each
/// call: memory; what isn't encoded, but for `made` of the codec; after an error, how many bytes are left.
///
/// If your type has no implementation, put `// derive: borsh` above it and run derive/borsh_derive.py, or
/// write one by hand, as docs/IMPLEMENTING.md shows.
pub trait BorshDeserialize: BorshType + Sized + Drop {
    /// Decodes a value from the beginning of the bytes to come, and leaves the rest. Fails only if no
    /// beginning decodes to a value, or if the reader or an allocation fails.
    ///
    /// ```
    /// let mut input = b"\x07\x00\xff".as_slice();
    /// let value = u16::deserialize_reader(alloc, &mut input)?;
    /// assert_eq!(rt; value, 7);
    /// assert_eq!(rt; input, b"\xff".as_slice());
    /// ```
    fn deserialize_reader<R: Read>(alloc: Global, reader: &mut R) -> Result<Self>
        ensures { Decodes Self.codec R.stream reader.old reader.new result };

    /// Whether [`vec_from_reader`](BorshDeserialize::vec_from_reader) may return values: not unless a type says so.
    ghost reads_at_once: { Bool } = { false };

    /// Reads `len` values one after another, if the type can read them at once: only `u8` can, and types of
    /// one's own need not override it. If it returns `None`, nothing was read. Left open: `None`, of any type
    /// but `u8`; otherwise as of [`deserialize_reader`](BorshDeserialize::deserialize_reader).
    fn vec_from_reader<R: Read>(
        _alloc: Global,
        _len: u32,
        _reader: &mut R,
    ) -> Result<Option<Vec<Self>>>
        ensures outcome { DecodesAtOnce _len Self.codec R.stream _reader.old _reader.new result }
        ensures others { reads_at_once ≡ false → IfOk result IsNone }
    {
        Ok(None)
    }

    /// As [`vec_from_reader`](BorshDeserialize::vec_from_reader), but over the values of a slice, and any type may return
    /// values. After an error some of them may be written over. Left open: as there.
    fn read_slice<R: Read>(_items: &mut [Self], _reader: &mut R) -> Option<Result<()>>
        ensures some { IfSome result (DecodesOver Self.codec R.stream _reader.old _reader.new
            _items.old _items.new) }
        ensures none { IfNone result ((_reader.new ≡ _reader.old) × (_items.new ≡ _items.old)) }
    {
        None
    }

    /// How many bytes each encoding has, for a type of which every so many bytes are an encoding, as a number; 0 for any
    /// other type. Lists of such a type are read many elements at a time. Left open: 0, of any type.
    fn width() -> usize
        ensures { 0 < result → IsFixedWidth Self.codec result }
    {
        0
    }

    /// The value that all of the bytes decode to, for a type of fixed [`width`](BorshDeserialize::width). Left open: what
    /// isn't encoded, but for `made` of the codec; `None`, of a type or bytes of another width.
    fn get(alloc: Global, bytes: &[u8]) -> Option<Self>
        ensures { GetsValue Self.codec bytes.now result }
    {
        let mut rest = bytes;
        let Ok(value) = Self::deserialize_reader(alloc, &mut rest) else {
            return None;
        };
        if !rest.is_empty() {
            return None;
        }
        Some(value)
    }

    /// Decodes a value from the beginning of the slice, which becomes what is left.
    ///
    /// ```
    /// let mut bytes = b"\x07\x00\xff".as_slice();
    /// assert_eq!(rt; u16::deserialize(alloc, &mut bytes)?, 7);
    /// ```
    final fn deserialize(alloc: Global, buf: &mut &[u8]) -> Result<Self>
        ensures { Decodes Self.codec slice_state buf.old.now buf.new.now result }
    {
        Self::deserialize_reader(alloc, buf)
    }

    /// Decodes a value from all of the slice. If bytes are left over, the error is `InvalidData`, "Not
    /// all bytes read". Left open: memory; what isn't encoded, but for `made` of the codec.
    ///
    /// ```
    /// assert_eq!(rt; u16::try_from_slice(alloc, b"\x07\x00")?, 7);
    /// ```
    final fn try_from_slice(alloc: Global, v: &[u8]) -> Result<Self>
        ensures { DecodesAll Self.codec true v.now result }
    {
        let mut rest = v;
        let value = Self::deserialize_reader(alloc, &mut rest)?;
        if !rest.is_empty() {
            return Err(not_all_bytes_read());
        }
        Ok(value)
    }

    /// Decodes a value from all of the bytes to come, and looks for one more byte. If there is one, or if the reader fails
    /// then, the error is `InvalidData`, "Not all bytes read"; but a failure of kind `UnexpectedEof` is taken as the end.
    /// After an error of the value itself no further byte is read. Left open: memory; what isn't encoded, but for `made` of
    /// the codec; how many bytes are left after an error.
    ///
    /// ```
    /// let mut input = StdReader::new(rt.stdin(), 1000);
    /// let value = u16::try_from_reader(alloc, &mut input)?;
    /// ```
    final fn try_from_reader<R: Read>(alloc: Global, reader: &mut R) -> Result<Self>
        ensures { DecodesReader Self.codec R.stream reader.old reader.new result }
    {
        let value = Self::deserialize_reader(alloc, reader)?;
        let mut more = [0u8; 1];
        match reader.read_exact(&mut more) {
            Ok(()) => Err(not_all_bytes_read()),
            Err(e) => match e.kind() {
                ErrorKind::UnexpectedEof => Ok(value),
                _ => Err(not_all_bytes_read()),
            },
        }
    }
}

/// An enum that is decoded in two steps: its tag, and what follows it. So a caller can look at the tag in between.
pub trait EnumExt: BorshDeserialize {
    /// Decodes what follows a tag that was read before.
    ///
    /// The errors are those of [`deserialize_reader`](BorshDeserialize::deserialize_reader), for the tag
    /// followed by the bytes to come. Left open: as there.
    ///
    /// ```
    /// let tag = read_tag(&mut input)?;
    /// let event = Event::deserialize_variant(alloc, &mut input, tag)?;
    /// ```
    fn deserialize_variant<R: Read>(alloc: Global, reader: &mut R, tag: u8) -> Result<Self>
        ensures { DecodesAfterTag tag Self.codec R.stream reader.old reader.new result };
}
