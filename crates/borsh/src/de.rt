// Decoding.
ghost use Rattle.std.specs.Prelude.{true, false};
ghost use Rattle.borsh_codec.specs.Reading.{DecodesAll, DecodesReader};

pub use borsh_de::{
    BorshDeserialize, EnumExt, FromParts, TryFromParts, hint, invalid_data, read_bytes,
    read_checked, read_parts, read_tag,
};
pub use borsh_enums::{Case, Cases, DecodeCases, Fork, FromCases, TagOf, read_enum, read_variant};
use borsh_io::{Read, Result, Unordered};
use std::alloc::Global;

/// Decodes a value from all of the bytes.
///
/// Returns `InvalidData` if they decode to no value of the type, also if bytes are left over, and
/// `OutOfMemory` if an allocation fails. Keys of maps and sets have to ascend. The bytes are the value's
/// encoding, if the type is canonical. Left open: memory; what isn't encoded, but for `made` of the codec.
///
/// ```
/// let value: (u8, u16) = from_slice(alloc, b"\x05\x07\x00")?;
/// assert_eq!(rt; value, (5, 7));
/// ```
pub fn from_slice<T: BorshDeserialize>(alloc: Global, v: &[u8]) -> Result<T>
    ensures { DecodesAll T.codec true v.now result }
{
    T::try_from_slice(alloc, v)
}

/// Decodes a value from all that a reader has.
///
/// Returns `InvalidData` if the bytes decode to no value of the type, also if bytes are left over, `OutOfMemory` if an allocation
/// fails, and the reader's error if it fails before the value is read. Left open: as of [`BorshDeserialize::try_from_reader`].
///
/// ```
/// let mut input = StdReader::new(rt.stdin(), 1000);
/// let names: Vec<String> = from_reader(alloc, &mut input)?;
/// ```
pub fn from_reader<R: Read, T: BorshDeserialize>(alloc: Global, reader: &mut R) -> Result<T>
    ensures { DecodesReader T.codec R.stream reader.old reader.new result }
{
    T::try_from_reader(alloc, reader)
}

/// Decodes a value from all of the bytes. The keys of maps and sets, at any depth, may come in any order
/// and more than once: the last value of a key counts. So data that was written before keys had to be
/// sorted can be decoded; encoding the value again makes it canonical.
///
/// The errors are those of [`from_slice`]. Left open: as there.
///
/// ```
/// let old = b"\x02\x00\x00\x00\x09\x01";
/// let set: BTreeSet<u8> = from_slice_unordered(alloc, old)?;
/// assert_eq!(rt; to_vec(alloc, &set)?.as_slice(), b"\x02\x00\x00\x00\x01\x09".as_slice());
/// ```
pub fn from_slice_unordered<T: BorshDeserialize>(alloc: Global, v: &[u8]) -> Result<T>
    ensures { DecodesAll T.codec false v.now result }
{
    T::try_from_reader(alloc, &mut Unordered::new(v))
}
