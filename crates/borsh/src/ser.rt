// Encoding.
ghost use Rattle.borsh_codec.specs.Writing.{Writes};
ghost use Rattle.borsh.specs.Length.{AnswersLength};
ghost use Rattle.borsh.specs.Signing.{EncodesValue};

use super::length::LengthWriter;
pub use borsh_enums::Tag;
use borsh_io::{Error, ErrorKind, Result, Write};
pub use borsh_ser::{
    BorshSerialize, bytes_length, joined_length, put_bytes, put_eight, put_eleven, put_five,
    put_four, put_nine, put_seven, put_six, put_tagged, put_ten, put_three, put_twelve, put_two,
    tagged_length, write_bytes, write_eight, write_eleven, write_five, write_four, write_nine,
    write_seven, write_six, write_tagged, write_ten, write_three, write_twelve, write_two,
};
use std::alloc::Global;

/// How many bytes [`to_vec`] makes room for at first.
const DEFAULT_SERIALIZER_CAPACITY: usize = 1024;

/// Into how many bytes of its vector [`to_vec`] first puts a value that takes so many in memory: 64 for lists, texts and other
/// small values, 256 for those of many fields. They are cleared first, so the values between are written directly.
fn front_for(size: usize) -> usize {
    match size {
        0..=32 => 64,
        33..=128 => 0,
        _ => 256,
    }
}

/// Encodes a value as a vector. The bytes identify the value: they decode to it, and any value that has the
/// same encoding is equivalent, and equal if the type is a [`BorshKey`](super::BorshKey). So they can be signed.
///
/// Returns `InvalidData` if the value has no encoding (a list of more than 4294967295 elements, or of
/// elements without bytes), and `OutOfMemory` if an allocation fails. Left open: memory.
///
/// ```
/// let bytes = to_vec(alloc, &(5u8, 7u16))?;
/// assert_eq!(rt; bytes.as_slice(), b"\x05\x07\x00".as_slice());
/// ```
pub fn to_vec<T: BorshSerialize>(alloc: Global, value: &T) -> Result<Vec<u8>>
    ensures { EncodesValue T T.codec value.now result }
{
    let mut out = Vec::with_capacity(alloc, DEFAULT_SERIALIZER_CAPACITY)?;
    let front = front_for(T::element_size());
    if front > 0 {
        out.resize(front, 0)?;
        if let Some(n) = value.put(out.as_mut_slice()) {
            out.truncate(n);
            return Ok(out);
        }
        out.clear();
    }
    value.serialize(alloc, &mut out)?;
    Ok(out)
}

/// Writes a value's encoding. The errors are those of [`BorshSerialize::serialize`]; after one, a
/// beginning of the encoding was written. It doesn't flush the writer. Left open: as there.
///
/// ```
/// let mut output = StdWriter::new(rt.stdout(), 1000);
/// to_writer(alloc, &mut output, &names)?;
/// ```
pub fn to_writer<T: BorshSerialize, W: Write>(
    alloc: Global,
    writer: &mut W,
    value: &T,
) -> Result<()>
    ensures { Writes T.codec value.now W.writing writer.old writer.new result }
{
    value.serialize(alloc, writer)
}

/// How many bytes a value's encoding has.
///
/// Returns `InvalidData` if the value has no encoding, and `OutOfMemory` if the number doesn't fit in a
/// `usize`, or if an allocation fails (only of hashed maps and sets whose length isn't told). Left open: memory.
///
/// ```
/// assert_eq!(rt; object_length(alloc, &(5u8, 7u16))?, 3);
/// ```
pub fn object_length<T: BorshSerialize>(alloc: Global, value: &T) -> Result<usize>
    ensures { AnswersLength T.codec.encoding_allocates (T.codec.encoding value.now) result }
{
    if let Some(length) = value.encoded_length() {
        return Ok(length as usize);
    }
    let mut writer = LengthWriter::new();
    value.serialize(alloc, &mut writer)?;
    writer.len().ok_or(Error::from(ErrorKind::OutOfMemory))
}
