// Texts: a count of four bytes and the bytes of the characters, in UTF-8.
ghost use Rattle.std.specs.String.{string_bytes};
ghost use Rattle.borsh_codec.specs.Types.Texts.{text};
ghost use Rattle.borsh_codec.specs.Reading.{DecodesAs};

use super::deserialize::BorshDeserialize;
use super::lists::read_counted;
use super::refusals::invalid_data;
use borsh_io::{Read, Result};
use std::alloc::Global;
use std::borrow::CowStr;
use std::boxed::BoxedStr;
use std::rc::RcStr;
use std::sync::ArcStr;

/// Reads the number of bytes and the bytes, which become the text without a copy. Bytes that aren't UTF-8
/// are refused: `InvalidData`, with the text of std's error.
#[inline(always)]
pub(crate) fn read_text<R: Read>(alloc: Global, reader: &mut R) -> Result<String>
    ensures { DecodesAs string_bytes text R.stream reader.old reader.new result }
{
    let bytes: Vec<u8> = read_counted(alloc, reader)?;
    match String::from_utf8(bytes) {
        Ok(string) => Ok(string),
        Err(error) => Err(invalid_data(format!(in alloc; "{error}"))),
    }
}

impl BorshDeserialize for String {
    #[inline(always)]
    fn deserialize_reader<R: Read>(alloc: Global, reader: &mut R) -> Result<String> {
        read_text(alloc, reader)
    }
}

impl BorshDeserialize for BoxedStr {
    #[inline]
    fn deserialize_reader<R: Read>(alloc: Global, reader: &mut R) -> Result<BoxedStr> {
        Ok(read_text(alloc, reader)?.into_boxed_str())
    }
}

impl BorshDeserialize for RcStr {
    #[inline]
    fn deserialize_reader<R: Read>(alloc: Global, reader: &mut R) -> Result<RcStr> {
        Ok(RcStr::from_string(read_text(alloc, reader)?)?)
    }
}

impl BorshDeserialize for ArcStr {
    #[inline]
    fn deserialize_reader<R: Read>(alloc: Global, reader: &mut R) -> Result<ArcStr> {
        Ok(ArcStr::from_string(read_text(alloc, reader)?)?)
    }
}

impl BorshDeserialize for CowStr<'_> {
    #[inline]
    fn deserialize_reader<R: Read>(alloc: Global, reader: &mut R) -> Result<Self> {
        Ok(CowStr::Owned(read_text(alloc, reader)?))
    }
}
