// Texts: a count of four bytes and the bytes of the characters, in UTF-8.
ghost use Rattle.borsh_codec.specs.Types.Texts.{text};
ghost use Rattle.borsh_codec.specs.Writing.{Puts, TellsLength, Writes};

use super::lengths::counted_length;
use super::lists::write_counted;
use super::puts::put_counted;
use super::serialize::BorshSerialize;
use borsh_io::{Result, Write};
use std::alloc::Global;
use std::borrow::CowStr;
use std::boxed::BoxedStr;
use std::rc::RcStr;
use std::sync::ArcStr;

/// Writes the count of bytes and the bytes. The errors are those of `write_counted`.
#[inline]
#[tactic(auto, using(borsh_codec::proofs::WriteOutcomes::writes_is, borsh_codec::proofs::TextBytes::text_encoding))]
pub(crate) fn write_text<W: Write>(string: &str, alloc: Global, writer: &mut W) -> Result<()>
    ensures { Writes text string.now W.writing writer.old writer.new result }
{
    write_counted(string.as_bytes(), alloc, writer)
}

/// Puts the count of bytes and the bytes.
#[inline]
#[tactic(auto, using(borsh_codec::proofs::PutSteps::puts_is, borsh_codec::proofs::TextBytes::text_encoding))]
pub(crate) fn put_text(string: &str, room: &mut [u8]) -> Option<usize>
    ensures { Puts (text.encoding string.now) room.old room.new result }
{
    put_counted(string.as_bytes(), room)
}

/// The length of the count of bytes and the bytes.
#[inline]
#[tactic(auto, using(borsh_codec::proofs::LengthSteps::tells_is, borsh_codec::proofs::TextBytes::text_encoding))]
pub(crate) fn text_length(string: &str) -> Option<u32>
    ensures { TellsLength (text.encoding string.now) result }
{
    counted_length(string.as_bytes())
}

impl BorshSerialize for String {
    #[inline]
    fn serialize<W: Write>(&self, alloc: Global, writer: &mut W) -> Result<()> {
        write_text(self.as_str(), alloc, writer)
    }

    #[inline]
    fn put(&self, room: &mut [u8]) -> Option<usize> {
        put_text(self.as_str(), room)
    }

    #[inline]
    fn encoded_length(&self) -> Option<u32> {
        text_length(self.as_str())
    }
}

impl BorshSerialize for &str {
    #[inline]
    fn serialize<W: Write>(&self, alloc: Global, writer: &mut W) -> Result<()> {
        write_text(*self, alloc, writer)
    }

    #[inline]
    fn put(&self, room: &mut [u8]) -> Option<usize> {
        put_text(*self, room)
    }

    #[inline]
    fn encoded_length(&self) -> Option<u32> {
        text_length(*self)
    }
}

impl BorshSerialize for BoxedStr {
    #[inline]
    fn serialize<W: Write>(&self, alloc: Global, writer: &mut W) -> Result<()> {
        write_text(self.as_str(), alloc, writer)
    }

    #[inline]
    fn put(&self, room: &mut [u8]) -> Option<usize> {
        put_text(self.as_str(), room)
    }

    #[inline]
    fn encoded_length(&self) -> Option<u32> {
        text_length(self.as_str())
    }
}

impl BorshSerialize for RcStr {
    #[inline]
    fn serialize<W: Write>(&self, alloc: Global, writer: &mut W) -> Result<()> {
        write_text(self.as_str(), alloc, writer)
    }

    #[inline]
    fn put(&self, room: &mut [u8]) -> Option<usize> {
        put_text(self.as_str(), room)
    }

    #[inline]
    fn encoded_length(&self) -> Option<u32> {
        text_length(self.as_str())
    }
}

impl BorshSerialize for ArcStr {
    #[inline]
    fn serialize<W: Write>(&self, alloc: Global, writer: &mut W) -> Result<()> {
        write_text(self.as_str(), alloc, writer)
    }

    #[inline]
    fn put(&self, room: &mut [u8]) -> Option<usize> {
        put_text(self.as_str(), room)
    }

    #[inline]
    fn encoded_length(&self) -> Option<u32> {
        text_length(self.as_str())
    }
}

impl BorshSerialize for CowStr<'_> {
    #[inline]
    fn serialize<W: Write>(&self, alloc: Global, writer: &mut W) -> Result<()> {
        write_text(self.as_str(), alloc, writer)
    }

    #[inline]
    fn put(&self, room: &mut [u8]) -> Option<usize> {
        put_text(self.as_str(), room)
    }

    #[inline]
    fn encoded_length(&self) -> Option<u32> {
        text_length(self.as_str())
    }
}
