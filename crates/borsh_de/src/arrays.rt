// Arrays: their elements in order, with no count. Only reading the elements may allocate.
ghost use Rattle.std.specs.Prelude.{◌≡◌, ◌<◌, ⊤, length, MatchOption};
ghost use Rattle.borsh_io.specs.Errors.{error_kind};
ghost use Rattle.borsh_codec.specs.Codec.{Codec};
ghost use Rattle.borsh_codec.specs.Shapes.{array};
ghost use Rattle.borsh_codec.specs.Reading.{Decoded, NotDecoded, Decodes, DecodesAs};
ghost use Rattle.borsh_de.specs.FixedWidth.{IsFixedWidth, GetsValue, TakesPiece};

use super::deserialize::BorshDeserialize;
use super::fixed::width_of_parts;
use borsh_arrays::{Held, Maker, TryMaker, array_from, release, try_array_from};
use borsh_io::{Error, Read, Result};
use std::alloc::Global;

// Makes the elements of an array by reading them.
#[derive(Drop)]
struct Elements<'a, R> {
    reader: &'a mut R,
    alloc: Global,
}

impl<'a, T: BorshDeserialize, R: Read> TryMaker<T> for Elements<'a, R> {
    type Error = Error;

    ghost makes = { λ s x t. (t.reader.ghost_name ≡ s.reader.ghost_name)
        × Decoded T T.codec (R.stream s.reader.now) (R.stream t.reader.now) x };

    ghost fails = { λ s e t. (t.reader.ghost_name ≡ s.reader.ghost_name)
        × NotDecoded T T.codec (R.stream s.reader.now) (R.stream t.reader.now) (error_kind e) };

    #[inline]
    fn try_make(&mut self) -> Result<T> {
        T::deserialize_reader(self.alloc, self.reader)
    }
}

// Reads the elements one after another.
#[inline]
fn read_each<T: BorshDeserialize, R: Read, const N: usize>(
    elements: &mut Elements<R>,
) -> Result<Held<[T; N]>>
    ensures same_reader { elements.new.reader.ghost_name ≡ elements.old.reader.ghost_name }
    ensures outcome { DecodesAs (λ held. held.0) (array N T.codec) R.stream elements.old.reader.now
        elements.new.reader.now result }
{
    try_array_from(elements)
}

// Makes values that are to be written over, each from one byte.
#[derive(Drop)]
struct Alike {
    alloc: Global,
}

impl<T: BorshDeserialize> Maker<T> for Alike {
    ghost makes = { λ _ _ _. ⊤ };

    ghost gives_up = { λ _ _. ⊤ };

    #[inline]
    fn make(&mut self) -> Option<T> {
        T::get(self.alloc, &[0])
    }
}

// An array whose type is a parameter: the borrow checker covers a `Result` of it then.
trait Row: Sized {
    ghost codec: { Codec Self };

    // An array that is to be written over, if its elements are a byte each.
    fn blank(alloc: Global) -> Option<Self>;

    // Reads the elements over those of the array, if the type can read them at once.
    fn read_slice<R: Read>(&mut self, reader: &mut R) -> Option<Result<()>>
        ensures { MatchOption result (reader.new ≡ reader.old)
            (DecodesAs (λ _. self.new) codec R.stream reader.old reader.new) };

    // Reads the elements one after another.
    fn read_each<R: Read>(alloc: Global, reader: &mut R) -> Result<Held<Self>>
        ensures { DecodesAs (λ held. held.0) codec R.stream reader.old reader.new result };

    // Drops the array.
    fn discard(self);
}

impl<T: BorshDeserialize, const N: usize> Row for [T; N] {
    ghost codec = { array N T.codec };

    #[inline(always)]
    fn blank(alloc: Global) -> Option<[T; N]> {
        if T::width() != 1 {
            return None;
        }
        array_from(&mut Alike { alloc }).ok()
    }

    #[inline(always)]
    fn read_slice<R: Read>(&mut self, reader: &mut R) -> Option<Result<()>> {
        T::read_slice(self, reader)
    }

    #[inline(always)]
    fn read_each<R: Read>(alloc: Global, reader: &mut R) -> Result<Held<[T; N]>> {
        read_each(&mut Elements { reader, alloc })
    }

    #[inline(always)]
    fn discard(self) {}
}

// Reads the array, at once if its elements can be read so.
#[inline(always)]
fn read_row<A: Row, R: Read>(alloc: Global, reader: &mut R) -> Result<A>
    ensures { Decodes A.codec R.stream reader.old reader.new result }
{
    if let Some(blank) = A::blank(alloc) {
        let mut items = blank;
        match items.read_slice(reader) {
            Some(Ok(())) => return Ok(items),
            Some(Err(e)) => {
                items.discard();
                return Err(e);
            }
            None => items.discard(),
        }
    }
    release(A::read_each(alloc, reader))
}

// Takes the elements of an array from its bytes, each from as many.
#[derive(Drop)]
struct Pieces<'a> {
    alloc: Global,
    rest: &'a [u8],
    width: usize,
}

impl<'a, T: BorshDeserialize> Maker<T> for Pieces<'a> {
    ghost makes = { λ s x t. TakesPiece T.codec s.width s.rest.now t.width t.rest.now x };

    ghost gives_up = { λ s t. (IsFixedWidth T.codec s.width → length s.rest.now < s.width) };

    #[inline]
    fn make(&mut self) -> Option<T> {
        if self.rest.len() < self.width {
            return None;
        }
        let (piece, rest) = self.rest.split_at(self.width);
        self.rest = rest;
        T::get(self.alloc, piece)
    }
}

// The array whose elements the bytes decode to, each from as many.
#[inline]
fn array_of<T: BorshDeserialize, const N: usize>(alloc: Global, bytes: &[u8]) -> Option<[T; N]>
    ensures { GetsValue (array N T.codec) bytes.now result }
{
    let width = width_of_parts(bytes.len(), N)?;
    array_from(&mut Pieces {
        alloc,
        rest: bytes,
        width,
    })
    .ok()
}

impl<T: BorshDeserialize, const N: usize> BorshDeserialize for [T; N] {
    #[inline(always)]
    fn deserialize_reader<R: Read>(alloc: Global, reader: &mut R) -> Result<[T; N]> {
        read_row(alloc, reader)
    }

    #[inline]
    fn width() -> usize {
        match T::width().checked_mul(N) {
            Some(width) => width,
            None => 0,
        }
    }

    #[inline]
    fn get(alloc: Global, bytes: &[u8]) -> Option<[T; N]> {
        array_of(alloc, bytes)
    }
}
