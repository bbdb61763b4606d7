// Enums that are decoded: a tag, and then the fields of the variant that has it.
ghost use Rattle.std.specs.Prelude.{◌≡◌, true};
ghost use Rattle.borsh_codec.specs.Shapes.{contramap};
ghost use Rattle.borsh_codec.specs.Reading.{Decodes, DecodesAfterTag};
ghost use Rattle.borsh_codec.specs.Variants.{distinct, has};

use super::cases::{Case, Cases, Fork, FromCases, TagOf};
use borsh_de::{BorshDeserialize, invalid_data, read_tag};
use borsh_io::{Read, Result};
use std::alloc::Global;

/// Variants that are decoded.
pub trait DecodeCases: Cases + Drop {
    /// Decodes the fields of the variant with this tag, which was read before and is there. Left open: as of
    /// [`EnumExt::deserialize_variant`]; everything, of variants of which two have one tag.
    fn read_case<R: Read>(alloc: Global, reader: &mut R, tag: u8) -> Result<Self>
        requires { has tag Self.tags ≡ true }
        ensures { distinct Self.tags ≡ true →
            DecodesAfterTag tag Self.codec R.stream reader.old reader.new result };
}

impl<const TAG: u8, A: BorshDeserialize> DecodeCases for Case<TAG, A> {
    fn read_case<R: Read>(alloc: Global, reader: &mut R, tag: u8) -> Result<Case<TAG, A>> {
        Ok((TagOf, A::deserialize_reader(alloc, reader)?))
    }
}

impl<A: DecodeCases, B: DecodeCases> DecodeCases for Fork<A, B> {
    fn read_case<R: Read>(alloc: Global, reader: &mut R, tag: u8) -> Result<Fork<A, B>> {
        if A::has_tag(tag) {
            Ok(Fork::Left(A::read_case(alloc, reader, tag)?))
        } else {
            Ok(Fork::Right(B::read_case(alloc, reader, tag)?))
        }
    }
}

/// Decodes what follows a tag that was read before. The errors are those of [`read_enum`]. Left open: as there.
#[inline]
pub fn read_variant<T: FromCases, R: Read>(alloc: Global, reader: &mut R, tag: u8) -> Result<T>
where
    T::Cases: DecodeCases,
    ensures { DecodesAfterTag tag (contramap T.view T.Cases.codec) R.stream
        reader.old reader.new result }
{
    if T::Cases::has_tag(tag) {
        let cases = T::Cases::read_case(alloc, reader, tag)?;
        Ok(T::from_cases(cases))
    } else {
        Err(invalid_data(format!(in alloc; "Unexpected variant tag: {tag}")))
    }
}

/// Decodes a tag, one byte, and the fields of the variant that has it.
///
/// The errors are those of the fields, and `InvalidData`, "Unexpected variant tag: ..", where no variant has the tag; then
/// the tag was read, and the rest is left. Left open: as of [`BorshDeserialize::deserialize_reader`].
#[inline]
pub fn read_enum<T: FromCases, R: Read>(alloc: Global, reader: &mut R) -> Result<T>
where
    T::Cases: DecodeCases,
    ensures { Decodes (contramap T.view T.Cases.codec) R.stream reader.old reader.new result }
{
    let tag = read_tag(reader)?;
    read_variant(alloc, reader, tag)
}
