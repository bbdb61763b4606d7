// Types whose values are decoded as their parts.
ghost use Rattle.std.specs.Prelude.{◌≡◌, IfSome, IfNone};
ghost use Rattle.borsh_codec.specs.Shapes.{contramap};
ghost use Rattle.borsh_codec.specs.Reading.{Decodes};

use super::deserialize::BorshDeserialize;
use super::refusals::refused;
use borsh_io::{Read, Result};
use std::alloc::Global;

/// A type whose values can be put together from all values of some parts: a struct from its fields.
///
/// By [`read_parts`] such a type is decoded without a proof file.
///
/// ```
/// pub struct Point {
///     pub x: u32,
///     pub y: u32,
/// }
///
/// impl BorshType for Point {
///     ghost codec = { contramap ⟦<Point as FromParts>⟧.view ⟦<(u32, u32) as BorshType>⟧.codec };
///     // ..
/// }
///
/// impl FromParts for Point {
///     type Parts = (u32, u32);
///
///     ghost view = { λ p. (p.x, p.y) };
///
///     fn from_parts((x, y): (u32, u32)) -> Point {
///         Point { x, y }
///     }
/// }
///
/// impl BorshDeserialize for Point {
///     fn deserialize_reader<R: Read>(alloc: Global, reader: &mut R) -> Result<Point> {
///         read_parts(alloc, reader)
///     }
/// }
/// ```
pub trait FromParts: Sized {
    /// What is read: one value, or a tuple.
    type Parts: BorshDeserialize;

    /// The parts of a value.
    ghost view: { Self → Self.Parts };

    /// The value with these parts. Left open: what `view` doesn't show.
    ///
    /// ```
    /// fn from_parts((x, y): (u32, u32)) -> Point {
    ///     Point { x, y }
    /// }
    /// ```
    fn from_parts(parts: Self::Parts) -> Self
        ensures { view result ≡ parts };
}

/// Decodes the parts, and puts the value together. The errors are those of the parts, and what is left
/// after one is what the parts leave. Left open: as of [`BorshDeserialize::deserialize_reader`].
///
/// ```
/// let point: Point = read_parts(alloc, reader)?;
/// ```
#[inline]
pub fn read_parts<T: FromParts, R: Read>(alloc: Global, reader: &mut R) -> Result<T>
    ensures { Decodes (contramap T.view T.Parts.codec) R.stream reader.old reader.new result }
{
    let parts = T::Parts::deserialize_reader(alloc, reader)?;
    Ok(T::from_parts(parts))
}

/// A type whose values can be put together from some values of the parts only: those that pass a test.
///
/// By [`read_checked`] such a type is decoded without a proof file.
///
/// ```
/// impl TryFromParts for NonZeroU8 {
///     type Parts = u8;
///
///     ghost view = { non_zero_u8_get };
///
///     fn try_from_parts(number: u8) -> Option<NonZeroU8> {
///         NonZeroU8::new(number)
///     }
///
///     fn refusal() -> &'static str {
///         "Expected a non-zero value"
///     }
/// }
///
/// impl BorshDeserialize for NonZeroU8 {
///     fn deserialize_reader<R: Read>(alloc: Global, reader: &mut R) -> Result<NonZeroU8> {
///         read_checked(alloc, reader)
///     }
/// }
/// ```
pub trait TryFromParts: Sized {
    /// What is read: one value, or a tuple.
    type Parts: BorshDeserialize;

    /// The parts of a value.
    ghost view: { Self → Self.Parts };

    /// The value with these parts, if there is one. Left open: what `view` doesn't show.
    ///
    /// ```
    /// fn try_from_parts(number: u8) -> Option<NonZeroU8> {
    ///     NonZeroU8::new(number)
    /// }
    /// ```
    fn try_from_parts(parts: Self::Parts) -> Option<Self>
        ensures some { IfSome result (λ v. view v ≡ parts) }
        ensures none { IfNone result (
            (v : Self) → Self.Parts.codec.equivalent (view v) parts → ⊥) };

    /// The text of the error if there is none. Left open: any text.
    ///
    /// ```
    /// fn refusal() -> &'static str {
    ///     "Expected a non-zero value"
    /// }
    /// ```
    fn refusal() -> &'static str;
}

/// Decodes the parts, and puts the value together. The errors are those of the parts, and `InvalidData`
/// with the type's text if no value has these parts: then the parts are read, and the rest is left.
/// Left open: as of [`BorshDeserialize::deserialize_reader`].
///
/// ```
/// let number: NonZeroU8 = read_checked(alloc, reader)?;
/// ```
#[inline]
pub fn read_checked<T: TryFromParts, R: Read>(alloc: Global, reader: &mut R) -> Result<T>
    ensures { Decodes (contramap T.view T.Parts.codec) R.stream reader.old reader.new result }
{
    let parts = T::Parts::deserialize_reader(alloc, reader)?;
    match T::try_from_parts(parts) {
        Some(value) => Ok(value),
        None => Err(refused(T::refusal())),
    }
}
