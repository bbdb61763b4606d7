// Floating-point numbers: the bytes of their bits, the lowest first.
ghost use Rattle.std.specs.Prelude.{◌≡◌, Some};
ghost use Rattle.std.specs.Float.{NotNan};
ghost use Rattle.borsh_codec.specs.Types.Floats.{float32, float64};

use super::lengths::bytes_length;
use super::puts::put_bytes;
use super::raw_bytes::write_bytes;
use super::serialize::BorshSerialize;
use borsh_io::{Error, ErrorKind, Result, Write};
use std::alloc::Global;

/// The text for a NaN.
pub const ERROR_NAN_NOT_SERIALIZED: &str =
    "For portability reasons we do not allow to serialize NaNs.";

#[inline]
fn bytes_of_f32(value: f32) -> [u8; 4]
    requires { NotNan value }
    ensures { float32.encoding value ≡ Some result }
{
    value.to_le_bytes()
}

#[inline]
fn bytes_of_f64(value: f64) -> [u8; 8]
    requires { NotNan value }
    ensures { float64.encoding value ≡ Some result }
{
    value.to_le_bytes()
}

impl BorshSerialize for f32 {
    #[inline]
    fn serialize<W: Write>(&self, _alloc: Global, writer: &mut W) -> Result<()> {
        let value = *self;
        if value.is_nan() {
            return Err(Error::new(ErrorKind::InvalidData, ERROR_NAN_NOT_SERIALIZED));
        }
        write_bytes(&bytes_of_f32(value), writer)
    }

    #[inline]
    fn put(&self, room: &mut [u8]) -> Option<usize> {
        let value = *self;
        if value.is_nan() {
            return None;
        }
        put_bytes(&bytes_of_f32(value), room)
    }

    #[inline]
    fn encoded_length(&self) -> Option<u32> {
        let value = *self;
        if value.is_nan() {
            return None;
        }
        bytes_length(&bytes_of_f32(value))
    }
}

impl BorshSerialize for f64 {
    #[inline]
    fn serialize<W: Write>(&self, _alloc: Global, writer: &mut W) -> Result<()> {
        let value = *self;
        if value.is_nan() {
            return Err(Error::new(ErrorKind::InvalidData, ERROR_NAN_NOT_SERIALIZED));
        }
        write_bytes(&bytes_of_f64(value), writer)
    }

    #[inline]
    fn put(&self, room: &mut [u8]) -> Option<usize> {
        let value = *self;
        if value.is_nan() {
            return None;
        }
        put_bytes(&bytes_of_f64(value), room)
    }

    #[inline]
    fn encoded_length(&self) -> Option<u32> {
        let value = *self;
        if value.is_nan() {
            return None;
        }
        bytes_length(&bytes_of_f64(value))
    }
}
