// The errors of bytes that decode to no value.
ghost use Rattle.std.specs.Prelude.{◌≡◌, true, MatchResult};
ghost use Rattle.borsh_io.specs.Errors.{error_kind};
ghost use Rattle.borsh_codec.specs.Reading.{IsInvalidData};

use borsh_io::{Error, ErrorKind};
use std::alloc::AllocError;

/// The text if bytes are left over after the value.
pub const ERROR_NOT_ALL_BYTES_READ: &str = "Not all bytes read";

/// The text if the input ends within the value.
pub const ERROR_UNEXPECTED_LENGTH_OF_INPUT: &str = "Unexpected length of input";

/// The text for a non-zero number that is 0.
pub const ERROR_INVALID_ZERO_VALUE: &str = "Expected a non-zero value";

/// The text for a NaN.
pub const ERROR_NAN_NOT_DESERIALIZED: &str =
    "For portability reasons we do not allow to deserialize NaNs.";

/// The text for maps and sets whose keys don't strictly ascend, in strict mode.
pub const ERROR_WRONG_ORDER_OF_KEYS: &str = "keys were not serialized in ascending order";

/// The error for bytes that decode to no value: `InvalidData` with this text, or `OutOfMemory` if the
/// text could not be allocated. Left open: the text, which is tested.
///
/// ```
/// tag => Err(invalid_data(format!(in alloc; "Unexpected variant tag: {tag}"))),
/// ```
#[cold]
pub fn invalid_data(text: Result<String, AllocError>) -> Error
    ensures kind { IsInvalidData true (error_kind result) }
    ensures by_text { MatchResult text
        (λ _. error_kind result ≡ ErrorKind.InvalidData)
        (λ _. error_kind result ≡ ErrorKind.OutOfMemory) }
{
    match text {
        Ok(text) => Error::new(ErrorKind::InvalidData, text),
        Err(e) => Error::from(e),
    }
}

#[cold]
pub(crate) fn not_all_bytes_read() -> Error
    ensures { error_kind result ≡ ErrorKind.InvalidData }
{
    Error::new(ErrorKind::InvalidData, ERROR_NOT_ALL_BYTES_READ)
}

#[cold]
pub(crate) fn unexpected_length() -> Error
    ensures { error_kind result ≡ ErrorKind.InvalidData }
{
    Error::new(ErrorKind::InvalidData, ERROR_UNEXPECTED_LENGTH_OF_INPUT)
}

#[cold]
pub(crate) fn refused(text: &'static str) -> Error
    ensures { error_kind result ≡ ErrorKind.InvalidData }
{
    Error::new(ErrorKind::InvalidData, text)
}

#[cold]
pub(crate) fn wrong_order() -> Error
    ensures { error_kind result ≡ ErrorKind.InvalidData }
{
    Error::new(ErrorKind::InvalidData, ERROR_WRONG_ORDER_OF_KEYS)
}
