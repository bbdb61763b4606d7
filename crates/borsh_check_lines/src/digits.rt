// Bytes as hexadecimal digits.
ghost use Rattle.std.specs.Prelude.{◌≡◌, Ok, Err, IfOk, IfErr, MatchOption, ℕ, length};
ghost use Rattle.borsh_check_lines.specs.Digits.{bytes_written};

use hex::FromHexError;
use std::alloc::{AllocError, Global};

/// The bytes that the digits are: an even number of digits of either case, at least two, or `-` for no
/// bytes. `None` where they are none.
pub fn bytes_from(alloc: Global, digits: &[u8]) -> Result<Option<Vec<u8>>, AllocError>
    ensures { IfOk result (λ o. MatchOption o (bytes_written digits.now ≡ None)
        (λ bytes. bytes_written digits.now ≡ Some bytes.items)) }
{
    if digits == b"-".as_slice() {
        return Ok(Some(Vec::new(alloc)));
    }
    if digits.is_empty() {
        return Ok(None);
    }
    match hex::decode(alloc, digits) {
        Ok(bytes) => Ok(Some(bytes)),
        Err(FromHexError::OutOfMemory) => Err(AllocError),
        Err(_) => Ok(None),
    }
}
