// Bytes as hexadecimal digits.
ghost use Rattle.borsh_json.specs.Words.{IsHex, string};
ghost use Rattle.std.specs.Prelude.{IfOk, List, MatchOption, ℕ};

use hex::FromHexError;
use std::alloc::{AllocError, Global};

/// The bytes that `0x` and digits say; none if the text isn't these.
pub fn hexadecimal(alloc: Global, text: &str) -> Result<Option<Vec<u8>>, AllocError>
    ensures { IfOk result (λ found. MatchOption found
        ((bytes : List ℕ) → IsHex (string text.now) bytes → ⊥)
        (λ bytes. IsHex (string text.now) bytes.items)) }
{
    let Some(digits) = text.strip_prefix("0x") else {
        return Ok(None);
    };
    match hex::decode(alloc, digits) {
        Ok(bytes) => Ok(Some(bytes)),
        Err(FromHexError::OutOfMemory) => Err(AllocError),
        Err(_) => Ok(None),
    }
}
