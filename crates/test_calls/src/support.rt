// What fails a test, and says which check it was.
use borsh::io::{ErrorKind, Result as IoResult};
use borsh::{BorshDeserialize, BorshSerialize, from_slice, object_length, to_vec};
use std::alloc::Global;
use std::test::Fail;

pub(crate) const SHORT: &str = "Unexpected length of input";

pub(crate) const LONG: &str = "Not all bytes read";

pub(crate) const FULL: &str = "failed to write whole buffer";

/// 12 as a number of eight bytes.
pub(crate) const TWELVE: [u8; 8] = [12, 0, 0, 0, 0, 0, 0, 0];

/// Fails unless the condition holds, with the name of the check and a number that says which one it is, or what was found.
pub(crate) fn check(holds: bool, name: &str, number: usize) -> Result<(), Fail> {
    if holds {
        Ok(())
    } else {
        Err(Fail::new(format_args!("{name}: {number}")))
    }
}

/// An owned copy of a text.
pub(crate) fn owned_text(alloc: Global, text: &str) -> Result<String, Fail> {
    Ok(String::from_str(alloc, text)?)
}

/// Fails unless the text that was found is the one that is wanted.
pub(crate) fn check_text(found: &str, wanted: &str) -> Result<(), Fail> {
    if found == wanted {
        Ok(())
    } else {
        Err(Fail::new(format_args!("{found:?} and not {wanted:?}")))
    }
}

/// Whether the outcome is an error of this kind with this text.
pub(crate) fn is_error<T>(outcome: &IoResult<T>, kind: ErrorKind, text: &str) -> bool {
    match outcome {
        Ok(_) => false,
        Err(e) => e.kind() == kind && e.message() == text,
    }
}

/// Whether the outcome is a refusal of bytes or of a value, with this text.
pub(crate) fn is_invalid<T>(outcome: &IoResult<T>, text: &str) -> bool {
    is_error(outcome, ErrorKind::InvalidData, text)
}

/// Whether the outcome is an error of this kind without a text of its own.
pub(crate) fn is_kind_alone<T>(outcome: &IoResult<T>, kind: ErrorKind) -> bool {
    match outcome {
        Ok(_) => false,
        Err(e) => e.kind() == kind && e.get_ref().is_none() && e.message() == kind.as_str(),
    }
}

/// Whether the value is encoded as these bytes.
pub(crate) fn is_written<T: BorshSerialize>(
    alloc: Global,
    value: &T,
    bytes: &[u8],
) -> Result<bool, Fail> {
    let written = to_vec(alloc, value)?;
    Ok(written.as_slice() == bytes && object_length(alloc, value)? == bytes.len())
}

/// Fails unless the value is encoded as these bytes.
pub(crate) fn check_written<T: BorshSerialize>(
    alloc: Global,
    name: &str,
    value: &T,
    bytes: &[u8],
) -> Result<(), Fail> {
    check(is_written(alloc, value, bytes)?, name, bytes.len())
}

/// Fails unless the value is encoded as these bytes, and an equal one is decoded from them.
pub(crate) fn check_value<T: BorshSerialize + BorshDeserialize + PartialEq>(
    alloc: Global,
    name: &str,
    value: T,
    bytes: &[u8],
) -> Result<(), Fail> {
    let is_read = from_slice::<T>(alloc, bytes)? == value;
    check(
        is_read && is_written(alloc, &value, bytes)?,
        name,
        bytes.len(),
    )
}
