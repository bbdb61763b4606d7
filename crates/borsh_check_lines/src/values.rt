// Bytes that are read as a value, which is written again.
ghost use Rattle.std.specs.Prelude.{◌≡◌, ◌≢◌, ◌++◌, true, codes, IfOk, IfErr};
ghost use Rattle.borsh.specs.Errors.{error_kind};
ghost use Rattle.borsh.specs.Reading.{WhyNotDecoded};
ghost use Rattle.borsh_check_lines.specs.Digits.{digits_of};
ghost use Rattle.borsh_check_lines.specs.Answers.{AnswersValue};
ghost use Rattle.borsh_io.specs.Lines.{IsLine};
ghost use Rattle.borsh_check_lines.specs.Lines.{IsErrorLine};

use super::ending::space_for_feed;
use super::lines::push_digits;
use super::words::Question;
use borsh::io::{Error, ErrorKind};
use borsh::schema::BorshSchema;
use borsh::{BorshDeserialize, BorshSerialize, from_slice, from_slice_unordered, to_vec};
use std::alloc::{AllocError, Global};

/// Which value the bytes decode to; `strict` if keys must be in ascending order.
#[derive(Drop)]
pub(crate) struct ValueQuestion<'a> {
    pub strict: bool,
    pub bytes: &'a [u8],
}

impl<'a> Question for ValueQuestion<'a> {
    ghost answers = { λ question meaning out.
        AnswersValue meaning.codec question.strict question.bytes.now out };

    fn answer<T: BorshSerialize + BorshDeserialize + BorshSchema>(
        &self,
        alloc: Global,
    ) -> Result<Vec<u8>, AllocError> {
        value_answer::<T>(alloc, self.strict, self.bytes)
    }

    fn answer_without_schema<T: BorshSerialize + BorshDeserialize>(
        &self,
        alloc: Global,
    ) -> Result<Vec<u8>, AllocError> {
        value_answer::<T>(alloc, self.strict, self.bytes)
    }
}

/// The answer to bytes that are to be decoded as a `T`; `strict` if keys must be in ascending order.
pub fn value_answer<T: BorshSerialize + BorshDeserialize>(
    alloc: Global,
    strict: bool,
    bytes: &[u8],
) -> Result<Vec<u8>, AllocError>
    ensures answers { IfOk result (λ out. AnswersValue T.codec strict bytes.now out.items) }
    ensures line { IfOk result (λ out. IsLine out.items) }
{
    let value: T = match value_from(alloc, strict, bytes) {
        Ok(value) => value,
        Err(e) => return error_answer(alloc, &e),
    };
    match to_vec(alloc, &value) {
        Ok(again) => ok_answer(alloc, &again),
        Err(_) => Err(AllocError),
    }
}

/// The value that all of the bytes decode to, in the strict or the unordered mode.
fn value_from<T: BorshDeserialize>(alloc: Global, strict: bool, bytes: &[u8]) -> Result<T, Error>
    ensures ok { IfOk result (λ v. T.codec.decodes strict bytes.now v) }
    ensures err { IfErr result (λ e. WhyNotDecoded T.codec strict bytes.now (error_kind e)) }
{
    if strict {
        from_slice(alloc, bytes)
    } else {
        from_slice_unordered(alloc, bytes)
    }
}

/// `ok` and the bytes as digits.
pub fn ok_answer(alloc: Global, bytes: &[u8]) -> Result<Vec<u8>, AllocError>
    ensures { IfOk result (λ out. out.items ≡ codes "ok " ++ digits_of bytes.now) }
{
    let length = bytes.len().saturating_mul(2).saturating_add(4);
    let mut out = Vec::with_capacity(alloc, length)?;
    out.extend_from_slice(b"ok ")?;
    push_digits(alloc, bytes, &mut out)?;
    Ok(out)
}

/// `error` and what the error displays, with a space for each line feed. Running out of memory is no answer, but an error.
pub fn error_answer(alloc: Global, error: &Error) -> Result<Vec<u8>, AllocError>
    ensures is { IfOk result (λ out. IsErrorLine out.items) }
    ensures kind { IfOk result (λ _. error_kind error.now ≢ ErrorKind.OutOfMemory) }
{
    if error.kind() == ErrorKind::OutOfMemory {
        return Err(AllocError);
    }
    let message = error.message();
    let mut out = Vec::with_capacity(alloc, message.len().saturating_add(7))?;
    out.extend_from_slice(b"error ")?;
    for byte in message.as_bytes() {
        out.push(space_for_feed(*byte))?;
    }
    Ok(out)
}
