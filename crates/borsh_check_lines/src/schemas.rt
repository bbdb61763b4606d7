// The schemas of the types that words name.
ghost use Rattle.std.specs.Prelude.{◌≡◌, Some, codes, IfOk};
ghost use Rattle.borsh_check_lines.specs.Digits.{digits_of};
ghost use Rattle.borsh_io.specs.Lines.{IsLine};
ghost use Rattle.borsh_check_lines.specs.Schemas.{AnswersSchema, AnswersSchemaOrClash};
ghost use Rattle.borsh_check_lines.specs.Words.{meaning};

use super::lines::{line_of, push_digits};
use super::words::{Question, Word};
use borsh::schema::{BorshSchema, SchemaBuildError};
use borsh::{BorshDeserialize, BorshSerialize, schema_container_of, to_vec};
use std::alloc::{AllocError, Global};

/// The container of the type that a word names, as digits, or that it has none. No word's type has two definitions of one name.
pub(crate) fn schema_answer(alloc: Global, word: Word) -> Result<Vec<u8>, AllocError>
    ensures answers { IfOk result (λ out. AnswersSchema (meaning word).schema out.items) }
    ensures line { IfOk result (λ out. IsLine out.items) }
{
    word.ask(&SchemaQuestion, alloc)
}

/// Which container describes the type.
#[derive(Drop)]
struct SchemaQuestion;

impl Question for SchemaQuestion {
    ghost answers = { λ _ meaning out. AnswersSchemaOrClash meaning.schema out };

    fn answer<T: BorshSerialize + BorshDeserialize + BorshSchema>(
        &self,
        alloc: Global,
    ) -> Result<Vec<u8>, AllocError> {
        container_of::<T>(alloc)
    }

    fn answer_without_schema<T: BorshSerialize + BorshDeserialize>(
        &self,
        alloc: Global,
    ) -> Result<Vec<u8>, AllocError> {
        line_of(alloc, b"error no schema")
    }
}

/// The container of a type, as digits, with an error for a type that has two definitions of one name.
fn container_of<T: BorshSchema>(alloc: Global) -> Result<Vec<u8>, AllocError>
    ensures answers { IfOk result (λ out. AnswersSchemaOrClash (Some (T.name, T.parts)) out.items) }
    ensures line { IfOk result (λ out. IsLine out.items) }
{
    let container = match schema_container_of::<T>(alloc) {
        Ok(container) => container,
        Err(SchemaBuildError::Redefinition(_)) => {
            return line_of(alloc, b"error two definitions of one name");
        }
        Err(SchemaBuildError::OutOfMemory) => return Err(AllocError),
    };
    match to_vec(alloc, &container) {
        Ok(bytes) => digits_line(alloc, &bytes),
        Err(_) => Err(AllocError),
    }
}

/// Bytes as digits.
fn digits_line(alloc: Global, bytes: &[u8]) -> Result<Vec<u8>, AllocError>
    ensures { IfOk result (λ out. out.items ≡ digits_of bytes.now) }
{
    let mut out = Vec::new(alloc);
    push_digits(alloc, bytes, &mut out)?;
    Ok(out)
}
