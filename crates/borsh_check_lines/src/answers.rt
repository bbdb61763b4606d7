// The answer to a line.
ghost use Rattle.std.specs.Prelude.{◌≡◌, true, codes, IfOk};
ghost use Rattle.borsh_check_lines.specs.Requests.{asked_by};
ghost use Rattle.borsh_check_lines.specs.Answers.{Answers, AnswersAsked};
ghost use Rattle.borsh_io.specs.Lines.{IsLine};

use super::containers::container_answer;
use super::lines::line_of;
use super::requests::Request;
use super::schemas::schema_answer;
use super::values::ValueQuestion;
use std::alloc::{AllocError, Global};

/// The answer to a line. It has no line feed. Left open: memory; the text behind `error`; which of several broken
/// rules or causes is answered; of `counts`, as of [`borsh::schema::check_rules`] and [`borsh::schema::root_size`].
///
/// ```
/// let reply = answer(alloc, b"read u8 07")?;
/// assert_eq!(rt; reply.as_slice(), b"ok 07".as_slice());
/// ```
pub fn answer(alloc: Global, line: &[u8]) -> Result<Vec<u8>, AllocError>
    ensures answers { IfOk result (λ out. Answers line.now out.items) }
    ensures line { IfOk result (λ out. IsLine out.items) }
{
    match Request::from_line(alloc, line)? {
        Some(request) => request_answer(alloc, &request),
        None => line_error(alloc),
    }
}

/// The answer to a line that is no command.
fn line_error(alloc: Global) -> Result<Vec<u8>, AllocError>
    ensures is { IfOk result (λ out. out.items ≡ codes "error line") }
    ensures line { IfOk result (λ out. IsLine out.items) }
{
    line_of(alloc, b"error line")
}

/// The answer to a command.
fn request_answer(alloc: Global, request: &Request) -> Result<Vec<u8>, AllocError>
    ensures answers { IfOk result (λ out. AnswersAsked (asked_by request.now) out.items) }
    ensures line { IfOk result (λ out. IsLine out.items) }
{
    match request {
        Request::Value {
            word,
            strict,
            bytes,
        } => word.ask(
            &ValueQuestion {
                strict: *strict,
                bytes,
            },
            alloc,
        ),
        Request::Schema { word } => schema_answer(alloc, *word),
        Request::About { inquiry, bytes } => container_answer(alloc, *inquiry, bytes),
    }
}
