// What is asked of a container that comes as bytes.
ghost use Rattle.std.specs.Prelude.{◌≡◌, true, Some, IfOk, IfErr, OnOk};
ghost use Rattle.std.specs.BTreeMap.{btree_map_len};
ghost use Rattle.borsh.specs.Errors.{error_kind};
ghost use Rattle.borsh.specs.Reading.{WhyNotDecoded};
ghost use Rattle.borsh_io.specs.Lines.{IsLine};
ghost use Rattle.borsh_walks.specs.Answers.{spoken, words_of};
ghost use Rattle.borsh_walks.specs.Counts.{SizeWork};
ghost use Rattle.borsh_walks.specs.RulesState.{RulesWork};
ghost use Rattle.borsh_schema.specs.Codecs.{container as container_codec};
ghost use Rattle.borsh_schema.specs.Containers.{language_of, root_of, map_of};
ghost use Rattle.borsh_check_lines.specs.Containers.{AnswersInquiry, CountsIfSized, CountsIfValid, OnlyNeeded, IsCountsText, counts_text};
ghost use Rattle.borsh_check_lines.specs.Digits.{digits_of};

use super::lines::{line_of, push_digits};
use super::requests::Inquiry;
use super::values::error_answer;
use borsh::from_slice;
use borsh::io::Error;
use borsh::schema::{
    BorshSchemaContainer, Expansions, SchemaContainerValidateError, SchemaMaxSerializedSizeError,
};
use borsh_walks::{Words, rules_in_words, size_in_words};
use std::alloc::{AllocError, Global};

/// The answer to a question about the container whose encoding the bytes are.
pub(crate) fn container_answer(
    alloc: Global,
    inquiry: Inquiry,
    bytes: &[u8],
) -> Result<Vec<u8>, AllocError>
    ensures answers { IfOk result (λ out. AnswersInquiry inquiry bytes.now out.items) }
    ensures line { IfOk result (λ out. IsLine out.items) }
{
    let container = match container_from(alloc, bytes) {
        Ok(container) => container,
        Err(e) => return error_answer(alloc, &e),
    };
    let root = container.declaration().as_str();
    match inquiry {
        Inquiry::Check => {
            let (_, words) = rules_in_words(alloc, root, container.as_map())?;
            words_line(alloc, &words)
        }
        Inquiry::Size => {
            let (_, words) = size_in_words(alloc, root, container.as_map())?;
            words_line(alloc, &words)
        }
        Inquiry::Counts => counts_answer(alloc, &container),
    }
}

/// The container whose encoding the bytes are.
fn container_from(alloc: Global, bytes: &[u8]) -> Result<BorshSchemaContainer, Error>
    ensures ok { IfOk result (λ c. container_codec.encoding c ≡ Some bytes.now) }
    ensures err { IfErr result (λ e. WhyNotDecoded container_codec true bytes.now (error_kind e)) }
{
    from_slice(alloc, bytes)
}

/// Words, and a name as digits behind them, if there is one.
fn words_line(alloc: Global, words: &Words) -> Result<Vec<u8>, AllocError>
    ensures { IfOk result (λ out. out.items ≡ spoken digits_of (words_of words.now)) }
{
    let mut out = line_of(alloc, words.text.as_bytes())?;
    let Some(name) = &words.name else {
        return Ok(out);
    };
    out.push(b' ')?;
    push_digits(alloc, name.as_bytes(), &mut out)?;
    Ok(out)
}

// ---- `counts`

/// How many definitions the two other questions visit: the rules (with their tests for zero size), then the size.
fn counts_answer(alloc: Global, container: &BorshSchemaContainer) -> Result<Vec<u8>, AllocError>
    ensures answers { IfOk result (λ out. IsCountsText container.now out.items) }
    ensures line { IfOk result (λ out. IsLine out.items) }
{
    let mut counts = Expansions::NONE;
    judge(alloc, container, &mut counts)?;
    measure(alloc, container, &mut counts)?;
    counts_line(alloc, counts)
}

/// Counts the definitions that the check of the rules visits. Fails only if an allocation fails.
fn judge(
    alloc: Global,
    container: &BorshSchemaContainer,
    counts: &mut Expansions,
) -> Result<(), AllocError>
    ensures bounded_work { RulesWork (language_of container.now) (root_of container.now)
        (btree_map_len (map_of container.now)) counts.old counts.new }
    ensures rules { OnOk result
        (CountsIfValid (language_of container.now) (root_of container.now) counts.old counts.new) }
{
    match container.validate_counted(alloc, counts) {
        Ok(()) => Ok(()),
        Err(SchemaContainerValidateError::OutOfMemory) => Err(AllocError),
        Err(_) => Ok(()),
    }
}

/// Counts the definitions that the size visits. Fails only if an allocation fails.
fn measure(
    alloc: Global,
    container: &BorshSchemaContainer,
    counts: &mut Expansions,
) -> Result<(), AllocError>
    ensures bounded_work { SizeWork (btree_map_len (map_of container.now)) counts.old counts.new }
    ensures needed { OnlyNeeded (language_of container.now) (root_of container.now) counts.old counts.new }
    ensures size { OnOk result
        (CountsIfSized (language_of container.now) (root_of container.now) counts.old counts.new) }
{
    match container.max_serialized_size_counted(alloc, counts) {
        Ok(_) => Ok(()),
        Err(SchemaMaxSerializedSizeError::OutOfMemory) => Err(AllocError),
        Err(_) => Ok(()),
    }
}

/// The counts in decimal.
fn counts_line(alloc: Global, counts: Expansions) -> Result<Vec<u8>, AllocError>
    ensures is { IfOk result (λ out. out.items ≡ counts_text counts) }
    ensures line { IfOk result (λ out. IsLine out.items) }
{
    let Expansions { size, zero, rules } = counts;
    let text = format!(in alloc; "rules {rules} zero {zero} size {size}")?;
    line_of(alloc, text.as_bytes())
}
