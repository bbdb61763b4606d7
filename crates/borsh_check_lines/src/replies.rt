// Answers to the lines of a piece of input.
ghost use Rattle.borsh_check_lines.specs.Answers.{Answers};
ghost use Rattle.borsh_check_lines.specs.Counts.{line_count};
ghost use Rattle.borsh_check_lines.specs.Lines.{AnswersChunk};

use super::answerer::Answerer;
use std::alloc::{AllocError, Global};

/// Appends to `out` the answers to the lines that end in `chunk`. `line` is the part of a line that
/// came before the chunk, and afterwards the part behind the chunk's last line feed.
///
/// If an allocation fails within a line, `out` has the answers to the lines before it.
pub(crate) fn answer_chunk(
    alloc: Global,
    chunk: &[u8],
    line: &mut Vec<u8>,
    answerer: &mut Answerer,
    out: &mut Vec<u8>,
) -> Result<(), AllocError>
    ensures { AnswersChunk Answers chunk.now line.old.items line.new.items out.old.items out.new.items
        (line_count answerer.old) (line_count answerer.new) result }
{
    for byte in chunk {
        if *byte != b'\n' {
            line.push(*byte)?;
            continue;
        }
        answerer.answer(alloc, line.as_slice(), out)?;
        line.clear();
    }
    Ok(())
}
