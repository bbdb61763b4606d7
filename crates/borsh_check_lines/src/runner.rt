// A run over a reader and a writer.
ghost use Rattle.borsh_check_lines.specs.Answers.{Answers};
ghost use Rattle.borsh_check_lines.specs.Counts.{line_count};
ghost use Rattle.borsh_check_lines.specs.Runs.{Runs, RunsCounted};

use super::answerer::Answerer;
use super::replies::answer_chunk;
use borsh::io::{Read, Result, Write, flush_all, read_some};
use std::alloc::Global;

/// How many bytes are read at most at once.
const CHUNK: usize = 8192;

/// Answers each line of the reader's bytes by one line, and flushes the writer.
///
/// Lines end by a line feed; a last line without one counts if it isn't empty. An error means that an allocation failed, that the
/// reader or the writer failed, or that the writer was full. The lines that were answered by then are the first ones of the
/// input. Their answers were all written, or, if the writer or one of its allocations failed or it was full, a beginning of them.
/// Left open: as of [`run_counted`]; answers that were made and are dropped when memory runs out.
///
/// ```
/// let mut out = Vec::new(alloc);
/// run(alloc, &mut b"read u8 07\n".as_slice(), &mut out)?;
/// assert_eq!(rt; out.as_slice(), b"ok 07\n".as_slice());
/// ```
pub fn run<R: Read, W: Write>(alloc: Global, reader: &mut R, writer: &mut W) -> Result<()>
    ensures { Runs Answers W.writing (R.stream reader.old) (R.stream reader.new)
        writer.old writer.new result }
{
    run_counted(alloc, reader, writer, &mut Answerer::new())
}

/// As [`run`], with an answerer of the caller's. Its count rises by the number of lines that were answered. So no answer is lost
/// if the reader or an allocation fails, unless it is the writer's: as many were written. Left open: memory, after any number of
/// lines; how many bytes are read before the reader fails; a writer that isn't flushed; as of [`answer`](super::answers::answer).
pub fn run_counted<R: Read, W: Write>(
    alloc: Global,
    reader: &mut R,
    writer: &mut W,
    answerer: &mut Answerer,
) -> Result<()>
    ensures { RunsCounted Answers W.writing (R.stream reader.old) (R.stream reader.new)
        writer.old writer.new (line_count answerer.old) (line_count answerer.new) result }
{
    run_lines(alloc, reader, writer, answerer)?;
    flush_all(writer)
}

/// [`run_counted`] without the flush.
fn run_lines<R: Read, W: Write>(
    alloc: Global,
    reader: &mut R,
    writer: &mut W,
    answerer: &mut Answerer,
) -> Result<()>
    ensures { RunsCounted Answers W.writing (R.stream reader.old) (R.stream reader.new)
        writer.old writer.new (line_count answerer.old) (line_count answerer.new) result }
{
    let mut buffer = vec![in alloc; 0u8; CHUNK]?;
    let mut line = Vec::new(alloc);
    'chunks: loop {
        let n = read_some(reader, buffer.as_mut_slice())?;
        let mut answers = Vec::new(alloc);
        if n == 0 {
            if line.is_empty() {
                return Ok(());
            }
            answerer.answer(alloc, line.as_slice(), &mut answers)?;
            return writer.write_all(answers.as_slice());
        }
        let chunk = &buffer.as_slice()[..n];
        let outcome = answer_chunk(alloc, chunk, &mut line, answerer, &mut answers);
        writer.write_all(answers.as_slice())?;
        outcome?;
    }
}
