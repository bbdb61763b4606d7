// Lines of a reader. A line ends by a line feed; a last line without one counts if it isn't empty.
ghost use Rattle.borsh_io.specs.Lines.{IsLine};
ghost use Rattle.borsh_tool_commands.specs.Lines.{IsFirstLine, NextLine};
ghost use Rattle.borsh_tool_commands.specs.Many.{StopsNextLine};
ghost use Rattle.borsh_io.specs.Buffered.{held, piece, reader_of};
ghost use Rattle.std.specs.Prelude.{IfErr, IfOk, List, ℕ, ◌++◌, ◌<◌, ◌≡◌, ◌≢◌, ◌≤◌, false, length, slice_index, take, true};

use super::failure::Failure;
use borsh::io::{Buffered, Read};

/// How many bytes a line has at most.
pub const MOST_LINE: usize = 268435456;

/// Takes the next line, with its line feed, and returns whether there is one.
pub fn take_line<'a, R: Read + Drop>(
    input: &mut Buffered<R>,
    path: &'a str,
) -> Result<bool, Failure<'a>>
    ensures next { IfOk result (λ found. NextLine R.stream input.old input.new found) }
    ensures stops { IfErr result (StopsNextLine R.stream path.now input.old input.new) }
{
    let mut searched = 0;
    'reads: for _ in 0..u64::MAX {
        if take_held_line(input, searched) {
            return Ok(true);
        }
        searched = input.held().len();
        if MOST_LINE < searched {
            return Err(Failure::LongLine(path));
        }
        match input.read_more() {
            Ok(0) => {
                input.take(searched);
                return Ok(0 < searched);
            }
            Ok(_) => (),
            Err(error) => return Err(Failure::Unread(path, error)),
        }
    }
    Err(Failure::OutOfMemory)
}

/// The same of the bytes that are held, of which the first have no line feed.
pub fn take_held_line<R: Read + Drop>(input: &mut Buffered<R>, searched: usize) -> bool
    requires within { searched ≤ length (held input.old) }
    requires none { IsLine (take searched (held input.old)) }
    ensures reader { reader_of input.new ≡ reader_of input.old }
    ensures found { result ≡ true → (more : List ℕ) →
        IsFirstLine (piece input.new) (held input.old ++ more) (held input.new ++ more) }
    ensures none { result ≡ false → IsLine (held input.old) × (input.new ≡ input.old) }
{
    let rest = &input.held()[searched..];
    let length = line_length(rest);
    if length == rest.len() {
        return false;
    }
    input.take(searched + length + 1);
    true
}

/// How many bytes stand in front of the first line feed.
fn line_length(bytes: &[u8]) -> usize
    ensures within { result ≤ length bytes.now }
    ensures before { (k : ℕ) → k < result → slice_index bytes.now k ≢ 10 }
    ensures found { result < length bytes.now → slice_index bytes.now result ≡ 10 }
{
    for (i, byte) in bytes.iter().enumerate() {
        if *byte == b'\n' {
            return i;
        }
    }
    bytes.len()
}
