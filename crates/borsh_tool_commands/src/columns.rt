// What each byte of a value is, as lines whose columns are aligned.
ghost use Rattle.borsh_plan.specs.Plan.{definitions_of, root_of};
ghost use Rattle.borsh_json.specs.Errors.{IsNoRowsReason};
ghost use Rattle.borsh_tool_commands.specs.Colored.{IsShowFailure, Paints, has_colors, printed_colors};
ghost use Rattle.borsh_tool_commands.specs.Many.{WritesMade, IsUnwritten};
ghost use Rattle.borsh_walks.specs.Container.{Member};
ghost use Rattle.std.specs.Prelude.{◌≡◌, [], IfErr, OnErr, OnOk};

use super::colors::{Color, ColoredText};
use super::failure::Failure;
use super::plain_text::{Added, PlainText};
use super::values::no_value;
use borsh::io::Write as WriteBytes;
use borsh_json::{JsonError, Rows, value_of};
use borsh_values::{Node, Path, Plan};
use borsh_walks::Definition;
use itoa::Buffer;
use std::alloc::{AllocError, Global};
use std::fmt::Write;

/// How wide a column is at most. What is wider moves the rest of its line.
const WIDEST: usize = 64;

/// As many spaces, and two more.
const SPACES: &str = "                                                                  ";

/// How many bytes of a row are shown.
const SHOWN_BYTES: usize = 16;

/// How many bytes of lines are kept until they are written.
const ROOM: usize = 65536;

/// The widths of the columns that have another one behind them.
#[derive(Clone, Copy, Default)]
struct Widths {
    bytes: usize,
    path: usize,
    name: usize,
}

/// Writes a line for each row of the value of the plan's root that the bytes are. The rows are gone over twice.
pub(crate) fn write_rows<'a, W: WriteBytes>(
    alloc: Global,
    plan: &Plan<'_>,
    path: &'a str,
    bytes: &[u8],
    is_colored: bool,
    out: &mut W,
) -> Result<(), Failure<'a>>
    ensures member { OnOk result (Member (definitions_of plan.now) (root_of plan.now) bytes.now) }
    ensures painted { Paints W.writing is_colored out.old out.new result }
    ensures err { IfErr result (IsShowFailure (definitions_of plan.now) (root_of plan.now) path.now bytes.now) }
{
    let widths = match widths_of(alloc, plan, bytes) {
        Ok(widths) => widths,
        Err(error) => return Err(no_value(alloc, path, error)),
    };
    let mut rows = match Rows::new(alloc, plan, bytes) {
        Ok(rows) => rows,
        Err(error) => return Err(no_value(alloc, path, error)),
    };
    let mut text = PlainText::new(alloc);
    let mut made = ColoredText::new(alloc, is_colored);
    for _ in 0..u64::MAX {
        match rows.next() {
            Ok(Some(row)) => {
                let value = value_of(alloc, plan.map(), &row);
                push_row(&row, rows.path(), value, widths, &mut text, &mut made)?;
                if made.as_bytes().len() >= ROOM {
                    write_made(&mut made, out)?;
                }
            }
            Ok(None) => return write_made(&mut made, out),
            Err(error) => return Err(no_value(alloc, path, error)),
        }
    }
    Err(Failure::OutOfMemory)
}

/// Writes the lines that were made.
fn write_made<'a, W: WriteBytes>(made: &mut ColoredText, out: &mut W) -> Result<(), Failure<'a>>
    ensures colored { has_colors made.new ≡ has_colors made.old }
    ensures none { printed_colors made.new ≡ [] }
    ensures unwritten { OnErr result (IsUnwritten result) }
    ensures flushes { WritesMade W.writing out.old out.new (printed_colors made.old) (printed_colors made.new) result }
{
    let outcome = out.write_all(made.as_bytes());
    made.clear();
    match outcome {
        Ok(()) => Ok(()),
        Err(error) => Err(Failure::Unwritten(error)),
    }
}

/// How wide the columns of the rows are.
fn widths_of<'a>(alloc: Global, plan: &Plan<'a>, bytes: &[u8]) -> Result<Widths, JsonError<'a>>
    ensures { IfErr result (IsNoRowsReason (definitions_of plan.now) (root_of plan.now) bytes.now) }
{
    let mut rows = Rows::new(alloc, plan, bytes)?;
    let mut text = PlainText::new(alloc);
    let mut widths = Widths::default();
    for _ in 0..u64::MAX {
        let Some(row) = rows.next()? else {
            return Ok(widths);
        };
        widths.bytes = widths.bytes.max(2 * row.bytes.len().min(SHOWN_BYTES + 1));
        text.clear();
        push_path(rows.path(), &mut text)?;
        widths.path = widths.path.max(text.as_bytes().len()).min(WIDEST);
        text.clear();
        text.push_name(row.name)?;
        widths.name = widths.name.max(text.as_bytes().len()).min(WIDEST);
    }
    Err(JsonError::OutOfMemory)
}

/// Adds the offset, the first bytes, the path, the type and the value, as a line.
fn push_row(
    row: &Node<'_, '_>,
    path: &Path<'_>,
    value: Result<String, AllocError>,
    widths: Widths,
    text: &mut PlainText,
    out: &mut ColoredText,
) -> Result<(), AllocError>
    ensures { has_colors out.new ≡ has_colors out.old }
{
    text.clear();
    push_offset(row.offset, text)?;
    out.push(text)?;
    text.clear();
    push_bytes(row.bytes, text)?;
    out.push_in(Color::Yellow, text)?;
    push_gap(text, 0, widths.bytes)?;
    let start = text.as_bytes().len();
    push_path(path, text)?;
    out.push(text)?;
    push_gap(text, start, widths.path)?;
    out.push(text)?;
    text.clear();
    text.push_name(row.name)?;
    out.push_in(Color::Cyan, text)?;
    let value = value?;
    if !value.is_empty() {
        push_gap(text, 0, widths.name)?;
        out.push(text)?;
        text.clear();
        push_value(row.definition, value.as_str(), text)?;
        out.push_in(Color::Green, text)?;
    }
    text.clear();
    text.end_line()?;
    out.push(text)
}

fn push_offset(offset: usize, text: &mut PlainText) -> Added {
    let mut buffer = Buffer::new();
    let number = buffer.format(offset);
    text.push(spaces(8usize.saturating_sub(number.len())))?;
    text.push(number)?;
    text.push("  ")
}

/// Adds the first bytes as digits, and two dots where there are more.
fn push_bytes(bytes: &[u8], text: &mut PlainText) -> Added {
    let shown = bytes.len().min(SHOWN_BYTES);
    text.push_digits(&bytes[..shown])?;
    text.push(if bytes.len() > shown { ".." } else { "" })
}

/// Adds a path as it is written.
fn push_path(path: &Path<'_>, text: &mut PlainText) -> Added {
    write!(text, "{path}").map_err(|_| AllocError)
}

/// Adds what the bytes of a row say: texts, and names of variants that aren't identifiers, in quotation marks.
fn push_value(definition: &Definition, value: &str, text: &mut PlainText) -> Added {
    if let Definition::Enum { .. } = definition {
        return text.push_name(value);
    }
    match value
        .strip_prefix('"')
        .and_then(|rest| rest.strip_suffix('"'))
    {
        Some(inner) => text.push_quoted(inner),
        None => text.push(value),
    }
}

/// Puts the spaces between a column's text, which begins at `start`, and the next column in place of the text.
fn push_gap(text: &mut PlainText, start: usize, width: usize) -> Added {
    let length = text.as_bytes().len().saturating_sub(start);
    let gap = width.saturating_sub(length);
    text.clear();
    text.push(spaces(gap.saturating_add(2)))
}

fn spaces(count: usize) -> &'static str {
    SPACES.get(..count).unwrap_or(SPACES)
}
