// What is said of a text that isn't JSON: where, what was expected there, and what was met.
use std::alloc::{AllocError, Global};

/// The last sign in front of a place.
#[derive(Clone, Copy, PartialEq, Eq)]
enum Last {
    Nothing,
    Opening,
    Key,
    Colon,
    Value,
    Comma,
}

/// A place in a text, and what is in front of it.
#[derive(Clone, Copy)]
struct Place {
    offset: usize,
    last: Last,
    /// Whether the innermost of what is open is an object; none where nothing is open.
    is_object: Option<bool>,
}

/// How many bytes of what was met are shown at most.
const SHOWN: usize = 20;

/// What is said of a text that stops being JSON near a byte. Of a line alone, it has a column and no line.
pub(crate) fn not_json(
    alloc: Global,
    text: &str,
    near: usize,
    is_line: bool,
) -> Result<String, AllocError> {
    let place = wrong_place(alloc, text, near)?;
    let expected = expectation(place);
    let rest = text.get(place.offset..).unwrap_or("");
    let line_rest = rest.split('\n').next().unwrap_or(rest);
    let shown = line_rest
        .get(..line_rest.floor_char_boundary(SHOWN))
        .unwrap_or(line_rest);
    let met = if shown.is_empty() {
        String::from_str(alloc, "the end")?
    } else {
        format!(in alloc; "`{shown}`")?
    };
    let (line, column) = line_and_column(text, place.offset);
    if is_line {
        return format!(in alloc; "not JSON at column {column}: expected {expected}, met {met}");
    }
    format!(in alloc; "not JSON at line {line}, column {column}: expected {expected}, met {met}")
}

/// The first sign at a place or behind it that can't stand there. What is in front of the place is as in JSON.
fn wrong_place(alloc: Global, text: &str, near: usize) -> Result<Place, AllocError> {
    let mut open: Vec<bool> = Vec::new(alloc);
    let mut last = Last::Nothing;
    let mut is_string = false;
    let mut is_escaped = false;
    for (offset, byte) in text.as_bytes().iter().enumerate() {
        let is_object = open.last().copied();
        if is_string {
            if *byte == b'"' && !is_escaped {
                is_string = false;
                last = if is_object == Some(true) && last != Last::Colon {
                    Last::Key
                } else {
                    Last::Value
                };
            }
            is_escaped = *byte == b'\\' && !is_escaped;
            continue;
        }
        let may_separate = match *byte {
            b' ' | b'\t' | b'\n' | b'\r' => true,
            b',' => last == Last::Value && is_object.is_some(),
            b':' => last == Last::Key,
            _ => offset < near,
        };
        if !may_separate {
            return Ok(Place {
                offset,
                last,
                is_object,
            });
        }
        match *byte {
            b' ' | b'\t' | b'\n' | b'\r' => (),
            b'"' => is_string = true,
            b'[' | b'{' => {
                open.push(*byte == b'{')?;
                last = Last::Opening;
            }
            b']' | b'}' => {
                let _closed = open.pop();
                last = Last::Value;
            }
            b',' => last = Last::Comma,
            b':' => last = Last::Colon,
            _ => last = Last::Value,
        }
    }
    Ok(Place {
        offset: text.len(),
        last,
        is_object: open.last().copied(),
    })
}

/// What may stand at a place.
fn expectation(place: Place) -> &'static str {
    match (place.last, place.is_object) {
        (Last::Key, _) => "`:`",
        (Last::Opening, Some(true)) => "a key and `:`, or `}`",
        (Last::Opening, Some(false)) => "a value or `]`",
        (Last::Comma, Some(true)) => "a key and `:`",
        (Last::Value, Some(true)) => "`,` or `}`",
        (Last::Value, Some(false)) => "`,` or `]`",
        (Last::Value, None) => "the end",
        _ => "a value",
    }
}

/// The line and the column of a byte of a text, which count lines and characters from 1 on.
fn line_and_column(text: &str, offset: usize) -> (usize, usize) {
    let before = text.get(..offset).unwrap_or(text);
    let line = before.split('\n').count();
    let last = before.rsplit('\n').next().unwrap_or(before);
    (line, last.chars().count().saturating_add(1))
}
