// Random values of a name, made by its definitions.
use super::judge::Root;
use super::wrong::Wrong;
use borsh::schema::{Definition, LengthRange};
use borsh_walks::parts::referenced_part;
use std::alloc::Global;

/// How many definitions a value has at most.
const MOST_PARTS: usize = 10000;

const TEXTS: [&str; 8] = ["", "a", "é", "\"\\\n", "\u{1F4A9}", "\0", "text", "{}[]"];

/// The next of a row of numbers that look random (xorshift).
pub fn next_number(state: &mut u64) -> u64 {
    let mut number = *state;
    number ^= number << 13;
    number ^= number >> 7;
    number ^= number << 17;
    *state = number;
    number
}

// So many bytes: the first ones are those of `front`, the others `fill`.
fn put_bytes(bytes: &mut Vec<u8>, front: [u8; 8], fill: u8, width: u8) -> Result<(), Wrong> {
    for place in 0..width {
        let byte = front.get(usize::from(place)).copied().unwrap_or(fill);
        bytes.push(byte)?;
    }
    Ok(())
}

// A number or another primitive: a `bool` is 0 or 1, and a non-zero number isn't 0.
fn put_primitive(bytes: &mut Vec<u8>, name: &str, size: u8, state: &mut u64) -> Result<(), Wrong> {
    let lowest: u8 = if name.starts_with("NonZero") { 1 } else { 0 };
    for place in 0..size {
        let number = next_number(state) / 256;
        let byte = if name == "bool" {
            (number % 2) as u8
        } else {
            (number % 256) as u8
        };
        bytes.push(if place == 0 { byte | lowest } else { byte })?;
    }
    Ok(())
}

fn put_text(bytes: &mut Vec<u8>, state: &mut u64) -> Result<(), Wrong> {
    let index = next_number(state) % 8;
    let text = TEXTS.get(index as usize).copied().unwrap_or("");
    put_bytes(bytes, (text.len() as u64).to_le_bytes(), 0, 4)?;
    bytes.extend_from_slice(text.as_bytes())?;
    Ok(())
}

// At most three elements more than there have to be.
fn some_count(range: &LengthRange, state: &mut u64) -> u64 {
    let more = range.end.saturating_sub(range.start).min(3);
    range.start.saturating_add(next_number(state) % (more + 1))
}

// The parts are to be written in order, so that the last of `names` is the first of them.
fn push_parts<'a>(
    alloc: Global,
    names: &mut Vec<&'a str>,
    definition: &'a Definition,
) -> Result<(), Wrong> {
    let mut parts = Vec::new(alloc);
    for index in 0..MOST_PARTS {
        match referenced_part(definition, index) {
            Some(part) => parts.push(part)?,
            None => break,
        }
    }
    for part in parts.iter().rev() {
        names.push(*part)?;
    }
    Ok(())
}

// Writes what the definition encodes itself, and lists its parts.
fn put_front<'a>(
    alloc: Global,
    bytes: &mut Vec<u8>,
    names: &mut Vec<&'a str>,
    name: &str,
    definition: &'a Definition,
    state: &mut u64,
) -> Result<(), Wrong> {
    match definition {
        Definition::Primitive(size) => put_primitive(bytes, name, *size, state),
        Definition::Sequence {
            length_width,
            length_range,
            elements,
        } => {
            let count = some_count(length_range, state);
            put_bytes(bytes, count.to_le_bytes(), 0, *length_width)?;
            for _ in 0..count {
                names.push(elements.as_str())?;
            }
            Ok(())
        }
        Definition::Enum {
            tag_width,
            variants,
        } => {
            let index = next_number(state) % (variants.len() as u64).max(1);
            if let Some((tag, _, part)) = variants.get(index as usize) {
                let fill = if *tag < 0 { 255 } else { 0 };
                put_bytes(bytes, tag.to_le_bytes(), fill, *tag_width)?;
                names.push(part.as_str())?;
            }
            Ok(())
        }
        _ => push_parts(alloc, names, definition),
    }
}

/// A random value of the root whose texts are UTF-8, `bool`s 0 or 1, and non-zero numbers not 0. No row where a name has no
/// definition, or the value would have more parts than [`MOST_PARTS`].
pub fn member_of(root: &Root<'_>, state: &mut u64) -> Result<Vec<u8>, Wrong> {
    let mut bytes = Vec::new(root.alloc);
    let mut names: Vec<&str> = Vec::new(root.alloc);
    names.push(root.name)?;
    for _ in 0..MOST_PARTS {
        let Some(name) = names.pop() else {
            return Ok(bytes);
        };
        if name == "String" {
            put_text(&mut bytes, state)?;
            continue;
        }
        let Some(definition) = root.map.get(name) else {
            return Err(Wrong::NoRow);
        };
        put_front(root.alloc, &mut bytes, &mut names, name, definition, state)?;
    }
    Err(Wrong::NoRow)
}
