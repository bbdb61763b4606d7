// Bytes and texts in pieces.
use super::wrong::Wrong;
use std::alloc::Global;

/// The bytes of a column: `-` for none, or pieces with `+` between them. A piece is hexadecimal digits, and `*` and how often
/// they come; or `FIRST..END/WIDTH`, each of these numbers in so many bytes.
pub fn bytes_of(alloc: Global, column: &str) -> Result<Vec<u8>, Wrong> {
    let mut bytes = Vec::new(alloc);
    if column == "-" {
        return Ok(bytes);
    }
    for piece in column.split('+') {
        match piece.split_once("..") {
            Some((first, rest)) => push_numbers(&mut bytes, first, rest)?,
            None => push_digits(alloc, &mut bytes, piece)?,
        }
    }
    Ok(bytes)
}

fn push_numbers(bytes: &mut Vec<u8>, first: &str, rest: &str) -> Result<(), Wrong> {
    let Some((end, width)) = rest.split_once('/') else {
        return Err(Wrong::NoRow);
    };
    let width = width.parse::<usize>()?;
    for number in first.parse::<u64>()?..end.parse::<u64>()? {
        for byte in number.to_le_bytes().iter().take(width) {
            bytes.push(*byte)?;
        }
    }
    Ok(())
}

fn push_digits(alloc: Global, bytes: &mut Vec<u8>, piece: &str) -> Result<(), Wrong> {
    let (digits, times) = repeated(piece);
    let Ok(part) = hex::decode(alloc, digits) else {
        return Err(Wrong::NoRow);
    };
    for _ in 0..times {
        bytes.extend_from_slice(part.as_slice())?;
    }
    Ok(())
}

/// The text of columns that are joined. One that ends with `*` and a number comes so often.
pub fn text_of(alloc: Global, columns: &[&str]) -> Result<String, Wrong> {
    let mut text = String::new(alloc);
    for column in columns {
        let (part, times) = repeated(column);
        for _ in 0..times {
            text.push_str(part)?;
        }
    }
    Ok(text)
}

/// A piece, and how often it comes.
fn repeated(piece: &str) -> (&str, u64) {
    if let Some((part, times)) = piece.rsplit_once('*') {
        if let Ok(times) = times.parse::<u64>() {
            return (part, times);
        }
    }
    (piece, 1)
}
