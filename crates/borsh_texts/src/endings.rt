// Where what begins at a place of a text ends.

/// The byte at a place, if the text has one there.
pub fn byte_at(text: &[u8], at: usize) -> Option<u8> {
    Some(*text.get(at)?)
}

/// The text from a place on.
fn tail(text: &[u8], from: usize) -> &[u8] {
    if from < text.len() {
        &text[from..]
    } else {
        &[]
    }
}

/// The bytes between two places.
pub fn piece(text: &[u8], from: usize, to: usize) -> &[u8] {
    if from <= to && to <= text.len() {
        &text[from..to]
    } else {
        &[]
    }
}

pub fn is_blank(byte: u8) -> bool {
    byte <= b' '
}

pub fn is_digit(byte: u8) -> bool {
    byte.is_ascii_digit()
}

/// Whether a word has this byte: a letter, a digit, `_`, or a part of a character that isn't ASCII.
pub fn is_of_word(byte: u8) -> bool {
    byte.is_ascii_alphanumeric() || byte == b'_' || byte >= 128
}

pub fn word_end(text: &[u8], from: usize) -> usize {
    let rest = tail(text, from);
    let length = rest.iter().position(|byte| !is_of_word(*byte));
    from.saturating_add(length.unwrap_or(rest.len()))
}

pub fn blank_end(text: &[u8], from: usize) -> usize {
    let rest = tail(text, from);
    let length = rest.iter().position(|byte| !is_blank(*byte));
    from.saturating_add(length.unwrap_or(rest.len()))
}

/// The end of a comment that goes to the end of its line.
pub fn line_end(text: &[u8], from: usize) -> usize {
    let rest = tail(text, from);
    let length = rest.iter().position(|byte| *byte == b'\n');
    from.saturating_add(length.unwrap_or(rest.len()))
}

/// The end of a comment in brackets, which may contain others; none if it isn't closed.
pub fn comment_end(text: &[u8], from: usize) -> Option<usize> {
    let mut at = from;
    let mut open: usize = 0;
    for _ in 0..text.len() {
        match (byte_at(text, at)?, byte_at(text, at.saturating_add(1))) {
            (b'/', Some(b'*')) => {
                open = open.saturating_add(1);
                at = at.saturating_add(2);
            }
            (b'*', Some(b'/')) => {
                open = open.saturating_sub(1);
                at = at.saturating_add(2);
                if open == 0 {
                    return Some(at);
                }
            }
            _ => at = at.saturating_add(1),
        }
    }
    None
}

/// The end of a literal with escapes, behind its opening quote; none if it isn't closed.
pub fn quoted_end(text: &[u8], from: usize, quote: u8) -> Option<usize> {
    let mut at = from;
    for _ in 0..=text.len() {
        let byte = byte_at(text, at)?;
        at = at.saturating_add(if byte == b'\\' { 2 } else { 1 });
        if byte == quote {
            return Some(at);
        }
    }
    None
}

/// How many `#` begin at a place.
pub fn hashes_at(text: &[u8], from: usize) -> usize {
    let rest = tail(text, from);
    let count = rest.iter().position(|byte| *byte != b'#');
    count.unwrap_or(rest.len())
}

/// The end of a raw string with so many `#`, behind its opening quote; none if it isn't closed.
pub fn raw_end(text: &[u8], from: usize, hashes: usize) -> Option<usize> {
    for at in from..text.len() {
        let behind = at.saturating_add(1);
        if byte_at(text, at) == Some(b'"') && hashes_at(text, behind) >= hashes {
            return Some(behind.saturating_add(hashes));
        }
    }
    None
}

/// How many bytes the character has that begins with this one.
fn character_length(first: u8) -> usize {
    if first < 192 {
        1
    } else if first < 224 {
        2
    } else if first < 240 {
        3
    } else {
        4
    }
}

/// The end of a character or byte whose opening quote is at a place; none if no character is closed there, as at a lifetime.
pub fn character_end(text: &[u8], at: usize) -> Option<usize> {
    let inside = at.saturating_add(1);
    let first = byte_at(text, inside)?;
    if first == b'\\' {
        // Longer than each escape, so that a text of quotes isn't read again and again.
        let front = piece(text, 0, inside.saturating_add(24).min(text.len()));
        return quoted_end(front, inside, b'\'');
    }
    let behind = inside.saturating_add(character_length(first));
    if byte_at(text, behind) == Some(b'\'') {
        Some(behind.saturating_add(1))
    } else {
        None
    }
}
