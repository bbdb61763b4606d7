// A source text as tokens.
use crate::endings::{
    blank_end, byte_at, character_end, comment_end, hashes_at, is_blank, is_digit, is_of_word,
    line_end, piece, quoted_end, raw_end, word_end,
};
use crate::error::{Expected, Refusal, Stop};
use crate::token::{Kind, Token, place_behind};
use borsh_source::Place;
use std::alloc::Global;

/// A token without its line and column: what it is, and the bytes that it stands in.
type Span = (Kind, usize, usize);

/// The tokens of a text, whose first line has this number, without blanks and comments; the last one is its end.
pub fn tokens_of(alloc: Global, text: &[u8], line: u32) -> Result<Vec<Token>, Stop> {
    let mut tokens = Vec::new(alloc);
    let mut place = Place { line, column: 1 };
    let mut at = 0;
    for _ in 0..=text.len() {
        let (kind, from, to) = next_span(text, at)?;
        place = place_behind(place, piece(text, at, from));
        tokens.push(Token {
            kind,
            place,
            from,
            to,
        })?;
        if kind == Kind::End {
            break;
        }
        place = place_behind(place, piece(text, from, to));
        at = to;
    }
    Ok(tokens)
}

/// The next token from a place on.
fn next_span(text: &[u8], from: usize) -> Result<Span, Stop> {
    let at = next_place(text, from)?;
    span_at(text, at)
}

/// Where the next token begins.
fn next_place(text: &[u8], from: usize) -> Result<usize, Stop> {
    let mut at = from;
    for _ in 0..=text.len() {
        match (byte_at(text, at), byte_at(text, at.saturating_add(1))) {
            (Some(b'/'), Some(b'/')) => at = line_end(text, at),
            (Some(b'/'), Some(b'*')) => {
                at = closed(comment_end(text, at), at, 2, Expected::CommentEnd)?;
            }
            (Some(byte), _) if is_blank(byte) => at = blank_end(text, at),
            _ => return Ok(at),
        }
    }
    Ok(at)
}

/// The token at a place that is no blank and no comment.
fn span_at(text: &[u8], at: usize) -> Result<Span, Stop> {
    match byte_at(text, at) {
        None => Ok((Kind::End, at, at)),
        Some(b'"') => string_at(text, at, at),
        Some(b'\'') => Ok(quote_at(text, at)),
        Some(byte) if is_digit(byte) => Ok((Kind::Number, at, word_end(text, at))),
        Some(byte) if is_of_word(byte) => word_at(text, at),
        Some(byte) => Ok((Kind::Mark(byte), at, at.saturating_add(1))),
    }
}

/// The end that was found, or the refusal of what begins at a place and isn't closed.
fn closed(end: Option<usize>, at: usize, length: usize, expected: Expected) -> Result<usize, Stop> {
    match end {
        Some(end) => Ok(end),
        None => Err(Stop::Refused(Refusal {
            from: at,
            to: at.saturating_add(length),
            expected,
        })),
    }
}

/// The string that begins at a place, with its opening quote at another.
fn string_at(text: &[u8], from: usize, quote: usize) -> Result<Span, Stop> {
    let end = quoted_end(text, quote.saturating_add(1), b'"');
    Ok((
        Kind::Literal,
        from,
        closed(end, quote, 1, Expected::StringEnd)?,
    ))
}

/// The raw string that begins at a place, with its `#`s, if it has any, at another.
fn raw_string_at(
    text: &[u8],
    from: usize,
    hashes_from: usize,
    hashes: usize,
) -> Result<Span, Stop> {
    let quote = hashes_from.saturating_add(hashes);
    let end = raw_end(text, quote.saturating_add(1), hashes);
    Ok((
        Kind::Literal,
        from,
        closed(end, quote, 1, Expected::StringEnd)?,
    ))
}

/// The character or lifetime at a quote.
fn quote_at(text: &[u8], at: usize) -> Span {
    match character_end(text, at) {
        Some(end) => (Kind::Literal, at, end),
        None => (Kind::Lifetime, at, word_end(text, at.saturating_add(1))),
    }
}

/// The word at a place, or the literal whose prefix it is.
fn word_at(text: &[u8], at: usize) -> Result<Span, Stop> {
    let end = word_end(text, at);
    let word = piece(text, at, end);
    let is_raw = word == b"r".as_slice() || word == b"br".as_slice() || word == b"cr".as_slice();
    let is_prefix = is_raw || word == b"b".as_slice() || word == b"c".as_slice();
    match byte_at(text, end) {
        Some(b'"') if is_raw => raw_string_at(text, at, end, 0),
        Some(b'"') if is_prefix => string_at(text, at, end),
        Some(b'\'') if word == b"b".as_slice() => Ok(byte_literal_at(text, at, end)),
        Some(b'#') if is_raw => hashes_behind(text, at, end),
        _ => Ok((Kind::Word, at, end)),
    }
}

/// The byte with its prefix at a place, or the prefix as a word.
fn byte_literal_at(text: &[u8], at: usize, quote: usize) -> Span {
    match character_end(text, quote) {
        Some(end) => (Kind::Literal, at, end),
        None => (Kind::Word, at, quote),
    }
}

/// The raw string or the raw word whose prefix is at a place, and whose first `#` at another.
fn hashes_behind(text: &[u8], at: usize, end: usize) -> Result<Span, Stop> {
    let hashes = hashes_at(text, end);
    let behind = end.saturating_add(hashes);
    match byte_at(text, behind) {
        Some(b'"') => raw_string_at(text, at, end, hashes),
        Some(byte) if hashes == 1 && is_of_word(byte) && !is_digit(byte) => {
            Ok((Kind::Word, at, word_end(text, behind)))
        }
        _ => Ok((Kind::Word, at, end)),
    }
}
