// The tokens of a source text.
use borsh_source::Place;

/// What a token is.
#[derive(Clone, Copy, PartialEq, Eq)]
pub enum Kind {
    /// A name or a keyword, also `r#name`.
    Word,
    /// A number, with its suffix.
    Number,
    /// A string, a byte string, a character or a byte.
    Literal,
    /// `'a`.
    Lifetime,
    /// A character that is none of these.
    Mark(u8),
    /// The end of the text.
    End,
}

/// A token, and the bytes of the text that it stands in.
#[derive(Clone, Copy)]
pub struct Token {
    pub kind: Kind,
    pub place: Place,
    pub from: usize,
    pub to: usize,
}

/// The place behind bytes that begin at another.
pub fn place_behind(place: Place, bytes: &[u8]) -> Place {
    let mut line = place.line;
    let mut column = place.column;
    for byte in bytes {
        if *byte == b'\n' {
            line = line.saturating_add(1);
            column = 1;
        } else if !is_inside(*byte) {
            column = column.saturating_add(1);
        }
    }
    Place { line, column }
}

/// Whether it is a byte of a character behind its first one.
fn is_inside(byte: u8) -> bool {
    128 <= byte && byte < 192
}
