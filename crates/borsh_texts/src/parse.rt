// A text as a tree.
use crate::cursor::{Cursor, MAX_DEPTH};
use crate::error::{Expected, Stop, TextError, error_in};
use crate::token::Kind;
use borsh_source::Source;
use json::{Scratch, is_valid};
use std::alloc::Global;
use std::mem;

/// The items of Rust source text: structs, enums, aliases of types, and constants that are expressions of whole numbers, also in
/// modules; all else is passed over. A text that begins with `{` is an Anchor IDL, whose accounts begin with their eight bytes of
/// discriminator, or a schema object of borsh-js, whose own type is named `Schema`.
///
/// Memory is bounded by a multiple of the text's length. Left open: the tree, and which texts are refused: tested.
///
/// ```
/// let source = parse_items(alloc, "struct Point { x: u8, y: u8 }")?;
/// assert_eq!(rt; source.items.len(), 1);
/// ```
pub fn parse_items<'a>(alloc: Global, text: &'a str) -> Result<Source, TextError<'a>> {
    match items_of(alloc, text) {
        Ok(source) => Ok(source),
        Err(stop) => Err(error_in(text, stop)),
    }
}

/// Adds the type that a text is to a tree, where its lines count from 0, and gives its index there. After an error the tree may have more types and
/// expressions, which no item refers to.
///
/// Left open: the tree, and which texts are refused: tested.
///
/// ```
/// let root = parse_type(alloc, &mut source, "Vec<Point>")?;
/// ```
pub fn parse_type<'a>(
    alloc: Global,
    source: &mut Source,
    text: &'a str,
) -> Result<usize, TextError<'a>> {
    match type_of(alloc, source, text.as_bytes()) {
        Ok(index) => Ok(index),
        Err(stop) => Err(error_in(text, stop)),
    }
}

fn items_of(alloc: Global, text: &str) -> Result<Source, Stop> {
    let mut cursor = Cursor::new(alloc, text.as_bytes(), 1)?;
    if cursor.is_mark(b'{') {
        cursor.objects()?;
        // The tokens are Rust's, and have places.
        if !is_valid(text, &mut Scratch::new(alloc))? {
            cursor.go_back(0);
            return Err(cursor.refused(Expected::Json));
        }
    } else {
        cursor.items()?;
    }
    Ok(cursor.into_source())
}

fn type_of(alloc: Global, source: &mut Source, text: &[u8]) -> Result<usize, Stop> {
    let mut cursor = Cursor::new(alloc, text, 0)?;
    mem::swap(&mut cursor.source, source);
    let index = whole_type(&mut cursor);
    mem::swap(&mut cursor.source, source);
    index
}

/// The only type of a text.
fn whole_type(cursor: &mut Cursor<'_>) -> Result<usize, Stop> {
    let index = cursor.type_index(MAX_DEPTH)?;
    if cursor.kind() == Kind::End {
        Ok(index)
    } else {
        Err(cursor.refused(Expected::TextEnd))
    }
}
