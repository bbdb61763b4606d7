// Why a text isn't JSON that is read.
ghost use Rattle.borsh_json.specs.Errors.{TellsNoJson};

use crate::error::{JsonError, Refusal};
use borsh_values::Path;
use json::{MAX_DEPTH, Reader, Scratch, Token};
use std::alloc::Global;

/// Why a text isn't JSON that is read: it nests too deep, or is wrong at a byte, where a token begins that can't follow.
pub fn why_not_json<'a>(alloc: Global, root: &'a str, text: &str) -> JsonError<'a>
    ensures { TellsNoJson root.now text.now result }
{
    let mut scratch = Scratch::new(alloc);
    let Ok(mut reader) = Reader::new(text, &mut scratch) else {
        return JsonError::OutOfMemory;
    };
    // Of each array and object that is open, whether it is an object.
    let mut open: Vec<bool> = Vec::new(alloc);
    let mut has_key = false;
    for _ in 0..u64::MAX {
        let offset = reader.offset();
        let Some(token) = reader.next() else {
            break;
        };
        if !may_follow(open.last().copied(), has_key, token) {
            return JsonError::NotJson(offset);
        }
        has_key = matches!(token, Token::Key(_));
        match token {
            Token::BeginArray | Token::BeginObject => {
                if open.len() >= MAX_DEPTH {
                    let steps = Vec::new(alloc);
                    return JsonError::Refused(Path { root, steps }, Refusal::TooDeep);
                }
                let Ok(()) = open.push(matches!(token, Token::BeginObject)) else {
                    return JsonError::OutOfMemory;
                };
            }
            Token::EndArray | Token::EndObject => {
                let _closed = open.pop();
            }
            _ => (),
        }
        // Nothing may follow the whole value.
        if open.is_empty() && !has_key {
            break;
        }
    }
    JsonError::NotJson(reader.offset())
}

/// Whether a token may follow in an object, in an array, or in front of the whole value; in an object behind a key or not.
fn may_follow(is_object: Option<bool>, has_key: bool, token: Token<'_>) -> bool {
    match token {
        Token::Bad => false,
        Token::Key(_) | Token::EndObject => is_object == Some(true) && !has_key,
        Token::EndArray => is_object == Some(false),
        _ => is_object != Some(true) || has_key,
    }
}
