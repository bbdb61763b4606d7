// JSON in printable ASCII.
ghost use Rattle.borsh_json.specs.Ascii.{AddsText, IsInLine, IsPlain, IsSameJson, character_text, is_plain, unit_text};
ghost use Rattle.std.specs.Char.{digit_char};
ghost use Rattle.std.specs.List.{list_all};
ghost use Rattle.std.specs.Prelude.{◌≡◌, ◌<◌, All, IfOk};

use std::alloc::{AllocError, Global};

/// JSON with `\u` and four digits, or two of these, for a character of a string that isn't printable ASCII. Between tokens a tab
/// or carriage return is a space. Determined: the text is printable ASCII and line feeds; if the other is JSON it is the same
/// JSON, and if that has no control characters it has none. Left open: memory; any other such text: tested.
///
/// ```
/// assert_eq!(rt; in_ascii(alloc, "\"h\u{e9}\"")?.as_slice(), b"\"h\\u00e9\"".as_slice());
/// ```
pub fn in_ascii(alloc: Global, json: &str) -> Result<Vec<u8>, AllocError>
    ensures plain { IfOk result (λ text. All IsPlain text.items) }
    ensures same { IfOk result (λ text. IsSameJson json.now text.items) }
    ensures line { All IsInLine json.now → IfOk result (λ text. All IsInLine text.items) }
{
    let mut text = Vec::with_capacity(alloc, json.len())?;
    for character in json.chars() {
        put_character(&mut text, character)?;
    }
    Ok(text)
}

/// Whether a text is printable ASCII and line feeds.
pub fn is_ascii(text: &str) -> bool
    ensures { result ≡ list_all is_plain text.now }
{
    text.as_bytes()
        .iter()
        .all(|byte| is_printed(u32::from(*byte)))
}

/// Whether it is a line feed or printable ASCII.
fn is_printed(number: u32) -> bool
    ensures { result ≡ is_plain number }
{
    number == 10 || (32 <= number && number < 127)
}

/// Adds what stands for a character.
fn put_character(text: &mut Vec<u8>, character: char) -> Result<(), AllocError>
    ensures { AddsText (character_text character) text.old.items text.new.items result }
{
    let number = u32::from(character);
    if is_printed(number) {
        return Ok(text.push(number as u8)?);
    }
    if number == 9 || number == 13 {
        return Ok(text.push(b' ')?);
    }
    if number < 65536 {
        return put_unit(text, number);
    }
    put_unit(text, 55296 + (number - 65536) / 1024)?;
    put_unit(text, 56320 + number % 1024)
}

/// Adds `\u` and four digits.
fn put_unit(text: &mut Vec<u8>, unit: u32) -> Result<(), AllocError>
    ensures { AddsText (unit_text unit) text.old.items text.new.items result }
{
    let escape = [
        b'\\',
        b'u',
        digit(unit / 4096 % 16),
        digit(unit / 256 % 16),
        digit(unit / 16 % 16),
        digit(unit % 16),
    ];
    Ok(text.extend_from_slice(escape.as_slice())?)
}

/// A hexadecimal digit.
fn digit(number: u32) -> u8
    requires { number < 16 }
    ensures { result ≡ digit_char number }
{
    if number < 10 {
        b'0' + number as u8
    } else {
        b'a' + (number - 10) as u8
    }
}
