// Numbers as Rust spells them.
use crate::cursor::text_of;
use crate::endings::piece;

/// The number that is spelled so, with its radix, its underscores and its suffix; none if it isn't whole, or above 2^64 - 1.
pub fn number_of(spelling: &[u8]) -> Option<u64> {
    match spelling {
        [b'0', b'x', digits @ ..] => digits_of(digits, 16),
        [b'0', b'o', digits @ ..] => digits_of(digits, 8),
        [b'0', b'b', digits @ ..] => digits_of(digits, 2),
        _ => digits_of(spelling, 10),
    }
}

fn digits_of(digits: &[u8], radix: u64) -> Option<u64> {
    let mut number: u64 = 0;
    let mut is_empty = true;
    for (index, byte) in digits.iter().enumerate() {
        if *byte == b'_' {
            continue;
        }
        let Some(digit) = digit_of(*byte, radix) else {
            let is_suffix = is_suffix(piece(digits, index, digits.len()));
            return if is_suffix && !is_empty {
                Some(number)
            } else {
                None
            };
        };
        number = number.checked_mul(radix)?.checked_add(digit)?;
        is_empty = false;
    }
    if is_empty { None } else { Some(number) }
}

/// The digit of this radix that a byte is.
fn digit_of(byte: u8, radix: u64) -> Option<u64> {
    let digit = match byte {
        b'0'..=b'9' => u64::from(byte - b'0'),
        b'a'..=b'f' => u64::from(byte - b'a') + 10,
        b'A'..=b'F' => u64::from(byte - b'A') + 10,
        _ => return None,
    };
    if digit < radix { Some(digit) } else { None }
}

/// Whether this is the name of a type of whole numbers.
pub fn is_suffix(word: &[u8]) -> bool {
    matches!(
        text_of(word),
        "u8" | "u16"
            | "u32"
            | "u64"
            | "u128"
            | "usize"
            | "i8"
            | "i16"
            | "i32"
            | "i64"
            | "i128"
            | "isize"
    )
}
