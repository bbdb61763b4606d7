// Floats, by their bytes.
ghost use Rattle.borsh_json.specs.Floats.{AreBitsOf, IsFloatText, IsNan, ReadsBack};
ghost use Rattle.borsh_json.specs.Printed.{IsMarked};
ghost use Rattle.borsh_json.specs.Words.{BeginsWith, Json, bytes_eq, float_of, float_size, infinity_of};
ghost use Rattle.json.specs.Print.{IsNumber};
ghost use Rattle.std.specs.Float.{Format};
ghost use Rattle.std.specs.Prelude.{◌≡◌, ◌==◌, ◌&&◌, ◌||◌, IfSome, MatchOption, codes, false, is_nan, length, option_map, true};

use fast_float::parse;
use json::Element;
use ryu::{Buffer, Float};
use std::num::{f32_from_bits_with_nan, f64_from_bits_with_nan};

/// Whether the primitive of this name and size is a float of the format.
pub fn is_float(name: &str, size: u8) -> bool
    ensures { result ≡ (bytes_eq name.now (codes "f32") && (size == 4)) || (bytes_eq name.now (codes "f64") && (size == 8)) }
{
    match size {
        4 => name == "f32",
        8 => name == "f64",
        _ => false,
    }
}

/// The shortest text that reads back as the float of these bytes, `inf` or `-inf`; none of a NaN.
pub fn shortest<'b>(bytes: &[u8], buffer: &'b mut Buffer) -> Option<&'b str>
    ensures float { (f : Format) → length bytes.now ≡ float_size f →
        MatchOption result (IsNan f bytes.now) (λ s. IsFloatText f bytes.now s.now) }
    ensures marked { IfSome result (λ s. IsNumber s.now → IsMarked s.now) }
{
    match bytes {
        [a, b, c, d] => {
            let bits = u32::from_le_bytes([*a, *b, *c, *d]);
            text_of(f32_from_bits_with_nan(bits), buffer)
        }
        [a, b, c, d, e, f, g, h] => {
            let bits = u64::from_le_bytes([*a, *b, *c, *d, *e, *f, *g, *h]);
            text_of(f64_from_bits_with_nan(bits), buffer)
        }
        _ => None,
    }
}

/// The shortest text that reads back as the float; none of a NaN.
fn text_of<'b, T: Float>(value: T, buffer: &'b mut Buffer) -> Option<&'b str>
    ensures float { MatchOption result (is_nan (T.value value) ≡ true)
        (λ s. (is_nan (T.value value) ≡ false) × ReadsBack T.format (T.value value) s.now) }
    ensures marked { IfSome result (λ s. IsNumber s.now → IsMarked s.now) }
{
    if value.is_number() {
        Some(buffer.format(value))
    } else {
        None
    }
}

/// The bits of the float of so many bytes that JSON is: the one nearest to a number, or an infinity by its word; no NaN.
pub fn bits_of(size: u8, element: &Element<'_, '_>) -> Option<u64>
    ensures { (f : Format) (j : Json) → size ≡ float_size f → BeginsWith element.now j → AreBitsOf f j result }
{
    if size == 4 {
        bits_in::<f32>(element)
    } else {
        bits_in::<f64>(element)
    }
}

fn bits_in<T: Float>(element: &Element<'_, '_>) -> Option<u64>
    ensures { (j : Json) → BeginsWith element.now j → AreBitsOf T.format j result }
{
    let value: T = float_in(element)?;
    if value.is_number() {
        Some(value.raw_bits())
    } else {
        None
    }
}

/// The float that JSON is.
fn float_in<T: Float>(element: &Element<'_, '_>) -> Option<T>
    ensures { (j : Json) → BeginsWith element.now j →
        option_map (λ v. T.value v) result ≡ float_of T.format j }
{
    match element.as_number() {
        Some(text) => parse(text).ok(),
        None => infinity_in(element.as_str()?),
    }
}

/// An infinity, by its word.
fn infinity_in<T: Float>(word: &str) -> Option<T>
    ensures { option_map (λ v. T.value v) result ≡ infinity_of word.now }
{
    if word == "inf" || word == "-inf" {
        parse(word).ok()
    } else {
        None
    }
}
