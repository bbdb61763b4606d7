// Whole numbers as text.
ghost use Rattle.borsh_json.specs.Words.{FitsSigned, HasRank, InRange, IsLeading, HasNoLeadingZero, IsWhole, decimal, magnitude_of, number_found, number_kind, number_types, rank_of, raw, signed_decimal, w128, whole};
ghost use Rattle.std.specs.Prelude.{◌==◌, if◌then◌else◌, ◌≡◌, ◌<◌, ◌≤◌, ◌*◌, ◌^◌, ℕ, ℤ, List, Decides, MatchOption, false, length, take, true};

use crate::integers::Integer;
use itoa::Buffer;
use std::alloc::{AllocError, Global};

/// The whole numbers of a type.
#[derive(Clone, Copy)]
pub struct Number {
    pub size: u8,
    pub is_signed: bool,
    pub is_non_zero: bool,
}

impl Number {
    /// Those of the type of this name; none if it is no type of whole numbers, or has another size.
    pub fn named(name: &str, size: u8) -> Option<Number>
        ensures { number_found size result ≡ number_kind number_types name.now size }
    {
        match name {
            "u8" => sized(1, size, false, false),
            "u16" => sized(2, size, false, false),
            "u32" => sized(4, size, false, false),
            "u64" => sized(8, size, false, false),
            "u128" => sized(16, size, false, false),
            "i8" => sized(1, size, true, false),
            "i16" => sized(2, size, true, false),
            "i32" => sized(4, size, true, false),
            "i64" => sized(8, size, true, false),
            "i128" => sized(16, size, true, false),
            "NonZeroU8" => sized(1, size, false, true),
            "NonZeroU16" => sized(2, size, false, true),
            "NonZeroU32" => sized(4, size, false, true),
            "NonZeroU64" | "NonZeroUsize" => sized(8, size, false, true),
            "NonZeroU128" => sized(16, size, false, true),
            "NonZeroI8" => sized(1, size, true, true),
            "NonZeroI16" => sized(2, size, true, true),
            "NonZeroI32" => sized(4, size, true, true),
            "NonZeroI64" => sized(8, size, true, true),
            "NonZeroI128" => sized(16, size, true, true),
            _ => None,
        }
    }

    /// Whether its numbers are JSON strings, since many programs read JSON numbers of at most 64 bits.
    pub fn is_quoted(&self) -> bool
        ensures { Decides result (8 < self.now.size) }
    {
        self.size > 8
    }

    /// Whether its numbers may be JSON strings, since programs that read numbers as floats round them.
    pub fn is_long(&self) -> bool
        ensures { Decides result (self.now.size ≡ 8) }
    {
        self.size == 8
    }

    /// The number that the bytes encode, in decimal, as a text in the buffer.
    pub fn decimal<'b>(&self, buffer: &'b mut Buffer, bytes: &[u8]) -> &'b str
        ensures { length bytes.now ≤ 16 →
            IsWhole (length bytes.now) self.now.is_signed false result.now bytes.now }
    {
        Integer::decode(bytes, self.is_signed).decimal(buffer)
    }

    /// The bytes of the number that a text is, of which `size` count; none if it isn't a number of the type, in decimal
    /// as [`Number::decimal`] writes it.
    pub fn bytes(&self, text: &str) -> Option<[u8; 16]>
        ensures { self.now.size ≤ 16 → MatchOption result
            ((own : List ℕ) → IsWhole self.now.size self.now.is_signed self.now.is_non_zero text.now own → ⊥)
            (λ bytes. IsWhole self.now.size self.now.is_signed self.now.is_non_zero text.now (take self.now.size bytes)) }
    {
        let rank = self.rank_of(text)?;
        Some(self.of_rank(rank))
    }

    /// A number that is greater for a greater number of the type, of its text; none if it isn't a number of the type.
    pub fn rank_of(&self, text: &str) -> Option<u128>
        ensures { self.now.size ≤ 16 → MatchOption result
            ((own : List ℕ) → IsWhole self.now.size self.now.is_signed self.now.is_non_zero text.now own → ⊥)
            (λ r. HasRank self.now.size self.now.is_signed self.now.is_non_zero text.now r) }
    {
        if self.is_non_zero && text == "0" {
            return None;
        }
        if self.is_signed {
            let number = signed_of(text)?;
            if fits_signed(number, self.size) {
                Some(signed_rank(number))
            } else {
                None
            }
        } else {
            let number = unsigned_of(text)?;
            if is_below(number, self.size) {
                Some(number)
            } else {
                None
            }
        }
    }

    /// The bytes of the number of this rank, of which `size` count.
    pub fn of_rank(&self, rank: u128) -> [u8; 16]
        ensures { (text : List ℕ) → self.now.size ≤ 16 →
            HasRank self.now.size self.now.is_signed self.now.is_non_zero text rank →
            IsWhole self.now.size self.now.is_signed self.now.is_non_zero text (take self.now.size result) }
    {
        let turned = if self.is_signed { 1 << 127 } else { 0 };
        rank.wrapping_add(turned).to_le_bytes()
    }

    /// What is wanted of a key, as `keys that are whole numbers of 8 bits, unsigned`.
    pub fn wanted_key(&self, alloc: Global) -> Result<String, AllocError> {
        self.described(alloc, "keys that are whole numbers")
    }

    /// What is wanted of the text, as `a whole number of 8 bits, unsigned`.
    pub fn wanted(&self, alloc: Global) -> Result<String, AllocError> {
        if self.is_quoted() {
            self.described(alloc, "a decimal string")
        } else if self.is_long() {
            self.described(alloc, "a whole number, or a decimal string,")
        } else {
            self.described(alloc, "a whole number")
        }
    }

    fn described(&self, alloc: Global, what: &str) -> Result<String, AllocError> {
        let sign = if self.is_signed { "signed" } else { "unsigned" };
        let bits = u32::from(self.size) * 8;
        let zero = if self.is_non_zero { ", not zero" } else { "" };
        format!(in alloc; "{what} of {bits} bits, {sign}{zero}")
    }
}

fn sized(bytes: u8, size: u8, is_signed: bool, is_non_zero: bool) -> Option<Number>
    ensures { number_found size result ≡ (if bytes == size then whole bytes is_signed is_non_zero else raw size) }
{
    if bytes == size {
        Some(Number {
            size,
            is_signed,
            is_non_zero,
        })
    } else {
        None
    }
}

/// Whether a text begins as decimal numbers are printed: with a digit other than 0, perhaps after a minus, or is `0`.
fn is_plain(text: &[u8]) -> bool
    ensures { Decides result (HasNoLeadingZero text.now) }
{
    if text.is_empty() {
        return false;
    }
    match text[0] {
        b'0' => text.len() == 1,
        b'-' => text.len() > 1 && is_leading(text[1]),
        first => is_leading(first),
    }
}

fn is_leading(byte: u8) -> bool
    ensures { Decides result (IsLeading byte) }
{
    b'1' <= byte && byte <= b'9'
}

/// The number that a text is, in decimal as it is printed.
fn signed_of(text: &str) -> Option<i128>
    ensures { MatchOption result ((z : ℤ) → FitsSigned w128 z → text.now ≡ signed_decimal z → ⊥)
        (λ z. text.now ≡ signed_decimal z) }
{
    if is_plain(text.as_bytes()) {
        text.parse::<i128>().ok()
    } else {
        None
    }
}

/// The number that a text is, in decimal as it is printed.
fn unsigned_of(text: &str) -> Option<u128>
    ensures { MatchOption result ((n : ℕ) → n < 2 ^ 128 → text.now ≡ decimal n → ⊥)
        (λ n. text.now ≡ decimal n) }
{
    if is_plain(text.as_bytes()) {
        text.parse::<u128>().ok()
    } else {
        None
    }
}

/// Whether a number has at most so many bytes.
fn is_below(number: u128, size: u8) -> bool
    ensures { size ≤ 16 → Decides result (number < 256 ^ size) }
{
    size >= 16 || number >> (8 * size) == 0
}

/// Whether a number with a sign has at most so many bytes.
fn fits_signed(number: i128, size: u8) -> bool
    ensures { size ≤ 16 → Decides result (InRange size true number) }
{
    is_below(2 * magnitude(number), size)
}

/// The number, or one less than its absolute value if it is negative.
fn magnitude(number: i128) -> u128
    ensures value { result ≡ magnitude_of number }
    ensures small { result < 2 ^ 127 }
{
    if number < 0 {
        (-(number + 1)) as u128
    } else {
        number as u128
    }
}

/// A number without a sign that is greater for a greater number.
fn signed_rank(number: i128) -> u128
    ensures { result ≡ rank_of true number }
{
    if number < 0 {
        (1 << 127) - 1 - magnitude(number)
    } else {
        (1 << 127) + magnitude(number)
    }
}
