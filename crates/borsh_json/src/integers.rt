// Whole numbers that bytes encode.
ghost use Rattle.borsh_values.specs.Tags.{byte_as, number_of};
ghost use Rattle.borsh_json.specs.Integers.{IsEncoded, integer_of};
ghost use Rattle.borsh_json.specs.Words.{InRange, rank_of};
ghost use Rattle.std.specs.Fmt.{signed_decimal};
ghost use Rattle.std.specs.Prelude.{◌≡◌, ◌≤◌, ◌-◌, ℕ, Bool, Decides, length, map, pos, slice_index};

use itoa::Buffer;

/// A whole number.
#[derive(Clone, Copy)]
pub struct Integer {
    is_negative: bool,
    /// The number, or one less than its absolute value if it is negative.
    magnitude: u128,
}

impl Integer {
    /// The number that at most sixteen bytes encode, the lowest first.
    pub fn decode(bytes: &[u8], is_signed: bool) -> Integer
        ensures { length bytes.now ≤ 16 →
            IsEncoded (length bytes.now) is_signed (integer_of result) bytes.now }
    {
        let is_negative = is_signed && has_top_bit(bytes);
        Integer {
            is_negative,
            magnitude: magnitude_in(bytes, is_negative),
        }
    }

    pub fn is_zero(&self) -> bool
        ensures { Decides result (integer_of self.now ≡ pos 0) }
    {
        self.magnitude == 0 && !self.is_negative
    }

    /// The number in decimal, as a text in the buffer.
    pub fn decimal<'b>(&self, buffer: &'b mut Buffer) -> &'b str
        ensures { (n : ℕ) (signed : Bool) → n ≤ 16 → InRange n signed (integer_of self.now) →
            result.now ≡ signed_decimal (integer_of self.now) }
    {
        if self.is_negative {
            buffer.format((!self.magnitude).cast_signed())
        } else {
            buffer.format(self.magnitude)
        }
    }

    /// A number without a sign that is greater for a greater number of the type.
    pub fn rank(&self, is_signed: bool) -> u128
        ensures { (n : ℕ) → n ≤ 16 → InRange n is_signed (integer_of self.now) →
            result ≡ rank_of is_signed (integer_of self.now) }
    {
        if self.is_negative {
            ((1 << 127) - 1u128).wrapping_sub(self.magnitude)
        } else if is_signed {
            (1u128 << 127).wrapping_add(self.magnitude)
        } else {
            self.magnitude
        }
    }
}

/// Whether the highest bit of the last byte is set.
fn has_top_bit(bytes: &[u8]) -> bool
    ensures { Decides result (128 ≤ slice_index bytes.now (length bytes.now - 1)) }
{
    !bytes.is_empty() && bytes[bytes.len() - 1] >= 128
}

/// The number that the bytes encode, or their complements do.
fn magnitude_in(bytes: &[u8], is_negative: bool) -> u128
    ensures { length bytes.now ≤ 16 → result ≡ number_of (map (byte_as is_negative) bytes.now) }
{
    let mut value: u128 = 0;
    let mut place = bytes.len();
    while place > 0 {
        place -= 1;
        let byte = byte_as(bytes[place], is_negative);
        value = value.wrapping_mul(256).wrapping_add(u128::from(byte));
    }
    value
}

/// The byte, or its complement.
fn byte_as(byte: u8, is_negative: bool) -> u8
    ensures { result ≡ byte_as is_negative byte }
{
    if is_negative { 255 - byte } else { byte }
}
