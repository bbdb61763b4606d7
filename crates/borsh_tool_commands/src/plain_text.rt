// Text that a terminal shows as it is.
ghost use Rattle.std.specs.Prelude.{◌≡◌, ◌++◌, ◌∷◌, ◌<◌, ◌≤◌, [], All, OnOk, decimal, flat_map};
ghost use Rattle.std.specs.Fmt.{signed_decimal};
ghost use Rattle.borsh_json.specs.Ascii.{IsPlain, is_printable as is_printable_byte};
ghost use Rattle.std.specs.Char.{digit_char};
ghost use Rattle.borsh_tool_commands.specs.Plain.{digits, escaped, quoted, name_text, is_word as is_word_byte, is_identifier as is_identifier_text};
ghost use Rattle.std.specs.List.{list_all};

use itoa::Buffer;
use std::alloc::{AllocError, Global};
use std::{fmt, str};

/// What adding to a text returns.
pub type Added = Result<(), AllocError>;

/// Text of printable ASCII and line feeds. So nothing in it can move a terminal's cursor, change its
/// colours or hide what follows, whatever names a container has.
#[derive(Debug, Drop)]
pub struct PlainText {
    text: Vec<u8>,
    ghost plain: { All IsPlain text.items },
}

impl PlainText {
    /// No text.
    pub fn new(alloc: Global) -> PlainText
        ensures { result.text.items ≡ [] }
    {
        PlainText {
            text: Vec::new(alloc),
        }
    }

    /// A text of printable ASCII and line feeds.
    pub fn of(text: Vec<u8>) -> PlainText
        requires { All IsPlain text.items }
        ensures { result.text.items ≡ text.items }
    {
        PlainText { text }
    }

    /// The text.
    pub fn as_bytes(&self) -> &[u8]
        ensures is { result.now ≡ self.now.text.items }
        ensures plain { All IsPlain result.now }
    {
        self.text.as_slice()
    }

    /// The same as bytes of its own.
    pub fn into_bytes(self) -> Vec<u8>
        ensures { result.items ≡ self.text.items }
    {
        self.text
    }

    /// Takes all of the text away, and keeps its room.
    pub fn clear(&mut self)
        ensures { self.new.text.items ≡ [] }
    {
        self.text.clear();
    }

    /// Adds a text, in which printable ASCII appears as it is, and any other byte as `\x` and two digits.
    pub fn push(&mut self, text: &str) -> Added
        ensures { OnOk result (self.new.text.items ≡ self.old.text.items ++ flat_map escaped text.now) }
    {
        let bytes = text.as_bytes();
        if are_printable(bytes) {
            return self.text.extend_from_slice(bytes);
        }
        for byte in bytes {
            self.push_byte(*byte)?;
        }
        Ok(())
    }

    /// Adds a number in decimal.
    pub fn push_number(&mut self, number: u64) -> Added
        ensures { OnOk result (self.new.text.items ≡ self.old.text.items ++ decimal number) }
    {
        let mut buffer = Buffer::new();
        self.push(buffer.format(number))
    }

    /// Adds a signed number in decimal.
    pub fn push_signed(&mut self, number: &i64) -> Added
        ensures { OnOk result (self.new.text.items
            ≡ self.old.text.items ++ flat_map escaped (signed_decimal number.now)) }
    {
        let alloc = *self.text.allocator();
        let text = format!(in alloc; "{number}")?;
        self.push(text.as_str())
    }

    /// Adds a name: an identifier as it is, and any other name in quotation marks, with a backslash
    /// before each quotation mark and backslash in it.
    pub fn push_name(&mut self, name: &str) -> Added
        ensures { OnOk result (self.new.text.items ≡ self.old.text.items ++ name_text name.now) }
    {
        if is_identifier(name) {
            return self.push(name);
        }
        self.push_quoted(name)
    }

    /// Adds a text in quotation marks, with a backslash before each quotation mark and backslash in it.
    pub fn push_quoted(&mut self, text: &str) -> Added
        ensures { OnOk result (self.new.text.items
            ≡ self.old.text.items ++ ((34 ∷ flat_map quoted text.now) ++ (34 ∷ []))) }
    {
        self.put(b'"')?;
        self.push_inner(text.as_bytes())?;
        self.put(b'"')
    }

    /// Adds bytes as hexadecimal digits.
    pub fn push_digits(&mut self, bytes: &[u8]) -> Added
        ensures { OnOk result (self.new.text.items ≡ self.old.text.items ++ flat_map digits bytes.now) }
    {
        for byte in bytes {
            self.push_hex(*byte)?;
        }
        Ok(())
    }

    fn push_hex(&mut self, byte: u8) -> Added
        ensures { OnOk result (self.new.text.items ≡ self.old.text.items ++ digits byte) }
    {
        self.text
            .extend_from_slice(&[digit(byte / 16), digit(byte % 16)])
    }

    /// Adds the bytes of a text that is in quotation marks.
    fn push_inner(&mut self, bytes: &[u8]) -> Added
        ensures { OnOk result (self.new.text.items ≡ self.old.text.items ++ flat_map quoted bytes.now) }
    {
        for byte in bytes {
            if *byte == b'"' || *byte == b'\\' {
                self.put(b'\\')?;
            }
            self.push_byte(*byte)?;
        }
        Ok(())
    }

    /// Ends the line.
    pub fn end_line(&mut self) -> Added
        ensures { OnOk result (self.new.text.items ≡ self.old.text.items ++ (10 ∷ [])) }
    {
        self.put(b'\n')
    }

    /// Adds a byte of a text.
    fn push_byte(&mut self, byte: u8) -> Added
        ensures { OnOk result (self.new.text.items ≡ self.old.text.items ++ escaped byte) }
    {
        if 32 <= byte && byte < 127 {
            return self.put(byte);
        }
        self.put(b'\\')?;
        self.put(b'x')?;
        self.push_hex(byte)
    }

    /// Adds a byte as it is.
    fn put(&mut self, byte: u8) -> Added
        requires { IsPlain byte }
        ensures { OnOk result (self.new.text.items ≡ self.old.text.items ++ (byte ∷ [])) }
    {
        self.text.push(byte)?;
        Ok(())
    }
}

/// What is written is added as by [`push`](PlainText::push). It fails only if an allocation does.
impl fmt::Write for PlainText {
    fn write_str(&mut self, text: &str) -> fmt::Result {
        self.push(text).map_err(|_| fmt::Error)
    }
}

impl fmt::Display for PlainText {
    fn fmt<W: fmt::Write>(&self, f: &mut fmt::Formatter<W>) -> fmt::Result {
        match str::from_utf8(self.as_bytes()) {
            Ok(text) => f.write_str(text),
            Err(_) => Err(fmt::Error),
        }
    }
}

/// A hexadecimal digit.
fn digit(number: u8) -> u8
    requires { number < 16 }
    ensures is { result ≡ digit_char number }
    ensures plain { IsPlain result }
{
    if number < 10 {
        b'0' + number
    } else {
        b'a' + (number - 10)
    }
}

/// Whether a name is letters, digits and underscores of ASCII, with no digit in front.
fn is_identifier(name: &str) -> bool
    ensures { result ≡ is_identifier_text name.now }
{
    match name.as_bytes() {
        [] => false,
        [first, ..] => !first.is_ascii_digit() && are_words(name.as_bytes()),
    }
}

/// Whether all bytes are printed as they are.
fn are_printable(bytes: &[u8]) -> bool
    ensures { result ≡ list_all is_printable_byte bytes.now }
{
    bytes.iter().all(|byte| 32 <= *byte && *byte < 127)
}

/// Whether all bytes are letters, digits and underscores.
fn are_words(bytes: &[u8]) -> bool
    ensures { result ≡ list_all is_word_byte bytes.now }
{
    bytes.iter().all(|byte| is_word(*byte))
}

fn is_word(byte: u8) -> bool
    ensures { result ≡ is_word_byte byte }
{
    byte.is_ascii_alphanumeric() || byte == b'_'
}
