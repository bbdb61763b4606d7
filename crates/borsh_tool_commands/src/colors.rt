// Text that a terminal shows in colours.
ghost use Rattle.std.specs.Prelude.{◌≡◌, ◌++◌, [], All, OnOk, true};
ghost use Rattle.borsh_tool_commands.specs.Colors.{IsPainted, color_code, color_digit, painted as painted_text};
ghost use Rattle.borsh_json.specs.Ascii.{IsPlain};
ghost use Rattle.borsh_tool_commands.specs.Printed.{printed};

use super::plain_text::PlainText;
use std::alloc::{AllocError, Global};

/// The colour of a text.
#[derive(Clone, Copy, Debug, PartialEq, Eq)]
pub enum Color {
    Green,
    Yellow,
    Cyan,
    /// That of the terminal.
    Default,
}

/// Text of printable ASCII and line feeds, in colours or without any. So whatever names a container has, nothing but the
/// colours of this module changes how a terminal shows it.
#[derive(Debug, Drop)]
pub struct ColoredText {
    is_colored: bool,
    text: Vec<u8>,
    ghost painted: { IsPainted is_colored text.items },
}

impl ColoredText {
    /// No text; what is added to it has no colours if `is_colored` is false.
    pub fn new(alloc: Global, is_colored: bool) -> ColoredText
        ensures { (result.is_colored ≡ is_colored) × (result.text.items ≡ []) }
    {
        ColoredText {
            is_colored,
            text: Vec::new(alloc),
        }
    }

    /// The text, with the codes of its colours.
    pub fn as_bytes(&self) -> &[u8]
        ensures { result.now ≡ self.now.text.items }
    {
        self.text.as_slice()
    }

    /// Takes all of the text away, and keeps its room.
    pub fn clear(&mut self)
        ensures colored { self.new.is_colored ≡ self.old.is_colored }
        ensures none { self.new.text.items ≡ [] }
    {
        self.text.clear();
    }

    /// Adds a text in the terminal's own colour. If an allocation fails, nothing is added.
    pub fn push(&mut self, text: &PlainText) -> Result<(), AllocError>
        ensures colored { self.new.is_colored ≡ self.old.is_colored }
        ensures ok { OnOk result (self.new.text.items ≡ self.old.text.items ++ printed text.now) }
    {
        self.put(text.as_bytes())
    }

    /// Adds a text in a colour, or as [`push`](ColoredText::push) does if there are no colours. If an
    /// allocation fails, a beginning of it may be added.
    pub fn push_in(&mut self, color: Color, text: &PlainText) -> Result<(), AllocError>
        ensures colored { self.new.is_colored ≡ self.old.is_colored }
        ensures ok { OnOk result (self.new.text.items
            ≡ self.old.text.items ++ painted_text self.old.is_colored color (printed text.now)) }
    {
        if !self.is_colored {
            return self.put(text.as_bytes());
        }
        self.put_code(color)?;
        self.put(text.as_bytes())?;
        self.put_code(Color::Default)
    }

    /// Adds bytes as they are.
    fn put(&mut self, text: &[u8]) -> Result<(), AllocError>
        requires { All IsPlain text.now }
        ensures colored { self.new.is_colored ≡ self.old.is_colored }
        ensures ok { OnOk result (self.new.text.items ≡ self.old.text.items ++ text.now) }
    {
        self.text.extend_from_slice(text)
    }

    /// Adds the code of a colour.
    fn put_code(&mut self, color: Color) -> Result<(), AllocError>
        requires { self.old.is_colored ≡ true }
        ensures colored { self.new.is_colored ≡ self.old.is_colored }
        ensures ok { OnOk result (self.new.text.items ≡ self.old.text.items ++ color_code color) }
    {
        self.text
            .extend_from_slice(&[27, b'[', b'3', color_digit(color), b'm'])
    }
}

/// The digit that stands for a colour.
fn color_digit(color: Color) -> u8
    ensures { result ≡ color_digit color }
{
    match color {
        Color::Green => b'2',
        Color::Yellow => b'3',
        Color::Cyan => b'6',
        Color::Default => b'9',
    }
}
