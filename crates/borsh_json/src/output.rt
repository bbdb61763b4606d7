// The JSON text that is being written.
ghost use Rattle.borsh_json.specs.Leaves.{Adds, Holds, long_of, long_token};
ghost use Rattle.borsh_json.specs.Printed.{laid_out};
ghost use Rattle.borsh_json.specs.declared.output.Output.TheVariants.{Nothing};
ghost use Rattle.json.specs.Lex.{tokens};
ghost use Rattle.json.specs.Print.{IsNumber, IsPrintable};
ghost use Rattle.json.specs.Reads.{token_of};
ghost use Rattle.json.specs.Token.{Token as TokenOf};
ghost use Rattle.std.specs.Prelude.{◌≡◌, ◌∷◌, [], IfSome, IsUtf8, List, OnOk, true};

use json::{Pretty, Token, Writer};
use std::alloc::{AllocError, Global};

/// How JSON is laid out.
#[derive(Clone, Copy, Debug, PartialEq, Eq)]
pub enum Layout {
    /// Without white space.
    Compact,
    /// A line for each item and member.
    Pretty,
}

/// How numbers of 64 bits are written. They are read both ways.
#[derive(Clone, Copy, Debug, PartialEq, Eq)]
pub enum LongNumbers {
    /// As numbers, `9007199254740993`.
    Plain,
    /// As strings, `"9007199254740993"`, since JavaScript rounds numbers above 2^53.
    Quoted,
}

/// Which characters JSON has.
#[derive(Clone, Copy, Debug, PartialEq, Eq)]
pub enum Characters {
    /// Those of the value's texts and names.
    Any,
    /// Printable ASCII and line feeds; in strings any other character is `\u` and four digits, or two of these.
    Ascii,
}

/// How JSON is written.
#[derive(Clone, Copy, Debug, PartialEq, Eq)]
pub struct Style {
    pub layout: Layout,
    pub long_numbers: LongNumbers,
    pub characters: Characters,
}

impl Style {
    /// With plain numbers and any characters, without white space.
    pub const COMPACT: Style = Style {
        layout: Layout::Compact,
        long_numbers: LongNumbers::Plain,
        characters: Characters::Any,
    };

    /// With plain numbers and any characters, in lines.
    pub const PRETTY: Style = Style {
        layout: Layout::Pretty,
        long_numbers: LongNumbers::Plain,
        characters: Characters::Any,
    };
}

/// The JSON text that is being written; or nothing of it is kept.
#[derive(Drop)]
pub enum Output {
    Compact(Writer, LongNumbers),
    Pretty(Pretty, LongNumbers),
    Nothing,
}

impl Output {
    pub fn new(alloc: Global, style: Style) -> Output
        ensures { Holds result [] }
    {
        let long_numbers = style.long_numbers;
        match style.layout {
            Layout::Compact => Output::Compact(Writer::new(Vec::new(alloc)), long_numbers),
            Layout::Pretty => Output::Pretty(Pretty::new(alloc), long_numbers),
        }
    }

    /// The text of the tokens that were written; none of another layout, or with other numbers of 64 bits.
    pub fn into_bytes(self, style: Style) -> Option<Vec<u8>>
        ensures tokens { (ts : List TokenOf) → Holds self ts → IfSome result (λ text. tokens text.items ≡ ts) }
        ensures utf8 { (ts : List TokenOf) → Holds self ts → IfSome result (λ text. IsUtf8 text.items) }
        ensures layout { (ts : List TokenOf) → Holds self ts → IfSome result (λ text. text.items ≡ laid_out style.layout ts) }
        ensures long { IfSome result (λ _. long_of self ≡ style.long_numbers) }
    {
        if !self.has_long(style.long_numbers) {
            return None;
        }
        match (self, style.layout) {
            (Output::Compact(writer, _), Layout::Compact) => Some(writer.into_inner()),
            (Output::Pretty(writer, _), Layout::Pretty) => Some(writer.into_inner()),
            _ => None,
        }
    }

    /// Whether a text is kept in which numbers of 64 bits are written so.
    fn has_long(&self, long_numbers: LongNumbers) -> bool
        ensures { result ≡ true → long_of self.now ≡ long_numbers }
    {
        match self {
            Output::Compact(_, long) | Output::Pretty(_, long) => *long == long_numbers,
            Output::Nothing => false,
        }
    }

    /// Whether nothing is kept.
    pub fn is_nothing(&self) -> bool
        ensures { result ≡ true → self.now ≡ Nothing }
    {
        matches!(self, Output::Nothing)
    }

    pub fn put(&mut self, token: Token<'_>) -> Result<(), AllocError>
        requires { IsPrintable (token_of token) }
        ensures { OnOk result (Adds (token_of token.entry ∷ []) self.old self.new) }
    {
        match self {
            Output::Compact(writer, _) => writer.token(token),
            Output::Pretty(writer, _) => writer.token(token),
            Output::Nothing => Ok(()),
        }
    }

    /// Puts a number of 64 bits: a number, or a string.
    pub fn put_long(&mut self, number: &str) -> Result<(), AllocError>
        requires { IsNumber number.now }
        ensures { OnOk result (Adds (long_token (long_of self.old) number.now ∷ []) self.old self.new) }
    {
        match self {
            Output::Compact(writer, LongNumbers::Plain) => writer.token(Token::Number(number)),
            Output::Pretty(writer, LongNumbers::Plain) => writer.token(Token::Number(number)),
            _ => self.put(Token::String(number)),
        }
    }
}
