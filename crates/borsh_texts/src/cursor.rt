// A place among the tokens of a text, and the tree so far.
use crate::endings::piece;
use crate::error::{Expected, Refusal, Stop};
use crate::scanner::tokens_of;
use crate::token::{Kind, Token};
use borsh_source::{Expression, ExpressionKind, Place, Source, Type, TypeKind};
use std::alloc::Global;
use std::str;

/// How deep types, expressions and what is in brackets may nest.
pub const MAX_DEPTH: usize = 128;

/// A text that is being read, and what was made of it.
#[derive(Drop)]
pub struct Cursor<'a> {
    pub alloc: Global,
    text: &'a [u8],
    tokens: Vec<Token>,
    at: usize,
    pub source: Source,
}

impl<'a> Cursor<'a> {
    /// At the first token of a text, whose first line has this number in the tree.
    pub fn new(alloc: Global, text: &'a [u8], line: u32) -> Result<Cursor<'a>, Stop> {
        let tokens = tokens_of(alloc, text, line)?;
        Ok(Cursor {
            alloc,
            text,
            tokens,
            at: 0,
            source: empty(alloc),
        })
    }

    /// What was made of the text.
    pub fn into_source(self) -> Source {
        self.source
    }

    /// How many tokens there are: no list of a text has more parts.
    pub fn most(&self) -> usize {
        self.tokens.len()
    }

    /// The token that comes next, or one behind it; the end if there are no more.
    pub fn token(&self, ahead: usize) -> Token {
        match self.tokens.get(self.at.saturating_add(ahead)) {
            Some(token) => *token,
            None => Token {
                kind: Kind::End,
                place: Place { line: 0, column: 0 },
                from: self.text.len(),
                to: self.text.len(),
            },
        }
    }

    pub fn kind(&self) -> Kind {
        self.token(0).kind
    }

    pub fn place(&self) -> Place {
        self.token(0).place
    }

    /// How many tokens were passed.
    pub fn at(&self) -> usize {
        self.at
    }

    /// Goes back to where so many tokens were passed.
    pub fn go_back(&mut self, at: usize) {
        self.at = at;
    }

    pub fn skip(&mut self) {
        self.at = self.at.saturating_add(1);
    }

    /// The refusal of the token that comes next.
    pub fn refused(&self, expected: Expected) -> Stop {
        refusal(self.token(0), expected)
    }

    /// The spelling of a token, of a raw word without `r#`.
    pub fn spelling(&self, token: Token) -> &'a [u8] {
        let spelling = piece(self.text, token.from, token.to);
        match spelling {
            [b'r', b'#', ..] => piece(spelling, 2, spelling.len()),
            _ => spelling,
        }
    }

    pub fn is_mark(&self, mark: u8) -> bool {
        self.kind() == Kind::Mark(mark)
    }

    /// Whether two marks come next, with nothing between them.
    pub fn is_pair(&self, first: u8, second: u8) -> bool {
        let next = self.token(1);
        self.is_mark(first) && next.kind == Kind::Mark(second) && self.token(0).to == next.from
    }

    /// Whether this word comes next.
    pub fn is_word(&self, word: &str) -> bool {
        self.is_word_at(0, word)
    }

    pub fn is_word_at(&self, ahead: usize, word: &str) -> bool {
        let token = self.token(ahead);
        token.kind == Kind::Word && piece(self.text, token.from, token.to) == word.as_bytes()
    }

    /// Skips the mark if it comes next, and says whether it did.
    pub fn take_mark(&mut self, mark: u8) -> bool {
        let is_there = self.is_mark(mark);
        if is_there {
            self.skip();
        }
        is_there
    }

    pub fn take_pair(&mut self, first: u8, second: u8) -> bool {
        let is_there = self.is_pair(first, second);
        if is_there {
            self.skip();
            self.skip();
        }
        is_there
    }

    pub fn take_word(&mut self, word: &str) -> bool {
        let is_there = self.is_word(word);
        if is_there {
            self.skip();
        }
        is_there
    }

    pub fn expect_mark(&mut self, mark: u8) -> Result<(), Stop> {
        if self.take_mark(mark) {
            Ok(())
        } else {
            Err(self.refused(Expected::Mark(mark)))
        }
    }

    /// After a part of a list: whether another may come. Skips the comma, or the mark that closes the list.
    pub fn goes_on(&mut self, close: u8) -> Result<bool, Stop> {
        if self.take_mark(close) {
            return Ok(false);
        }
        if !self.take_mark(b',') {
            return Err(self.refused(Expected::MarkOrComma(close)));
        }
        Ok(!self.take_mark(close))
    }

    /// The word that comes next.
    pub fn name(&mut self) -> Result<String, Stop> {
        let token = self.token(0);
        if token.kind != Kind::Word {
            return Err(self.refused(Expected::Name));
        }
        let name = String::from_str(self.alloc, text_of(self.spelling(token)))?;
        self.skip();
        Ok(name)
    }

    /// Adds a type to the tree, and gives its index.
    pub fn add_type(&mut self, place: Place, kind: TypeKind) -> Result<usize, Stop> {
        let index = self.source.types.len();
        self.source.types.push(Type { place, kind })?;
        Ok(index)
    }

    /// A type of the name without arguments.
    pub fn named(&mut self, place: Place, name: &str) -> Result<usize, Stop> {
        let arguments = Vec::new(self.alloc);
        self.applied(place, name, arguments)
    }

    /// A type of the name with these arguments.
    pub fn applied(
        &mut self,
        place: Place,
        name: &str,
        arguments: Vec<usize>,
    ) -> Result<usize, Stop> {
        let name = String::from_str(self.alloc, name)?;
        self.add_type(place, TypeKind::Path { name, arguments })
    }

    /// Adds an expression to the tree, and gives its index.
    pub fn add_expression(&mut self, place: Place, kind: ExpressionKind) -> Result<usize, Stop> {
        let index = self.source.expressions.len();
        self.source.expressions.push(Expression { place, kind })?;
        Ok(index)
    }
}

/// The refusal of a token.
pub fn refusal(token: Token, expected: Expected) -> Stop {
    Stop::Refused(Refusal {
        from: token.from,
        to: token.to,
        expected,
    })
}

/// The text of a word. A word of a text ends where no character is cut.
pub fn text_of(word: &[u8]) -> &str {
    str::from_utf8(word).unwrap_or("")
}

/// A tree with nothing in it.
fn empty(alloc: Global) -> Source {
    Source {
        items: Vec::new(alloc),
        types: Vec::new(alloc),
        expressions: Vec::new(alloc),
    }
}
