// JSON, by the tokens of its text, so that each value has a place.
use crate::cursor::{Cursor, refusal, text_of};
use crate::endings::piece;
use crate::error::{Expected, Stop};
use crate::token::{Kind, Token};

/// A value.
#[derive(Drop)]
pub struct Value<'a> {
    /// Of a member of an object: its name, and the token of that; of other values none, and their first one.
    pub name: &'a str,
    pub key: Token,
    /// The first token.
    pub token: Token,
    /// What stands between the quotes of a text, or how a number or a word is spelled.
    pub text: &'a str,
    /// The members of an object, or the elements of an array.
    pub parts: Vec<Value<'a>>,
}

impl<'a> Value<'a> {
    /// Whether it is a text.
    pub fn is_text(&self) -> bool {
        self.token.kind == Kind::Literal
    }

    /// The value of a member of this name.
    pub fn get(&self, name: &str) -> Option<&Value<'a>> {
        self.parts.iter().find(|part| part.name == name)
    }

    /// The value of a member of the name, or the element at the index.
    pub fn part(&self, name: &str, index: usize) -> Option<&Value<'a>> {
        self.get(name).or(self.parts.get(index))
    }

    /// The elements of the array of this name; none if there is none.
    pub fn list(&self, name: &str) -> &[Value<'a>] {
        match self.get(name) {
            Some(value) => value.parts.as_slice(),
            None => &self.parts.as_slice()[..0],
        }
    }

    /// The text of this name; empty if there is none.
    pub fn text(&self, name: &str) -> &'a str {
        match self.get(name) {
            Some(value) if value.is_text() => value.text,
            _ => "",
        }
    }
}

impl<'a> Cursor<'a> {
    /// The value that comes next.
    pub fn value(&mut self, depth: usize) -> Result<Value<'a>, Stop> {
        self.value_of(self.token(0), "", depth)
    }

    /// The value that comes next, with its name.
    #[cycle(values)]
    fn value_of(&mut self, key: Token, name: &'a str, depth: usize) -> Result<Value<'a>, Stop> {
        if depth == 0 {
            return Err(self.refused(Expected::LessDepth));
        }
        let token = self.token(0);
        let mut parts = Vec::new(self.alloc);
        let mut text = "";
        match token.kind {
            Kind::Mark(b'{') => parts = self.parts(b'}', depth - 1)?,
            Kind::Mark(b'[') => parts = self.parts(b']', depth - 1)?,
            Kind::Literal => text = self.quoted()?,
            _ => text = self.word()?,
        }
        Ok(Value {
            name,
            key,
            token,
            text,
            parts,
        })
    }

    /// Members up to a brace, or elements up to a square bracket.
    #[cycle(values)]
    fn parts(&mut self, close: u8, depth: usize) -> Result<Vec<Value<'a>>, Stop> {
        let mut parts = Vec::new(self.alloc);
        self.skip();
        if self.take_mark(close) {
            return Ok(parts);
        }
        for _ in 0..self.most() {
            let key = self.token(0);
            let mut name = "";
            if close == b'}' {
                name = self.quoted()?;
                if name.contains('\\') {
                    return Err(refusal(key, Expected::Plain));
                }
                self.expect_mark(b':')?;
            }
            let part = self.value_of(key, name, depth)?;
            if name == "name" && part.text.contains('\\') {
                return Err(refusal(part.token, Expected::Plain));
            }
            parts.push(part)?;
            if !self.goes_on(close)? {
                break;
            }
        }
        Ok(parts)
    }

    /// What stands between the quotes of a text. Escapes stay as they are spelled.
    fn quoted(&mut self) -> Result<&'a str, Stop> {
        let spelling = self.spelling(self.token(0));
        if spelling.first() != Some(&b'"') {
            return Err(self.refused(Expected::Json));
        }
        self.skip();
        Ok(text_of(piece(spelling, 1, spelling.len().saturating_sub(1))))
    }

    /// A number, `true`, `false` or `null`: how its first token is spelled.
    fn word(&mut self) -> Result<&'a str, Stop> {
        let spelling = text_of(self.spelling(self.token(0)));
        if self.take_word("true") || self.take_word("false") || self.take_word("null") {
            return Ok(spelling);
        }
        self.take_mark(b'-');
        self.digits()?;
        if self.take_mark(b'.') {
            self.digits()?;
        }
        if self.take_mark(b'+') || self.take_mark(b'-') {
            self.digits()?;
        }
        Ok(spelling)
    }

    fn digits(&mut self) -> Result<(), Stop> {
        if self.kind() != Kind::Number {
            return Err(self.refused(Expected::Json));
        }
        self.skip();
        Ok(())
    }
}
