// What is passed over: attributes, bounds, and items that are no types.
use crate::cursor::Cursor;
use crate::error::{Expected, Stop};
use crate::token::Kind;

/// What the attributes of an item, a field or a variant say.
#[derive(Clone, Copy)]
pub struct Attributes {
    pub skipped: bool,
    pub use_discriminant: Option<bool>,
    /// Whether the bytes aren't those that the type of the field states.
    pub has_other_bytes: bool,
}

impl<'a> Cursor<'a> {
    /// Skips tokens until one of two marks comes, outside of brackets, among which `<` and `>` may count.
    pub fn skip_until(&mut self, first: u8, second: u8, has_angles: bool) -> Result<(), Stop> {
        let mut open: usize = 0;
        for _ in 0..self.most() {
            if open == 0 && (self.is_mark(first) || self.is_mark(second)) {
                return Ok(());
            }
            if self.take_pair(b'-', b'>') {
                continue;
            }
            match bracket_of(self.kind(), has_angles) {
                Bracket::Open => open = open.saturating_add(1),
                Bracket::Close if open == 0 => break,
                Bracket::Close => open -= 1,
                Bracket::None if self.kind() == Kind::End => break,
                Bracket::None => {}
            }
            self.skip();
        }
        Err(self.refused(Expected::Mark(first)))
    }

    /// Skips a type, up to what can only stand behind it.
    pub fn skip_type(&mut self) {
        let mut open: usize = 0;
        for _ in 0..self.most() {
            if self.take_pair(b'-', b'>') {
                continue;
            }
            let is_behind = match self.kind() {
                Kind::End => true,
                Kind::Mark(b',' | b';' | b'=' | b'{') => open == 0,
                _ => false,
            };
            match bracket_of(self.kind(), true) {
                _ if is_behind => break,
                Bracket::Open => open = open.saturating_add(1),
                Bracket::Close if open == 0 => break,
                Bracket::Close => open -= 1,
                Bracket::None => {}
            }
            self.skip();
        }
    }

    /// Skips an item: to its `;` or, if it may have a body in braces, behind that.
    pub fn skip_item(&mut self, may_have_body: bool) -> Result<(), Stop> {
        let is_macro = self.token(1).kind == Kind::Mark(b'!');
        let body = if may_have_body { b'{' } else { b';' };
        self.skip_until(b';', body, may_have_body && !is_macro)?;
        if self.take_mark(b';') {
            return Ok(());
        }
        self.skip();
        self.skip_past(b'}')
    }

    /// Skips what is in brackets, and the bracket that closes it.
    fn skip_past(&mut self, close: u8) -> Result<(), Stop> {
        self.skip_until(close, close, false)?;
        self.skip();
        Ok(())
    }

    /// Skips a `where` clause, if one comes next.
    pub fn skip_where(&mut self) -> Result<(), Stop> {
        if self.is_word("where") {
            self.skip_until(b'{', b';', true)?;
        }
        Ok(())
    }

    /// Skips `pub`, `pub(crate)`, `pub(in path)`.
    pub fn skip_visibility(&mut self) -> Result<(), Stop> {
        if !self.take_word("pub") {
            return Ok(());
        }
        let is_limited = self.is_word_at(1, "crate")
            || self.is_word_at(1, "self")
            || self.is_word_at(1, "super")
            || self.is_word_at(1, "in");
        if self.is_mark(b'(') && is_limited {
            self.skip();
            self.skip_past(b')')?;
        }
        Ok(())
    }

    /// The attributes that come next.
    pub fn attributes(&mut self) -> Result<Attributes, Stop> {
        let mut attributes = Attributes {
            skipped: false,
            use_discriminant: None,
            has_other_bytes: false,
        };
        for _ in 0..self.most() {
            if !self.take_mark(b'#') {
                break;
            }
            self.take_mark(b'!');
            self.expect_mark(b'[')?;
            attributes = self.attribute(attributes)?;
            self.skip_past(b']')?;
        }
        Ok(attributes)
    }

    /// What an attribute adds to those before it.
    fn attribute(&mut self, before: Attributes) -> Result<Attributes, Stop> {
        let mut attributes = before;
        if self.is_word("borsh_skip") {
            attributes.skipped = true;
        }
        if !self.is_word("borsh") || self.token(1).kind != Kind::Mark(b'(') {
            return Ok(attributes);
        }
        self.skip();
        self.skip();
        for _ in 0..self.most() {
            if self.take_mark(b')') {
                break;
            }
            attributes = self.word_of_attribute(attributes)?;
            self.skip_until(b')', b',', false)?;
            self.take_mark(b',');
        }
        Ok(attributes)
    }

    /// What a word in `#[borsh(..)]` adds.
    fn word_of_attribute(&mut self, before: Attributes) -> Result<Attributes, Stop> {
        let mut attributes = before;
        if self.take_word("use_discriminant") {
            self.expect_mark(b'=')?;
            attributes.use_discriminant = Some(self.truth()?);
        } else if self.is_word("skip") {
            attributes.skipped = true;
        } else if self.is_word("serialize_with") || self.is_word("deserialize_with") {
            attributes.has_other_bytes = true;
        }
        Ok(attributes)
    }

    fn truth(&mut self) -> Result<bool, Stop> {
        if self.take_word("true") {
            return Ok(true);
        }
        if self.take_word("false") {
            return Ok(false);
        }
        Err(self.refused(Expected::TrueOrFalse))
    }
}

#[derive(Clone, Copy)]
enum Bracket {
    Open,
    Close,
    None,
}

/// Which kind of bracket a token is.
fn bracket_of(kind: Kind, has_angles: bool) -> Bracket {
    match kind {
        Kind::Mark(b'(' | b'[' | b'{') => Bracket::Open,
        Kind::Mark(b')' | b']' | b'}') => Bracket::Close,
        Kind::Mark(b'<') if has_angles => Bracket::Open,
        Kind::Mark(b'>') if has_angles => Bracket::Close,
        _ => Bracket::None,
    }
}
