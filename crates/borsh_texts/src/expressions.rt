// Expressions of whole numbers.
use crate::cursor::Cursor;
use crate::error::{Expected, Stop};
use crate::numbers::number_of;
use crate::token::Kind;
use borsh_source::{ExpressionKind, Operator};

/// An operator, how strongly it binds, and how many marks it has.
type Binding = (Operator, u8, u8);

/// Above the strength of each operator.
const TIGHTEST: u8 = 7;

impl<'a> Cursor<'a> {
    /// The expression that comes next: its index.
    pub fn expression(&mut self, depth: usize) -> Result<usize, Stop> {
        self.binary(depth, 0)
    }

    /// The number, or the expression in braces, that comes next: an argument of a type ends at `>`.
    pub fn argument_number(&mut self, depth: usize) -> Result<usize, Stop> {
        self.binary(depth, TIGHTEST)
    }

    /// The expression that comes next, of operators of this strength and more.
    #[cycle(expressions)]
    fn binary(&mut self, depth: usize, strength: u8) -> Result<usize, Stop> {
        if depth == 0 {
            return Err(self.refused(Expected::LessDepth));
        }
        let place = self.place();
        let mut left = self.operand(depth - 1)?;
        for _ in 0..self.most() {
            let Some((operator, binds, marks)) = self.binding() else {
                break;
            };
            if binds < strength {
                break;
            }
            for _ in 0..marks {
                self.skip();
            }
            let right = self.binary(depth - 1, binds.saturating_add(1))?;
            let kind = ExpressionKind::Binary {
                operator,
                left,
                right,
            };
            left = self.add_expression(place, kind)?;
        }
        Ok(left)
    }

    /// A number, a name, or an expression in brackets or behind a sign, and the types that it is cast to.
    #[cycle(expressions)]
    fn operand(&mut self, depth: usize) -> Result<usize, Stop> {
        let index = match self.kind() {
            Kind::Mark(b'(') => self.bracketed_expression(depth, b')'),
            Kind::Mark(b'{') => self.bracketed_expression(depth, b'}'),
            Kind::Mark(b'-') => self.negated(depth),
            Kind::Number => self.number(),
            _ => self.constant(),
        }?;
        self.skip_casts()?;
        Ok(index)
    }

    #[cycle(expressions)]
    fn bracketed_expression(&mut self, depth: usize, close: u8) -> Result<usize, Stop> {
        self.skip();
        let index = self.binary(depth, 0)?;
        self.expect_mark(close)?;
        Ok(index)
    }

    #[cycle(expressions)]
    fn negated(&mut self, depth: usize) -> Result<usize, Stop> {
        let place = self.place();
        self.skip();
        let index = self.binary(depth, TIGHTEST)?;
        self.add_expression(place, ExpressionKind::Negated(index))
    }

    fn number(&mut self) -> Result<usize, Stop> {
        let token = self.token(0);
        let Some(number) = number_of(self.spelling(token)) else {
            return Err(self.refused(Expected::Number));
        };
        self.skip();
        self.add_expression(token.place, ExpressionKind::Number(number))
    }

    /// A constant, by the last name of its path.
    fn constant(&mut self) -> Result<usize, Stop> {
        let place = self.place();
        if self.kind() != Kind::Word && !self.is_pair(b':', b':') {
            return Err(self.refused(Expected::Number));
        }
        self.skip_path_start()?;
        let name = self.name()?;
        self.add_expression(place, ExpressionKind::Name(name))
    }

    /// Skips the names of a path but the last one.
    pub fn skip_path_start(&mut self) -> Result<(), Stop> {
        self.take_pair(b':', b':');
        for _ in 0..self.most() {
            if self.kind() != Kind::Word {
                return Err(self.refused(Expected::Name));
            }
            if !self.is_path_part() {
                return Ok(());
            }
            self.skip();
            self.take_pair(b':', b':');
        }
        Ok(())
    }

    /// Whether a word with `::` and another word behind it comes next.
    fn is_path_part(&self) -> bool {
        let first = self.token(1);
        let second = self.token(2);
        first.kind == Kind::Mark(b':')
            && second.kind == Kind::Mark(b':')
            && self.token(3).kind == Kind::Word
    }

    /// Skips `as u64` and the like, which change no value that fits.
    fn skip_casts(&mut self) -> Result<(), Stop> {
        for _ in 0..self.most() {
            if !self.take_word("as") {
                break;
            }
            self.skip_path_start()?;
            self.skip();
        }
        Ok(())
    }

    /// The operator that comes next, if one does.
    fn binding(&self) -> Option<Binding> {
        let Kind::Mark(mark) = self.kind() else {
            return None;
        };
        if self.is_pair(mark, mark) {
            return match mark {
                b'<' => Some((Operator::ShiftLeft, 3, 2)),
                b'>' => Some((Operator::ShiftRight, 3, 2)),
                _ => None,
            };
        }
        match mark {
            b'|' => Some((Operator::Or, 0, 1)),
            b'^' => Some((Operator::Xor, 1, 1)),
            b'&' => Some((Operator::And, 2, 1)),
            b'+' => Some((Operator::Add, 4, 1)),
            b'-' => Some((Operator::Subtract, 4, 1)),
            b'*' => Some((Operator::Multiply, 5, 1)),
            b'/' => Some((Operator::Divide, 5, 1)),
            b'%' => Some((Operator::Remainder, 5, 1)),
            _ => None,
        }
    }
}
