// Types.
use crate::cursor::{Cursor, text_of};
use crate::error::{Expected, Stop};
use crate::token::Kind;
use borsh_source::TypeKind;

impl<'a> Cursor<'a> {
    /// The type that comes next: its index.
    #[cycle(types)]
    pub fn type_index(&mut self, depth: usize) -> Result<usize, Stop> {
        if depth == 0 {
            return Err(self.refused(Expected::LessDepth));
        }
        match self.kind() {
            Kind::Mark(b'&') => self.reference(depth - 1),
            Kind::Mark(b'(') => self.tuple(depth - 1),
            Kind::Mark(b'[') => self.list(depth - 1),
            Kind::Mark(b'*' | b'!' | b'<') => self.other_type(),
            Kind::Mark(b':') => self.path(depth - 1),
            Kind::Word if self.is_other_type() => self.other_type(),
            Kind::Word => self.path(depth - 1),
            _ => Err(self.refused(Expected::Type)),
        }
    }

    /// Whether the word that comes next begins a type of functions or of traits.
    fn is_other_type(&self) -> bool {
        self.is_word("dyn")
            || self.is_word("impl")
            || self.is_word("fn")
            || self.is_word("unsafe")
            || self.is_word("extern")
            || self.is_word("for")
            || self.is_word("_")
    }

    /// A type of functions, traits or pointers, or of a macro, which has no encoding: by the word or mark that comes next, as if that
    /// were its name.
    fn other_type(&mut self) -> Result<usize, Stop> {
        let token = self.token(0);
        self.skip_type();
        self.named(token.place, text_of(self.spelling(token)))
    }

    /// `&T`, `&'a mut T`.
    #[cycle(types)]
    fn reference(&mut self, depth: usize) -> Result<usize, Stop> {
        let place = self.place();
        self.skip();
        if self.kind() == Kind::Lifetime {
            self.skip();
        }
        self.take_word("mut");
        let index = self.type_index(depth)?;
        self.add_type(place, TypeKind::Reference(index))
    }

    /// `()`, `(A,)`, `(A, B)`; `(A)` is `A`.
    #[cycle(types)]
    fn tuple(&mut self, depth: usize) -> Result<usize, Stop> {
        let place = self.place();
        self.skip();
        let mut parts = Vec::new(self.alloc);
        if self.take_mark(b')') {
            return self.add_type(place, TypeKind::Tuple(parts));
        }
        let first = self.type_index(depth)?;
        if self.take_mark(b')') {
            return Ok(first);
        }
        parts.push(first)?;
        for _ in 0..self.most() {
            if !self.goes_on(b')')? {
                break;
            }
            parts.push(self.type_index(depth)?)?;
        }
        self.add_type(place, TypeKind::Tuple(parts))
    }

    /// `[T]`, `[T; N]`.
    #[cycle(types)]
    fn list(&mut self, depth: usize) -> Result<usize, Stop> {
        let place = self.place();
        self.skip();
        let element = self.type_index(depth)?;
        if self.take_mark(b']') {
            return self.add_type(place, TypeKind::Slice(element));
        }
        if !self.take_mark(b';') {
            return Err(self.refused(Expected::Mark(b']')));
        }
        let length = self.expression(depth)?;
        self.expect_mark(b']')?;
        self.add_type(place, TypeKind::Array { element, length })
    }

    /// A name behind any path, and its arguments.
    #[cycle(types)]
    fn path(&mut self, depth: usize) -> Result<usize, Stop> {
        let place = self.place();
        self.skip_path_start()?;
        let name = self.name()?;
        if self.is_pair(b':', b':') && self.token(2).kind == Kind::Mark(b'<') {
            self.take_pair(b':', b':');
        }
        let arguments = self.arguments(depth)?;
        if self.is_mark(b'!') || self.is_mark(b'(') {
            return self.other_type();
        }
        self.add_type(place, TypeKind::Path { name, arguments })
    }

    /// What stands in `<..>`, if that comes next, without lifetimes.
    #[cycle(types)]
    fn arguments(&mut self, depth: usize) -> Result<Vec<usize>, Stop> {
        let mut arguments = Vec::new(self.alloc);
        if !self.take_mark(b'<') || self.take_mark(b'>') {
            return Ok(arguments);
        }
        for _ in 0..self.most() {
            if self.kind() == Kind::Lifetime {
                self.skip();
            } else {
                arguments.push(self.argument(depth)?)?;
            }
            if !self.goes_on(b'>')? {
                break;
            }
        }
        Ok(arguments)
    }

    #[cycle(types)]
    fn argument(&mut self, depth: usize) -> Result<usize, Stop> {
        let place = self.place();
        match self.kind() {
            Kind::Number | Kind::Mark(b'{') | Kind::Mark(b'-') => {
                let index = self.argument_number(depth)?;
                self.add_type(place, TypeKind::Constant(index))
            }
            _ => self.type_or_binding(depth),
        }
    }

    /// `T`, or the type that `Name = T` binds a name to.
    #[cycle(types)]
    fn type_or_binding(&mut self, depth: usize) -> Result<usize, Stop> {
        let index = self.type_index(depth)?;
        if self.take_mark(b'=') {
            return self.type_index(depth);
        }
        Ok(index)
    }
}
