// Items.
use crate::cursor::{Cursor, MAX_DEPTH};
use crate::error::{Expected, Stop};
use crate::numbers::is_suffix;
use crate::skipping::Attributes;
use crate::token::Kind;
use borsh_source::{Item, ItemKind, Parameter, Place};

impl<'a> Cursor<'a> {
    /// Reads the items of the whole text. What is in a module counts as what is outside.
    pub fn items(&mut self) -> Result<(), Stop> {
        let mut open: usize = 0;
        for _ in 0..=self.most() {
            let attributes = self.attributes()?;
            self.skip_visibility()?;
            if self.kind() == Kind::End && open == 0 {
                break;
            }
            if self.begins_module() {
                self.skip();
                self.skip();
                self.skip();
                open = open.saturating_add(1);
            } else if open > 0 && self.take_mark(b'}') {
                open -= 1;
            } else {
                self.item(attributes)?;
            }
        }
        Ok(())
    }

    fn begins_module(&self) -> bool {
        self.is_word("mod") && self.token(2).kind == Kind::Mark(b'{')
    }

    fn item(&mut self, attributes: Attributes) -> Result<(), Stop> {
        if self.take_mark(b';') {
            return Ok(());
        }
        if self.kind() != Kind::Word {
            return Err(self.refused(Expected::Item));
        }
        if self.is_word("struct") {
            return self.structure();
        }
        if self.is_word("enum") {
            return self.enumeration(attributes);
        }
        if self.is_word("type") {
            return self.alias();
        }
        if self.is_word("const") && self.token(2).kind == Kind::Mark(b':') {
            return self.constant_item();
        }
        let has_no_body = self.is_word("use") || self.is_word("static");
        self.skip_item(!has_no_body)
    }

    /// Adds an item to the tree.
    pub fn add_item(
        &mut self,
        place: Place,
        name: String,
        parameters: Vec<Parameter>,
        kind: ItemKind,
    ) -> Result<(), Stop> {
        self.source.items.push(Item {
            place,
            name,
            parameters,
            kind,
        })?;
        Ok(())
    }

    /// `struct Name<..> {..}`, `struct Name<..>(..);`, `struct Name;`
    fn structure(&mut self) -> Result<(), Stop> {
        self.skip();
        let place = self.place();
        let name = self.name()?;
        let parameters = self.parameters()?;
        self.skip_where()?;
        let has_braces = self.is_mark(b'{');
        let fields = self.fields()?;
        if !has_braces {
            self.skip_where()?;
            self.expect_mark(b';')?;
        }
        self.add_item(place, name, parameters, ItemKind::Struct(fields))
    }

    /// `enum Name<..> {..}`
    fn enumeration(&mut self, attributes: Attributes) -> Result<(), Stop> {
        self.skip();
        let place = self.place();
        let name = self.name()?;
        let parameters = self.parameters()?;
        self.skip_where()?;
        let variants = self.variants()?;
        let use_discriminant = attributes.use_discriminant;
        self.add_item(
            place,
            name,
            parameters,
            ItemKind::Enum {
                use_discriminant,
                variants,
            },
        )
    }

    /// `type Name<..> = T;`
    fn alias(&mut self) -> Result<(), Stop> {
        self.skip();
        let place = self.place();
        let name = self.name()?;
        let parameters = self.parameters()?;
        self.skip_where()?;
        self.expect_mark(b'=')?;
        let index = self.type_index(MAX_DEPTH)?;
        self.skip_where()?;
        self.expect_mark(b';')?;
        self.add_item(place, name, parameters, ItemKind::Alias(index))
    }

    /// `const NAME: T = ..;`, which is passed over if it isn't an expression of whole numbers.
    fn constant_item(&mut self) -> Result<(), Stop> {
        self.skip();
        let place = self.place();
        let name = self.name()?;
        self.skip();
        let is_whole = is_suffix(self.spelling(self.token(0)));
        self.skip_until(b'=', b';', true)?;
        let behind = self.at();
        if is_whole && self.take_mark(b'=') {
            let value = self.expression(MAX_DEPTH);
            if let Ok(index) = value
                && self.take_mark(b';')
            {
                let parameters = Vec::new(self.alloc);
                return self.add_item(place, name, parameters, ItemKind::Constant(index));
            }
            if let Err(Stop::OutOfMemory) = value {
                return Err(Stop::OutOfMemory);
            }
        }
        self.go_back(behind);
        self.skip_item(false)
    }

    /// The parameters of an item, without lifetimes, bounds and defaults.
    fn parameters(&mut self) -> Result<Vec<Parameter>, Stop> {
        let mut parameters = Vec::new(self.alloc);
        if !self.take_mark(b'<') || self.take_mark(b'>') {
            return Ok(parameters);
        }
        for _ in 0..self.most() {
            self.attributes()?;
            if self.kind() == Kind::Lifetime {
                self.skip();
            } else {
                let constant = self.take_word("const");
                let name = self.name()?;
                parameters.push(Parameter { name, constant })?;
            }
            self.skip_until(b'>', b',', true)?;
            if !self.goes_on(b'>')? {
                break;
            }
        }
        Ok(parameters)
    }
}
