// The fields of structs and variants, and the variants of enums.
use crate::cursor::{Cursor, MAX_DEPTH};
use crate::error::Stop;
use borsh_source::{Field, Fields, Variant};

impl<'a> Cursor<'a> {
    /// `{..}`, `(..)` or nothing.
    pub fn fields(&mut self) -> Result<Fields, Stop> {
        if self.take_mark(b'{') {
            return Ok(Fields::Named(self.list_of_fields(b'}')?));
        }
        if self.take_mark(b'(') {
            return Ok(Fields::Unnamed(self.list_of_fields(b')')?));
        }
        Ok(Fields::Empty)
    }

    /// Fields up to a brace, with names, or up to a round bracket.
    fn list_of_fields(&mut self, close: u8) -> Result<Vec<Field>, Stop> {
        let mut fields = Vec::new(self.alloc);
        if self.take_mark(close) {
            return Ok(fields);
        }
        for _ in 0..self.most() {
            fields.push(self.field(close == b'}')?)?;
            if !self.goes_on(close)? {
                break;
            }
        }
        Ok(fields)
    }

    fn field(&mut self, has_name: bool) -> Result<Field, Stop> {
        let attributes = self.attributes()?;
        self.skip_visibility()?;
        let place = self.place();
        let name = self.field_name(has_name)?;
        let mut written = self.type_index(MAX_DEPTH)?;
        if attributes.has_other_bytes {
            written = self.named(self.place(), "serialize_with")?;
        }
        Ok(Field {
            place,
            name,
            written,
            skipped: attributes.skipped,
        })
    }

    fn field_name(&mut self, has_name: bool) -> Result<String, Stop> {
        if !has_name {
            return Ok(String::new(self.alloc));
        }
        let name = self.name()?;
        self.expect_mark(b':')?;
        Ok(name)
    }

    /// `{..}`: the variants in it.
    pub fn variants(&mut self) -> Result<Vec<Variant>, Stop> {
        let mut variants = Vec::new(self.alloc);
        self.expect_mark(b'{')?;
        if self.take_mark(b'}') {
            return Ok(variants);
        }
        for _ in 0..self.most() {
            variants.push(self.variant()?)?;
            if !self.goes_on(b'}')? {
                break;
            }
        }
        Ok(variants)
    }

    fn variant(&mut self) -> Result<Variant, Stop> {
        self.attributes()?;
        let place = self.place();
        let name = self.name()?;
        let fields = self.fields()?;
        let discriminant = if self.take_mark(b'=') {
            Some(self.expression(MAX_DEPTH)?)
        } else {
            None
        };
        Ok(Variant {
            place,
            name,
            discriminant,
            fields,
        })
    }
}
