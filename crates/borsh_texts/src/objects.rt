// Anchor IDLs and the schema objects of borsh-js, as a tree.
use crate::cursor::{Cursor, MAX_DEPTH, refusal};
use crate::error::{Expected, Stop};
use crate::numbers::number_of;
use crate::token::Kind;
use crate::values::Value;
use borsh_source::{ExpressionKind, Field, Fields, ItemKind, Parameter, Place, TypeKind, Variant};
use std::alloc::{AllocError, Global};

/// The name of a borsh-js schema's own type.
const ROOT: &str = "Schema";

/// The index of a type or an expression.
type Indexed = Result<usize, Stop>;

impl<'a> Cursor<'a> {
    /// The items of an IDL, or of a schema object.
    pub fn objects(&mut self) -> Result<(), Stop> {
        let value = self.value(MAX_DEPTH)?;
        if self.kind() != Kind::End {
            return Err(self.refused(Expected::TextEnd));
        }
        let is_idl = value.get("types").is_some()
            || value.get("accounts").is_some()
            || value.get("instructions").is_some();
        if !is_idl {
            let root = self.type_of(&value, ROOT, MAX_DEPTH)?;
            return self.add_root(value.token.place, root);
        }
        for item in value.list("types") {
            self.definition(item, is_account(&value, item.text("name")))?;
        }
        for item in value.list("accounts") {
            if item.get("type").is_some() {
                self.definition(item, true)?;
            }
        }
        Ok(())
    }

    /// Names the type of a schema object, unless it has the name already.
    fn add_root(&mut self, place: Place, root: usize) -> Result<(), Stop> {
        let mut items = self.source.items.iter();
        if items.any(|item| item.name.as_str() == ROOT) {
            return Ok(());
        }
        let name = String::from_str(self.alloc, ROOT)?;
        self.add_item(place, name, Vec::new(self.alloc), ItemKind::Alias(root))
    }

    /// Adds a type of an IDL; the bytes of an account begin with its discriminator.
    fn definition(&mut self, item: &Value<'_>, is_account: bool) -> Result<(), Stop> {
        let Some(body) = item.get("type") else {
            return Err(refusal(item.token, Expected::Type));
        };
        let name = item.text("name");
        let parameters = self.generics(item)?;
        let place = item.get("name").unwrap_or(item).token.place;
        let kind = match item.get("serialization") {
            Some(other) if other.text != "borsh" => {
                ItemKind::Alias(self.named(other.token.place, other.text)?)
            }
            _ => self.kind_of(body, name, is_account)?,
        };
        let name = String::from_str(self.alloc, name)?;
        self.add_item(place, name, parameters, kind)
    }

    fn kind_of(
        &mut self,
        body: &Value<'_>,
        name: &str,
        is_account: bool,
    ) -> Result<ItemKind, Stop> {
        match body.text("kind") {
            "struct" => {
                let start = if is_account {
                    Some(body.token.place)
                } else {
                    None
                };
                Ok(ItemKind::Struct(self.listed_fields(body.list("fields"), name, start)?))
            }
            "enum" => Ok(ItemKind::Enum {
                use_discriminant: None,
                variants: self.listed_variants(body.list("variants"), name)?,
            }),
            _ => {
                let Some(alias) = body.get("alias").or(body.get("value")) else {
                    return Err(refusal(body.token, Expected::Type));
                };
                Ok(ItemKind::Alias(self.type_of(alias, name, MAX_DEPTH)?))
            }
        }
    }

    fn generics(&mut self, item: &Value<'_>) -> Result<Vec<Parameter>, Stop> {
        let mut parameters = Vec::new(self.alloc);
        for generic in item.list("generics") {
            parameters.push(Parameter {
                name: String::from_str(self.alloc, generic.text("name"))?,
                constant: generic.text("kind") == "const",
            })?;
        }
        Ok(parameters)
    }

    /// Fields with names, or without; behind a discriminator, if there is a place for that.
    fn listed_fields(
        &mut self,
        items: &[Value<'_>],
        within: &str,
        discriminator: Option<Place>,
    ) -> Result<Fields, Stop> {
        let mut fields = Vec::new(self.alloc);
        let mut has_names = discriminator.is_some();
        if let Some(place) = discriminator {
            let byte = self.named(place, "u8")?;
            let bytes = self.array(place, byte, 8)?;
            fields.push(self.field_of(place, "discriminator", bytes)?)?;
        }
        for item in items {
            let name = item.text("name");
            has_names = has_names || !name.is_empty();
            let written = match item.get("type") {
                Some(written) if !name.is_empty() => self.type_of(written, within, MAX_DEPTH)?,
                _ => self.type_of(item, within, MAX_DEPTH)?,
            };
            fields.push(self.field_of(item.token.place, name, written)?)?;
        }
        Ok(fields_of(fields, has_names))
    }

    fn field_of(&mut self, place: Place, name: &str, written: usize) -> Result<Field, Stop> {
        Ok(Field {
            place,
            name: String::from_str(self.alloc, name)?,
            written,
            skipped: false,
        })
    }

    fn listed_variants(&mut self, items: &[Value<'_>], within: &str) -> Result<Vec<Variant>, Stop> {
        let mut variants = Vec::new(self.alloc);
        for item in items {
            let fields = self.listed_fields(item.list("fields"), within, None)?;
            variants.push(self.variant_named(item.token.place, item.text("name"), fields)?)?;
        }
        Ok(variants)
    }

    fn variant_named(&mut self, place: Place, name: &str, fields: Fields) -> Result<Variant, Stop> {
        Ok(Variant {
            place,
            name: String::from_str(self.alloc, name)?,
            discriminant: None,
            fields,
        })
    }

    fn of_one(&mut self, place: Place, name: &str, argument: usize) -> Indexed {
        let arguments = vec![in self.alloc; argument]?;
        self.applied(place, name, arguments)
    }

    fn array(&mut self, place: Place, element: usize, count: u64) -> Indexed {
        let length = self.add_expression(place, ExpressionKind::Number(count))?;
        self.add_type(place, TypeKind::Array { element, length })
    }

    /// A type that is a word.
    fn type_named(&mut self, place: Place, word: &str) -> Indexed {
        match word {
            "string" => self.named(place, "String"),
            "bytes" => {
                let byte = self.named(place, "u8")?;
                self.of_one(place, "Vec", byte)
            }
            "pubkey" | "publicKey" => {
                let byte = self.named(place, "u8")?;
                self.array(place, byte, 32)
            }
            _ => self.named(place, word),
        }
    }

    /// The type that a value is: its index.
    #[cycle(objects)]
    fn type_of(&mut self, value: &Value<'_>, within: &str, depth: usize) -> Indexed {
        if depth == 0 {
            return Err(refusal(value.token, Expected::LessDepth));
        }
        if value.is_text() {
            return self.type_named(value.token.place, value.text);
        }
        match value.parts.as_slice() {
            [] => Err(refusal(value.token, Expected::Type)),
            [inner, ..] => self.made(inner, within, depth - 1),
        }
    }

    /// The type that a word makes of others.
    #[cycle(objects)]
    fn made(&mut self, inner: &Value<'_>, within: &str, depth: usize) -> Indexed {
        if let Some(name) = list_named(inner.name) {
            let element = self.type_of(inner, within, depth)?;
            return self.of_one(inner.key.place, name, element);
        }
        match inner.name {
            "map" | "hashMap" => self.made_of_two("HashMap", inner, within, depth),
            "bTreeMap" => self.made_of_two("BTreeMap", inner, within, depth),
            "array" => self.array_of(inner, within, depth),
            "defined" => self.defined(inner, within, depth),
            "tuple" => self.tuple_of(inner, within, depth),
            "struct" => self.made_struct(inner, within, depth),
            "enum" => self.made_enum(inner, within, depth),
            "generic" if inner.is_text() => self.named(inner.token.place, inner.text),
            _ => Err(refusal(inner.key, Expected::Type)),
        }
    }

    /// A map: `[K, V]`, or `{"key": K, "value": V}`.
    #[cycle(objects)]
    fn made_of_two(
        &mut self,
        name: &str,
        inner: &Value<'_>,
        within: &str,
        depth: usize,
    ) -> Indexed {
        let (Some(first), Some(second)) = (inner.part("key", 0), inner.part("value", 1)) else {
            return Err(refusal(inner.token, Expected::Type));
        };
        let key = within_part(self.alloc, within, "key")?;
        let value = within_part(self.alloc, within, "value")?;
        let first = self.type_of(first, key.as_str(), depth)?;
        let second = self.type_of(second, value.as_str(), depth)?;
        let arguments = vec![in self.alloc; first, second]?;
        self.applied(inner.token.place, name, arguments)
    }

    /// `[T, N]`, `{"type": T, "len": N}`; without `len` it is a list.
    #[cycle(objects)]
    fn array_of(&mut self, inner: &Value<'_>, within: &str, depth: usize) -> Indexed {
        let place = inner.token.place;
        let Some(element) = inner.part("type", 0) else {
            return Err(refusal(inner.token, Expected::Type));
        };
        let element = self.type_of(element, within, depth)?;
        match inner.part("len", 1) {
            None => self.of_one(place, "Vec", element),
            Some(length) => {
                let length = self.length(length)?;
                self.add_type(place, TypeKind::Array { element, length })
            }
        }
    }

    /// A number, or the name of a parameter.
    fn length(&mut self, value: &Value<'_>) -> Indexed {
        let place = value.token.place;
        let name = value.text("generic");
        if !name.is_empty() {
            let name = String::from_str(self.alloc, name)?;
            return self.add_expression(place, ExpressionKind::Name(name));
        }
        match number_of(value.text.as_bytes()) {
            Some(number) => self.add_expression(place, ExpressionKind::Number(number)),
            None => Err(refusal(value.token, Expected::Number)),
        }
    }

    /// `{"kind": "type", "type": T}`, or `{"kind": "const", "value": "8"}`.
    #[cycle(objects)]
    fn generic(&mut self, value: &Value<'_>, within: &str, depth: usize) -> Indexed {
        if let Some(written) = value.get("type") {
            return self.type_of(written, within, depth);
        }
        let Some(number) = number_of(value.text("value").as_bytes()) else {
            return Err(refusal(value.token, Expected::Number));
        };
        let place = value.token.place;
        let length = self.add_expression(place, ExpressionKind::Number(number))?;
        self.add_type(place, TypeKind::Constant(length))
    }

    /// A type by its name, and its arguments.
    #[cycle(objects)]
    fn defined(&mut self, inner: &Value<'_>, within: &str, depth: usize) -> Indexed {
        let place = inner.token.place;
        if inner.is_text() {
            return self.named(place, inner.text);
        }
        let mut arguments = Vec::new(self.alloc);
        for argument in inner.list("generics") {
            arguments.push(self.generic(argument, within, depth)?)?;
        }
        self.applied(place, inner.text("name"), arguments)
    }

    #[cycle(objects)]
    fn tuple_of(&mut self, inner: &Value<'_>, within: &str, depth: usize) -> Indexed {
        let mut parts = Vec::new(self.alloc);
        for part in inner.parts.iter() {
            parts.push(self.type_of(part, within, depth)?)?;
        }
        self.add_type(inner.token.place, TypeKind::Tuple(parts))
    }

    /// `{"struct": {"x": T}}`: an item by the names that lead to it.
    #[cycle(objects)]
    fn made_struct(&mut self, inner: &Value<'_>, within: &str, depth: usize) -> Indexed {
        let place = inner.token.place;
        let fields = self.fields_in(inner, within, depth)?;
        self.add_made(place, within, ItemKind::Struct(fields))
    }

    /// The fields of an object of types.
    #[cycle(objects)]
    fn fields_in(&mut self, inner: &Value<'_>, within: &str, depth: usize) -> Result<Fields, Stop> {
        let mut fields = Vec::new(self.alloc);
        for part in inner.parts.iter() {
            let inside = within_part(self.alloc, within, part.name)?;
            let written = self.type_of(part, inside.as_str(), depth)?;
            fields.push(self.field_of(part.key.place, part.name, written)?)?;
        }
        Ok(fields_of(fields, true))
    }

    /// `{"enum": [{"struct": {"Name": T}}]}`
    #[cycle(objects)]
    fn made_enum(&mut self, inner: &Value<'_>, within: &str, depth: usize) -> Indexed {
        let place = inner.token.place;
        let mut variants = Vec::new(self.alloc);
        for item in inner.parts.iter() {
            let variant = item.get("struct").unwrap_or(item);
            variants.push(self.variant_of(variant, within, depth)?)?;
        }
        let kind = ItemKind::Enum {
            use_discriminant: None,
            variants,
        };
        self.add_made(place, within, kind)
    }

    /// Adds an item without parameters, and gives the index of the type of its name.
    fn add_made(&mut self, place: Place, name: &str, kind: ItemKind) -> Indexed {
        let item = String::from_str(self.alloc, name)?;
        self.add_item(place, item, Vec::new(self.alloc), kind)?;
        self.named(place, name)
    }

    /// `{"Name": T}`, where the fields of a struct are those of the variant.
    #[cycle(objects)]
    fn variant_of(
        &mut self,
        value: &Value<'_>,
        within: &str,
        depth: usize,
    ) -> Result<Variant, Stop> {
        let [inner] = value.parts.as_slice() else {
            return Err(refusal(value.token, Expected::Name));
        };
        let place = inner.key.place;
        let fields = match inner.get("struct") {
            Some(members) => self.fields_in(members, within, depth)?,
            None => {
                let inside = within_part(self.alloc, within, inner.name)?;
                let written = self.type_of(inner, inside.as_str(), depth)?;
                Fields::Unnamed(vec![in self.alloc; self.field_of(place, "", written)?]?)
            }
        };
        self.variant_named(place, inner.name, fields)
    }
}

fn fields_of(fields: Vec<Field>, has_names: bool) -> Fields {
    if fields.is_empty() {
        Fields::Empty
    } else if has_names {
        Fields::Named(fields)
    } else {
        Fields::Unnamed(fields)
    }
}

/// The type of Rust with one argument that a word stands for.
fn list_named(key: &str) -> Option<&'static str> {
    match key {
        "vec" => Some("Vec"),
        "option" => Some("Option"),
        "set" | "hashSet" => Some("HashSet"),
        "bTreeSet" => Some("BTreeSet"),
        _ => None,
    }
}

/// The name of the types in a part of another.
fn within_part(alloc: Global, within: &str, name: &str) -> Result<String, AllocError> {
    format!(in alloc; "{within}.{name}")
}

/// Whether an IDL has an account of this name.
fn is_account(idl: &Value<'_>, name: &str) -> bool {
    let accounts = idl.list("accounts");
    accounts.iter().any(|item| item.text("name") == name)
}
