// How the values of a name are written in JSON.
ghost use Rattle.borsh_json.specs.Words.{AreEntries, AreKeys, AreKeysOf, FindsKeysOf, FindsKind, HasElements, HasForm, HasNoBytes, IsAt, IsByte, IsCollection, IsKindOf, IsMap, IsNamed, IsNullable, IsPrimitiveKind, IsRefusalOf, IsRepeated, Keys, MayBeNull, OrdersKeys, TellsKind, TellsOrders, form_of, form_of_struct, forms_in, forms_of, map_of, packed_size, plan_names, primitive_kind, sequence, shape_of_form, texts};
ghost use Rattle.std.specs.Prelude.{◌≡◌, ℕ, List, Decides, IfOk, MatchBool, MatchOption, Some, map, option_map, string_bytes};

use crate::definitions::Definitions;
use crate::error::Refusal;
use crate::floats::is_float;
use crate::formats::{Collection, collection_of, is_list, is_newtype, option_part};
use crate::numbers::Number;
use crate::order::Ordered;
use borsh_walks::{Declaration, Definition, DiscriminantValue, FieldName, Fields, VariantName};
use std::alloc::{AllocError, Global};

/// The fields of a struct with their names.
pub type NamedFields = Vec<(FieldName, Declaration)>;

/// The variants of an enum.
pub type Variants = Vec<(DiscriminantValue, VariantName, Declaration)>;

/// The elements of a list, whose name is at a place.
#[derive(Clone, Copy)]
pub struct Elements {
    pub at: usize,
    /// How many bytes each has, if they are primitives; otherwise 0.
    pub size: u8,
    /// How they have to ascend, or their keys, if the list is a set or a map.
    pub order: Option<Ordered>,
}

/// How the keys of an object are read.
#[derive(Clone, Copy)]
pub enum KeyKind {
    Text,
    Number(Number),
}

/// The entries of a map that is an object, with the places of the names of its keys and values.
#[derive(Clone, Copy)]
pub struct Entries<'a> {
    pub key: usize,
    pub key_definition: &'a Definition,
    pub key_kind: KeyKind,
    pub value: usize,
}

/// How the values of a name are written in JSON. Parts are known by the places of their names.
#[derive(Clone, Copy)]
pub enum Kind<'a> {
    /// `7`, or `"7"` for more than 64 bits.
    Number(Number),
    /// `true`
    Bool,
    /// `"text"`
    Text,
    /// `"0x0a1f"`, of so many bytes.
    Bytes(u8),
    /// `1.5`, or `"inf"`; no NaN. A float has so many bytes.
    Float(u8),
    /// `"0x0a1f"`, of any number of bytes; also taken from `[10, 31]`.
    ByteList(Elements),
    /// `[..]`, of elements that are primitives.
    Numbers(Elements),
    /// `[..]`, of other elements.
    List(Elements),
    /// `{..}`, of keys that are texts or numbers, and ascend so.
    Map(Entries<'a>, Ordered),
    /// `[..]`, of as many elements as the definition has parts.
    Row(usize),
    /// What its only part is.
    Newtype(usize),
    /// `{..}`
    Object(&'a NamedFields),
    /// `null`, or what this part is, which is never `null`.
    Optional(usize),
    /// `"Name"`, or `{"Name": ..}` where the variant's value has bytes, with a tag of so many bytes.
    Choice(u8, &'a Variants),
    /// Not at all: for this reason.
    Refused(Flaw<'a>),
}

/// Why the values of a name have no JSON, whatever their bytes are.
#[derive(Clone, Copy)]
pub enum Flaw<'a> {
    /// Two fields or variants have this name.
    RepeatedName(&'a str),
    /// The elements of a list with a length, or the keys of a map, have no bytes.
    EmptyElements,
}

impl Flaw<'_> {
    /// The refusal of a value or text of the name.
    pub(crate) fn refusal(self, alloc: Global) -> Result<Refusal, AllocError>
        ensures { IfOk result (λ refusal. IsRefusalOf self.entry refusal) }
    {
        match self {
            Flaw::RepeatedName(name) => Ok(Refusal::RepeatedName(String::from_str(alloc, name)?)),
            Flaw::EmptyElements => Ok(Refusal::EmptyElements),
        }
    }
}

/// How the values of the name at a place, which has this definition, are written. Their bytes are at least one.
pub fn kind_of<'a>(
    definitions: &Definitions<'a, '_>,
    at: usize,
    definition: &'a Definition,
) -> Result<Kind<'a>, AllocError>
    ensures kind { let ns = plan_names definitions.now.plan.now in
        let F = forms_in (map_of definitions.now.plan.now) in
        IfOk result (λ kind. (x : List ℕ) → IsAt ns at x →
        F x ≡ Some (form_of definition.now) → (HasNoBytes F x → ⊥) → IsKindOf F ns x (form_of definition.now) kind) }
    ensures orders { FindsKind definitions.now at (form_of definition.now) result }
{
    match definition {
        Definition::Primitive(size) => Ok(kind_of_primitive(definitions.name(at), *size)),
        Definition::Sequence { .. } => Ok(kind_of_sequence(definitions, at, definition)),
        Definition::Tuple { elements } => Ok(Kind::Row(elements.len())),
        Definition::Struct { fields } => kind_of_struct(definitions, at, fields),
        Definition::Enum {
            tag_width,
            variants,
        } => match nullable_part(definitions, at, definition) {
            Some(part) => Ok(Kind::Optional(part)),
            None => match repeated_variant(definitions.alloc, variants)? {
                Some(name) => Ok(Kind::Refused(Flaw::RepeatedName(name))),
                None => Ok(Kind::Choice(*tag_width, variants)),
            },
        },
    }
}

/// The place of the value of an `Option` that is never `null`; none if the name at the place isn't one.
fn nullable_part(
    definitions: &Definitions<'_, '_>,
    at: usize,
    definition: &Definition,
) -> Option<usize>
    ensures { (x : List ℕ) → HasForm definitions.now at (form_of definition.now) x → MatchOption result
        ((p : List ℕ) → IsNullable (forms_of definitions.now) x p → ⊥)
        (λ k. (p : List ℕ) × IsNamed definitions.now k p × IsNullable (forms_of definitions.now) x p) }
{
    let part = option_part(definitions, at, definition)?;
    if may_be_null(definitions, part) {
        None
    } else {
        Some(part)
    }
}

/// How the values of a primitive of this name and size are written.
pub fn kind_of_primitive<'a>(name: &str, size: u8) -> Kind<'a>
    ensures { IsPrimitiveKind result (primitive_kind name.now size) }
{
    if name == "bool" && size == 1 {
        return Kind::Bool;
    }
    if is_float(name, size) {
        return Kind::Float(size);
    }
    match Number::named(name, size) {
        Some(number) => Kind::Number(number),
        None => Kind::Bytes(size),
    }
}

fn kind_of_struct<'a>(
    definitions: &Definitions<'a, '_>,
    at: usize,
    fields: &'a Fields,
) -> Result<Kind<'a>, AllocError>
    ensures kind { IfOk result (TellsKind definitions.now at (form_of_struct fields.now)) }
    ensures orders { FindsKind definitions.now at (form_of_struct fields.now) result }
{
    match fields {
        Fields::NamedFields(fields) => match repeated_field(definitions.alloc, fields)? {
            Some(name) => Ok(Kind::Refused(Flaw::RepeatedName(name))),
            None => Ok(Kind::Object(fields)),
        },
        Fields::UnnamedFields(parts) => {
            if parts.len() == 1 {
                Ok(Kind::Newtype(definitions.part(at, 0)))
            } else {
                Ok(Kind::Row(parts.len()))
            }
        }
        Fields::Empty => Ok(Kind::Row(0)),
    }
}

/// A name that two fields have.
fn repeated_field<'a>(alloc: Global, fields: &'a NamedFields) -> Result<Option<&'a str>, AllocError>
    ensures { IfOk result (IsRepeated (map (λ f. string_bytes f.0) fields.now.items)) }
{
    let mut names: Vec<&'a str> = Vec::with_capacity(alloc, fields.len())?;
    for (field, _) in fields {
        names.push(field.as_str())?;
    }
    Ok(repeated_name(names))
}

/// A name that two variants have.
fn repeated_variant<'a>(
    alloc: Global,
    variants: &'a Variants,
) -> Result<Option<&'a str>, AllocError>
    ensures { IfOk result (IsRepeated (map (λ v. string_bytes v.1) variants.now.items)) }
{
    let mut names: Vec<&'a str> = Vec::with_capacity(alloc, variants.len())?;
    for (_, variant, _) in variants {
        names.push(variant.as_str())?;
    }
    Ok(repeated_name(names))
}

fn repeated_name<'a>(mut names: Vec<&'a str>) -> Option<&'a str>
    ensures { IsRepeated (map (λ n. n.now) names.entry.items) result }
{
    names.sort_unstable();
    for index in 1..names.len() {
        let name = names[index];
        if names[index - 1] == name {
            return Some(name);
        }
    }
    None
}

fn kind_of_sequence<'a>(
    definitions: &Definitions<'a, '_>,
    at: usize,
    definition: &'a Definition,
) -> Kind<'a>
    ensures kind { (w lo hi : ℕ) (e : List ℕ) → form_of definition.now ≡ sequence w lo hi e →
        TellsKind definitions.now at (form_of definition.now) result }
    ensures orders { (w lo hi : ℕ) (e : List ℕ) → form_of definition.now ≡ sequence w lo hi e →
        TellsOrders definitions.now at (form_of definition.now) result }
{
    let element = definitions.part(at, 0);
    if is_byte(definitions, element) {
        kind_of_bytes(definitions, at, element, definition)
    } else {
        kind_of_list(definitions, at, element, definition)
    }
}

fn kind_of_bytes<'a>(
    definitions: &Definitions<'a, '_>,
    at: usize,
    element: usize,
    definition: &'a Definition,
) -> Kind<'a>
    ensures kind { (w lo hi : ℕ) (e : List ℕ) → form_of definition.now ≡ sequence w lo hi e →
        IsNamed definitions.now element e → IsByte (forms_of definitions.now) e →
        TellsKind definitions.now at (form_of definition.now) result }
    ensures orders { HasElements definitions.now element (form_of definition.now) →
        TellsOrders definitions.now at (form_of definition.now) result }
{
    if is_text(definitions, at, definition) {
        return Kind::Text;
    }
    let collection = collection_of(definitions, at, definition);
    let order = order_in(definitions, element, collection);
    Kind::ByteList(Elements {
        at: element,
        size: 1,
        order,
    })
}

fn kind_of_list<'a>(
    definitions: &Definitions<'a, '_>,
    at: usize,
    element: usize,
    definition: &'a Definition,
) -> Kind<'a>
    ensures kind { (w lo hi : ℕ) (e : List ℕ) → form_of definition.now ≡ sequence w lo hi e →
        IsNamed definitions.now element e → (IsByte (forms_of definitions.now) e → ⊥) →
        TellsKind definitions.now at (form_of definition.now) result }
    ensures orders { HasElements definitions.now element (form_of definition.now) →
        TellsOrders definitions.now at (form_of definition.now) result }
{
    let collection = collection_of(definitions, at, definition);
    if definitions.is_zero_size(element) || has_empty_keys(definitions, collection) {
        return Kind::Refused(Flaw::EmptyElements);
    }
    if let Some(entries) = entries_of(definitions, collection) {
        return Kind::Map(entries, order_of_keys(entries.key_kind));
    }
    let size = size_of_primitive(definitions.get(element));
    let order = order_in(definitions, element, collection);
    let elements = Elements {
        at: element,
        size,
        order,
    };
    if size == 0 {
        Kind::List(elements)
    } else {
        Kind::Numbers(elements)
    }
}

/// How many bytes a primitive has; 0 for other definitions.
fn size_of_primitive(definition: Option<&Definition>) -> u8
    ensures { let form = option_map (λ d. form_of d.now) definition.entry in
        result ≡ packed_size (option_map shape_of_form form) }
{
    match definition {
        Some(Definition::Primitive(size)) => *size,
        _ => 0,
    }
}

/// Whether a map's keys have no bytes.
fn has_empty_keys(definitions: &Definitions<'_, '_>, collection: Collection) -> bool
    ensures { let ns = plan_names definitions.now.plan.now in (x : List ℕ) →
        IsCollection (forms_of definitions.now) ns x collection → MatchBool result
        ((k v : List ℕ) × IsMap (forms_of definitions.now) x k v × HasNoBytes (forms_of definitions.now) k)
        ((k v : List ℕ) → IsMap (forms_of definitions.now) x k v → HasNoBytes (forms_of definitions.now) k → ⊥) }
{
    match collection {
        Collection::Map(key, _) => definitions.is_zero_size(key),
        _ => false,
    }
}

/// How the elements of a set, or the keys of a map, are ordered; of another list nothing is.
fn order_in(
    definitions: &Definitions<'_, '_>,
    element: usize,
    collection: Collection,
) -> Option<Ordered>
    ensures { FindsKeysOf definitions.now element collection result }
{
    match collection {
        Collection::List => None,
        Collection::Set => Some(definitions.order_of(element)),
        Collection::Map(key, _) => Some(definitions.order_of(key)),
    }
}

/// Whether the name at a place is `u8`, of one byte.
pub fn is_byte(definitions: &Definitions<'_, '_>, at: usize) -> bool
    ensures { (x : List ℕ) → IsNamed definitions.now at x →
        Decides result (IsByte (forms_of definitions.now) x) }
{
    definitions.name(at) == "u8" && matches!(definitions.get(at), Some(Definition::Primitive(1)))
}

/// The entries of a map whose keys are texts or numbers.
fn entries_of<'a>(definitions: &Definitions<'a, '_>, collection: Collection) -> Option<Entries<'a>>
    ensures { let ns = plan_names definitions.now.plan.now in (x : List ℕ) →
        IsCollection (forms_of definitions.now) ns x collection → MatchOption result
        ((k v : List ℕ) (keys : Keys) → IsMap (forms_of definitions.now) x k v → AreKeys (forms_of definitions.now) k keys → ⊥)
        (λ es. (k v : List ℕ) × IsAt ns es.key k × IsAt ns es.value v ×
        IsMap (forms_of definitions.now) x k v × AreEntries (forms_of definitions.now) ns es k) }
{
    let Collection::Map(key, value) = collection else {
        return None;
    };
    let key_definition = definitions.get(key)?;
    let key_kind = kind_of_key(definitions, key, key_definition)?;
    Some(Entries {
        key,
        key_definition,
        key_kind,
        value,
    })
}

/// How keys that are texts or numbers are read.
fn kind_of_key(
    definitions: &Definitions<'_, '_>,
    at: usize,
    definition: &Definition,
) -> Option<KeyKind>
    ensures { let ns = plan_names definitions.now.plan.now in
        (k : List ℕ) → HasForm definitions.now at (form_of definition.now) k → MatchOption result
        ((keys : Keys) → AreKeys (forms_of definitions.now) k keys → ⊥)
        (λ kind. (keys : Keys) × AreKeys (forms_of definitions.now) k keys ×
        AreKeysOf (forms_of definitions.now) ns k (form_of definition.now) kind keys) }
{
    match definition {
        Definition::Primitive(size) => {
            let number = Number::named(definitions.name(at), *size)?;
            Some(KeyKind::Number(number))
        }
        Definition::Sequence { .. } if is_text(definitions, at, definition) => Some(KeyKind::Text),
        _ => None,
    }
}

/// Whether the name at a place is `String`, with its definition.
pub fn is_text(definitions: &Definitions<'_, '_>, at: usize, definition: &Definition) -> bool
    ensures { (x : List ℕ) → HasForm definitions.now at (form_of definition.now) x →
        Decides result (AreKeys (forms_of definitions.now) x texts) }
{
    if !is_list(definition) || definitions.name(at) != "String" {
        return false;
    }
    is_byte(definitions, definitions.part(at, 0))
}

/// How keys that are texts or numbers are ordered.
fn order_of_keys(kind: KeyKind) -> Ordered
    ensures { OrdersKeys result kind }
{
    match kind {
        KeyKind::Text => Ordered::Text,
        KeyKind::Number(number) => Ordered::Number(number.size, number.is_signed),
    }
}

/// How many parts without names of their own are gone through to see whether a value may be `null`.
const MOST_NEWTYPES: usize = 128;

/// Whether the JSON of a value of the name at a place may be `null`. It says so too of an `Option` that is never written as `null`, and of
/// structs whose only parts lead further than [`MOST_NEWTYPES`]: an `Option` of these is written as a variant.
fn may_be_null(definitions: &Definitions<'_, '_>, at: usize) -> bool
    ensures { (x : List ℕ) → IsNamed definitions.now at x →
        MatchBool result (MayBeNull (forms_of definitions.now) 128 x) (MayBeNull (forms_of definitions.now) 128 x → ⊥) }
{
    let mut at = at;
    for _ in 0..MOST_NEWTYPES {
        if definitions.is_zero_size(at) {
            return true;
        }
        let Some(definition) = definitions.get(at) else {
            return false;
        };
        if let Some(_) = option_part(definitions, at, definition) {
            return true;
        }
        if !is_newtype(definition) {
            return false;
        }
        at = definitions.part(at, 0);
    }
    true
}
